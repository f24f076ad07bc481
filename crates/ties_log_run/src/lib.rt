// A run of a log over lent memory gives the log of the rules (docs/RULES.md, "Logs"), refuses no section by 10 or 11, and what the memory held before matters
// to no record. No function: specs/ and proofs/ are all there is.
#![tactic(auto)]
