// The rules of logs (docs/RULES.md, "Logs"): the bytes of a record, a section list, and what a checker says of a log. No function: specs/ and proofs/
// are all there is.
#![tactic(auto)]
