// The log that a live monitor keeps beside a gate with watch records, in each manner of following PATs, is the log of the rules (docs/RULES.md, "Logs",
// "Inputs" and "Watched PIDs"). No function: specs/ and proofs/ are all there is.
#![tactic(auto)]
