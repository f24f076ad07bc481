// The log that a live monitor keeps by the record makers is the log of the rules (docs/RULES.md, "Logs"). No function: specs/ and proofs/ are all there is.
#![tactic(auto)]
