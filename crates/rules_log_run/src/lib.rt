// The log that sections give (docs/RULES.md, "Logs", "Gate", "Collectors" and "Cells"): by the rules of the gate and of the set collector, with no memory
// lent. No function: specs/ and proofs/ are all there is.
#![tactic(auto)]
