// What a writer of a log writes and answers, by the rules of the gate and of the set collector (docs/RULES.md, "Logs"). No function: specs/ and proofs/ are all
// there is.
#![tactic(auto)]
