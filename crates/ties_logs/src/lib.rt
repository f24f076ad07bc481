// What a check of a log answers, by the rules of the gate and of the set collector (docs/RULES.md, "Logs"): yes exactly to the log of the sections, and else the
// first wrong record. No function: specs/ and proofs/ are all there is.
#![tactic(auto)]
