// The EIT collector as docs/RULES.md says it, without memory and with cells. No function: specs/ and proofs/ are all there is.
#![tactic(auto)]
