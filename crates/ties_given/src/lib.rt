// A set goes out only by the section that completes it, and with that section's fields (docs/RULES.md, "Collectors"). No function: specs/ and proofs/ are
// all there is.
#![tactic(auto)]
