// The theorems that span crates: demand 3, and the examples of docs/RULES.md in a single table. No function: specs/ and proofs/ are all there is.
#![tactic(auto)]
