// What the inputs of a card share in the gate's rules, and what each has for itself. No function: specs/ and proofs/ are all there is.
#![tactic(auto)]
