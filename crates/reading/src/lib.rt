// What a host reads out of a row, question by question, is what the row holds. No function: specs/ and proofs/ are all there is.
#![tactic(auto)]
