// A push keeps every store of the EIT collector whole, damaged ones included. No function: specs/ and proofs/ are all there is.
#![tactic(auto)]
