// The memory of the EIT collector obeys the rules, in every history of opening, pushes, drops and clears. No function: specs/ and proofs/ are all there is.
#![tactic(auto)]
