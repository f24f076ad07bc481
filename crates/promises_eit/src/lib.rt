// The third demand for present and following, of the EIT collector over lent memory. No function: specs/ and proofs/ are all there is.
#![tactic(auto)]
