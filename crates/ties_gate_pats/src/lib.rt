// The gate with a watch record over lent memory, with an index and without, obeys the rules in every history of offers. No function: proofs/ is all there is.
#![tactic(auto)]
