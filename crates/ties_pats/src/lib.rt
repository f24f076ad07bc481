// A record that follows complete PATs obeys the rules of the set collector in every history, and N changes only by a complete PAT. No function: specs/ and
// proofs/ are all there is.
#![tactic(auto)]
