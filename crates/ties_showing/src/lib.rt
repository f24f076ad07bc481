// What a host lists of a set or of a schedule that came from a history was read before as an EIT: 18 and 19 do not come. No function: proofs/ is all there is.
#![tactic(auto)]
