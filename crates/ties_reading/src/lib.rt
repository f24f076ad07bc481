// What a host reads out after an answer is the set that was handed out, byte for byte. No function: proofs/ is all there is.
#![tactic(auto)]
