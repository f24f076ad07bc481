// How many more sections a gate and its watch record can judge (docs/RULES.md, "Packets"): each offer of a packet leaves one fewer. No function; specs/ says
// what is meant, proofs/ that it is so.
#![tactic(auto)]
