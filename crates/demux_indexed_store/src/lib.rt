// What a packet leaves, for every content of the lent slices, over the gate with an index (docs/RULES.md, "Packets"): as without an index (crate demux_store).
// No function; specs/ says what is meant, proofs/ has the laws for the crates with the functions.
#![tactic(auto)]
