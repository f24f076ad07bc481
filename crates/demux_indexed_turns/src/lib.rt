// The sections that a packet finished, offered to the gate with an index over its rows (docs/RULES.md, "Packets"): as without an index (crate demux_turns).
// No function; specs/ says what is meant, proofs/ has the laws for the crates with the functions.
#![tactic(auto)]
