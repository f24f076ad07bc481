// The sections that a packet finished, offered to the gate in the order of their places (docs/RULES.md, "Packets"): what the crates with the functions have in common.
// No function; specs/ says what is meant, proofs/ has the laws.
#![tactic(auto)]

use counters::Counters;
use gate_state::Gate;

// The gate by value, between two sections of a packet.
#[derive(Clone, Copy)]
pub struct Held {
    pub gate: Gate,
    pub counters: Counters,
}
