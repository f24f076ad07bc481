// A card whose gate has an index over its rows answers and leaves what the same card without an index does, in every history of packets and offers, and what that
// says of the sections that are told (docs/RULES.md, "Packets"). No function; specs/ says what is meant, proofs/ that it is so.
#![tactic(auto)]
