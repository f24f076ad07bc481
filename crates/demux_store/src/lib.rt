// What a packet leaves, for every content of the lent slices, open in the gate and over the gate without an index (docs/RULES.md, "Packets").
// No function; specs/ says what is meant, proofs/ has the laws for the crates with the functions.
#![tactic(auto)]
