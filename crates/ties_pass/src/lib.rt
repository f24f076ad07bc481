// Packets that are passed over many at once are packets fed one by one (docs/RULES.md, "Packets"). No function; specs/ says what is meant, proofs/ that it is so.
#![tactic(auto)]
