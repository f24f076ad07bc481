// A card's packets over lent memory are those of the rules, in every history, and what that says of the sections that are told (docs/RULES.md, "Packets").
// No function; specs/ says what is meant, proofs/ that it is so.
#![tactic(auto)]
