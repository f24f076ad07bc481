// What the cells of an opened set collector held before matters to no answer (docs/RULES.md, "Cells"). No function: specs/ and proofs/ are all there is.
#![tactic(auto)]
