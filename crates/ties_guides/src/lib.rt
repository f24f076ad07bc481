// What the comparisons are good for (proofs/Theorems.antt), that a table of a schedule is itself a set (proofs/Tables.antt), and examples. There is nothing to run here.
#![tactic(auto)]
