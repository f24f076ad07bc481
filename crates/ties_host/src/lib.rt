// The calls of a host in another language, one after another (docs/RULES.md, "Lent memory"): definitions and theorems alone.
#![tactic(auto)]
