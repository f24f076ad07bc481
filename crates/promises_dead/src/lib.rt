// Two branches of the EIT collector of dvb-si 12.0.1 that no section takes: definitions and theorems alone.
#![tactic(auto)]
