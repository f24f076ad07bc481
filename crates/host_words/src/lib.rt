// What the words that a host in another language lends have in common: an answer with the words that a call leaves, PIDs as numbers of 32 bits, and the
// section that a question tells of.
#![tactic(auto)]

pub mod inputs;
pub mod pids;
pub mod sections;
