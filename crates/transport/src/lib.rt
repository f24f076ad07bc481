// The packets of a transport stream (ISO/IEC 13818-1, 2.4.3 and 2.4.4): which sections they finish, and that these were sent. No function: specs/
// and proofs/ are all there is.
#![tactic(auto)]
