// The PID words and the section buffers stand for the streams of the rules (transport/specs/Receiver.antt), and one packet of a PID over them is one packet of the
// rules. No function: specs/ and proofs/ are all there is.
#![tactic(auto)]
