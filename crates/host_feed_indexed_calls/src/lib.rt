// What feeding a packet through the index leaves in the words that a host lends (crate host_feed_indexed has the call). No function; specs/ says what is meant, proofs/ has the laws.
#![tactic(auto)]
