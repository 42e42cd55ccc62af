// Three copies of a list of commands never disagree. The meaning is in specs/, the proofs are in proofs/, for the crates above.
#![tactic(auto)]
