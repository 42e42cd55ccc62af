// The houses with three copies that agree are as one place, and answer: the proofs, for the crate above that names them.
#![tactic(auto)]
