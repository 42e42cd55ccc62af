// Composition: what is right above a judge is right above every machine that keeps to it. The statements are in specs/, their proofs in
// proofs/. The crate `composed` names each by a contract.
#![tactic(auto)]
