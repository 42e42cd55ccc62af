// Volumes in one place, with their sectors in memory: what a rehearsal plays calls against.
#![tactic(auto)]

pub mod one_place;
mod sectors;
