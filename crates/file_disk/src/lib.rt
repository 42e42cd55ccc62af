// A disk on a file. Below the trait `Places` everything is trusted, above it everything is proved.
#![tactic(auto)]

pub mod disk;
pub mod places;
