// The lines of text between a house and whoever drives it.
#![tactic(auto)]

pub mod decimal;
pub mod hex;
pub mod line;
