// A house's own device: one atomic transaction with one sync, on any disk. Nothing here touches a file.
#![tactic(auto)]

pub mod disk;
pub mod get;
pub mod open;
pub mod put;
pub mod recover;
