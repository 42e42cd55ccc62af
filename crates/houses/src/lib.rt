// A house: it comes up from its device, and does events, each some reads and at most one atomic transaction.
#![tactic(auto)]

pub mod doing;
pub mod event;
pub mod house;
pub mod opening;
pub mod outputs;
pub mod reading;
pub mod storing;
pub mod tables;
pub mod turning;
