// The service: volumes and what each call does to them, as if in one place. It knows heads and weights; sectors are handed in and out.
#![tactic(auto)]

pub mod head;
pub mod living;
pub mod outcome;
pub mod restored;
pub mod service;
pub mod volumes;
pub mod weigh;
