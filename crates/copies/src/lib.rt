// Three copies of a service that agree, and the houses that have them: what each does at each event, on values.
#![tactic(auto)]

pub mod admit;
pub mod agreeing;
pub mod bundle;
pub mod done;
pub mod event;
pub mod group;
pub mod memory;
pub mod message;
pub mod number;
pub mod part;
pub mod post;
pub mod run;
pub mod service;
pub mod sessions;
pub mod status;
pub mod tick;
pub mod turn;
