// What houses say to each other, and what a copy stores, as bytes, high byte first.
#![tactic(auto)]

pub mod area;
pub mod areas;
pub mod block;
pub mod bundle;
pub mod bytes;
pub mod directory;
pub mod fault;
mod frame;
pub mod identity;
pub mod lay;
mod list;
pub mod number;
pub mod packet;
pub mod part;
pub mod rest;
pub mod sectors;
pub mod sessions;
pub mod status;
pub mod stored;
#[cfg(test)]
mod tests;
pub mod text;
pub mod whole;
