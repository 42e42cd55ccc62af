// What a house keeps of volumes: heads, where sectors lie, and what an event reads and writes of them. It touches no device.
#![tactic(auto)]

pub mod known;
pub mod parts;
pub mod serve;
pub mod store;
pub mod taking;
pub mod writes;
