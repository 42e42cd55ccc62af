// Calls and answers as bytes, high byte first, and the frame that carries them on a line.
#![tactic(auto)]

pub mod answer;
pub mod call;
pub mod case;
pub mod frame;
pub mod kind;
pub mod number;
pub mod refusal;
pub mod response;
