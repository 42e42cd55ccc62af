// What comes to a house, and what it sends and answers.
use copies::number::{CallNumber, HouseNumber};

#[derive(Drop)]
pub enum Event {
    // a packet of that house
    Packet(HouseNumber, Vec<u8>),
    // a customer's call, under a number that nobody used before
    Call(CallNumber, Vec<u8>),
    Tick,
}

#[derive(Drop)]
pub enum Output {
    Packet(HouseNumber, Vec<u8>),
    Answer(CallNumber, Vec<u8>),
}
