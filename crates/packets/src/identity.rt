// Who a house is.
use copies::number::HouseNumber;

// houses: how many there are; size: of its device, in sectors; incarnation: how often it has come up.
#[derive(Clone, Copy, PartialEq, Eq)]
pub struct Identity {
    pub house: HouseNumber,
    pub houses: u64,
    pub size: u64,
    pub incarnation: u64,
}
