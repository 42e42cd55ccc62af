// Why a call is refused: the numbers that customers are told.
ghost use Rattle.std.specs.Prelude.{◌≡◌};
ghost use Rattle.wire.specs.Refusals.{refusal_number, refusal_of};
ghost use Rattle.std.specs.Option.{ok_or};

use crate::number::Unknown;

#[derive(Clone, Copy, PartialEq, Eq)]
pub enum Refusal {
    // a size of 0 or above 2^40, a sector beyond the size, bytes that are no call
    Malformed = 1,
    // no such volume or picture
    Missing = 2,
    // not the present token, or 0
    OldToken = 4,
    // 4,096 of them, or numbers or tokens used up
    UsedUp = 8,
    // eight calls wait at this house
    Busy = 11,
    // a kind of call that is not built yet
    NotBuilt = 12,
}

impl TryFrom<u8> for Refusal {
    type Error = Unknown;

    ghost try_from_gives = { λ n r. r ≡ ok_or (refusal_of n) (record { 0 = n }) };

    fn try_from(number: u8) -> Result<Refusal, Unknown> {
        match number {
            1 => Ok(Refusal::Malformed),
            2 => Ok(Refusal::Missing),
            4 => Ok(Refusal::OldToken),
            8 => Ok(Refusal::UsedUp),
            11 => Ok(Refusal::Busy),
            12 => Ok(Refusal::NotBuilt),
            _ => Err(Unknown(number)),
        }
    }
}

impl From<Refusal> for u8 {
    ghost from_gives = { λ e n. n ≡ refusal_number e };

    fn from(refusal: Refusal) -> u8 {
        refusal as u8
    }
}
