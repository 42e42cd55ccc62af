// An answer's case: the first of its bytes.
ghost use Rattle.std.specs.Prelude.{◌≡◌};
ghost use Rattle.wire.specs.Cases.{case_number, case_of};
ghost use Rattle.std.specs.Option.{ok_or};

use crate::number::Unknown;

// The cases with their numbers.
#[derive(Clone, Copy, PartialEq, Eq)]
pub enum Case {
    Refused = 0,
    Yes = 1,
    Number = 2,
    Token = 3,
    Sector = 4,
    Full = 5,
}

impl TryFrom<u8> for Case {
    type Error = Unknown;

    ghost try_from_gives = { λ n r. r ≡ ok_or (case_of n) (record { 0 = n }) };

    fn try_from(number: u8) -> Result<Case, Unknown> {
        match number {
            0 => Ok(Case::Refused),
            1 => Ok(Case::Yes),
            2 => Ok(Case::Number),
            3 => Ok(Case::Token),
            4 => Ok(Case::Sector),
            5 => Ok(Case::Full),
            _ => Err(Unknown(number)),
        }
    }
}

impl From<Case> for u8 {
    ghost from_gives = { λ c n. n ≡ case_number c };

    fn from(case: Case) -> u8 {
        case as u8
    }
}
