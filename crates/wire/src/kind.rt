// A call's kind: the first of its bytes.
ghost use Rattle.std.specs.Prelude.{◌≡◌, drop, Some, None, MatchOption};
ghost use Rattle.wire.specs.Kinds.{number_of, kind_of, kind_in, is_built};
ghost use Rattle.std.specs.Option.{ok_or};

use crate::number::Unknown;

// The kinds with their numbers. `Case` and `Refusal` are tables of the same shape; each is read by its own rows, since no macro may write an impl.
#[derive(Clone, Copy, PartialEq, Eq)]
pub enum Kind {
    Make = 1,
    Attach = 2,
    Read = 3,
    Write = 4,
    Sync = 5,
    Picture = 6,
    Copy = 7,
    Drop = 8,
    DropPicture = 9,
}

impl TryFrom<u8> for Kind {
    type Error = Unknown;

    ghost try_from_gives = { λ n r. r ≡ ok_or (kind_of n) (record { 0 = n }) };

    fn try_from(number: u8) -> Result<Kind, Unknown> {
        match number {
            1 => Ok(Kind::Make),
            2 => Ok(Kind::Attach),
            3 => Ok(Kind::Read),
            4 => Ok(Kind::Write),
            5 => Ok(Kind::Sync),
            6 => Ok(Kind::Picture),
            7 => Ok(Kind::Copy),
            8 => Ok(Kind::Drop),
            9 => Ok(Kind::DropPicture),
            _ => Err(Unknown(number)),
        }
    }
}

impl From<Kind> for u8 {
    ghost from_gives = { λ k n. n ≡ number_of k };

    fn from(kind: Kind) -> u8 {
        kind as u8
    }
}

impl Kind {
    // The one table of what is built so far.
    pub fn is_built(self) -> bool
        ensures { result ≡ is_built self }
    {
        match self {
            Kind::Make | Kind::Attach | Kind::Read | Kind::Write | Kind::Sync | Kind::Drop => true,
            Kind::Picture | Kind::Copy | Kind::DropPicture => false,
        }
    }
}

// A call's kind, and beside it the part of the call's bytes that follows.
#[derive(Clone, Copy)]
pub struct Tagged<'a> {
    pub kind: Kind,
    pub rest: &'a [u8],
}

impl<'a> Tagged<'a> {
    pub fn read(bytes: &'a [u8]) -> Option<Tagged<'a>>
        ensures { MatchOption result (kind_in bytes.now ≡ None) (λ t. (kind_in bytes.now ≡ Some t.kind) × (t.rest.now ≡ drop 1 bytes.now)) }
    {
        let (first, rest) = bytes.split_first()?;
        let kind = Kind::try_from(*first).ok()?;
        Some(Tagged { kind, rest })
    }
}
