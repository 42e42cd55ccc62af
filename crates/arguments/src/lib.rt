// What a program is told on its command line.
#![tactic(auto)]

ghost use Rattle.std.specs.Prelude.{◌≡◌};
ghost use Rattle.arguments.specs.Pairs.{ReadsTwo};

use std::str::FromStr;

// The next two words as values, if there are two and both spell one.
pub fn two<A: FromStr, B: FromStr, I: Iterator<Item = String>>(words: &mut I) -> Option<(A, B)>
where
    A: Drop,
    B: Drop,
    A::Err: Drop,
    B::Err: Drop,
    requires { I.can_next words.old }
    ensures { ReadsTwo I.next_gives A.from_str_gives B.from_str_gives words.old result words.new }
{
    let first = words.next()?;
    let second = words.next()?;
    Some((first.parse().ok()?, second.parse().ok()?))
}
