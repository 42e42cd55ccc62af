// What a house remembers, until its power fails.
ghost use Rattle.std.specs.Prelude.{◌≡◌};
ghost use Rattle.copies.specs.Copy.{new_pass};
ghost use Rattle.copies.specs.Steps.{woken};
ghost use Rattle.copies.specs.Views.{the_pass, the_memory};

use crate::message::{Bundle, Item};
use crate::number::*;
use std::alloc::Global;

// Which versions the parts of a pass were of.
#[derive(Clone, Copy, PartialEq, Eq)]
pub struct Span {
    pub low: Version,
    pub high: Version,
}

// A pass over all blocks: where it is, the versions of its parts, and whether something was asked for since the last tick.
#[derive(Clone, Copy, PartialEq, Eq)]
pub struct Pass {
    pub key: Key,
    pub span: Option<Span>,
    pub asked: bool,
}

// lead: the ballot that it leads; quiet: how many ticks it has heard no leader; waiting: calls that aren't sent yet; way: the bundle under
// way; heard: bundles heard, one for each house, the newest first.
#[derive(Drop)]
pub struct Memory<C> {
    pub me: HouseNumber,
    pub number: Number,
    pub lead: Option<Ballot>,
    pub quiet: u64,
    pub waiting: Vec<Item<C>>,
    pub way: Option<Bundle<C>>,
    pub heard: Vec<Bundle<C>>,
    pub pass: Pass,
}

impl Pass {
    // A new one, for which it is asked at once.
    pub(crate) fn begun() -> Pass
        ensures { the_pass result ≡ new_pass }
    {
        Pass {
            key: Key(0),
            span: None,
            asked: true,
        }
    }
}

impl<C> Memory<C> {
    // A house comes up, for the incarnation-th time.
    pub fn new(heap: Global, me: HouseNumber, incarnation: u64) -> Memory<C>
        ensures { the_memory result ≡ woken me.0 incarnation }
    {
        Memory {
            me,
            number: Number {
                incarnation,
                counter: 0,
            },
            lead: None,
            quiet: 0,
            waiting: Vec::new(heap),
            way: None,
            heard: Vec::new(heap),
            pass: Pass {
                key: Key(0),
                span: None,
                asked: false,
            },
        }
    }
}
