// A house in the midst of an event: what it has, and what is to be told, sent and done.
ghost use Rattle.std.specs.Prelude.{◌≡◌, false};
ghost use Rattle.copies.specs.Copy.{also, saying_to, saying, wanting, passing, agreed, raised, telling};
ghost use Rattle.copies.specs.Steps.{marks};
ghost use Rattle.copies.specs.Views.{the_whom, the_pass, the_agreeing, the_marks, the_turn};

use crate::agreeing::{Agreeing, Command, Marks};
use crate::memory::{Memory, Pass};
use crate::message::{Part, Reply, Want};
use crate::number::*;
use crate::sessions::Sessions;

// Who gets this house's status.
#[derive(Clone, Copy, PartialEq, Eq)]
pub enum Whom {
    Nobody,
    One(HouseNumber),
    Others,
}

// Blocks that another copy wants.
#[derive(Clone, Copy, PartialEq, Eq)]
pub struct Serve {
    pub to: HouseNumber,
    pub want: Want,
}

// What is to be sent when all is stored.
#[derive(Drop)]
pub struct Sends {
    pub status: Whom,
    pub bundle: bool,
    pub replies: Vec<HouseNumber>,
    pub wants: Option<HouseNumber>,
    pub serves: Option<Serve>,
}

// What is to be done on blocks.
#[derive(Drop)]
pub enum Work<X, B, C, A> {
    Rests,
    Applies(Command<C>),
    Takes(HouseNumber, Part<X, B, A>),
    // the state's rest is another copy's
    Replaces(X),
}

// What changed and is to be stored; what isn't named is as it was when the event began.
#[derive(Clone, Copy, PartialEq, Eq)]
pub struct Stores {
    pub agreeing: bool,
    pub sessions: bool,
}

#[derive(Drop)]
pub struct House<C, A> {
    pub agreeing: Agreeing<C>,
    pub sessions: Sessions<A>,
    pub memory: Memory<C>,
}

#[derive(Drop)]
pub struct Turn<X, B, C, A> {
    pub house: House<C, A>,
    pub told: Vec<Reply<A>>,
    pub sends: Sends,
    pub work: Work<X, B, C, A>,
    pub stores: Stores,
}

impl Stores {
    pub(crate) fn nothing() -> Stores
        ensures { result ≡ record { agreeing = false; sessions = false } }
    {
        Stores {
            agreeing: false,
            sessions: false,
        }
    }
}

impl Whom {
    // That house too.
    fn also(self, to: HouseNumber) -> Whom
        ensures { the_whom result ≡ also to.0 (the_whom self) }
    {
        match self {
            Whom::Others => Whom::Others,
            _ => Whom::One(to),
        }
    }
}

impl<X: Drop, B: Drop, C: Drop, A: Drop> Turn<X, B, C, A> {
    pub(crate) fn saying_to(mut self, to: HouseNumber) -> Self
        ensures { the_turn result ≡ saying_to to.0 (the_turn self) }
    {
        self.sends.status = self.sends.status.also(to);
        self
    }

    pub(crate) fn saying(mut self) -> Self
        ensures { the_turn result ≡ saying (the_turn self) }
    {
        self.sends.status = Whom::Others;
        self
    }

    pub(crate) fn wanting(mut self, of: HouseNumber) -> Self
        ensures { the_turn result ≡ wanting of.0 (the_turn self) }
    {
        self.sends.wants = Some(of);
        self
    }

    pub(crate) fn passing(mut self, pass: Pass) -> Self
        ensures { the_turn result ≡ passing (the_pass pass) (the_turn self) }
    {
        self.house.memory.pass = pass;
        self
    }

    pub(crate) fn raised(mut self, promised: Ballot) -> Self
        ensures { the_turn result ≡ agreed (raised promised.0 (the_turn self).agreeing) (the_turn self) }
    {
        self.house.agreeing.promised = promised;
        self
    }

    pub(crate) fn telling(self, to: HouseNumber, promised: Ballot) -> Self
        ensures { the_turn result ≡ telling to.0 promised.0 (the_turn self) }
    {
        self.saying_to(to).raised(promised)
    }

    // Since an event, or a part of it, began with those marks.
    pub(crate) fn noting(mut self, was: Stores, before: Marks) -> Self
        ensures value { the_turn result ≡ the_turn self }
        ensures sessions { result.stores.sessions ≡ was.sessions }
        ensures agreeing { result.stores.agreeing ≡ false → (was.agreeing ≡ false) × (marks (the_agreeing self.house.agreeing) ≡ the_marks before) }
    {
        self.stores = Stores {
            agreeing: was.agreeing || !self.house.agreeing.marks().are(before),
            sessions: was.sessions,
        };
        self
    }
}
