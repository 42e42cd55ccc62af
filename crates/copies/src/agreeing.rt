// What a copy stores of the agreement.
ghost use Rattle.std.specs.Prelude.{◌≡◌, ◌==◌, ◌<◌, ◌^◌, suc};
ghost use Rattle.std.specs.Bool.{OnTrue};
ghost use Rattle.agreement.specs.Copies.{rank, higher};
ghost use Rattle.copies.specs.Steps.{learns, marks, fresh};
ghost use Rattle.copies.specs.Views.{the_proposal, the_status, the_agreeing, the_marks};

use crate::message::{Bundle, Status};
use crate::number::*;

// The bundles that are done together.
#[derive(Drop)]
pub struct Command<C>(pub Vec<Bundle<C>>);

// What a copy proposes itself for the next place, under a ballot.
#[derive(Drop)]
pub struct Proposal<C> {
    pub ballot: Ballot,
    pub command: Command<C>,
}

// A copy that recovers has each block as of some version from base to top.
#[derive(Clone, Copy, PartialEq, Eq)]
pub enum Recovery {
    Level,
    Recovers { base: Version, top: Version },
}

// promised: the highest ballot that it has seen; version: how many commands it has applied; last: the ballot under which the last was
// decided, as far as it was told.
#[derive(Drop)]
pub struct Agreeing<C> {
    pub promised: Ballot,
    pub version: Version,
    pub last: Ballot,
    pub proposal: Option<Proposal<C>>,
    pub recovery: Recovery,
}

impl<C: Drop> Proposal<C> {
    // Of two, that under the higher ballot, or the first.
    pub(crate) fn higher(
        mine: Option<Proposal<C>>,
        theirs: Option<Proposal<C>>,
    ) -> Option<Proposal<C>>
        ensures { the_proposal result ≡ higher (the_proposal mine) (the_proposal theirs) }
    {
        match (&mine, &theirs) {
            (None, _) => theirs,
            (Some(a), Some(b)) if a.ballot < b.ballot => theirs,
            _ => mine,
        }
    }
}

impl<C> Agreeing<C> {
    // Nothing was agreed on yet.
    pub fn new() -> Agreeing<C>
        ensures { the_agreeing result ≡ fresh }
    {
        Agreeing {
            promised: Ballot(0),
            version: Version(0),
            last: Ballot(0),
            proposal: None,
            recovery: Recovery::Level,
        }
    }

    pub(crate) fn has_proposed_under(&self, ballot: Ballot) -> bool
        ensures { result ≡ (rank (the_agreeing self.now).proposal == suc ballot.0) }
    {
        matches!(&self.proposal, Some(proposal) if proposal.ballot == ballot)
    }

    // Is that copy ahead by one, and did it apply what is proposed here?
    pub(crate) fn learns(&self, status: &Status<C>) -> bool
        requires { self.now.version.0 < 2 ^ 62 }
        ensures { result ≡ learns (the_status status.now) (the_agreeing self.now).proposal (the_agreeing self.now) }
    {
        match &self.proposal {
            Some(mine) => status.version == self.version.next() && status.last <= mine.ballot,
            None => false,
        }
    }

    // All but the command that is proposed.
    pub(crate) fn marks(&self) -> Marks
        ensures { the_marks result ≡ marks (the_agreeing self.now) }
    {
        let ballot = match &self.proposal {
            Some(proposal) => Some(proposal.ballot),
            None => None,
        };
        Marks {
            promised: self.promised,
            version: self.version,
            last: self.last,
            ballot,
            recovery: self.recovery,
        }
    }
}

// What tells whether it changed: all but the command that is proposed, which changes only with its ballot or the version.
#[derive(Clone, Copy, PartialEq, Eq)]
pub(crate) struct Marks {
    promised: Ballot,
    version: Version,
    last: Ballot,
    ballot: Option<Ballot>,
    recovery: Recovery,
}

impl Marks {
    pub(crate) fn are(self, others: Marks) -> bool
        ensures { OnTrue result (the_marks self ≡ the_marks others) }
    {
        self == others
    }
}
