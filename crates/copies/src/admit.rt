// Which events are admitted: numbers leave room to count on, and nothing is larger than it may be.
ghost use Rattle.std.specs.Prelude.{◌≡◌, ◌==◌, ◌&&◌, count_by, vec_items};
ghost use Rattle.std.specs.List.{list_all};
ghost use Rattle.copies.specs.Admits.{fits, is_house, bundle_fits, command_fits, proposal_fits, status_fits, session_fits, want_fits, part_fits, is_ready};
ghost use Rattle.copies.specs.Views.{the_bundle, the_command, the_proposal, the_status, the_session, the_want, the_part, the_agreeing, the_memory};

use crate::agreeing::{Command, Proposal};
use crate::bundle::MOST_CALLS;
use crate::message::{Bundle, Part, Session, Status, Want};
use crate::number::*;
use crate::sessions::MOST_HOUSES;
use crate::turn::House;

// Numbers stay below this.
const LIMIT: u64 = 1 << 62;

pub(crate) fn fits(number: u64) -> bool
    ensures { result ≡ fits number }
{
    number < LIMIT
}

impl HouseNumber {
    pub(crate) fn is_house(self) -> bool
        ensures { result ≡ is_house self.0 }
    {
        self.0 < MOST_HOUSES
    }
}

impl<C> Bundle<C> {
    pub(crate) fn is_fit(&self) -> bool
        ensures { result ≡ bundle_fits (the_bundle self.now) }
    {
        self.house.is_house()
            && fits(self.number.incarnation)
            && fits(self.number.counter)
            && self.calls.len() >= 1
            && self.calls.len() <= MOST_CALLS
    }
}

impl<C> Command<C> {
    // How many bundles of that house are among them?
    fn count_of(&self, house: HouseNumber) -> usize
        ensures { result ≡ count_by (λ b. b.house.0 == house.0) (vec_items self.now.0) }
    {
        self.0.iter().filter(|bundle| bundle.house == house).count()
    }

    fn are_fit(&self) -> bool
        ensures { result ≡ list_all (λ b. bundle_fits (the_bundle b) && (count_by (λ c. c.house.0 == b.house.0) (vec_items self.now.0) == 1)) (vec_items self.now.0) }
    {
        self.0.iter().all(|bundle| bundle.is_fit() && self.count_of(bundle.house) == 1)
    }

    fn is_fit(&self) -> bool
        ensures { result ≡ command_fits (the_command self.now) }
    {
        self.are_fit()
    }
}

impl<C> Status<C> {
    fn is_proposal_fit(&self) -> bool
        ensures { result ≡ proposal_fits (the_proposal self.now.proposal) }
    {
        match &self.proposal {
            Some(proposal) => fits(proposal.ballot.0) && proposal.command.is_fit(),
            None => true,
        }
    }

    pub(crate) fn is_fit(&self) -> bool
        ensures { result ≡ status_fits (the_status self.now) }
    {
        fits(self.promised.0) && fits(self.version.0) && fits(self.last.0) && self.is_proposal_fit()
    }
}

impl<A> Session<A> {
    pub(crate) fn is_fit(&self) -> bool
        ensures { result ≡ session_fits (the_session self.now) }
    {
        fits(self.number.incarnation)
            && fits(self.number.counter)
            && self.replies.len() <= MOST_CALLS
    }
}

impl Want {
    pub(crate) fn is_fit(&self) -> bool
        ensures { result ≡ want_fits (the_want self.now) }
    {
        fits(self.base.0) && fits(self.top.0)
    }
}

impl<X, B, A> Part<X, B, A> {
    pub(crate) fn is_fit(&self) -> bool
        ensures { result ≡ part_fits (the_part self.now) }
    {
        self.asked.is_fit() && fits(self.promised.0) && fits(self.version.0) && fits(self.last.0)
    }
}

impl<C, A> House<C, A> {
    // Do its own numbers leave room to count on?
    pub(crate) fn is_ready(&self) -> bool
        ensures { result ≡ is_ready (the_agreeing self.now.agreeing) (the_memory self.now.memory) }
    {
        self.memory.me.is_house()
            && fits(self.agreeing.promised.0)
            && fits(self.agreeing.version.0)
            && fits(self.memory.number.counter)
            && fits(self.memory.quiet)
    }
}
