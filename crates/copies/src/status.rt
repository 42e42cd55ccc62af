// A copy hears another's status.
ghost use Rattle.std.specs.Prelude.{◌≡◌, ◌<◌, ◌^◌, ◌&&◌, not, nat_le, IfOk, map, vec_items};
ghost use Rattle.agreement.specs.Copies.{higher};
ghost use Rattle.copies.specs.Copy.{houses_of, noted, raising, applying, recovering, ahead, takes_over, may_lead, even, hears, asks_on, status_of, on_status};
ghost use Rattle.copies.specs.Views.{the_house, the_command, the_proposal, the_status, the_turn};

use crate::agreeing::{Command, Proposal, Recovery};
use crate::memory::Pass;
use crate::message::Status;
use crate::number::*;
use crate::turn::{Turn, Work};
use std::alloc::{AllocError, Global};

impl<C> Command<C> {
    // Whose bundles they are.
    fn houses(&self, heap: Global) -> Result<Vec<HouseNumber>, AllocError>
        ensures { IfOk result (λ hs. hs.items ≡ map (λ b. b.house) (vec_items self.now.0)) }
    {
        self.0.iter().map(|bundle| bundle.house).collect(heap)
    }
}

impl<X: Drop, B: Drop, C: Drop, A: Drop> Turn<X, B, C, A> {
    // Whoever owns a ballot that is no lower than my promise is a leader that I hear.
    fn noted(mut self, from: HouseNumber, status: &Status<C>) -> Self
        ensures { the_turn result ≡ noted from.0 (the_status status.now) (the_turn self) }
    {
        if status.promised.owner() == from && self.house.agreeing.promised <= status.promised {
            self.house.memory.quiet = 0;
        }
        self
    }

    fn raising(self, from: HouseNumber, promised: Ballot, status: &Status<C>) -> Self
        ensures { the_turn result ≡ raising from.0 promised.0 (the_status status.now) (the_turn self) }
    {
        if self.house.agreeing.promised < promised || status.promised < promised {
            self.telling(from, promised)
        } else {
            self.raised(promised)
        }
    }

    #[tactic(auto, using(crate::proofs::Lists::houses_had))]
    fn applying(
        mut self,
        heap: Global,
        promised: Ballot,
        last: Ballot,
        command: Command<C>,
    ) -> Result<Self, AllocError>
        requires { self.house.agreeing.version.0 < 2 ^ 62 }
        ensures { IfOk result (λ t. the_turn t ≡ applying promised.0 last.0 (the_command command) (the_turn self)) }
    {
        self.sends.replies = command.houses(heap)?;
        self.work = Work::Applies(command);
        let agreeing = &mut self.house.agreeing;
        agreeing.promised = promised;
        agreeing.version = agreeing.version.next();
        agreeing.last = last;
        agreeing.proposal = None;
        Ok(self)
    }

    // I am behind, and recover.
    fn recovering(mut self, from: HouseNumber, promised: Ballot) -> Self
        ensures { the_turn result ≡ recovering from.0 promised.0 (the_turn self) }
    {
        let version = self.house.agreeing.version;
        self.house.agreeing.recovery = Recovery::Recovers {
            base: version,
            top: version,
        };
        self.raised(promised).passing(Pass::begun()).wanting(from)
    }

    // That copy is ahead: by one, and what it applied is what I proposed; or else I recover.
    #[tactic(auto, using(crate::proofs::Cases::ahead_else), unfolding(crate::specs::Copy::ahead))]
    fn ahead(
        mut self,
        heap: Global,
        from: HouseNumber,
        promised: Ballot,
        status: &Status<C>,
    ) -> Result<Self, AllocError>
        requires { self.house.agreeing.version.0 < 2 ^ 62 }
        ensures { IfOk result (λ t. the_turn t ≡ ahead from.0 promised.0 (the_status status.now) (the_turn self).agreeing.proposal (the_turn self)) }
    {
        if !self.house.agreeing.learns(status) {
            return Ok(self.recovering(from, promised));
        }
        match self.house.agreeing.proposal.take() {
            Some(mine) => self.applying(heap, promised, status.last, mine.command),
            None => unreachable!(),
        }
    }

    // I lead: with what either of us proposed, if anything.
    #[tactic(auto, unfolding(crate::specs::Copy::takes_over))]
    fn takes_over(mut self, promised: Ballot, theirs: Option<Proposal<C>>) -> Self
        ensures { the_turn result ≡ takes_over promised.0 (higher (the_turn self).agreeing.proposal (the_proposal theirs)) (the_turn self) }
    {
        let mine = self.house.agreeing.proposal.take();
        if let Some(proposal) = Proposal::higher(mine, theirs) {
            self.house.agreeing.proposal = Some(Proposal {
                ballot: promised,
                command: proposal.command,
            });
            self = self.saying();
        }
        self.house.memory.lead = Some(promised);
        self.raised(promised)
    }

    #[tactic(auto, unfolding(crate::specs::Copy::may_lead))]
    fn may_lead(self, from: HouseNumber, promised: Ballot, status: Status<C>) -> Self
        ensures { the_turn result ≡ may_lead from.0 promised.0 (the_status status) (the_turn self) }
    {
        if promised.owner() == self.house.memory.me
            && status.promised == promised
            && !self.house.agreeing.has_proposed_under(promised)
        {
            self.takes_over(promised, status.proposal)
        } else {
            self.raising(from, promised, &status)
        }
    }

    // That copy is as far as I am: it leads and proposes, so I accept.
    #[tactic(auto, unfolding(crate::specs::Copy::even))]
    fn even(
        self,
        heap: Global,
        from: HouseNumber,
        promised: Ballot,
        status: Status<C>,
    ) -> Result<Self, AllocError>
        requires { self.house.agreeing.version.0 < 2 ^ 62 }
        ensures { IfOk result (λ t. the_turn t ≡ even from.0 promised.0 (the_status status) (the_status status).proposal (the_turn self)) }
    {
        let leads = promised.owner() == from && status.promised == promised;
        match status.proposal {
            Some(theirs) if leads && theirs.ballot == promised => {
                self.saying_to(from)
                    .applying(heap, promised, promised, theirs.command)
            }
            _ => Ok(self.may_lead(from, promised, status)),
        }
    }

    #[tactic(auto, unfolding(crate::specs::Copy::hears))]
    fn hears(
        self,
        heap: Global,
        from: HouseNumber,
        promised: Ballot,
        status: Status<C>,
    ) -> Result<Self, AllocError>
        requires { self.house.agreeing.version.0 < 2 ^ 62 }
        ensures { IfOk result (λ t. the_turn t ≡ hears from.0 promised.0 (the_status status) (the_turn self)) }
    {
        let version = self.house.agreeing.version;
        if version < status.version {
            self.ahead(heap, from, promised, &status)
        } else if status.version < version {
            Ok(self.telling(from, promised))
        } else {
            self.even(heap, from, promised, status)
        }
    }

    // I recover: whoever is no less far may be asked.
    fn may_ask(&self, status: &Status<C>) -> bool
        ensures { result ≡ (not status.now.recovering && (nat_le self.now.house.agreeing.version.0 status.now.version.0 && not self.now.house.memory.pass.asked)) }
    {
        !status.recovering
            && self.house.agreeing.version <= status.version
            && !self.house.memory.pass.asked
    }

    #[tactic(auto, unfolding(crate::specs::Copy::asks_on))]
    fn asks_on(self, from: HouseNumber, promised: Ballot, status: &Status<C>) -> Self
        ensures { the_turn result ≡ asks_on from.0 promised.0 (the_status status.now) (the_turn self) }
    {
        if !self.may_ask(status) {
            return self.raised(promised);
        }
        let pass = Pass {
            asked: true,
            ..self.house.memory.pass
        };
        self.raised(promised).passing(pass).wanting(from)
    }

    #[tactic(auto, unfolding(crate::specs::Copy::on_status, crate::specs::Copy::status_of))]
    pub(crate) fn on_status(
        self,
        heap: Global,
        from: HouseNumber,
        status: Status<C>,
    ) -> Result<Self, AllocError>
        requires { self.house.agreeing.version.0 < 2 ^ 62 }
        ensures { IfOk result (λ t. the_turn t ≡ on_status from.0 (the_status status) (the_turn self)) }
    {
        let me = self.house.memory.me;
        if !me.has_copy() || !from.has_copy() || from == me {
            return Ok(self);
        }
        let promised = self.house.agreeing.promised.higher(status.promised);
        let turn = self.noted(from, &status);
        match turn.house.agreeing.recovery {
            Recovery::Recovers { .. } => Ok(turn.asks_on(from, promised, &status)),
            Recovery::Level if status.recovering => Ok(turn.telling(from, promised)),
            Recovery::Level => turn.hears(heap, from, promised, status),
        }
    }
}
