// Bundles: what is heard and made of them, and what a leader proposes.
ghost use Rattle.std.specs.Prelude.{◌≡◌, ◌<◌, ◌^◌, ◌==◌, ◌&&◌, not, filter, IfOk, OnOk, vec_items, nat_le};
ghost use Rattle.copies.specs.Copy.{is_free, is_nil, count, undone, remembered, on_bundle, packed, pack, settle, settle_here, proposing, forward, goes_on, queued};
ghost use Rattle.copies.specs.Steps.{is_way, freed_by, is_idle};
ghost use Rattle.copies.specs.Views.{the_items, the_bundle, the_bundles, the_command, the_replies, the_session, the_sessions, the_way, the_memory, the_turn};

use crate::agreeing::{Command, Proposal, Recovery};
use crate::memory::Memory;
use crate::message::{Bundle, Item, Reply, Session};
use crate::number::*;
use crate::service::{Copied, all_copied};
use crate::turn::{House, Turn};
use std::alloc::{AllocError, Global};
use std::mem;

// How many calls may wait at a house.
pub const MOST_CALLS: usize = 8;

impl<C: Copied> Bundle<C> {
    pub(crate) fn copied(&self, heap: Global) -> Result<Bundle<C>, AllocError>
        ensures { IfOk result (λ b. the_bundle b ≡ the_bundle self.now) }
    {
        let calls = all_copied(self.calls.as_slice(), heap)?;
        Ok(Bundle {
            house: self.house,
            number: self.number,
            calls,
        })
    }
}

fn forget<C: Drop>(heard: &mut Vec<Bundle<C>>, house: HouseNumber)
    ensures { vec_items heard.new ≡ filter (λ b. not (b.house.0 == house.0)) (vec_items heard.old) }
{
    heard.retain(|bundle| bundle.house != house);
}

impl<C> Command<C> {
    #[tactic(auto, using(crate::proofs::Lists::bundles_nil))]
    fn is_empty(&self) -> bool
        ensures { result ≡ is_nil (the_command self.now) }
    {
        self.0.is_empty()
    }
}

impl<C: Copied> Memory<C> {
    // A bundle is heard, in the place of an earlier one of that house.
    fn remember(&mut self, bundle: Bundle<C>) -> Result<(), AllocError>
        ensures { OnOk result (the_memory self.new ≡ remembered (the_bundle bundle) (the_memory self.old)) }
    {
        forget(&mut self.heard, bundle.house);
        self.heard.insert(0, bundle)?;
        Ok(())
    }

    // Is none under way, and do calls wait?
    #[tactic(auto, using(crate::proofs::Lists::items_nil))]
    fn may_pack(&self) -> bool
        ensures { result ≡ (is_free (the_way self.now.way) && not (is_nil (the_items (vec_items self.now.waiting)))) }
    {
        self.way.is_none() && !self.waiting.is_empty()
    }

    // May no more calls wait?
    pub fn is_full(&self) -> bool
        ensures { result ≡ nat_le 8 (count (the_memory self.now) (the_way self.now.way)) }
    {
        let under_way = match &self.way {
            Some(bundle) => bundle.calls.len(),
            None => 0,
        };
        under_way.saturating_add(self.waiting.len()) >= MOST_CALLS
    }
}

impl<C: Copied, A: Drop> House<C, A> {
    // The bundles heard that aren't done.
    #[tactic(auto, using(crate::proofs::Lists::undone_none))]
    fn undone(&self, heap: Global) -> Result<Command<C>, AllocError>
        ensures { IfOk result (λ k. the_command k ≡ undone (the_bundles (vec_items self.now.memory.heard)) (the_sessions self.now.sessions)) }
    {
        let mut bundles = Vec::new(heap);
        for bundle in &self.memory.heard {
            if self.sessions.is_new(bundle) {
                bundles.push(bundle.copied(heap)?)?;
            }
        }
        Ok(Command(bundles))
    }
}

impl<X: Drop, B: Drop, C: Copied, A: Copied> Turn<X, B, C, A> {
    // A bundle comes to a copy: it is heard, or its replies are sent.
    #[tactic(auto, unfolding(crate::specs::Copy::on_bundle))]
    pub(crate) fn on_bundle(mut self, bundle: Bundle<C>) -> Result<Self, AllocError>
        ensures { IfOk result (λ t. the_turn t ≡ on_bundle (the_bundle bundle) (the_turn self)) }
    {
        if !self.house.memory.me.has_copy() {
            return Ok(self);
        }
        if self.house.sessions.is_new(&bundle) {
            self.house.memory.remember(bundle)?;
        } else {
            self.sends.replies.insert(0, bundle.house)?;
        }
        Ok(self)
    }

    // All that wait go under way as one bundle; a copy hears its own.
    fn packed(mut self, heap: Global) -> Result<Self, AllocError>
        requires { self.house.memory.number.counter < 2 ^ 62 }
        ensures { IfOk result (λ t. the_turn t ≡ packed (the_turn self)) }
    {
        let memory = &mut self.house.memory;
        memory.number.counter += 1;
        let bundle = Bundle {
            house: memory.me,
            number: memory.number,
            calls: mem::replace(&mut memory.waiting, Vec::new(heap)),
        };
        memory.remember(bundle.copied(heap)?)?;
        memory.way = Some(bundle);
        self.sends.bundle = true;
        Ok(self)
    }

    #[tactic(auto, unfolding(crate::specs::Copy::pack))]
    pub(crate) fn pack(self, heap: Global) -> Result<Self, AllocError>
        requires { self.house.memory.number.counter < 2 ^ 62 }
        ensures { IfOk result (λ t. the_turn t ≡ pack (the_turn self)) }
    {
        if self.house.memory.may_pack() {
            self.packed(heap)
        } else {
            Ok(self)
        }
    }

    fn is_under_way(&self, number: Number) -> bool
        ensures { result ≡ is_way number.incarnation number.counter (the_way self.now.house.memory.way) }
    {
        matches!(&self.house.memory.way, Some(bundle) if bundle.number == number)
    }

    // The bundle under way is done, and these are its replies.
    fn freed(mut self, replies: Vec<Reply<A>>) -> Self
        ensures same { result.house.memory.number ≡ self.house.memory.number }
        ensures value { the_turn result ≡ freed_by (the_replies (vec_items replies)) (the_turn self) }
    {
        self.house.memory.way = None;
        self.told = replies;
        self
    }

    #[tactic(auto, using(crate::proofs::Cases::settle_then, crate::proofs::Cases::settle_else))]
    pub(crate) fn settle(self, session: Session<A>) -> Self
        ensures same { result.house.memory.number ≡ self.house.memory.number }
        ensures value { the_turn result ≡ settle (the_session session) (the_turn self).memory.way (the_turn self) }
    {
        if self.is_under_way(session.number) {
            self.freed(session.replies)
        } else {
            self
        }
    }

    // A copy finds the replies among its own sessions.
    #[tactic(auto, using(crate::proofs::Cases::settle_then, crate::proofs::Cases::settle_else), unfolding(crate::specs::Copy::settle_here))]
    fn settle_here(self, heap: Global) -> Result<Self, AllocError>
        ensures same { IfOk result (λ t. t.house.memory.number ≡ self.house.memory.number) }
        ensures value { IfOk result (λ t. the_turn t ≡ settle_here (the_turn self)) }
    {
        let me = self.house.memory.me;
        if !me.has_copy() || !self.is_under_way(self.house.sessions.number_of(me)) {
            return Ok(self);
        }
        let replies = self.house.sessions.replies_of(me, heap)?;
        Ok(self.freed(replies))
    }

    // Does it lead, with nothing proposed?
    fn is_idle(&self) -> bool
        ensures { result ≡ is_idle (the_turn self.now) }
    {
        self.house.memory.me.has_copy()
            && self.house.agreeing.recovery == Recovery::Level
            && self.leads()
            && self.house.agreeing.proposal.is_none()
    }

    fn proposing(mut self, command: Command<C>) -> Self
        ensures { the_turn result ≡ proposing (the_command command) (the_turn self) }
    {
        let ballot = self.house.agreeing.promised;
        self.house.agreeing.proposal = Some(Proposal { ballot, command });
        self.saying()
    }

    // Who leads, with nothing proposed, proposes what was heard and isn't done.
    #[tactic(auto, using(crate::proofs::Cases::forward_then, crate::proofs::Cases::forward_else, crate::proofs::Cases::forward_none))]
    pub(crate) fn forward(self, heap: Global) -> Result<Self, AllocError>
        ensures { IfOk result (λ t. the_turn t ≡ forward (the_turn self)) }
    {
        if !self.is_idle() {
            return Ok(self);
        }
        let command = self.house.undone(heap)?;
        if command.is_empty() {
            return Ok(self);
        }
        Ok(self.proposing(command))
    }

    // When something was heard: the bundle under way may be done, the next is made, what waits is proposed.
    pub(crate) fn goes_on(self, heap: Global) -> Result<Self, AllocError>
        requires { self.house.memory.number.counter < 2 ^ 62 }
        ensures { IfOk result (λ t. the_turn t ≡ goes_on (the_turn self)) }
    {
        self.settle_here(heap)?.pack(heap)?.forward(heap)
    }

    pub(crate) fn queued(mut self, id: CallNumber, call: C) -> Result<Self, AllocError>
        ensures same { IfOk result (λ t. t.house.memory.number ≡ self.house.memory.number) }
        ensures value { IfOk result (λ t. the_turn t ≡ queued id.0 call (the_turn self)) }
    {
        self.house.memory.waiting.push(Item { id, call })?;
        Ok(self)
    }
}
