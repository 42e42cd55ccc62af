// Whole events, as they come to a house. One that isn't admitted changes nothing. After a status or a part its work is to be done, and then
// it goes on.
ghost use Rattle.std.specs.Prelude.{◌≡◌, ◌<◌, ◌^◌, ◌&&◌, ◌||◌, [], IfOk, cond};
ghost use Rattle.copies.specs.Copy.{rests, on_bundle, on_status, on_want, on_part, on_tick, taken, begins_again, queued, pack, forward, goes_on};
ghost use Rattle.copies.specs.Admits.{fits, bundle_fits, session_fits, status_fits, want_fits, part_fits, packet_fits};
ghost use Rattle.copies.specs.Events.{begun, settles, hearing, Hears, HearsKept, Calls, CallsKept, KeptSince, house_ready, admits_from, is_full};
ghost use Rattle.copies.specs.Steps.{is_applied, is_replaced};
ghost use Rattle.copies.specs.Views.{the_bundle, the_session, the_status, the_want, the_part, the_message, the_work, the_turn};

use crate::admit::fits;
use crate::message::{Bundle, Message, Part, Session, Status, Want};
use crate::number::*;
use crate::service::Copied;
use crate::turn::{House, Sends, Stores, Turn, Whom, Work};
use std::alloc::{AllocError, Global};
use std::mem;

// What comes of an event: it isn't admitted, or the house is in the midst of it.
#[derive(Drop)]
pub enum Heard<X, B, C, A> {
    Passed(House<C, A>),
    Begun(Turn<X, B, C, A>),
}

// What comes of a call. Busy: as many wait as may.
#[derive(Drop)]
pub enum Called<X, B, C, A> {
    Passed(House<C, A>),
    Busy(House<C, A>),
    Begun(Turn<X, B, C, A>),
}

impl<C: Copied, A: Copied> House<C, A> {
    fn begins<X: Drop, B: Drop>(self, heap: Global) -> Turn<X, B, C, A>
        ensures same { result.house ≡ self }
        ensures value { the_turn result ≡ begun self }
    {
        Turn {
            house: self,
            told: Vec::new(heap),
            sends: Sends {
                status: Whom::Nobody,
                bundle: false,
                replies: Vec::new(heap),
                wants: None,
                serves: None,
            },
            work: Work::Rests,
            stores: Stores::nothing(),
        }
    }

    fn admits(&self, from: HouseNumber) -> bool
        ensures { result ≡ admits_from self.now from }
    {
        self.is_ready() && from.is_house()
    }

    #[tactic(auto, using(crate::proofs::Told::told_bundle))]
    pub fn hears_bundle<X: Drop, B: Drop>(
        self,
        heap: Global,
        from: HouseNumber,
        bundle: Bundle<C>,
    ) -> Result<Heard<X, B, C, A>, AllocError>
        ensures kept { IfOk result (HearsKept self) }
        ensures value { IfOk result (Hears (admits_from self from && bundle_fits (the_bundle bundle)) (λ t. forward (on_bundle (the_bundle bundle) t)) self) }
    {
        if !self.admits(from) || !bundle.is_fit() {
            return Ok(Heard::Passed(self));
        }
        let before = self.agreeing.marks();
        let turn = self.begins(heap).on_bundle(bundle)?.forward(heap)?;
        Ok(Heard::Begun(turn.noting(Stores::nothing(), before)))
    }

    #[tactic(auto, using(crate::proofs::Ready::ready_counter, crate::proofs::Told::told_replies))]
    pub fn hears_replies<X: Drop, B: Drop>(
        self,
        heap: Global,
        from: HouseNumber,
        session: Session<A>,
    ) -> Result<Heard<X, B, C, A>, AllocError>
        ensures kept { IfOk result (HearsKept self) }
        ensures value { IfOk result (Hears (admits_from self from && session_fits (the_session session)) (settles (the_session session)) self) }
    {
        if !self.admits(from) || !session.is_fit() {
            return Ok(Heard::Passed(self));
        }
        let before = self.agreeing.marks();
        let turn = self.begins(heap).settle(session).pack(heap)?.forward(heap)?;
        Ok(Heard::Begun(turn.noting(Stores::nothing(), before)))
    }

    #[tactic(auto, using(crate::proofs::Ready::ready_version, crate::proofs::Told::told_status))]
    pub fn hears_status<X: Drop, B: Drop>(
        self,
        heap: Global,
        from: HouseNumber,
        status: Status<C>,
    ) -> Result<Heard<X, B, C, A>, AllocError>
        ensures kept { IfOk result (HearsKept self) }
        ensures value { IfOk result (Hears (admits_from self from && status_fits (the_status status)) (on_status from.0 (the_status status)) self) }
    {
        if !self.admits(from) || !status.is_fit() {
            return Ok(Heard::Passed(self));
        }
        let before = self.agreeing.marks();
        let turn = self.begins(heap).on_status(heap, from, status)?;
        Ok(Heard::Begun(turn.noting(Stores::nothing(), before)))
    }

    #[tactic(auto, using(crate::proofs::Told::told_want))]
    pub fn hears_want<X: Drop, B: Drop>(
        self,
        heap: Global,
        from: HouseNumber,
        want: Want,
    ) -> Heard<X, B, C, A>
        ensures kept { HearsKept self result }
        ensures value { Hears (admits_from self from && want_fits (the_want want)) (on_want from.0 (the_want want)) self result }
    {
        if !self.admits(from) || !want.is_fit() {
            return Heard::Passed(self);
        }
        let before = self.agreeing.marks();
        let turn = self.begins(heap).on_want(from, want);
        Heard::Begun(turn.noting(Stores::nothing(), before))
    }

    #[tactic(auto, using(crate::proofs::Told::told_part))]
    pub fn hears_part<X: Drop, B: Drop>(
        self,
        heap: Global,
        from: HouseNumber,
        part: Part<X, B, A>,
    ) -> Heard<X, B, C, A>
        ensures kept { HearsKept self result }
        ensures value { Hears (admits_from self from && part_fits (the_part part)) (on_part from.0 (the_part part)) self result }
    {
        if !self.admits(from) || !part.is_fit() {
            return Heard::Passed(self);
        }
        let before = self.agreeing.marks();
        let turn = self.begins(heap).on_part(from, part);
        Heard::Begun(turn.noting(Stores::nothing(), before))
    }

    // A message comes from another house.
    pub fn hears<X: Drop, B: Drop>(
        self,
        heap: Global,
        from: HouseNumber,
        message: Message<X, B, C, A>,
    ) -> Result<Heard<X, B, C, A>, AllocError>
        ensures kept { IfOk result (HearsKept self) }
        ensures value { IfOk result (Hears (admits_from self from && packet_fits (the_message message)) (hearing from.0 (the_message message)) self) }
    {
        match message {
            Message::Bundle(bundle) => self.hears_bundle(heap, from, bundle),
            Message::Replies(session) => self.hears_replies(heap, from, session),
            Message::Status(status) => self.hears_status(heap, from, status),
            Message::Want(want) => Ok(self.hears_want(heap, from, want)),
            Message::Part(part) => Ok(self.hears_part(heap, from, part)),
        }
    }

    #[tactic(auto, using(crate::proofs::Ready::ready_counter, crate::proofs::Told::told_call))]
    pub fn is_called<X: Drop, B: Drop>(
        self,
        heap: Global,
        id: CallNumber,
        call: C,
    ) -> Result<Called<X, B, C, A>, AllocError>
        ensures kept { IfOk result (CallsKept self) }
        ensures value { IfOk result (Calls (house_ready self) (is_full self) (λ t. forward (pack (queued id.0 call t))) self) }
    {
        if !self.is_ready() {
            return Ok(Called::Passed(self));
        }
        if self.memory.is_full() {
            return Ok(Called::Busy(self));
        }
        let before = self.agreeing.marks();
        let turn = self
            .begins(heap)
            .queued(id, call)?
            .pack(heap)?
            .forward(heap)?;
        Ok(Called::Begun(turn.noting(Stores::nothing(), before)))
    }

    #[tactic(auto, using(crate::proofs::Ready::ready_counter, crate::proofs::Ready::ready_promised, crate::proofs::Ready::ready_quiet, crate::proofs::Told::told_tick))]
    pub fn ticks<X: Drop, B: Drop>(self, heap: Global) -> Result<Heard<X, B, C, A>, AllocError>
        ensures kept { IfOk result (HearsKept self) }
        ensures value { IfOk result (Hears (house_ready self) (λ t. goes_on (on_tick t)) self) }
    {
        if !self.is_ready() {
            return Ok(Heard::Passed(self));
        }
        let before = self.agreeing.marks();
        let turn = self
            .begins(heap)
            .on_tick()
            .noting(Stores::nothing(), before);
        Ok(Heard::Begun(turn.going_on(heap)?))
    }
}

impl<X, B, C, A> Work<X, B, C, A> {
    fn is_replaced(&self) -> bool
        ensures { result ≡ is_replaced (the_work self.now) }
    {
        matches!(self, Work::Replaces(_))
    }
}

impl<X: Drop, B: Drop, C: Copied, A: Copied> Turn<X, B, C, A> {
    // What is to be done on blocks; it is done from now on. A command's bundles leave sessions.
    pub fn take_work(&mut self) -> Work<X, B, C, A>
        ensures work { the_work result ≡ (the_turn self.old).work }
        ensures others { the_turn self.new ≡ record (the_turn self.old) { work = rests } }
        ensures agreeing { self.new.stores.agreeing ≡ self.old.stores.agreeing }
        ensures sessions { self.new.stores.sessions ≡ (self.old.stores.sessions || is_applied (the_work self.old.work)) }
    {
        let applies = matches!(&self.work, Work::Applies(_));
        self.stores.sessions = self.stores.sessions || applies;
        mem::replace(&mut self.work, Work::Rests)
    }

    // The part's blocks are taken over.
    #[tactic(auto, using(crate::proofs::Told::brought))]
    pub fn takes_over_part(self, from: HouseNumber, part: Part<X, B, A>) -> Self
        ensures kept { KeptSince self result }
        ensures value { the_turn result ≡ taken from.0 (the_part part) (the_turn self) }
    {
        let was = self.stores;
        let mut turn = self.taken(from, part);
        turn.stores = Stores {
            agreeing: true,
            sessions: turn.work.is_replaced() || was.sessions,
        };
        turn
    }

    // There is no place for the part's blocks: it begins again from nothing.
    pub fn starts_over(self, from: HouseNumber) -> Self
        ensures kept { KeptSince self result }
        ensures value { the_turn result ≡ begins_again from.0 (the_turn self) }
    {
        let was = self.stores;
        let mut turn = self.begins_again(from);
        turn.stores = Stores {
            agreeing: true,
            sessions: was.sessions,
        };
        turn
    }

    #[tactic(auto, using(crate::proofs::Told::told_goes_on))]
    fn going_on(self, heap: Global) -> Result<Self, AllocError>
        requires { self.house.memory.number.counter < 2 ^ 62 }
        ensures kept { IfOk result (KeptSince self) }
        ensures value { IfOk result (λ t. the_turn t ≡ goes_on (the_turn self)) }
    {
        let was = self.stores;
        let before = self.house.agreeing.marks();
        let turn = self.goes_on(heap)?;
        Ok(turn.noting(was, before))
    }

    // When the work is done, of a status or a part: the bundle under way may be done, the next is made, what waits is proposed.
    pub fn ends(self, heap: Global) -> Result<Self, AllocError>
        ensures kept { IfOk result (KeptSince self) }
        ensures value { IfOk result (λ t. the_turn t ≡ cond (fits (the_turn self).memory.counter) (goes_on (the_turn self)) (the_turn self)) }
    {
        if fits(self.house.memory.number.counter) {
            self.going_on(heap)
        } else {
            Ok(self)
        }
    }
}
