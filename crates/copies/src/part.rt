// A copy that recovers is given blocks, and one that is level gives them.
ghost use Rattle.std.specs.Prelude.{◌≡◌, ◌&&◌, nat_le};
ghost use Rattle.copies.specs.Copy.{is_copy, agreed, ranging, widened, is_asked, on_part, taken, begins_again, on_want};
ghost use Rattle.copies.specs.Steps.{levelled};
ghost use Rattle.copies.specs.Views.{the_want, the_pass, the_recovery, the_span, the_part, the_sessions, the_turn};

use crate::agreeing::Recovery;
use crate::memory::{Pass, Span};
use crate::message::{Part, Tail, Want};
use crate::number::*;
use crate::sessions::Sessions;
use crate::turn::{Serve, Turn, Work};

impl Span {
    // With one more version.
    fn widened(span: Option<Span>, version: Version) -> Span
        ensures { the_span (Some result) ≡ widened version.0 (the_span span) }
    {
        match span {
            None => Span {
                low: version,
                high: version,
            },
            Some(span) => Span {
                low: span.low.lower(version),
                high: span.high.higher(version),
            },
        }
    }
}

impl<X: Drop, B: Drop, C: Drop, A: Drop> Turn<X, B, C, A> {
    // Is it what I ask for?
    fn is_asked(&self, want: Want) -> bool
        ensures { result ≡ is_asked (the_want want) (the_pass self.now.house.memory.pass) (the_recovery self.now.house.agreeing.recovery) }
    {
        match self.house.agreeing.recovery {
            Recovery::Level => false,
            Recovery::Recovers { base, top } => {
                want == Want {
                    base,
                    top,
                    key: self.house.memory.pass.key,
                }
            }
        }
    }

    // A part is taken if it is what I ask for, and its version is no lower than mine.
    fn takes(&self, part: &Part<X, B, A>) -> bool
        ensures { result ≡ (is_copy self.now.house.memory.me.0 && (is_asked (the_want part.now.asked) (the_pass self.now.house.memory.pass) (the_recovery self.now.house.agreeing.recovery) && nat_le self.now.house.agreeing.version.0 part.now.version.0)) }
    {
        self.house.memory.me.has_copy()
            && self.is_asked(part.asked)
            && self.house.agreeing.version <= part.version
    }

    #[tactic(auto, unfolding(crate::specs::Copy::on_part))]
    pub(crate) fn on_part(mut self, from: HouseNumber, part: Part<X, B, A>) -> Self
        ensures { the_turn result ≡ on_part from.0 (the_part part) (the_turn self) }
    {
        if self.takes(&part) {
            self.work = Work::Takes(from, part);
        }
        self
    }

    fn ranging(mut self, promised: Ballot, base: Version, top: Version) -> Self
        ensures { the_turn result ≡ agreed (ranging promised.0 base.0 top.0 (the_turn self).agreeing) (the_turn self) }
    {
        self.house.agreeing.promised = promised;
        self.house.agreeing.recovery = Recovery::Recovers { base, top };
        self
    }

    // The pass is over, at one version, which is mine from now on.
    fn levelled(
        mut self,
        from: HouseNumber,
        promised: Ballot,
        version: Version,
        last: Ballot,
        rest: X,
        sessions: Sessions<A>,
    ) -> Self
        ensures { the_turn result ≡ levelled from.0 promised.0 version.0 last.0 rest (the_sessions sessions) (the_turn self) }
    {
        let agreeing = &mut self.house.agreeing;
        if version != agreeing.version {
            agreeing.version = version;
            agreeing.last = last;
            agreeing.proposal = None;
        }
        agreeing.promised = promised;
        agreeing.recovery = Recovery::Level;
        self.house.sessions = sessions;
        self.work = Work::Replaces(rest);
        self.saying_to(from)
    }

    // The part's blocks are taken over.
    #[tactic(auto, unfolding(crate::specs::Copy::tail_taken, crate::specs::Copy::passed))]
    pub(crate) fn taken(mut self, from: HouseNumber, part: Part<X, B, A>) -> Self
        ensures { the_turn result ≡ taken from.0 (the_part part) (the_turn self) }
    {
        self.work = Work::Rests;
        let Recovery::Recovers { base, top } = self.house.agreeing.recovery else {
            return self;
        };
        let Part {
            promised,
            version,
            last,
            tail,
            ..
        } = part;
        let promised = self.house.agreeing.promised.higher(promised);
        let span = Span::widened(self.house.memory.pass.span, version);
        match tail {
            Tail::More(key) => self
                .ranging(promised, base.lower(version), top.higher(version))
                .passing(Pass {
                    key,
                    span: Some(span),
                    asked: true,
                })
                .wanting(from),
            Tail::Ends(rest, sessions) if span.low == span.high => {
                self.levelled(from, promised, version, last, rest, sessions)
            }
            Tail::Ends(..) => self
                .ranging(promised, span.low, span.high)
                .passing(Pass::begun())
                .wanting(from),
        }
    }

    // There is no place for the blocks: all is forgotten, and it begins again from nothing.
    pub(crate) fn begins_again(mut self, from: HouseNumber) -> Self
        ensures { the_turn result ≡ begins_again from.0 (the_turn self) }
    {
        self.work = Work::Rests;
        let promised = self.house.agreeing.promised;
        self.ranging(promised, Version(0), Version(0))
            .passing(Pass::begun())
            .wanting(from)
    }

    // Blocks are asked for: a copy that doesn't recover gives them.
    #[tactic(auto, unfolding(crate::specs::Copy::on_want))]
    pub(crate) fn on_want(mut self, from: HouseNumber, want: Want) -> Self
        ensures { the_turn result ≡ on_want from.0 (the_want want) (the_turn self) }
    {
        if self.house.memory.me.has_copy() && self.house.agreeing.recovery == Recovery::Level {
            self.sends.serves = Some(Serve { to: from, want });
        }
        self
    }
}
