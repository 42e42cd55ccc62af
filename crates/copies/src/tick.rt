// A tick of the clock.
ghost use Rattle.std.specs.Prelude.{◌≡◌, ◌<◌, ◌^◌, ◌==◌, suc};
ghost use Rattle.copies.specs.Copy.{next_ballot, patience, resend, elects, elect, stirs, on_tick};
ghost use Rattle.copies.specs.Views.{the_lead, the_recovery, the_turn};

use crate::agreeing::Recovery;
use crate::memory::Pass;
use crate::number::*;
use crate::turn::Turn;

impl Ballot {
    // The next one that belongs to that copy.
    fn next_of(self, copy: HouseNumber) -> Ballot
        requires within { self.0 < 2 ^ 62 }
        requires copy { copy.0 < 3 }
        ensures { result.0 ≡ next_ballot copy.0 self.0 }
    {
        Ballot(3 * (self.0 / 3 + 1) + copy.0)
    }
}

impl HouseNumber {
    // After how many ticks without a leader it takes a ballot. Copies wait differently long.
    fn patience(self) -> u64
        requires { self.0 < 3 }
        ensures { result ≡ patience self.0 }
    {
        self.0 + 2
    }
}

impl<X: Drop, B: Drop, C: Drop, A: Drop> Turn<X, B, C, A> {
    pub(crate) fn leads(&self) -> bool
        ensures { result ≡ (the_lead self.now.house.memory.lead == suc self.now.house.agreeing.promised.0) }
    {
        matches!(self.house.memory.lead, Some(ballot) if ballot == self.house.agreeing.promised)
    }

    // The bundle under way is sent again.
    fn resend(mut self) -> Self
        ensures { the_turn result ≡ resend (the_turn self) }
    {
        self.sends.bundle = true;
        self
    }

    fn elects(mut self, ballot: Ballot) -> Self
        ensures { the_turn result ≡ elects ballot.0 (the_turn self) }
    {
        self.house.memory.quiet = 0;
        self.raised(ballot).saying()
    }

    // Who heard no leader for so many ticks takes the next ballot.
    #[tactic(auto, unfolding(crate::specs::Copy::elect))]
    fn elect(mut self) -> Self
        requires copy { self.house.memory.me.0 < 3 }
        requires promised { self.house.agreeing.promised.0 < 2 ^ 62 }
        requires quiet { self.house.memory.quiet < 2 ^ 62 }
        ensures { the_turn result ≡ elect (the_turn self) }
    {
        let me = self.house.memory.me;
        let quiet = self.house.memory.quiet + 1;
        if quiet >= me.patience() {
            let ballot = self.house.agreeing.promised.next_of(me);
            return self.elects(ballot);
        }
        self.house.memory.quiet = quiet;
        self
    }

    #[tactic(auto, unfolding(crate::specs::Copy::stirs))]
    fn stirs(self) -> Self
        requires copy { self.house.memory.me.0 < 3 }
        requires promised { self.house.agreeing.promised.0 < 2 ^ 62 }
        requires quiet { self.house.memory.quiet < 2 ^ 62 }
        ensures { the_turn result ≡ stirs (the_recovery self.house.agreeing.recovery) (the_turn self) }
    {
        match self.house.agreeing.recovery {
            Recovery::Level if self.leads() => self.saying(),
            Recovery::Level => self.elect(),
            Recovery::Recovers { .. } => {
                let pass = Pass {
                    asked: false,
                    ..self.house.memory.pass
                };
                self.passing(pass).saying()
            }
        }
    }

    #[tactic(auto, unfolding(crate::specs::Copy::on_tick))]
    pub(crate) fn on_tick(self) -> Self
        requires promised { self.house.agreeing.promised.0 < 2 ^ 62 }
        requires quiet { self.house.memory.quiet < 2 ^ 62 }
        ensures { the_turn result ≡ on_tick (the_turn self) }
    {
        let turn = self.resend();
        if turn.house.memory.me.has_copy() {
            turn.stirs()
        } else {
            turn
        }
    }
}
