// What of the writes since the last sync stays at a cut, by a seed.
ghost use Rattle.std.specs.Prelude.{◌≡◌, ◌%◌, nat_lt};
ghost use Rattle.memory_disk.specs.Chances.{stepped, mixed, drawn, Drew};

use crate::random::Random;

// Odds are counted in eighths.
const WHOLE: u64 = 8;

// odds: how many of eight writes stay. They are drawn first, from none to all, so that a cut may lose everything or nothing.
#[derive(Drop)]
pub struct Chance {
    random: Random,
    odds: u64,
}

impl Chance {
    pub fn new(seed: u64) -> Chance
        ensures state { result.random.state ≡ stepped seed }
        ensures odds { result.odds ≡ mixed (stepped seed) % 9 }
    {
        let mut random = Random::new(seed);
        let odds = random.below(WHOLE + 1);
        Chance { random, odds }
    }

    // Whether the next write stays.
    pub fn stays(&mut self) -> bool
        ensures value { result ≡ nat_lt (drawn self.old.random % 8) self.old.odds }
        ensures state { Drew self.old.random self.new.random }
        ensures odds { self.new.odds ≡ self.old.odds }
    {
        self.random.below(WHOLE) < self.odds
    }
}
