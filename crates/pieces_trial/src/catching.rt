// Two directories: one changes, and the other catches up in parts, of what changed or of all. Sometimes it went its own way before.
ghost use Rattle.std.specs.Prelude.{◌≡◌, ◌≤◌, Some, None, MatchOption};

use crate::chances::index;
use crate::part::{FIRST, Part};
use crate::trial::{Trial, count};
use anyhow::anyhow;
use memory_disk::random::Random;
use std::alloc::Global;
use std::fmt;

// After so many passes it should have come to an end.
const MOST_PASSES: u64 = 1000;

// How many sectors are set while it goes its own way.
const OWN_CHANGES: u64 = 600;

#[derive(Clone, Copy, Default)]
pub struct Counts {
    level: u64,
    passes: u64,
    parts: u64,
    whole: u64,
    blocks: u64,
    opened: u64,
    begun: u64,
    compared: u64,
}

impl Counts {
    // A part is taken over.
    fn add(&mut self, part: &Part) {
        count(&mut self.parts);
        if part.whole {
            count(&mut self.whole);
        }
        self.blocks = self.blocks.saturating_add(part.blocks.len() as u64);
    }
}

impl fmt::Display for Counts {
    fn fmt<W: fmt::Write>(&self, f: &mut fmt::Formatter<W>) -> fmt::Result {
        write!(
            f,
            "caught up {}, passes {}, parts {}, of these whole {}, blocks {}, opened within {}, begun from nothing {}, sectors compared {}",
            self.level,
            self.passes,
            self.parts,
            self.whole,
            self.blocks,
            self.opened,
            self.begun,
            self.compared
        )
    }
}

// base: each block of the one that is behind is as it was at that version of the other's, or later; none if it went its own way.
#[derive(Drop)]
struct Pair {
    ahead: Trial,
    behind: Trial,
    base: Option<u64>,
    random: Random,
    counts: Counts,
}

impl Pair {
    // From which version on the changes are enough; sometimes all is asked for anyway.
    fn since(&mut self) -> Option<u64>
        ensures base { MatchOption result Unit (λ s. self.old.base ≡ Some s) }
        ensures floor { MatchOption result Unit (λ s. self.old.ahead.floor.0 ≤ s) }
    {
        let all = self.random.below(4) == 0;
        match self.base {
            Some(base) if !all && base >= self.ahead.floor.0 => Some(base),
            _ => None,
        }
    }

    // The one that is behind begins again from nothing.
    fn begin_again(&mut self) -> anyhow::Result<()>
        ensures { self.new.base ≡ Some 0 }
    {
        count(&mut self.counts.begun);
        self.base = Some(0);
        self.behind.begin_again()
    }

    // Between two parts: the other changes, or this one is loaded, which forgets where it was. Whether it goes on.
    fn between(&mut self) -> anyhow::Result<bool> {
        match self.random.below(64) {
            0..=7 => self.ahead.change(&mut self.random)?,
            8 => self.ahead.forget_some(&mut self.random)?,
            9..=12 => {
                count(&mut self.counts.opened);
                self.behind.open()?;
                self.behind.compare()?;
                return Ok(false);
            }
            _ => {}
        }
        Ok(true)
    }

    // From the first key to the last. Whether it came there.
    fn pass(&mut self) -> anyhow::Result<bool> {
        let mut from = FIRST;
        for _ in 0..u64::MAX {
            let since = self.since();
            let part = self.ahead.part(since, from)?;
            self.counts.add(&part);
            if !self.behind.take(&part)? {
                self.begin_again()?;
                return Ok(false);
            }
            match part.range.next {
                Some(next) => from = next,
                None => break,
            }
            if !self.between()? {
                return Ok(false);
            }
        }
        Ok(true)
    }

    // Until a pass was at one version.
    fn catch_up(&mut self) -> anyhow::Result<()> {
        for _ in 0..MOST_PASSES {
            let version = self.ahead.version;
            count(&mut self.counts.passes);
            if self.pass()? {
                self.base = Some(version);
                if self.ahead.version == version {
                    return self.level();
                }
            }
        }
        Err(anyhow!("it doesn't catch up"))
    }

    // Both are the same, and still when it is loaded.
    fn level(&mut self) -> anyhow::Result<()> {
        count(&mut self.counts.level);
        self.behind.version = self.ahead.version;
        self.behind.live_as(&self.ahead)?;
        self.compare()?;
        self.behind.open()?;
        self.compare()
    }

    fn compare(&mut self) -> anyhow::Result<()> {
        self.behind.compare()?;
        let compared = self.ahead.matches(&self.behind)?;
        self.behind.matches(&self.ahead)?;
        if self.behind.pieces.floor() < self.ahead.pieces.floor() {
            return Err(anyhow!("the floor is below the other's"));
        }
        self.counts.compared = self.counts.compared.saturating_add(compared);
        Ok(())
    }

    // The one that is behind sets sectors that the other doesn't.
    fn stray(&mut self) -> anyhow::Result<()>
        ensures { self.new.base ≡ None }
    {
        self.base = None;
        for _ in 0..OWN_CHANGES {
            self.behind.change(&mut self.random)?;
        }
        Ok(())
    }

    fn step(&mut self) -> anyhow::Result<()> {
        match self.random.below(400) {
            0 => self.ahead.open(),
            1..=2 => self.ahead.forget(index(&mut self.random)),
            3 => self.ahead.forget_some(&mut self.random),
            4 => self.stray(),
            5..=8 => self.catch_up(),
            9 => {
                self.ahead.raise_floor();
                Ok(())
            }
            _ => self.ahead.change(&mut self.random),
        }
    }
}

pub fn catching(heap: Global, seed: u64, steps: u64) -> anyhow::Result<Counts> {
    let mut pair = Pair {
        ahead: Trial::with_volumes(heap)?,
        behind: Trial::with_volumes(heap)?,
        base: Some(0),
        random: Random::new(seed),
        counts: Counts::default(),
    };
    for _ in 0..steps {
        pair.step()?;
    }
    pair.catch_up()?;
    pair.behind.compare_listed(pair.behind.floor.0)?;
    Ok(pair.counts)
}
