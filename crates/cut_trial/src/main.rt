// Plays transactions by chance on a disk in memory whose power fails at any request, and compares what is found with a plain array.
#![tactic(auto)]

mod model;

use anyhow::{Context, anyhow};
use arguments::two;
use device::disk::Failed;
use device::get::get;
use device::open::open;
use device::put::put;
use journal::GUARDED;
use journal::state::{Journal, Write};
use memory_disk::MemoryDisk;
use memory_disk::random::Random;
use model::{Model, PLAYED, transaction};
use std::alloc::Global;
use std::{env, fmt};

const SIZE: u64 = 8192;

// Opening is cut among its last reads of the journal or behind them, where it writes; all before is reads alone.
const LAST_READS: u64 = 960;

const USAGE: &str = "usage: cut_trial SEED CUTS";

const WRONG: &str = "what was found is neither before nor after the transaction that was cut";

// What is printed is this alone: an error behind it would be printed too.
const REFUSED: &str = "the journal refused";

#[derive(Clone, Copy, Default)]
struct Counts {
    cut_opening: u64,
    cut_putting: u64,
    cut_between: u64,
    done: u64,
    lost: u64,
    kept: u64,
}

#[derive(Drop)]
struct Trial {
    disk: MemoryDisk,
    model: Model,
    random: Random,
    counts: Counts,
}

impl fmt::Display for Counts {
    fn fmt<W: fmt::Write>(&self, f: &mut fmt::Formatter<W>) -> fmt::Result {
        writeln!(
            f,
            "while opening {}, while putting {}, between {}",
            self.cut_opening, self.cut_putting, self.cut_between
        )?;
        write!(
            f,
            "transactions done {}, cut and lost {}, cut and whole {}",
            self.done, self.lost, self.kept
        )
    }
}

// Counts one more.
fn count(n: &mut u64) {
    *n = n.saturating_add(1);
}

impl Trial {
    // The power fails now.
    fn fail(&mut self) {
        let seed = self.random.next();
        self.disk.cut(seed);
    }

    // Whether the device shows the array with these writes done.
    fn shows(&mut self, journal: &Journal, writes: &[Write]) -> anyhow::Result<bool> {
        for i in 0..PLAYED {
            match get(journal, &mut self.disk, Model::place(i)) {
                Ok(bytes) if self.model.holds(i, writes, &bytes) => {}
                Ok(_) | Err(Failed::Refused(_)) => return Ok(false),
                Err(Failed::Disk(_)) => return Err(anyhow!("a read failed")),
            }
        }
        Ok(true)
    }

    // Opens until it is opened; sometimes the power fails in the midst.
    fn opened(&mut self) -> anyhow::Result<Journal> {
        for _ in 0..1000u64 {
            if self.random.below(3) == 0 {
                let n = GUARDED - LAST_READS + self.random.below(2400);
                self.disk.fail_after(n);
            }
            match open(&mut self.disk, SIZE) {
                Ok(journal) => return Ok(journal),
                Err(Failed::Refused(_)) => return Err(anyhow!("{REFUSED}")),
                Err(Failed::Disk(_)) => {
                    count(&mut self.counts.cut_opening);
                    self.fail();
                }
            }
        }
        Err(anyhow!("it was cut a thousand times while it opened"))
    }

    // What stands now: the cut transaction is done whole, or not at all.
    fn compare(&mut self, journal: &Journal, cut: Option<&[Write]>) -> anyhow::Result<()> {
        self.disk.fail_after(u64::MAX);
        if self.shows(journal, &[])? {
            if cut.is_some() {
                count(&mut self.counts.lost);
            }
            return Ok(());
        }
        let writes = cut.context(WRONG)?;
        if !self.shows(journal, writes)? {
            return Err(anyhow!("{WRONG}"));
        }
        count(&mut self.counts.kept);
        self.model.put(writes);
        Ok(())
    }

    // Some transactions, until the power fails; the one that was cut, if one was.
    fn play(&mut self, heap: Global, journal: &mut Journal) -> anyhow::Result<Option<Vec<Write>>> {
        let n = self.random.below(400);
        self.disk.fail_after(n);
        for _ in 0..self.random.below(12) {
            let writes = transaction(heap, &mut self.random)?;
            if writes.is_empty() {
                continue;
            }
            match put(journal, &mut self.disk, writes.as_slice()) {
                Ok(()) => {
                    count(&mut self.counts.done);
                    self.model.put(writes.as_slice());
                }
                Err(Failed::Refused(_)) => return Err(anyhow!("{REFUSED}")),
                Err(Failed::Disk(_)) => {
                    count(&mut self.counts.cut_putting);
                    return Ok(Some(writes));
                }
            }
        }
        count(&mut self.counts.cut_between);
        Ok(None)
    }
}

// The seed and how many cuts, by the command line.
fn asked(rt: &HostRuntime) -> anyhow::Result<(u64, u64)> {
    let mut words = env::args(rt)?.skip(1);
    two(&mut words).context(USAGE)
}

fn run(rt: &HostRuntime) -> anyhow::Result<()> {
    let (seed, cuts) = asked(rt)?;
    let heap = rt.alloc();
    let mut trial = Trial {
        disk: MemoryDisk::new(heap, SIZE),
        model: Model::new(heap)?,
        random: Random::new(seed),
        counts: Counts::default(),
    };
    let mut cut: Option<Vec<Write>> = None;
    for _ in 0..cuts {
        let mut journal = trial.opened()?;
        trial.compare(&journal, cut.as_deref())?;
        cut = trial.play(heap, &mut journal)?;
        trial.fail();
    }
    println!(rt; "cuts {cuts}")?;
    println!(rt; "{}", trial.counts)?;
    Ok(())
}

fn main(rt: HostRuntime) -> anyhow::Result<()> {
    run(&rt)
}
