// Sets one sector in each of so many pieces, then sets and finds them by chance, for a script that takes the time from one line to the next.
#![tactic(auto)]

ghost use Rattle.std.specs.Prelude.{◌≡◌, ◌+◌, ◌*◌, ◌/◌, ◌%◌, ◌≤◌, MatchOption};
ghost use Rattle.pieces.specs.Layouts.{places_of};

use anyhow::{Context, anyhow};
use arguments::two;
use memory_disk::random::Random;
use octets::{BLANK_SECTOR, SECTOR_BYTES};
use pieces::entry::Stamp;
use pieces::layout::{LEAST_SIZE, Layout};
use pieces::state::Pieces;
use std::alloc::Global;
use std::env;
use wire::number::*;

// Each takes 8 KiB of memory.
const MOST_PIECES: u64 = 100_000;

const PIECE_SECTORS: u64 = 8192;

// How many pieces a volume has.
const VOLUME_PIECES: u64 = 1024;

// The seed with which the second program begins, too.
const SEED: u64 = 0x9e37_79b9_7f4a_7c15;

// One set out of so many is of zeros.
const BLANKS: u64 = 8;

const FILLED_SECTOR: [u8; SECTOR_BYTES] = [7; SECTOR_BYTES];

const USAGE: &str = "usage: pieces_bench PIECES TIMES, with 1 to 100000 pieces";

#[derive(Drop)]
struct Bench {
    heap: Global,
    pieces: Pieces,
    count: u64,
    version: u64,
    random: Random,
}

// How many pieces and how often, by the command line.
fn asked(rt: &HostRuntime) -> anyhow::Result<(u64, u64)> {
    let mut words = env::args(rt)?.skip(1);
    let (count, times): (u64, u64) = two(&mut words).context(USAGE)?;
    if (1..=MOST_PIECES).contains(&count) {
        Ok((count, times))
    } else {
        Err(anyhow!("{USAGE}"))
    }
}

// The sector that is set in a piece: in each at another place.
fn address(piece: u64) -> Address
    ensures volume { result.volume.0 ≡ piece / 1024 + 1 }
    ensures sector { result.sector.0 ≡ 8192 * (piece % 1024) + piece % 8192 }
{
    Address {
        volume: Volume(piece / VOLUME_PIECES + 1),
        sector: Sector(PIECE_SECTORS * (piece % VOLUME_PIECES) + piece % PIECE_SECTORS),
    }
}

// A device on which so many sectors fit.
fn layout_for(count: u64) -> Option<Layout>
    requires { count ≤ 100000 }
    ensures { MatchOption result ⊥ (λ l. count ≤ places_of l.size) }
{
    Layout::of(LEAST_SIZE.max(2 * count + 4096))
}

impl Bench {
    fn new(heap: Global, count: u64) -> anyhow::Result<Bench> {
        let layout = layout_for(count.min(MOST_PIECES)).context(USAGE)?;
        Ok(Bench {
            heap,
            pieces: Pieces::new(heap, layout)?,
            count,
            version: 0,
            random: Random::new(SEED),
        })
    }

    fn set(&mut self, piece: u64, sector: &[u8; SECTOR_BYTES]) -> anyhow::Result<()> {
        self.version = self.version.saturating_add(1);
        let stamp = Stamp(self.version);
        match self.pieces.set(self.heap, address(piece), sector, stamp) {
            Ok(_) => Ok(()),
            Err(_) => Err(anyhow!("there is no room, or no memory")),
        }
    }

    fn fill(&mut self) -> anyhow::Result<()> {
        for piece in 0..self.count {
            self.set(piece, &FILLED_SECTOR)?;
        }
        Ok(())
    }

    // How many of the sets are of zeros.
    fn set_by_chance(&mut self, times: u64) -> anyhow::Result<u64> {
        let mut blanks = 0u64;
        for _ in 0..times {
            let piece = self.random.below(self.count);
            if self.random.below(BLANKS) == 0 {
                self.set(piece, &BLANK_SECTOR)?;
                blanks = blanks.saturating_add(1);
            } else {
                self.set(piece, &FILLED_SECTOR)?;
            }
        }
        Ok(blanks)
    }

    // How many of the finds find a place.
    fn find_by_chance(&mut self, times: u64) -> u64 {
        let mut found = 0u64;
        for _ in 0..times {
            let piece = self.random.below(self.count);
            if self.pieces.find(address(piece)).is_some() {
                found = found.saturating_add(1);
            }
        }
        found
    }
}

fn run(rt: &HostRuntime) -> anyhow::Result<()> {
    let (count, times) = asked(rt)?;
    let mut bench = Bench::new(rt.alloc(), count)?;
    println!(rt; "begun")?;
    bench.fill()?;
    println!(rt; "filled: {count}")?;
    let blanks = bench.set_by_chance(times)?;
    println!(rt; "set: {times}, of these zeros {blanks}")?;
    let found = bench.find_by_chance(times);
    println!(rt; "sought: {times}, found {found}")?;
    Ok(())
}

fn main(rt: HostRuntime) -> anyhow::Result<()> {
    run(&rt)
}
