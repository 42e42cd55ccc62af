// Writes to the file `device`, for a script that takes the time: so many transactions of so many sectors, or as often one sector and a sync.
#![tactic(auto)]

use anyhow::{Context, anyhow};
use arguments::two;
use device::disk::{Disk, Fault};
use device::open::open;
use device::put::put;
use file_disk::disk::FileDisk;
use journal::state::Write;
use journal::{GUARDED, MOST_WRITES, Place};
use octets::BLANK_SECTOR;
use std::alloc::{AllocError, Global};
use std::env;
use std::fs::{File, OpenOptions};

const SIZE: u64 = 8192;

const USAGE: &str =
    "usage: device_bench SECTORS TIMES, with 1 to 1600 sectors in a transaction, or 0 for a bare write and sync";

const FAILED: &str = "the device failed";

// How many sectors and how often, by the command line.
fn asked(rt: &HostRuntime) -> anyhow::Result<(u16, u64)> {
    let mut words = env::args(rt)?.skip(1);
    let (sectors, times): (u16, u64) = two(&mut words).context(USAGE)?;
    if usize::from(sectors) > MOST_WRITES {
        return Err(anyhow!("{USAGE}"));
    }
    Ok((sectors, times))
}

// One sector and a sync, so many times.
fn bare(disk: &mut FileDisk<File>, times: u64) -> Result<(), Fault> {
    for _ in 0..times {
        disk.write(Place(GUARDED), &BLANK_SECTOR)?;
        disk.sync()?;
    }
    Ok(())
}

// Transactions of these writes, so many times.
fn transactions(disk: &mut FileDisk<File>, writes: &[Write], times: u64) -> anyhow::Result<()> {
    let mut journal = open(disk, SIZE).map_err(failed)?;
    for _ in 0..times {
        put(&mut journal, disk, writes).map_err(failed)?;
    }
    Ok(())
}

// What is printed is this alone, whatever failed: a cause behind it would be printed too.
fn failed<E: Drop>(_: E) -> anyhow::Error {
    anyhow!("{FAILED}")
}

// Blank sectors, the first that the journal guards.
fn blank_writes(heap: Global, sectors: u16) -> Result<Vec<Write>, AllocError> {
    (0..u64::from(sectors))
        .map(|i| Write {
            target: Place(GUARDED + i),
            bytes: BLANK_SECTOR,
        })
        .collect(heap)
}

fn run(rt: &HostRuntime) -> anyhow::Result<()> {
    let (sectors, times) = asked(rt)?;
    // As `house` opens it: a crate below both for this chain alone would be no plainer.
    let file = OpenOptions::new()
        .read(true)
        .write(true)
        .open(rt, "device")
        .map_err(|_| anyhow!("the file `device` cannot be opened in this folder"))?;
    let mut disk = FileDisk::new(file);
    let writes = blank_writes(rt.alloc(), sectors)?;
    if writes.is_empty() {
        bare(&mut disk, times).map_err(failed)?;
    } else {
        transactions(&mut disk, writes.as_slice(), times)?;
    }
    println!(rt; "done {times}")?;
    Ok(())
}

fn main(rt: HostRuntime) -> anyhow::Result<()> {
    run(&rt)
}
