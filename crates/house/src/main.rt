// Runs one house on the file `device`: lines in, packets and answers out.
#![tactic(auto)]

ghost use Rattle.std.specs.Prelude.{◌≡◌};
ghost use Rattle.house.specs.Places.{place_of};

mod input;
mod station;

use anyhow::anyhow;
use houses::event::Output;
use input::next_line;
use lines::hex::Hex;
use lines::line::{LineError, parse};
use station::Station;
use std::io::{BufReader, BufWriter, Write};
use std::{env, io};
use wire::number::*;
use wire::refusal::Refusal;

// How many houses there may be.
const LEAST_HOUSES: u8 = 3;

const MOST_HOUSES: u8 = 49;

// Which house this is, and how many there are.
#[derive(Clone, Copy)]
pub(crate) struct Place {
    me: House,
    houses: u8,
}

impl Place {
    fn new(me: u8, houses: u8) -> Option<Place>
        ensures { result ≡ place_of me houses }
    {
        if !(LEAST_HOUSES..=MOST_HOUSES).contains(&houses) || me >= houses {
            return None;
        }
        Some(Place {
            me: House(me),
            houses,
        })
    }
}

fn usage() -> anyhow::Error {
    anyhow!(
        "usage: house NUMBER HOUSES [SIZE], with 3 to 49 houses and a number below that; a device that isn't there is made, of SIZE sectors"
    )
}

// Which house this is, and the size of a device that is to be made, by the command line.
fn named(rt: &HostRuntime) -> anyhow::Result<(Place, Option<u64>)> {
    let mut words = env::args(rt)?.skip(1);
    let me = words.next().ok_or_else(usage)?;
    let houses = words.next().ok_or_else(usage)?;
    let size = words.next();
    if words.next().is_some() {
        return Err(usage());
    }
    let me = me.parse().map_err(|_| usage())?;
    let houses = houses.parse().map_err(|_| usage())?;
    let size = match size {
        Some(word) => Some(word.parse().map_err(|_| usage())?),
        None => None,
    };
    Ok((Place::new(me, houses).ok_or_else(usage)?, size))
}

// Prints `to J HEX` or `answer N HEX`.
fn print_output<W: Write>(out: &mut W, output: &Output) -> io::Result<()> {
    match output {
        Output::Packet(to, bytes) => writeln!(out, "to {} {}", to.0, Hex(bytes.as_slice())),
        Output::Answer(id, bytes) => writeln!(out, "answer {} {}", id.0, Hex(bytes.as_slice())),
    }
}

// Prints what a line leads to.
fn obey<W: Write>(
    rt: &HostRuntime,
    out: &mut W,
    station: &mut Station,
    line: Result<Vec<u8>, LineError>,
) -> anyhow::Result<()> {
    let told = match line {
        Ok(line) => parse(rt.alloc(), line.as_slice(), station.houses()),
        Err(e) => Err(e),
    };
    match told {
        Ok(line) => {
            for output in &station.does(rt, line) {
                print_output(out, output)?;
            }
        }
        Err(_) => writeln!(out, "refused {}", u8::from(Refusal::Malformed))?,
    }
    Ok(())
}

fn run(rt: &HostRuntime) -> anyhow::Result<()> {
    let (place, size) = named(rt)?;
    let mut station = Station::new(rt, place, size)?;
    let mut input = BufReader::new(rt.alloc(), rt.stdin())?;
    let mut out = BufWriter::new(rt.alloc(), rt.stdout())?;

    // A count, since each loop has to end: an iterator of its own would have to carry one.
    for _ in 0..u64::MAX {
        let Some(line) = next_line(rt.alloc(), &mut input)? else {
            break;
        };
        obey(rt, &mut out, &mut station, line)?;
        writeln!(out, "done")?;
        out.flush()?;
    }
    Ok(())
}

fn main(rt: HostRuntime) -> anyhow::Result<()> {
    run(&rt)
}
