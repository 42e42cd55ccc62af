// Plays a script of calls and prints what each is answered.
#![tactic(auto)]

mod script;

use lines::hex::Hex;
use octets::SECTOR_BYTES;
use place::one_place::OnePlace;
use script::{LEAST_HOUSES, LEAST_SECTORS, Step, parse};
use std::{fmt, io};
use wire::answer::Answer;

#[derive(Drop)]
struct Rehearsal {
    houses: u64,
    place: OnePlace,
}

// A sector in words: its byte where all are the same, else all of it.
#[derive(Clone, Copy)]
struct Content<'a>(&'a [u8; SECTOR_BYTES]);

impl fmt::Display for Content<'_> {
    fn fmt<W: fmt::Write>(&self, f: &mut fmt::Formatter<W>) -> fmt::Result {
        let content = self.0;
        let first = content[0];
        if content.iter().all(|b| *b == first) {
            write!(f, "{first:02x}")
        } else {
            write!(f, "{}", Hex(content))
        }
    }
}

// An answer in words.
#[derive(Clone, Copy)]
struct Reply<'a>(Answer<'a>);

impl fmt::Display for Reply<'_> {
    fn fmt<W: fmt::Write>(&self, f: &mut fmt::Formatter<W>) -> fmt::Result {
        match self.0 {
            Answer::Refused(refusal) => write!(f, "refused {}", u8::from(refusal)),
            Answer::Yes => f.write_str("yes"),
            Answer::Number(n) => write!(f, "number {n}"),
            Answer::Token(token, size) => write!(f, "token {} size {}", token.0, size.0),
            Answer::Sector(content) => write!(f, "sector {}", Content(content)),
            Answer::Full => f.write_str("full"),
        }
    }
}

fn print_answer(rt: &HostRuntime, bytes: &[u8]) -> io::Result<()> {
    match Answer::decode(bytes) {
        Some(answer) => println!(rt; "{}", Reply(answer)),
        None => println!(rt; "no answer"),
    }
}

// Plays one step.
fn play(rt: &HostRuntime, rehearsal: &mut Rehearsal, at: u64, step: Step) -> io::Result<()> {
    match step {
        Step::Network => println!(rt; "line {at}: not played yet"),
        Step::Houses(houses, sectors) => {
            rehearsal.houses = houses;
            rehearsal.place = OnePlace::new(rt.alloc(), sectors)?;
            Ok(())
        }
        Step::At(house, _) if house >= rehearsal.houses => println!(rt; "line {at}: no such house"),
        Step::At(_, call) => {
            let answer = rehearsal.place.answer(rt.alloc(), call.as_slice())?;
            print_answer(rt, answer.as_slice())
        }
    }
}

fn run(rt: &HostRuntime) -> anyhow::Result<()> {
    let place = OnePlace::new(rt.alloc(), LEAST_SECTORS)?;
    let mut rehearsal = Rehearsal {
        houses: LEAST_HOUSES,
        place,
    };
    // A line that is not understood is reported with its number, and the next one is read.
    for (at, line) in (1u64..).zip(rt.lines(rt.alloc())) {
        match parse(rt.alloc(), line?.as_str()) {
            Ok(None) => {}
            Ok(Some(step)) => play(rt, &mut rehearsal, at, step)?,
            Err(error) => println!(rt; "line {at}: {error}")?,
        }
    }
    Ok(())
}

fn main(rt: HostRuntime) -> anyhow::Result<()> {
    run(&rt)
}
