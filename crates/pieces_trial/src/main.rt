// Plays writes, droppings and reopenings by chance against a plain map, then two directories of which one catches up from the other; and fills
// a device to twice its room, densely and sparsely.
#![tactic(auto)]

mod catching;
mod chances;
mod compare;
mod gone;
mod part;
mod plays;
mod trial;

use anyhow::Context;
use arguments::two;
use catching::catching;
use plays::{dense, random, sparse};
use std::env;

const USAGE: &str = "usage: pieces_trial SEED STEPS";

// The seed and how many steps, by the command line.
fn asked(rt: &HostRuntime) -> anyhow::Result<(u64, u64)> {
    let mut words = env::args(rt)?.skip(1);
    two(&mut words).context(USAGE)
}

fn run(rt: &HostRuntime) -> anyhow::Result<()> {
    let (seed, steps) = asked(rt)?;
    let heap = rt.alloc();
    let counts = random(heap, seed, steps)?;
    println!(rt; "steps {steps}: {counts}")?;
    let counts = catching(heap, seed, steps)?;
    println!(rt; "of two {counts}")?;
    let (places, markers) = dense(heap)?;
    println!(rt; "dense: {places} sectors fit, one more doesn't; {markers} blocks changed")?;
    let (places, floor) = sparse(heap)?;
    println!(rt;
        "one sector in each piece: {places} fit, one more doesn't; the floor rises to {floor}"
    )?;
    Ok(())
}

fn main(rt: HostRuntime) -> anyhow::Result<()> {
    run(&rt)
}
