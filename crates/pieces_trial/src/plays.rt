// What is played: writes, droppings, reopenings and beginnings by chance, and a device filled to twice its room.
ghost use Rattle.std.specs.Prelude.{◌≡◌, IfOk};

use crate::chances::{address, index};
use crate::trial::{Counts, Trial};
use anyhow::anyhow;
use memory_disk::random::Random;
use std::alloc::Global;
use wire::number::*;

// How far apart the sectors of the sparse filling stand: a piece.
const APART: u64 = 8192;

// After how many of them it is loaded again: loading looks through all pieces for each entry.
const REOPENED: u64 = 4000;

pub fn random(heap: Global, seed: u64, steps: u64) -> anyhow::Result<Counts> {
    let mut random = Random::new(seed);
    let mut trial = Trial::with_volumes(heap)?;
    for _ in 0..steps {
        match random.below(800) {
            0..=3 => {
                trial.open()?;
                trial.compare()?;
            }
            4..=6 => trial.forget(index(&mut random))?,
            7 => trial.forget_some(&mut random)?,
            8 => trial.begin_again()?,
            _ => trial.change(&mut random)?,
        }
    }
    let half = trial.version / 2;
    trial.compare_listed(0)?;
    trial.compare_listed(half)?;
    Ok(trial.counts)
}

// One sector behind the other, until there is no room; where some are zeros again as many others fit.
pub fn dense(heap: Global) -> anyhow::Result<(u64, u64)>
    ensures { IfOk result (λ p. p.0 ≡ 31744) }
{
    let mut trial = Trial::new(heap)?;
    let places = trial.pieces.layout().places();
    trial.make()?;
    for sector in 0..places {
        if !trial.set(address(Volume(1), sector), 7)? {
            return Err(anyhow!("it is full too early"));
        }
    }
    if trial.set(address(Volume(1), places), 7)? {
        return Err(anyhow!("more fits than there are places"));
    }
    for sector in 0..100 {
        if !trial.set(address(Volume(1), sector), 0)?
            || !trial.set(address(Volume(1), sector.wrapping_add(places)), 8)?
        {
            return Err(anyhow!("what was given back isn't found"));
        }
    }
    trial.open()?;
    trial.compare()?;
    let since = trial.version.saturating_sub(200);
    Ok((places, trial.compare_listed(since)?))
}

// One sector in each piece, until there is no room; then some are zeros, and another volume's take their entries.
pub fn sparse(heap: Global) -> anyhow::Result<(u64, u64)> {
    let mut trial = Trial::new(heap)?;
    trial.make()?;
    trial.make()?;
    let places = trial.pieces.layout().places();
    for piece in 0..places {
        if !trial.set(address(Volume(1), piece.wrapping_mul(APART)), 7)? {
            return Err(anyhow!("it is full too early"));
        }
        if piece == REOPENED {
            trial.open()?;
            trial.compare()?;
        }
    }
    if trial.set(address(Volume(2), 0), 7)? {
        return Err(anyhow!("more fits than there are places"));
    }
    for piece in 0..500 {
        if !trial.set(address(Volume(1), piece * APART), 0)? {
            return Err(anyhow!("zeros need no room"));
        }
    }
    for piece in 0..500 {
        if !trial.set(address(Volume(2), piece * APART), 9)? {
            return Err(anyhow!("no marker is given up"));
        }
    }
    for piece in 0..1000 {
        trial.shows(address(Volume(1), piece * APART))?;
        trial.shows(address(Volume(2), piece * APART))?;
    }
    Ok((places, trial.floor.0))
}
