// A house does an event: what comes is heard, places are read, work is done, all is stored in one transaction, and then it is sent.
ghost use Rattle.device.specs.Does.{Act, over};
ghost use Rattle.houses.specs.Acts.{Stored, Goes};

use crate::event::{Event, Output};
use crate::house::{House, Stopped};
use crate::reading::{read_all, stops};
use crate::storing::{broken, stored};
use crate::turning::{Asked, Ended, Started, starts};
use device::disk::{Disk, Failed};
use journal::state::Journal;
use packets::identity::Identity;
use std::alloc::Global;

// What an event leaves.
#[derive(Drop)]
pub struct Done {
    pub house: House,
    pub outputs: Vec<Output>,
}

// What was to be stored is stored, and what is to be sent is told.
#[tactic(auto, using(crate::proofs::Acting::acting))]
fn stores<D: Disk>(
    disk: &mut D,
    mut journal: Journal,
    identity: Identity,
    ended: Ended,
) -> Result<Done, Failed<Stopped>>
    ensures { Stored D.did journal ended.writes.items disk.old (over (λ d. d.house.journal) result) disk.new }
{
    match stored(&mut journal, disk, &ended.writes) {
        Ok(()) => Ok(Done {
            house: House {
                journal,
                identity,
                copy: ended.copy,
                store: ended.store,
            },
            outputs: ended.outputs,
        }),
        Err(failed) => Err(broken(failed)),
    }
}

// Places are read, and all is done that is left to do.
#[tactic(auto, using(crate::proofs::Acting::acting))]
fn goes<D: Disk>(
    disk: &mut D,
    heap: Global,
    journal: Journal,
    identity: Identity,
    asked: Asked,
) -> Result<Done, Failed<Stopped>>
    ensures { Goes D.did journal disk.old (over (λ d. d.house.journal) result) disk.new }
{
    let sectors = read_all(disk, heap, &asked.places)?;
    match asked.ends(heap, &sectors) {
        Ok(ended) => stores(disk, journal, identity, ended),
        Err(stopped) => Err(stops(disk, stopped)),
    }
}

impl House {
    // Where it fails the house is gone: it comes up anew from its device.
    #[tactic(auto, using(crate::proofs::Acting::acting))]
    pub fn does<D: Disk>(
        self,
        disk: &mut D,
        heap: Global,
        event: Event,
    ) -> Result<Done, Failed<Stopped>>
        ensures { Goes D.did self.journal disk.old (over (λ d. d.house.journal) result) disk.new }
    {
        let House {
            journal,
            identity,
            copy,
            store,
        } = self;
        match starts(heap, copy, store, event) {
            Ok(Started::Over(copy, store, outputs)) => Ok(Done {
                house: House {
                    journal,
                    identity,
                    copy,
                    store,
                },
                outputs,
            }),
            Ok(Started::Asked(asked)) => goes(disk, heap, journal, identity, asked),
            Err(stopped) => Err(stops(disk, stopped)),
        }
    }
}
