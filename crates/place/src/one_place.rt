// The one place: heads, and what sectors hold.
ghost use Rattle.std.specs.Prelude.{◌≡◌, IfOk, OnOk};
ghost use Rattle.volumes.specs.Simulation.{blank_store, needed, read_at, room_left};
ghost use Rattle.volumes.specs.Service.{the_change};
ghost use Rattle.wire.specs.Calls.{the_call, decoded};
ghost use Rattle.wire.specs.Kinds.{is_built};
ghost use Rattle.place.specs.Places.{the_store, Keeps, Played, Answered};

use crate::sectors::Sectors;
use octets::{BLANK_SECTOR, SECTOR_BYTES};
use std::alloc::{AllocError, Global};
use volumes::outcome::Change;
use volumes::service::needs;
use volumes::volumes::Volumes;
use wire::answer::Answer;
use wire::call::Call;

#[derive(Drop)]
pub struct OnePlace {
    volumes: Volumes,
    sectors: Sectors,
}

impl OnePlace {
    // No volumes yet, with the room that houses' devices of so many sectors leave.
    pub fn new(heap: Global, sectors: u64) -> Result<OnePlace, AllocError>
        ensures { IfOk result (λ p. (the_store p ≡ blank_store) × (p.volumes.room ≡ room_left sectors)) }
    {
        let volumes = Volumes::new(heap, sectors)?;
        Ok(OnePlace {
            volumes,
            sectors: Sectors::new(heap),
        })
    }

    pub fn weight(&self) -> u64
        ensures { result ≡ self.now.volumes.weight }
    {
        self.volumes.weight()
    }

    // What the sector holds that a call needs.
    #[tactic(auto, unfolding(disks::specs::Device::zeros))]
    pub fn fetch(&self, call: &Call) -> [u8; SECTOR_BYTES]
        ensures { result ≡ read_at (needed (the_call call.now)) (the_store self.now).sector }
    {
        match needs(call) {
            Some(at) => self.sectors.read(at),
            None => BLANK_SECTOR,
        }
    }

    // Does to sectors what a call changed.
    fn keep(&mut self, heap: Global, change: Option<Change>) -> Result<(), AllocError>
        ensures { OnOk result (Keeps self.old (the_change change.entry) self.new) }
    {
        match change {
            Some(Change::Put(at, content)) => self.sectors.put(heap, at, content),
            Some(Change::Forget(volume)) => {
                self.sectors.forget(volume);
                Ok(())
            }
            None => Ok(()),
        }
    }

    // Plays a call for which this was fetched, and gives the answer's bytes.
    // Where memory fails nothing is said of what is left: such a place is dropped.
    // `call` and `read` stay two parameters, as in `Volumes::exec`.
    pub fn play<'a>(
        &mut self,
        heap: Global,
        call: Call<'a>,
        read: &'a [u8; SECTOR_BYTES],
    ) -> Result<Vec<u8>, AllocError>
        ensures { IfOk result (λ v. Played self.old (the_call call.entry) read.now v.items self.new) }
    {
        let outcome = self.volumes.exec(call, read);
        let answer = outcome.answer.encode(heap)?;
        self.keep(heap, outcome.change)?;
        Ok(answer)
    }

    // What bytes that a customer sent are answered, as bytes.
    pub fn answer(&mut self, heap: Global, bytes: &[u8]) -> Result<Vec<u8>, AllocError>
        ensures { IfOk result (λ v. Answered self.old (decoded is_built bytes.now) v.items self.new) }
    {
        let own = Vec::from_slice(heap, bytes)?;
        match Call::decode(own.as_slice()) {
            Ok(call) => {
                let read = self.fetch(&call);
                self.play(heap, call, &read)
            }
            Err(refusal) => Answer::Refused(refusal).encode(heap),
        }
    }
}
