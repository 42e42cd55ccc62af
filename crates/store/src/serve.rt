// Calls of a command, one after the other.
ghost use Rattle.std.specs.Prelude.{◌≡◌, ℕ, List, ◌++◌, IfOk, OnOk};
ghost use Rattle.volumes.specs.Service.{the_change};
ghost use Rattle.volumes.specs.Simulation.{read_at, needed};
ghost use Rattle.wire.specs.Calls.{the_call, outcome, is_call};
ghost use Rattle.served.specs.Served.{decoded_call};
ghost use Rattle.pieces.specs.Kept.{the_kept};
ghost use Rattle.store.specs.Serving.{AsTheService, ChangesShow, TakesAsKeeper};
ghost use Rattle.store.specs.Stores.{Stored, the_held, sector_of, the_stored, changes_held, reply, next, DoesHeld, IsOld, SameBut, DoesServe, place_needed, place_of_item, places_of_bundle, places_of_command};

use crate::store::{Store, Unserved};
use copies::agreeing::Command;
use copies::message::{Bundle, Item};
use copies::service::Service;
use octets::{BLANK_SECTOR, SECTOR_BYTES};
use packets::text::Text;
use std::alloc::{AllocError, Global};
use volumes::outcome::Change;
use volumes::service::needs;
use wire::answer::Answer;
use wire::call::Call;
use wire::refusal::Refusal;

// The call that bytes are.
fn decode<'a>(bytes: &'a [u8]) -> Result<Call<'a>, Refusal>
    ensures { outcome result ≡ decoded_call bytes.now }
{
    Call::decode(bytes)
}

impl Store {
    // Which place a call needs.
    fn place_for(&self, call: &Text) -> Option<u64>
        ensures { result ≡ place_needed (decoded_call call.now) (the_kept self.now.pieces) }
    {
        let call = decode(call.as_bytes()).ok()?;
        self.pieces.find(needs(&call)?)
    }

    #[tactic(auto, unfolding(crate::specs::Stores::place_of_item))]
    fn push_place(&self, item: &Item<Text>, places: &mut Vec<u64>) -> Result<(), AllocError>
        ensures { OnOk result (places.new.items ≡ places.old.items ++ place_of_item (the_kept self.now.pieces) item.now) }
    {
        if let Some(place) = self.place_for(&item.call) {
            places.push(place)?;
        }
        Ok(())
    }

    fn push_places(&self, bundle: &Bundle<Text>, places: &mut Vec<u64>) -> Result<(), AllocError>
        ensures { OnOk result (places.new.items ≡ places.old.items ++ places_of_bundle (the_kept self.now.pieces) bundle.now) }
    {
        for item in &bundle.calls {
            self.push_place(item, places)?;
        }
        Ok(())
    }

    // Which places are to be read before a command is done.
    pub fn places_for(&self, heap: Global, command: &Command<Text>) -> Result<Vec<u64>, AllocError>
        ensures { IfOk result (λ v. v.items ≡ places_of_command (the_kept self.now.pieces) command.now.0.items) }
    {
        let mut places = Vec::new(heap);
        for bundle in &command.0 {
            self.push_places(bundle, &mut places)?;
        }
        Ok(places)
    }

    // What becomes of sectors by a call, before which its sector held `old`.
    #[tactic(auto, unfolding(crate::specs::Stores::puts_held))]
    fn keep(&mut self, change: Option<Change>, old: &[u8; SECTOR_BYTES]) -> Result<(), Unserved>
        requires { IsOld (the_change change) (the_held self.old) old.now }
        ensures held { DoesHeld (changes_held (the_change change.entry) self.old.version.0) (the_held self.old) result (the_held self.new) }
        ensures same { SameBut self.old self.new }
    {
        match change {
            Some(Change::Put(at, bytes)) => {
                self.rest = true;
                if bytes != old {
                    self.put(at, bytes)?;
                }
            }
            Some(Change::Forget(volume)) => {
                self.rest = true;
                self.pieces.forget(volume);
            }
            None => {}
        }
        Ok(())
    }

    // What the sector holds that a call needs.
    #[tactic(auto, unfolding(disks::specs::Device::zeros))]
    fn old(&self, call: &Call) -> [u8; SECTOR_BYTES]
        ensures { result ≡ read_at (needed (the_call call.now)) (sector_of (the_held self.now)) }
    {
        match needs(call) {
            Some(at) => self.sector(at),
            None => BLANK_SECTOR,
        }
    }

    fn plays(&mut self, call: Call) -> Result<Text, Unserved>
        ensures { DoesServe (is_call (the_call call.entry)) (the_stored self.old) result (the_stored self.new) }
    {
        let old = self.old(&call);
        self.rest = self.rest || matches!(call, Call::Make(_) | Call::Attach(_));
        let outcome = self.volumes.exec(call, &old);
        let reply = outcome.answer.encode(self.heap)?;
        self.keep(outcome.change, &old)?;
        Ok(Text::new(reply))
    }
}

// What is promised of it: replies and heads are those of the service that is replicated, and a range is taken over as the keeper does it.
#[tactic(auto, using(crate::proofs::AsService::as_the_service, crate::proofs::AsKeeper::takes_as_keeper, crate::proofs::Showing::changes_show))]
pub fn calls_are_served()
    ensures served { AsTheService }
    ensures shown { ChangesShow }
    ensures taken { TakesAsKeeper }
{}

impl Service for Store {
    type Call = Text;

    type Reply = Text;

    type Error = Unserved;

    ghost State = { Stored };

    ghost state = { the_stored };

    ghost reply = { reply };

    ghost next = { next };

    fn exec(&mut self, call: &Text) -> Result<Text, Unserved> {
        let own = Vec::from_slice(self.heap, call.as_bytes())?;
        match decode(&own) {
            Ok(call) => self.plays(call),
            Err(refusal) => {
                let reply = Answer::Refused(refusal).encode(self.heap)?;
                Ok(Text::new(reply))
            }
        }
    }
}
