// What each call does.
ghost use Rattle.std.specs.Prelude.{◌≡◌, ◌+◌, ◌^◌, ◌<◌, not, ◌&&◌, [], None, IfOk, MatchResult, nat_lt};
ghost use Rattle.disks.specs.Disks.{find};
ghost use Rattle.wire.specs.Refusals.{refusal_number};
ghost use Rattle.wire.specs.declared.refusal.Refusal.TheVariants.{Missing};
ghost use Rattle.volumes.specs.Service.{blank_service, the_service, the_served, First, Holds, HeldBack, is_head, makes_head, attaches_volume, reads_volume, writes_volume, syncs_volume, drops_volume, recount, lacks_call, serves, DoesAs};
ghost use Rattle.volumes.specs.Simulation.{needed, the_place, ServesTheMeaning, room_left, RoomIsCore};
ghost use Rattle.wire.specs.Calls.{the_call};
ghost use Rattle.std.specs.Option.{option_map};
ghost use Rattle.std.specs.List.{position_from};

use crate::head::Head;
use crate::outcome::*;
use crate::volumes::Volumes;
use crate::weigh::is_blank;
use octets::SECTOR_BYTES;
use std::alloc::{AllocError, Global};
use wire::answer::Answer;
use wire::call::Call;
use wire::number::*;
use wire::refusal::Refusal;

// How many volumes there may be.
pub(crate) const MOST_VOLUMES: usize = 4096;

// The largest size of a volume.
const MOST_SIZE: Size = Size(1 << 40);

// Numbers and tokens stay below 2^62.
const LIMIT: u64 = 1 << 62;

// Of a house's device, what isn't for volumes, and which share of the rest their sectors may take: data has twice the room, and
// directory and journal the rest.
const TABLE_SECTORS: u64 = 2048;

const ROOM_SHARE: u64 = 4;

// What a volume weighs besides its sectors.
pub(crate) const VOLUME_WEIGHT: u64 = 64;

// The room for volumes where each house's device has so many sectors.
pub fn room_of(sectors: u64) -> u64
    ensures value { result ≡ room_left sectors }
    ensures core { RoomIsCore }
{
    sectors.saturating_sub(TABLE_SECTORS) / ROOM_SHARE
}

impl Volumes {
    // No volumes yet, with room for what a house's device of so many sectors leaves.
    // Takes memory for as many heads as there may be, so that no call needs more.
    pub fn new(heap: Global, sectors: u64) -> Result<Volumes, AllocError>
        ensures { IfOk result (λ v. (the_service v ≡ blank_service) × (v.room ≡ room_left sectors)) }
    {
        let heads = Vec::with_capacity(heap, MOST_VOLUMES)?;
        let room = room_of(sectors);
        Ok(Volumes {
            heads,
            next: 1,
            weight: 0,
            room,
        })
    }
}

// Where a volume's head stands among heads. They are a list and not a map, since a call must not fail for want of memory, and a map
// takes memory each time a volume is made.
fn position(heads: &[Head], volume: Volume) -> Option<usize>
    ensures { result ≡ position_from (is_head volume.0) 0 heads.now }
{
    heads.iter().position(|head| head.number == volume)
}

// The same, and the head. A place and not a `&mut Head`, since `drop_volume` takes the head out by its place.
fn find(heads: &[Head], volume: Volume) -> Result<(usize, Head), Refusal>
    ensures { MatchResult result (λ p. First (is_head volume.0) heads.now p.0 p.1) (λ e. (e ≡ Missing) × (find (is_head volume.0) heads.now ≡ [])) }
{
    let at = position(heads, volume).ok_or(Refusal::Missing)?;
    Ok((at, heads[at]))
}

// An answer that changes nothing.
fn tells(answer: Answer<'_>) -> Outcome<'_>
    ensures { result ≡ record { answer = answer.entry; change = None } }
{
    Outcome {
        answer,
        change: None,
    }
}

// The head of a volume that is used under its present token, and where it stands.
fn held(heads: &[Head], hold: Hold) -> Result<(usize, Head), Refusal>
    ensures { MatchResult result (λ p. Holds hold.volume.0 hold.token.0 heads.now p.0 p.1) (λ e. HeldBack hold.volume.0 hold.token.0 heads.now (refusal_number e)) }
{
    let (at, head) = find(heads, hold.volume)?;
    if hold.token == Token(0) || hold.token != head.token {
        return Err(Refusal::OldToken);
    }
    Ok((at, head))
}

impl Volumes {
    #[tactic(auto, using(crate::proofs::Weighing::weighs_push))]
    fn make<'a>(&mut self, size: Size) -> Result<Outcome<'a>, Refusal>
        ensures { DoesAs (makes_head self.old.room size.0) self.old result self.new }
    {
        if size == Size(0) || size > MOST_SIZE {
            return Err(Refusal::Malformed);
        }
        if self.heads.len() >= MOST_VOLUMES || self.next >= LIMIT {
            return Err(Refusal::UsedUp);
        }
        if self.room - self.weight < VOLUME_WEIGHT {
            return Ok(tells(Answer::Full));
        }
        let number = self.next;
        self.heads.push_reserved(Head {
            number: Volume(number),
            size,
            token: Token(0),
            used: 0,
        });
        self.next = number + 1;
        self.weight += VOLUME_WEIGHT;
        Ok(tells(Answer::Number(number)))
    }

    #[tactic(auto, using(crate::proofs::Weighing::counted_same))]
    fn attach<'a>(&mut self, volume: Volume) -> Result<Outcome<'a>, Refusal>
        ensures { DoesAs (attaches_volume volume.0) self.old result self.new }
    {
        let (at, head) = find(self.heads.as_slice(), volume)?;
        if head.token.0 >= LIMIT - 1 {
            return Err(Refusal::UsedUp);
        }
        let token = Token(head.token.0 + 1);
        self.heads[at].token = token;
        Ok(tells(Answer::Token(token, head.size)))
    }

    fn read<'a>(
        &mut self,
        hold: Hold,
        sector: Sector,
        read: &'a [u8; SECTOR_BYTES],
    ) -> Result<Outcome<'a>, Refusal>
        ensures { DoesAs (reads_volume hold.volume.0 hold.token.0 sector.0 read.now) self.old result self.new }
    {
        let (_, head) = held(self.heads.as_slice(), hold)?;
        if head.has(sector) {
            Ok(tells(Answer::Sector(read)))
        } else {
            Err(Refusal::Malformed)
        }
    }

    // `read` is what the sector holds before.
    #[tactic(auto, using(crate::proofs::Weighing::found_weighs, crate::proofs::Weighing::counted_put, crate::proofs::Weighing::recount_fits))]
    fn write<'a>(
        &mut self,
        hold: Hold,
        sector: Sector,
        content: &'a [u8; SECTOR_BYTES],
        read: &[u8; SECTOR_BYTES],
    ) -> Result<Outcome<'a>, Refusal>
        ensures { DoesAs (writes_volume self.old.room hold.volume.0 hold.token.0 sector.0 read.now content.now) self.old result self.new }
    {
        let (at, head) = held(self.heads.as_slice(), hold)?;
        if !head.has(sector) {
            return Err(Refusal::Malformed);
        }
        let was = is_blank(read);
        let now = is_blank(content);
        if overfills(was, now, self.weight, self.room) {
            return Ok(tells(Answer::Full));
        }
        let used = recounted(head.used, was, now);
        self.weight = self.weight - head.used + used;
        self.heads[at].used = used;
        Ok(Outcome {
            answer: Answer::Yes,
            change: Some(Change::Put(hold.at(sector), content)),
        })
    }

    fn sync<'a>(&mut self, hold: Hold) -> Result<Outcome<'a>, Refusal>
        ensures { DoesAs (syncs_volume hold.volume.0 hold.token.0) self.old result self.new }
    {
        held(self.heads.as_slice(), hold)?;
        Ok(tells(Answer::Yes))
    }

    #[tactic(auto, using(crate::proofs::Weighing::found_weighs, crate::proofs::Weighing::counted_removed))]
    fn drop_volume<'a>(&mut self, hold: Hold) -> Result<Outcome<'a>, Refusal>
        ensures { DoesAs (drops_volume hold.volume.0 hold.token.0) self.old result self.new }
    {
        let (at, head) = held(self.heads.as_slice(), hold)?;
        self.weight -= VOLUME_WEIGHT + head.used;
        self.heads.remove(at);
        Ok(Outcome {
            answer: Answer::Yes,
            change: Some(Change::Forget(hold.volume)),
        })
    }
}

// Would a sector that was blank or not, and is now, bring the weight above the room?
fn overfills(was: bool, now: bool, weight: u64, room: u64) -> bool
    ensures { result ≡ (was && not now && nat_lt room (weight + 1)) }
{
    was && !now && weight >= room
}

// How many sectors of a volume hold something, where one of them was blank or not, and is now.
#[tactic(auto, unfolding(disks::specs::Disks::one))]
fn recounted(used: u64, was: bool, now: bool) -> u64
    requires { used < 2 ^ 63 }
    ensures { result ≡ recount was now used }
{
    match (was, now) {
        (true, false) => used + 1,
        (false, true) => used.saturating_sub(1),
        _ => used,
    }
}

impl Volumes {
    // What a call answers, and what becomes of sectors. `read` is what the sector holds that the call needs, as `needs` says.
    // At most linear in the number of volumes; allocates nothing. `call` and `read` stay two parameters: a struct of them would be made for this call alone.
    #[tactic(auto, using(crate::proofs::Alike::serves_the_meaning))]
    pub fn exec<'a>(&mut self, call: Call<'a>, read: &'a [u8; SECTOR_BYTES]) -> Outcome<'a>
        ensures served { the_served result self.new ≡ serves self.old.room (the_call call.entry) read.now (the_service self.old) }
        ensures same { self.new.room ≡ self.old.room }
        ensures means { ServesTheMeaning }
    {
        // Tried with `unwrap_or_else`: the borrow check covers no closure whose result names a lifetime that it doesn't capture.
        match self.serve(call, read) {
            Ok(outcome) => outcome,
            Err(refusal) => tells(Answer::Refused(refusal)),
        }
    }

    #[tactic(auto, unfolding(crate::specs::Service::serves))]
    fn serve<'a>(
        &mut self,
        call: Call<'a>,
        read: &'a [u8; SECTOR_BYTES],
    ) -> Result<Outcome<'a>, Refusal>
        ensures { DoesAs (serves self.old.room (the_call call.entry) read.now) self.old result self.new }
    {
        match call {
            Call::Make(size) => self.make(size),
            Call::Attach(volume) => self.attach(volume),
            Call::Read(hold, sector) => self.read(hold, sector, read),
            Call::Write(hold, sector, content) => self.write(hold, sector, content, read),
            Call::Sync(hold) => self.sync(hold),
            Call::Drop(hold) => self.drop_volume(hold),
            Call::Picture(_) | Call::Copy(_) | Call::DropPicture(_) => self.lacks(),
        }
    }

    // A call that isn't built yet.
    fn lacks<'a>(&mut self) -> Result<Outcome<'a>, Refusal>
        ensures { DoesAs lacks_call self.old result self.new }
    {
        Err(Refusal::NotBuilt)
    }

    pub fn weight(&self) -> u64
        ensures { result ≡ self.now.weight }
    {
        self.weight
    }
}

// The sector that must be read before a call is executed.
pub fn needs(call: &Call) -> Option<Address>
    ensures { option_map the_place result ≡ needed (the_call call.now) }
{
    match *call {
        Call::Read(hold, sector) | Call::Write(hold, sector, _) => Some(hold.at(sector)),
        _ => None,
    }
}
