// What a copy stores, from all of its bytes; `encode` gives them.
ghost use Rattle.std.specs.Prelude.{◌≡◌};
ghost use Rattle.packets.specs.Codecs.{Gives, Puts, SoundWhole, whole};
ghost use Rattle.packets.specs.Formats.{Identity as IdentitySaid, Directory as DirectorySaid, mark, identity, directory, agreeing, session, rest};
ghost use Rattle.copies.specs.Views.{the_agreeing, the_session};
ghost use Rattle.packets.specs.Seen.{see_identity, see_directory, see_rest};

use crate::bytes::Bytes;
use crate::directory::Directory;
use crate::fault::*;
use crate::identity::Identity;
use crate::rest::Rest;
use crate::text::Text;
use crate::whole::decode;
use copies::agreeing::Agreeing;
use copies::message::Session;
use copies::number::HouseNumber;
use std::alloc::Global;

// `kindself`
const MARK: u64 = 0x6b69_6e64_7365_6c66;

impl Bytes for Identity {
    ghost View = { IdentitySaid };

    ghost view = { see_identity };

    ghost codec = { identity };

    #[tactic(auto, unfolding(crate::specs::Formats::identity))]
    fn put(&self, out: &mut Vec<u8>) -> Result<(), Unsent> {
        MARK.put(out)?;
        self.house.0.put(out)?;
        self.houses.put(out)?;
        self.size.put(out)?;
        self.incarnation.put(out)
    }

    #[tactic(auto, unfolding(crate::specs::Formats::identity))]
    fn take(heap: Global, bytes: &[u8]) -> Result<(Identity, &[u8]), Unread> {
        let (found, rest) = u64::take(heap, bytes)?;
        if found != MARK {
            return Err(Unread::Fault(Fault::Range));
        }
        let (house, rest) = u64::take(heap, rest)?;
        let (houses, rest) = u64::take(heap, rest)?;
        let (size, rest) = u64::take(heap, rest)?;
        let (incarnation, rest) = u64::take(heap, rest)?;
        let identity = Identity {
            house: HouseNumber(house),
            houses,
            size,
            incarnation,
        };
        Ok((identity, rest))
    }
}

#[tactic(auto, using(crate::proofs::Formats::identities))]
pub fn decode_identity(heap: Global, bytes: &[u8]) -> Result<Identity, Unread>
    ensures value { Gives see_identity result (whole identity bytes.now) }
    ensures sound { SoundWhole identity }
{
    decode::<Identity>(heap, bytes)
}

impl Bytes for Directory {
    ghost View = { DirectorySaid };

    ghost view = { see_directory };

    ghost codec = { directory };

    #[tactic(auto, unfolding(crate::specs::Formats::directory))]
    fn put(&self, out: &mut Vec<u8>) -> Result<(), Unsent> {
        self.generation.put(out)?;
        self.floor.put(out)
    }

    #[tactic(auto, unfolding(crate::specs::Formats::directory))]
    fn take(heap: Global, bytes: &[u8]) -> Result<(Directory, &[u8]), Unread> {
        let (generation, rest) = u64::take(heap, bytes)?;
        let (floor, rest) = u64::take(heap, rest)?;
        Ok((Directory { generation, floor }, rest))
    }
}

#[tactic(auto, using(crate::proofs::Formats::directories))]
pub fn decode_directory(heap: Global, bytes: &[u8]) -> Result<Directory, Unread>
    ensures value { Gives see_directory result (whole directory bytes.now) }
    ensures sound { SoundWhole directory }
{
    decode::<Directory>(heap, bytes)
}

#[tactic(auto, using(crate::proofs::Formats::agreeings))]
pub fn decode_agreeing(heap: Global, bytes: &[u8]) -> Result<Agreeing<Text>, Unread>
    ensures value { Gives the_agreeing result (whole agreeing bytes.now) }
    ensures sound { SoundWhole agreeing }
{
    decode::<Agreeing<Text>>(heap, bytes)
}

#[tactic(auto, using(crate::proofs::Formats::sessions))]
pub fn decode_session(heap: Global, bytes: &[u8]) -> Result<Session<Text>, Unread>
    ensures value { Gives the_session result (whole session bytes.now) }
    ensures sound { SoundWhole session }
{
    decode::<Session<Text>>(heap, bytes)
}

#[tactic(auto, using(crate::proofs::Formats::rests))]
pub fn decode_rest(heap: Global, bytes: &[u8]) -> Result<Rest, Unread>
    ensures value { Gives see_rest result (whole rest bytes.now) }
    ensures sound { SoundWhole rest }
{
    decode::<Rest>(heap, bytes)
}
