// Blocks that are asked for, and what is given.
ghost use Rattle.std.specs.Prelude.{◌≡◌, map};
ghost use Rattle.volumes.specs.declared.head.Head.{Head as HeadHad};
ghost use Rattle.volumes.specs.Service.{Service};
ghost use Rattle.copies.specs.Messages.{Want as WantSaid};
ghost use Rattle.copies.specs.Views.{the_want};
ghost use Rattle.packets.specs.Codecs.{Gives, Puts};
ghost use Rattle.packets.specs.Formats.{want, stamped, head, rest, part_end, part, StampedBlock, PartEnd, PartSaid};
ghost use Rattle.packets.specs.Seen.{see_stamped, see_rest, see_end, see_part};

use crate::block::Block;
use crate::bytes::Bytes;
use crate::fault::*;
use crate::list::*;
use crate::rest::Rest;
use crate::status::{NO, YES};
use crate::text::Text;
use copies::message::*;
use copies::number::*;
use copies::sessions::Sessions;
use std::alloc::Global;
use volumes::head::Head;
use wire::number::{Size, Token, Volume};

// How many blocks a part has at most.
pub const MOST_BLOCKS: u16 = 4096;

// How many volumes there are at most.
pub const MOST_HEADS: u16 = 4096;

impl Bytes for Want {
    ghost View = { WantSaid };

    ghost view = { the_want };

    ghost codec = { want };

    #[tactic(auto, unfolding(crate::specs::Formats::want))]
    fn put(&self, out: &mut Vec<u8>) -> Result<(), Unsent> {
        self.base.0.put(out)?;
        self.top.0.put(out)?;
        self.key.0.put(out)
    }

    #[tactic(auto, unfolding(crate::specs::Formats::want))]
    fn take(heap: Global, bytes: &[u8]) -> Result<(Want, &[u8]), Unread> {
        let (base, rest) = u64::take(heap, bytes)?;
        let (top, rest) = u64::take(heap, rest)?;
        let (key, rest) = u128::take(heap, rest)?;
        let want = Want {
            base: Version(base),
            top: Version(top),
            key: Key(key),
        };
        Ok((want, rest))
    }
}

impl Bytes for Stamped<Block> {
    ghost View = { StampedBlock };

    ghost view = { see_stamped };

    ghost codec = { stamped };

    #[tactic(auto, unfolding(crate::specs::Formats::stamped))]
    fn put(&self, out: &mut Vec<u8>) -> Result<(), Unsent> {
        self.key.0.put(out)?;
        self.stamp.0.put(out)?;
        self.block.put(out)
    }

    #[tactic(auto, unfolding(crate::specs::Formats::stamped))]
    fn take(heap: Global, bytes: &[u8]) -> Result<(Stamped<Block>, &[u8]), Unread> {
        let (key, rest) = u128::take(heap, bytes)?;
        let (stamp, rest) = u64::take(heap, rest)?;
        let (block, rest) = Block::take(heap, rest)?;
        let stamped = Stamped {
            key: Key(key),
            stamp: Version(stamp),
            block,
        };
        Ok((stamped, rest))
    }
}

impl Bytes for Head {
    ghost View = { HeadHad };

    ghost view = { λ h. h };

    ghost codec = { head };

    #[tactic(auto, unfolding(crate::specs::Formats::head))]
    fn put(&self, out: &mut Vec<u8>) -> Result<(), Unsent> {
        self.number.0.put(out)?;
        self.size.0.put(out)?;
        self.token.0.put(out)?;
        self.used.put(out)
    }

    #[tactic(auto, unfolding(crate::specs::Formats::head))]
    fn take(heap: Global, bytes: &[u8]) -> Result<(Head, &[u8]), Unread> {
        let (number, rest) = u64::take(heap, bytes)?;
        let (size, rest) = u64::take(heap, rest)?;
        let (token, rest) = u64::take(heap, rest)?;
        let (used, rest) = u64::take(heap, rest)?;
        let head = Head {
            number: Volume(number),
            size: Size(size),
            token: Token(token),
            used,
        };
        Ok((head, rest))
    }
}

impl Bytes for Rest {
    ghost View = { Service };

    ghost view = { see_rest };

    ghost codec = { rest };

    #[tactic(auto, unfolding(crate::specs::Formats::rest))]
    fn put(&self, out: &mut Vec<u8>) -> Result<(), Unsent> {
        self.next.put(out)?;
        self.weight.put(out)?;
        put_many(&self.heads, MOST_HEADS, out)
    }

    #[tactic(auto, unfolding(crate::specs::Formats::rest))]
    fn take(heap: Global, bytes: &[u8]) -> Result<(Rest, &[u8]), Unread> {
        let (next, after) = u64::take(heap, bytes)?;
        let (weight, after) = u64::take(heap, after)?;
        let (heads, after) = take_many(heap, MOST_HEADS, after)?;
        let rest = Rest {
            next,
            weight,
            heads,
        };
        Ok((rest, after))
    }
}

impl Bytes for Tail<Rest, Text> {
    ghost View = { PartEnd };

    ghost view = { see_end };

    ghost codec = { part_end };

    #[tactic(auto, unfolding(crate::specs::Formats::part_end))]
    fn put(&self, out: &mut Vec<u8>) -> Result<(), Unsent> {
        match self {
            Tail::More(key) => {
                NO.put(out)?;
                key.0.put(out)
            }
            Tail::Ends(rest, sessions) => {
                YES.put(out)?;
                rest.put(out)?;
                sessions.put(out)
            }
        }
    }

    #[tactic(auto, unfolding(crate::specs::Formats::part_end))]
    fn take(heap: Global, bytes: &[u8]) -> Result<(Tail<Rest, Text>, &[u8]), Unread> {
        let (kind, rest) = u8::take(heap, bytes)?;
        match kind {
            NO => {
                let (key, rest) = u128::take(heap, rest)?;
                Ok((Tail::More(Key(key)), rest))
            }
            YES => {
                let (state, rest) = Rest::take(heap, rest)?;
                let (sessions, rest) = Sessions::take(heap, rest)?;
                Ok((Tail::Ends(state, sessions), rest))
            }
            _ => Err(Unread::Fault(Fault::Range)),
        }
    }
}

impl Bytes for Part<Rest, Block, Text> {
    ghost View = { PartSaid };

    ghost view = { see_part };

    ghost codec = { part };

    #[tactic(auto, unfolding(crate::specs::Formats::part))]
    fn put(&self, out: &mut Vec<u8>) -> Result<(), Unsent> {
        self.asked.put(out)?;
        self.promised.0.put(out)?;
        self.version.0.put(out)?;
        self.last.0.put(out)?;
        self.whole.put(out)?;
        self.floor.0.put(out)?;
        put_many(&self.blocks, MOST_BLOCKS, out)?;
        self.tail.put(out)
    }

    #[tactic(auto, unfolding(crate::specs::Formats::part))]
    fn take(heap: Global, bytes: &[u8]) -> Result<(Part<Rest, Block, Text>, &[u8]), Unread> {
        let (asked, rest) = Want::take(heap, bytes)?;
        let (promised, rest) = u64::take(heap, rest)?;
        let (version, rest) = u64::take(heap, rest)?;
        let (last, rest) = u64::take(heap, rest)?;
        let (whole, rest) = bool::take(heap, rest)?;
        let (floor, rest) = u64::take(heap, rest)?;
        let (blocks, rest) = take_many(heap, MOST_BLOCKS, rest)?;
        let (tail, rest) = Tail::take(heap, rest)?;
        let part = Part {
            asked,
            promised: Ballot(promised),
            version: Version(version),
            last: Ballot(last),
            whole,
            floor: Version(floor),
            blocks,
            tail,
        };
        Ok((part, rest))
    }
}
