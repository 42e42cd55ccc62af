// Bundles of calls, and what they were replied.
ghost use Rattle.std.specs.Prelude.{◌≡◌, map};
ghost use Rattle.packets.specs.Codecs.{Gives, Puts};
ghost use Rattle.packets.specs.Formats.{item, reply, bundle, session, CallItem, CallBundle, AnswerReply, AnswerSession};
ghost use Rattle.copies.specs.Views.{the_item, the_bundle, the_reply, the_session};

use crate::bytes::Bytes;
use crate::fault::*;
use crate::frame::*;
use crate::list::*;
use crate::text::Text;
use copies::message::*;
use copies::number::*;
use std::alloc::Global;

// The longest call: a write.
pub const MOST_CALL: u16 = 537;

// The longest answer: a sector.
pub const MOST_ANSWER: u16 = 513;

// How many calls a bundle has at most, and so how many replies there are.
pub const MOST_CALLS: u8 = 8;

impl Bytes for Item<Text> {
    ghost View = { CallItem };

    ghost view = { the_item };

    ghost codec = { item };

    #[tactic(auto, unfolding(crate::specs::Formats::item))]
    fn put(&self, out: &mut Vec<u8>) -> Result<(), Unsent> {
        put_frame(self.id.0, self.call.as_bytes(), MOST_CALL, out)
    }

    #[tactic(auto, unfolding(crate::specs::Formats::item))]
    fn take(heap: Global, bytes: &[u8]) -> Result<(Item<Text>, &[u8]), Unread> {
        let ((id, call), rest) = take_frame(heap, MOST_CALL, bytes)?;
        let id = CallNumber(id);
        Ok((Item { id, call }, rest))
    }
}

impl Bytes for Reply<Text> {
    ghost View = { AnswerReply };

    ghost view = { the_reply };

    ghost codec = { reply };

    #[tactic(auto, unfolding(crate::specs::Formats::reply))]
    fn put(&self, out: &mut Vec<u8>) -> Result<(), Unsent> {
        put_frame(self.id.0, self.reply.as_bytes(), MOST_ANSWER, out)
    }

    #[tactic(auto, unfolding(crate::specs::Formats::reply))]
    fn take(heap: Global, bytes: &[u8]) -> Result<(Reply<Text>, &[u8]), Unread> {
        let ((id, reply), rest) = take_frame(heap, MOST_ANSWER, bytes)?;
        let id = CallNumber(id);
        Ok((Reply { id, reply }, rest))
    }
}

impl Bytes for Bundle<Text> {
    ghost View = { CallBundle };

    ghost view = { the_bundle };

    ghost codec = { bundle };

    #[tactic(auto, unfolding(crate::specs::Formats::bundle))]
    fn put(&self, out: &mut Vec<u8>) -> Result<(), Unsent> {
        self.house.0.put(out)?;
        self.number.incarnation.put(out)?;
        self.number.counter.put(out)?;
        put_few(&self.calls, MOST_CALLS, out)
    }

    #[tactic(auto, unfolding(crate::specs::Formats::bundle))]
    fn take(heap: Global, bytes: &[u8]) -> Result<(Bundle<Text>, &[u8]), Unread> {
        let (house, rest) = u64::take(heap, bytes)?;
        let (incarnation, rest) = u64::take(heap, rest)?;
        let (counter, rest) = u64::take(heap, rest)?;
        let (calls, rest) = take_few(heap, MOST_CALLS, rest)?;
        let bundle = Bundle {
            house: HouseNumber(house),
            number: Number {
                incarnation,
                counter,
            },
            calls,
        };
        Ok((bundle, rest))
    }
}

impl Bytes for Session<Text> {
    ghost View = { AnswerSession };

    ghost view = { the_session };

    ghost codec = { session };

    #[tactic(auto, unfolding(crate::specs::Formats::session))]
    fn put(&self, out: &mut Vec<u8>) -> Result<(), Unsent> {
        self.number.incarnation.put(out)?;
        self.number.counter.put(out)?;
        put_few(&self.replies, MOST_CALLS, out)
    }

    #[tactic(auto, unfolding(crate::specs::Formats::session))]
    fn take(heap: Global, bytes: &[u8]) -> Result<(Session<Text>, &[u8]), Unread> {
        let (incarnation, rest) = u64::take(heap, bytes)?;
        let (counter, rest) = u64::take(heap, rest)?;
        let (replies, rest) = take_few(heap, MOST_CALLS, rest)?;
        let session = Session {
            number: Number {
                incarnation,
                counter,
            },
            replies,
        };
        Ok((session, rest))
    }
}
