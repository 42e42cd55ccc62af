// Each house's session, in the houses' order.
ghost use Rattle.std.specs.Prelude.{◌≡◌, ◌<◌, List, [], MatchOption};
ghost use Rattle.copies.specs.Views.{the_sessions};
ghost use Rattle.packets.specs.Codecs.{Gives, Puts, exactly, many_at};
ghost use Rattle.packets.specs.Formats.{AnswerSession, session};
ghost use Rattle.packets.specs.Seen.{see_sessions};

use crate::bytes::Bytes;
use crate::fault::*;
use crate::text::Text;
use copies::message::Session;
use copies::number::HouseNumber;
use copies::sessions::{MOST_HOUSES, Sessions};
use std::alloc::Global;

// The session of a house of which nothing was done.
#[tactic(auto, unfolding(crate::specs::Formats::session))]
fn put_unused(out: &mut Vec<u8>) -> Result<(), Unsent>
    ensures { Puts session (record { incarnation = 0; counter = 0; replies = [] }) out.old.items out.new.items result }
{
    let none: u64 = 0;
    let nothing: u8 = 0;
    none.put(out)?;
    none.put(out)?;
    nothing.put(out)
}

fn put_of(sessions: &Sessions<Text>, house: u64, out: &mut Vec<u8>) -> Result<(), Unsent>
    ensures { Puts session (the_sessions sessions.now house) out.old.items out.new.items result }
{
    match sessions.of(HouseNumber(house)) {
        Some(session) => session.put(out),
        None => put_unused(out),
    }
}

impl Bytes for Sessions<Text> {
    ghost View = { List AnswerSession };

    ghost view = { see_sessions };

    ghost codec = { exactly 49 session };

    fn put(&self, out: &mut Vec<u8>) -> Result<(), Unsent> {
        let count = MOST_HOUSES as u8;
        count.put(out)?;
        for house in 0..MOST_HOUSES {
            put_of(self, house, out)?;
        }
        Ok(())
    }

    fn take(heap: Global, bytes: &[u8]) -> Result<(Sessions<Text>, &[u8]), Unread> {
        let (count, rest) = u8::take(heap, bytes)?;
        if u64::from(count) != MOST_HOUSES {
            return Err(Unread::Fault(Fault::Range));
        }
        take_each(heap, rest)
    }
}

fn take_each(heap: Global, bytes: &[u8]) -> Result<(Sessions<Text>, &[u8]), Unread>
    ensures { Gives (λ x. (see_sessions x.0, x.1.now)) result (many_at session 49 bytes.now) }
{
    let mut sessions = Sessions::new(heap)?;
    let mut rest = bytes;
    for house in 0..MOST_HOUSES {
        let (session, after) = Session::take(heap, rest)?;
        Sessions::put(&mut sessions, HouseNumber(house), session);
        rest = after;
    }
    Ok((sessions, rest))
}
