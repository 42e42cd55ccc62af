// What is done at an event before and after places are read: nothing here asks the disk.
use crate::event::{Event, Output};
use crate::house::Stopped;
use crate::outputs::*;
use copies::event::{Called, Heard};
use copies::message::{Message, Part, Tail};
use copies::number::{CallNumber, HouseNumber};
use copies::run::applies;
use copies::sessions::MOST_HOUSES;
use copies::turn::{House as Copy, Turn, Work};
use journal::Place;
use journal::state::Write;
use octets::SECTOR_BYTES;
use packets::areas::{AGREEING, session_area};
use packets::block::Block;
use packets::fault::Unread;
use packets::packet::{Packet, decode_message};
use packets::rest::Rest;
use packets::text::Text;
use std::alloc::Global;
use std::mem;
use store::parts::{Portion, may_hear};
use store::store::Store;
use store::writes::put_table;

pub(crate) type Turning = Turn<Rest, Block, Text, Text>;

pub(crate) type Working = Work<Rest, Block, Text, Text>;

// In the midst of an event. goes_on: whether more is to be done when the work is; portion: blocks to be given; places: what is to be read.
#[derive(Drop)]
struct Midst {
    turn: Turning,
    work: Working,
    goes_on: bool,
    portion: Option<Portion>,
    places: Vec<u64>,
}

#[derive(Drop)]
enum Begun {
    Passed(Copy<Text, Text>),
    Busy(Copy<Text, Text>, CallNumber),
    Midst(Midst),
}

impl Midst {
    fn new(
        heap: Global,
        store: &Store,
        mut turn: Turning,
        goes_on: bool,
    ) -> Result<Midst, Stopped> {
        let work = turn.take_work();
        let version = turn.house.agreeing.version;
        let portion = match turn.sends.serves {
            Some(serve) => Some(store.portion(heap, serve.want, version)?),
            None => None,
        };
        let places = match (&work, &portion) {
            (Work::Applies(command), _) => store.places_for(heap, command)?,
            (_, Some(portion)) => store.places_of(heap, portion)?,
            _ => Vec::new(heap),
        };
        Ok(Midst {
            turn,
            work,
            goes_on,
            portion,
            places,
        })
    }
}

fn is_long(message: &Packet) -> bool {
    matches!(message, Message::Status(_) | Message::Part(_))
}

fn heard(
    heap: Global,
    store: &Store,
    heard: Heard<Rest, Block, Text, Text>,
    goes_on: bool,
) -> Result<Begun, Stopped> {
    match heard {
        Heard::Passed(copy) => Ok(Begun::Passed(copy)),
        Heard::Begun(turn) => Ok(Begun::Midst(Midst::new(heap, store, turn, goes_on)?)),
    }
}

// A packet that is none is passed over.
fn hears(
    heap: Global,
    copy: Copy<Text, Text>,
    store: &Store,
    from: HouseNumber,
    bytes: &[u8],
) -> Result<Begun, Stopped> {
    match decode_message(heap, bytes) {
        Ok(message) if may_hear(&message) => {
            let goes_on = is_long(&message);
            let passed = copy.hears(heap, from, message)?;
            heard(heap, store, passed, goes_on)
        }
        Err(Unread::Memory) => Err(Stopped::NoMemory),
        _ => Ok(Begun::Passed(copy)),
    }
}

fn called(
    heap: Global,
    copy: Copy<Text, Text>,
    store: &Store,
    id: CallNumber,
    call: Vec<u8>,
) -> Result<Begun, Stopped> {
    match copy.is_called(heap, id, Text::new(call))? {
        Called::Passed(copy) => Ok(Begun::Passed(copy)),
        Called::Busy(copy) => Ok(Begun::Busy(copy, id)),
        Called::Begun(turn) => Ok(Begun::Midst(Midst::new(heap, store, turn, false)?)),
    }
}

fn begins(
    heap: Global,
    copy: Copy<Text, Text>,
    store: &Store,
    event: Event,
) -> Result<Begun, Stopped> {
    match event {
        Event::Packet(from, bytes) => hears(heap, copy, store, from, &bytes),
        Event::Call(id, call) => called(heap, copy, store, id, call),
        Event::Tick => {
            let ticked = copy.ticks(heap)?;
            heard(heap, store, ticked, false)
        }
    }
}

// What the work leaves: the event, heads and blocks, and whose sessions changed.
#[derive(Drop)]
struct Worked {
    turn: Turning,
    store: Store,
    sessions: Vec<HouseNumber>,
}

impl Worked {
    // A command's calls, one after the other.
    fn applied(
        mut self,
        heap: Global,
        command: &copies::agreeing::Command<Text>,
    ) -> Result<Worked, Stopped> {
        applies(
            &mut self.store,
            command,
            &mut self.turn.house.sessions,
            heap,
        )?;
        for bundle in &command.0 {
            self.sessions.push(bundle.house)?;
        }
        Ok(self)
    }

    // Heads and sessions are another copy's.
    fn replaced(mut self) -> Result<Worked, Stopped> {
        if let Work::Replaces(rest) = self.turn.take_work() {
            self.store.replaces(&rest)?;
            for house in 0..MOST_HOUSES {
                self.sessions.push(HouseNumber(house))?;
            }
        }
        Ok(self)
    }

    fn took(
        mut self,
        heap: Global,
        from: HouseNumber,
        mut part: Part<Rest, Block, Text>,
    ) -> Result<Worked, Stopped> {
        let next = match &part.tail {
            Tail::More(key) => Some(*key),
            Tail::Ends(..) => None,
        };
        let blocks = mem::replace(&mut part.blocks, Vec::new(heap));
        if self
            .store
            .takes(part.asked.key, next, part.whole, part.floor, blocks)?
        {
            self.turn = self.turn.takes_over_part(from, part);
            self.replaced()
        } else {
            self.store.wipes()?;
            self.turn = self.turn.starts_over(from);
            Ok(self)
        }
    }

    fn works(self, heap: Global, work: Working) -> Result<Worked, Stopped> {
        match work {
            Work::Applies(command) => self.applied(heap, &command),
            Work::Takes(from, part) => self.took(heap, from, part),
            _ => Ok(self),
        }
    }

    fn put_session(
        &self,
        heap: Global,
        house: HouseNumber,
        out: &mut Vec<Write>,
    ) -> Result<(), Stopped> {
        let area = session_area(house).ok_or(Stopped::Broken)?;
        let session = self.turn.house.sessions.of(house).ok_or(Stopped::Broken)?;
        Ok(put_table(heap, session, area, out)?)
    }

    // All that is to be stored.
    fn writes(&self, heap: Global) -> Result<Vec<Write>, Stopped> {
        let mut out = Vec::new(heap);
        if self.turn.stores.agreeing {
            put_table(heap, &self.turn.house.agreeing, AGREEING, &mut out)?;
        }
        for house in &self.sessions {
            self.put_session(heap, *house, &mut out)?;
        }
        self.store.writes(heap, &mut out)?;
        Ok(out)
    }
}

// What is stored, and sent when it is.
#[derive(Drop)]
pub(crate) struct Ended {
    pub(crate) copy: Copy<Text, Text>,
    pub(crate) store: Store,
    pub(crate) writes: Vec<Write>,
    pub(crate) outputs: Vec<Output>,
}

impl Midst {
    // When the places are read: all that is left to do.
    fn ends(self, heap: Global, store: Store) -> Result<Ended, Stopped> {
        let worked = Worked {
            turn: self.turn,
            store,
            sessions: Vec::new(heap),
        };
        let mut worked = worked.works(heap, self.work)?;
        if self.goes_on {
            worked.turn = worked.turn.ends(heap)?;
        }
        let writes = worked.writes(heap)?;
        let outputs = outputs(heap, &worked.turn, &worked.store, self.portion)?;
        let Worked { turn, store, .. } = worked;
        Ok(Ended {
            copy: turn.house,
            store,
            writes,
            outputs,
        })
    }
}

// An event that waits for what the places hold.
#[derive(Drop)]
pub(crate) struct Asked {
    pub(crate) places: Vec<Place>,
    midst: Midst,
    store: Store,
}

impl Asked {
    fn new(heap: Global, midst: Midst, store: Store) -> Result<Asked, Stopped> {
        let places = store.data_places(heap, &midst.places)?;
        Ok(Asked {
            places,
            midst,
            store,
        })
    }

    // What they hold was read.
    pub(crate) fn ends(
        self,
        heap: Global,
        sectors: &[[u8; SECTOR_BYTES]],
    ) -> Result<Ended, Stopped> {
        let mut store = self.store.begins(self.midst.turn.house.agreeing.version);
        store.knows(&self.midst.places, sectors)?;
        self.midst.ends(heap, store)
    }
}

// What comes of an event before anything is read: it is over, or it waits.
#[derive(Drop)]
pub(crate) enum Started {
    Over(Copy<Text, Text>, Store, Vec<Output>),
    Asked(Asked),
}

pub(crate) fn starts(
    heap: Global,
    copy: Copy<Text, Text>,
    store: Store,
    event: Event,
) -> Result<Started, Stopped> {
    match begins(heap, copy, &store, event)? {
        Begun::Passed(copy) => Ok(Started::Over(copy, store, Vec::new(heap))),
        Begun::Busy(copy, id) => {
            let outputs = busy(heap, id)?;
            Ok(Started::Over(copy, store, outputs))
        }
        Begun::Midst(midst) => Ok(Started::Asked(Asked::new(heap, midst, store)?)),
    }
}
