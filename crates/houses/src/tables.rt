// A house's tables, as they are read when it comes up.
ghost use Rattle.std.specs.Prelude.{◌≡◌, ◌≤◌, Ok, IfOk};
ghost use Rattle.packets.specs.Areas.{from_sectors};
ghost use Rattle.houses.specs.Found.{sectors_of, FindsIdentity};

use crate::house::{Setup, Stopped};
use copies::agreeing::Agreeing;
use copies::number::HouseNumber;
use copies::sessions::{MOST_HOUSES, Sessions};
use octets::SECTOR_BYTES;
use packets::area::Area;
use packets::areas::*;
use packets::directory::Directory;
use packets::identity::Identity;
use packets::lay::from_sectors;
use packets::stored::*;
use packets::text::Text;
use std::alloc::Global;
use volumes::volumes::Volumes;

// The sectors of all tables, from the first on.
#[derive(Clone, Copy)]
pub struct Tables<'a> {
    pub heap: Global,
    pub sectors: &'a [[u8; SECTOR_BYTES]],
}

pub const FIRST: u64 = IDENTITY.first;

pub const COUNT: u64 = KEPT.first + KEPT.count - IDENTITY.first;

impl Tables<'_> {
    // The bytes of a table; none, where it was never written.
    fn bytes(&self, area: Area) -> Result<Vec<u8>, Stopped>
        ensures { IfOk result (λ v. from_sectors (sectors_of area self.now.sectors.now) ≡ Ok v.items) }
    {
        let first = area.first.saturating_sub(FIRST) as usize;
        let (_, behind) = self.sectors.split_at_checked(first).ok_or(Stopped::Broken)?;
        let (sectors, _) = behind
            .split_at_checked(area.count as usize)
            .ok_or(Stopped::Broken)?;
        Ok(from_sectors(sectors, self.heap)?)
    }

    // Who the house is, if it is the one that it is said to be; on a blank device it is new.
    pub fn identity(&self, setup: Setup) -> Result<Identity, Stopped>
        ensures { IfOk result (λ i. FindsIdentity setup self.now.sectors.now i) }
    {
        let bytes = self.bytes(IDENTITY)?;
        let new = Identity {
            house: setup.me,
            houses: setup.houses,
            size: setup.size,
            incarnation: 0,
        };
        if bytes.is_empty() {
            return Ok(new);
        }
        let found = decode_identity(self.heap, &bytes)?;
        let alike = Identity {
            incarnation: found.incarnation,
            ..new
        };
        if found == alike {
            Ok(found)
        } else {
            Err(Stopped::Other)
        }
    }

    pub fn agreeing(&self) -> Result<Agreeing<Text>, Stopped> {
        let bytes = self.bytes(AGREEING)?;
        if bytes.is_empty() {
            return Ok(Agreeing::new());
        }
        Ok(decode_agreeing(self.heap, &bytes)?)
    }

    fn put_session(
        &self,
        house: HouseNumber,
        sessions: &mut Sessions<Text>,
    ) -> Result<(), Stopped> {
        let area = session_area(house).ok_or(Stopped::Broken)?;
        let bytes = self.bytes(area)?;
        if !bytes.is_empty() {
            sessions.put(house, decode_session(self.heap, &bytes)?);
        }
        Ok(())
    }

    pub fn sessions(&self) -> Result<Sessions<Text>, Stopped> {
        let mut sessions = Sessions::new(self.heap)?;
        for house in 0..MOST_HOUSES {
            self.put_session(HouseNumber(house), &mut sessions)?;
        }
        Ok(sessions)
    }

    pub fn volumes(&self, size: u64) -> Result<Volumes, Stopped> {
        let bytes = self.bytes(REST)?;
        if bytes.is_empty() {
            return Ok(Volumes::new(self.heap, size)?);
        }
        let rest = decode_rest(self.heap, &bytes)?;
        let restored = Volumes::restored(self.heap, size, rest.next, rest.weight, &rest.heads)?;
        restored.ok_or(Stopped::Broken)
    }

    pub fn directory(&self) -> Result<Directory, Stopped> {
        let bytes = self.bytes(KEPT)?;
        if bytes.is_empty() {
            return Ok(Directory {
                generation: 0,
                floor: 0,
            });
        }
        Ok(decode_directory(self.heap, &bytes)?)
    }
}
