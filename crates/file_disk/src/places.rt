// A file that is read and written at a place, a sector's bytes at a time. What it did is told by ghost members.
ghost use Rattle.std.specs.Prelude.{◌⊎◌, MatchResult};
ghost use Rattle.disks.specs.Device.{Device};
ghost use Rattle.file_disk.specs.Files.{FileAct, failed, read_at, wrote_at, flushed, Tried, FileModels, Unknown, unknown_models};

use octets::SECTOR_BYTES;
use std::fs::File;
use std::io;
use std::io::{Read, Seek, SeekFrom, Write};

pub trait Places {
    // from one state to the next the file did this
    ghost made: { Self → FileAct → Self → Type 0 };

    // the file may be this device, and does then what the device does
    ghost holds: { Self → Device → Type 0 };

    ghost models: { FileModels made holds };

    // Past the end of the file it is an error.
    fn read_at(&mut self, place: u64, buf: &mut [u8; SECTOR_BYTES]) -> io::Result<()>
        ensures { Tried made self.old (read_at place buf.new) result self.new };

    // At an error the bytes may have been written all the same.
    fn write_at(&mut self, place: u64, bytes: &[u8; SECTOR_BYTES]) -> io::Result<()>
        ensures { MatchResult result (λ _. made self.old (wrote_at place bytes.now) self.new) (λ _. made self.old failed self.new ⊎ made self.old (wrote_at place bytes.now) self.new) };

    // What was written is safe, whatever happens to the power.
    fn flush_all(&mut self) -> io::Result<()>
        ensures { Tried made self.old flushed result self.new };
}

// The trusted part: that these three methods, each a call or two of std, do what their names say, and that a sector is written whole or not
// at all. No proof speaks of what a file holds.
impl Places for File {
    ghost made = { λ _ _ _. Unit {0} };

    ghost holds = { Unknown };

    ghost models = { unknown_models (λ _ _ _. Unit {0}) };

    fn read_at(&mut self, place: u64, buf: &mut [u8; SECTOR_BYTES]) -> io::Result<()> {
        self.seek(SeekFrom::Start(place))?;
        self.read_exact(buf)
    }

    fn write_at(&mut self, place: u64, bytes: &[u8; SECTOR_BYTES]) -> io::Result<()> {
        self.seek(SeekFrom::Start(place))?;
        self.write_all(bytes)
    }

    fn flush_all(&mut self) -> io::Result<()> {
        self.sync_data()
    }
}
