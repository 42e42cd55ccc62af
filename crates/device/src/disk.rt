// A disk: one request at a time, each a whole sector. What it did is told by ghost members, so that a contract can say which requests were made.
ghost use Rattle.std.specs.Prelude.{◌≡◌};
ghost use Rattle.disks.specs.Device.{Device};
ghost use Rattle.device.specs.Does.{Act, broke, Does, read_io, write_io, sync_io, giving};
ghost use Rattle.device.specs.Tied.{Models, DoesRuns};
ghost use Rattle.device.specs.Runs.{all_run};
ghost use Rattle.device.specs.declared.disk.Failed.TheVariants.{Disk as DiskFailed};

use journal::Place;
use octets::SECTOR_BYTES;

// The power failed, or the disk did not answer: whoever asked gives up.
#[derive(Clone, Copy, Debug, Drop)]
pub struct Fault;

// Why a call came to nothing.
#[derive(Clone, Copy, Debug, Drop)]
pub enum Failed<E> {
    Disk(Fault),
    // the journal refused
    Refused(E),
}

impl<E> From<Fault> for Failed<E> {
    ghost from_gives = { λ e r. r ≡ DiskFailed e };

    fn from(e: Fault) -> Failed<E> {
        Failed::Disk(e)
    }
}

// A sector's number and its bytes stay two parameters: the journal's `Write` of both holds a copy of the bytes, and here they are lent.
pub trait Disk {
    // from one state to the next the disk did this
    ghost did: { Self → Act → Self → Type 0 };

    // the disk may be this device
    ghost holds: { Self → Device → Type 0 };

    // and does then what the device does
    ghost models: { Models did holds };

    fn read(&mut self, at: Place, buf: &mut [u8; SECTOR_BYTES]) -> Result<(), Fault>
        ensures { Does did (read_io at.0) self.old (giving result buf.new) self.new };

    fn write(&mut self, at: Place, bytes: &[u8; SECTOR_BYTES]) -> Result<(), Fault>
        ensures { Does did (write_io at.0 bytes.now) self.old result self.new };

    fn sync(&mut self) -> Result<(), Fault>
        ensures { Does did sync_io self.old result self.new };

    // Whoever asked gives up for want of memory: that counts as the power failing.
    fn give_up(&mut self) -> Fault
        ensures { did self.old broke self.new };
}

// What stands above the contracts: code that does what a program does leaves a device as the program does.
pub trait Theorems {
    ghost runs: { DoesRuns };
}

pub struct Shown;

impl Theorems for Shown {
    ghost runs = { all_run };
}
