// A house with its device: where either fails the house is dropped, and comes up anew from the device at the next line.
use crate::Place;
use anyhow::anyhow;
use copies::number::{CallNumber, HouseNumber};
use device::disk::Failed;
use file_disk::disk::FileDisk;
use file_disk::places::Places;
use houses::event::{Event, Output};
use houses::house::{House, Setup, Stopped};
use houses::opening::open;
use lines::line::Line;
use octets::{BLANK_SECTOR, SECTOR_BYTES};
use pieces::layout::Layout;
use std::fs::{File, OpenOptions};
use std::io::{Seek, SeekFrom};

const DEVICE: &str = "device";

#[derive(Drop)]
pub(crate) struct Running {
    disk: FileDisk<File>,
    house: House,
}

#[derive(Drop)]
pub(crate) struct Station {
    place: Place,
    setup: Setup,
    running: Option<Running>,
}

// How many sectors the file has.
fn sectors(file: &mut File) -> anyhow::Result<u64> {
    Ok(file.seek(SeekFrom::End(0))? / SECTOR_BYTES as u64)
}

// The file, and its size in sectors. One that isn't there or is empty is made blank, if a size is given.
fn device(rt: &HostRuntime, size: Option<u64>) -> anyhow::Result<(File, u64)> {
    let mut options = OpenOptions::new();
    options.read(true).write(true).create(size.is_some());
    let mut file = options.open(rt, DEVICE).map_err(|_| anyhow!(
        "the file `device` cannot be opened in this folder"
    ))?;
    let found = sectors(&mut file)?;
    match size {
        Some(size) if found == 0 => {
            make(&mut file, size)?;
            Ok((file, size))
        }
        Some(size) if found != size => Err(anyhow!(
            "the file `device` has {found} sectors, and not {size}"
        )),
        _ => Ok((file, found)),
    }
}

// So many blank sectors.
fn make(file: &mut File, size: u64) -> anyhow::Result<()> {
    if Layout::of(size).is_none() {
        return Err(anyhow!("a device has 65,536 to 2^40 sectors, and not {size}"));
    }
    let last = (size - 1).saturating_mul(SECTOR_BYTES as u64);
    file.write_at(last, &BLANK_SECTOR)?;
    file.flush_all()?;
    Ok(())
}

// Why a house didn't come up, or stopped.
fn reason(failed: Failed<Stopped>) -> anyhow::Error {
    match failed {
        Failed::Disk(_) => anyhow!("the device failed"),
        Failed::Refused(Stopped::NoMemory) => anyhow!("there isn't memory enough"),
        Failed::Refused(Stopped::Size) => anyhow!("a device has 65,536 to 2^40 sectors"),
        Failed::Refused(Stopped::Foreign) => anyhow!("the file `device` isn't a house's device"),
        Failed::Refused(Stopped::Other) => anyhow!(
            "the file `device` is another house's, or of another number of houses"
        ),
        Failed::Refused(Stopped::Broken) => anyhow!(
            "what is stored on the file `device` contradicts itself"
        ),
    }
}

fn event_of(line: Line) -> Event {
    match line {
        Line::Ask(customer, call) => Event::Call(CallNumber(customer.0), call),
        Line::From(house, packet) => Event::Packet(HouseNumber(u64::from(house.0)), packet),
        Line::Tick => Event::Tick,
    }
}

impl Station {
    pub(crate) fn new(
        rt: &HostRuntime,
        place: Place,
        size: Option<u64>,
    ) -> anyhow::Result<Station> {
        let (file, size) = device(rt, size)?;
        let setup = Setup {
            me: HouseNumber(u64::from(place.me.0)),
            houses: u64::from(place.houses),
            size,
        };
        let running = Station::up(rt, setup, file)?;
        Ok(Station {
            place,
            setup,
            running: Some(running),
        })
    }

    pub(crate) fn houses(&self) -> u8 {
        self.place.houses
    }

    fn up(rt: &HostRuntime, setup: Setup, file: File) -> anyhow::Result<Running> {
        let mut disk = FileDisk::new(file);
        match open(&mut disk, rt.alloc(), setup) {
            Ok(house) => Ok(Running { disk, house }),
            Err(failed) => Err(reason(failed)),
        }
    }

    // The house, if it is up or comes up now.
    fn take(&mut self, rt: &HostRuntime) -> anyhow::Result<Running> {
        match self.running.take() {
            Some(running) => Ok(running),
            None => {
                let (file, _) = device(rt, None)?;
                Station::up(rt, self.setup, file)
            }
        }
    }

    // What a line leads to; nothing, where the house or its device fails.
    pub(crate) fn does(&mut self, rt: &HostRuntime, line: Line) -> Vec<Output> {
        let Ok(Running { mut disk, house }) = self.take(rt) else {
            return Vec::new(rt.alloc());
        };
        match house.does(&mut disk, rt.alloc(), event_of(line)) {
            Ok(done) => {
                self.running = Some(Running {
                    disk,
                    house: done.house,
                });
                done.outputs
            }
            Err(_) => Vec::new(rt.alloc()),
        }
    }
}
