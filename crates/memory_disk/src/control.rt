// What a rehearsal does with the disk: it makes it, has it fail, and cuts its power.
ghost use Rattle.std.specs.Prelude.{◌≡◌, Some, None};
ghost use Rattle.std.specs.BTreeMap.{btree_map_len};
ghost use Rattle.disks.specs.Device.{blank_device};
ghost use Rattle.memory_disk.specs.Disks.{MemoryHolds, Unmoved, Cuts};

use crate::MemoryDisk;
use crate::sectors::Sectors;
use std::alloc::Global;

impl MemoryDisk {
    // A blank disk of so many sectors.
    #[tactic(auto, using(crate::proofs::Ghosts::blank_shows))]
    pub fn new(heap: Global, size: u64) -> MemoryDisk
        ensures blank { MemoryHolds result blank_device }
        ensures size { result.size ≡ size }
        ensures left { result.left ≡ None }
    {
        MemoryDisk {
            size,
            sectors: Sectors::new(heap),
            log: Vec::new(heap),
            left: None,
        }
    }

    // How many sectors take memory.
    pub fn sectors_kept(&self) -> usize
        ensures { result ≡ btree_map_len self.now.sectors.written }
    {
        self.sectors.count()
    }

    // After n more requests every one is a fault, until the next cut.
    pub fn fail_after(&mut self, n: u64)
        ensures left { self.new.left ≡ Some n }
        ensures rest { Unmoved self.old self.new }
    {
        self.left = Some(n);
    }

    // The power fails: each sector for itself holds what was kept or anything written since, by the seed. The disk answers again.
    #[tactic(auto, using(crate::proofs::Ghosts::lost_shows))]
    pub fn cut(&mut self, seed: u64)
        ensures cuts { Cuts self.old self.new }
        ensures left { self.new.left ≡ None }
        ensures size { self.new.size ≡ self.old.size }
    {
        self.sectors.cut_all(self.log.as_slice(), seed);
        self.log.clear();
        self.left = None;
    }
}
