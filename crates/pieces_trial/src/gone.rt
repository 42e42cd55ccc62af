// Volumes that are made, and that are gone.
ghost use Rattle.std.specs.Prelude.{◌≡◌, OnOk};
ghost use Rattle.pieces.specs.Kept.{the_kept};
ghost use Rattle.pieces.specs.Replaces.{tidied};

use crate::trial::{Trial, WRONG, count, head};
use anyhow::anyhow;
use memory_disk::random::Random;
use pieces::living::Living;
use volumes::head::Head;
use wire::number::*;

impl Trial {
    // A volume more lives.
    pub(crate) fn make(&mut self) -> anyhow::Result<Volume> {
        let head = head(self.next);
        count(&mut self.next);
        self.heads.push(head)?;
        Ok(head.number)
    }

    // In the place of a volume another lives; the one that is gone.
    fn succeed(&mut self, index: usize) -> anyhow::Result<Volume>
        ensures { self.new.pieces ≡ self.old.pieces }
    {
        let at = self.heads.get_mut(index).ok_or(anyhow!("{WRONG}"))?;
        let gone = at.number;
        *at = head(self.next);
        count(&mut self.next);
        count(&mut self.counts.forgotten);
        Ok(gone)
    }

    // A volume is gone, and another lives; nothing is written.
    pub(crate) fn forget(&mut self, index: usize) -> anyhow::Result<()> {
        let gone = self.succeed(index)?;
        self.pieces.forget(gone);
        self.model.retain(|key, _| key.0 != gone.0);
        self.stamps.retain(|key, _| key.0 != gone.0);
        Ok(())
    }

    // All that is of volumes that don't live is forgotten; nothing is written.
    fn forget_gone(&mut self)
        ensures kept { the_kept self.new.pieces ≡ tidied self.old.next self.old.heads.items (the_kept self.old.pieces) }
        ensures next { self.new.next ≡ self.old.next }
        ensures heads { self.new.heads ≡ self.old.heads }
    {
        let living = Living {
            next: self.next,
            heads: self.heads.as_slice(),
        };
        self.pieces.forget_gone(living.next, living.heads);
        self.model.retain(|key, _| living.has(Volume(key.0)));
        self.stamps.retain(|key, _| living.has(Volume(key.0)));
    }

    // Some volumes are gone at once, each with one chance of two, and as many others live.
    pub(crate) fn forget_some(&mut self, random: &mut Random) -> anyhow::Result<()> {
        for index in 0..self.heads.len() {
            if random.below(2) == 0 {
                self.succeed(index)?;
            }
        }
        self.forget_gone();
        Ok(())
    }

    // From now on those live that live in another.
    pub(crate) fn live_as(&mut self, other: &Trial) -> anyhow::Result<()>
        ensures kept { OnOk result (the_kept self.new.pieces ≡ tidied other.now.next other.now.heads.items (the_kept self.old.pieces)) }
        ensures next { OnOk result (self.new.next ≡ other.now.next) }
        ensures heads { OnOk result (self.new.heads.items ≡ other.now.heads.items) }
    {
        self.next = other.next;
        self.heads = other.heads.iter().copied().collect(self.heap)?;
        self.forget_gone();
        Ok(())
    }
}
