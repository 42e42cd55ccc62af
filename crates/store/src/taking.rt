// Blocks that another copy gives: a range of them is taken over.
ghost use Rattle.std.specs.Prelude.{◌≡◌, suc, true, ◌++◌, map, IfOk, OnOk, IsTrue};
ghost use Rattle.std.specs.Option.{option_map};
ghost use Rattle.copies.specs.Service.{in_range};
ghost use Rattle.volumes.specs.Service.{the_service};
ghost use Rattle.pieces.specs.Replaces.{replaces};
ghost use Rattle.pieces.specs.Replacing.{the_blocks, overlaid};
ghost use Rattle.keeping.specs.Keeping.{key_at, filled_of};
ghost use Rattle.store.specs.Known.{the_data};
ghost use Rattle.store.specs.Stores.{the_held, SameBut};
ghost use Rattle.store.specs.Parts.{is_key, key_number, Took, FitKeys, AreKeys, AreNext, ordered, filled_one, takes_held, the_stamped};

use crate::parts::at_key;
use crate::store::{Store, Unserved};
use copies::message::Stamped;
use copies::number::{Key, Version};
use packets::block::Block;
use pieces::entry::Stamp;
use pieces::filled::{Filled, Replaced};
use pieces::replace::{Range, Taking};
use pieces::set::Unset;
use std::alloc::AllocError;
use volumes::living::is_living;

// How many entries of the directory one transaction may give up.
pub const MOST_EMPTIED: usize = 256;

impl Store {
    // A block of a volume that may still be asked for, as it is to be filled in.
    fn push_filled(
        &self,
        stamped: Stamped<Block>,
        filled: &mut Vec<Filled>,
    ) -> Result<(), AllocError>
        ensures { IsTrue (is_key stamped.key.0) → OnOk result (the_blocks filled.new.items ≡ the_blocks filled.old.items ++ filled_one (the_service self.now.volumes) (the_stamped stamped)) }
    {
        let at = at_key(stamped.key);
        if is_living(self.volumes.next(), self.volumes.heads(), at.volume) {
            filled.push(Filled {
                volume: at.volume,
                block: at.block,
                stamp: Stamp(stamped.stamp.0),
                sectors: stamped.block.sectors,
            })?;
        }
        Ok(())
    }

    fn filled(&self, blocks: Vec<Stamped<Block>>) -> Result<Vec<Filled>, AllocError>
        ensures { AreKeys blocks.items → IfOk result (λ v. the_blocks v.items ≡ filled_of (the_service self.now.volumes) (map the_stamped blocks.items)) }
    {
        let mut filled = Vec::new(self.heap);
        for stamped in blocks {
            self.push_filled(stamped, &mut filled)?;
        }
        Ok(filled)
    }

    // What another copy has of a range is filled in. False if there is no place for it.
    fn fills(&mut self, range: Range, taking: Taking<'_>) -> Result<bool, Unserved>
        ensures held { IfOk result (λ b. Took b (replaces range.from range.next taking.entry.whole taking.entry.most taking.entry.floor.0 (the_blocks taking.entry.blocks.now) (the_held self.old)) (the_held self.new)) }
        ensures same { SameBut self.old self.new }
    {
        match self.pieces.replace(self.heap, range, taking) {
            Ok(replaced) => {
                self.notes(replaced)?;
                Ok(true)
            }
            Err(Unset::NoRoom) => Ok(false),
            Err(Unset::NoMemory) => Err(Unserved::NoMemory),
        }
    }

    fn notes(&mut self, replaced: Replaced) -> Result<(), AllocError>
        ensures data { OnOk result (the_data self.new.known ≡ overlaid replaced.sectors.items (the_data self.old.known)) }
        ensures entries { OnOk result (self.new.entries.items ≡ self.old.entries.items ++ replaced.entries.items) }
        ensures directory { OnOk result (self.new.directory ≡ true) }
        ensures pieces { self.new.pieces ≡ self.old.pieces }
        ensures same { SameBut self.old self.new }
    {
        self.known.put_all(&replaced.sectors)?;
        self.entries.extend_from_slice(&replaced.entries)?;
        self.directory = true;
        Ok(())
    }

    // A range of blocks is another copy's from now on. False if there is no place for it, or their keys don't rise within the range: what is
    // left then is of no use.
    pub fn takes(
        &mut self,
        from: Key,
        next: Option<Key>,
        whole: bool,
        floor: Version,
        blocks: Vec<Stamped<Block>>,
    ) -> Result<bool, Unserved>
        ensures held { FitKeys from next blocks.items → IfOk result (λ b. Took b (takes_held (the_service self.old.volumes) whole from.0 (key_number next) floor.0 (map the_stamped blocks.items) (the_held self.old)) (the_held self.new)) }
        ensures same { SameBut self.old self.new }
    {
        if !is_in_order(from, next, &blocks) {
            return Ok(false);
        }
        let filled = self.filled(blocks)?;
        let range = range_of(from, next);
        let taking = Taking {
            whole,
            most: MOST_EMPTIED,
            floor: Stamp(floor.0),
            blocks: &filled,
        };
        self.fills(range, taking)
    }
}

fn range_of(from: Key, next: Option<Key>) -> Range
    ensures { IsTrue (is_key from.0) → AreNext next → result ≡ record { from = key_at from.0; next = option_map key_at (key_number next) } }
{
    Range {
        from: at_key(from),
        next: match next {
            Some(key) => Some(at_key(key)),
            None => None,
        },
    }
}

// Do the keys rise within the range?
fn is_in_order(from: Key, next: Option<Key>, blocks: &[Stamped<Block>]) -> bool
    ensures { AreKeys blocks.now → result ≡ ordered from.0 (key_number next) (map the_stamped blocks.now) }
{
    let mut least = from.0;
    for stamped in blocks {
        if !is_in_range(least, next, stamped.key) {
            return false;
        }
        least = behind(stamped.key);
    }
    true
}

fn behind(key: Key) -> u128
    ensures { IsTrue (is_key key.0) → result ≡ suc key.0 }
{
    key.0.saturating_add(1)
}

fn is_in_range(least: u128, next: Option<Key>, key: Key) -> bool
    ensures { result ≡ in_range least (key_number next) key.0 }
{
    least <= key.0
        && match next {
            Some(end) => key.0 < end.0,
            None => true,
        }
}
