//! The slots of a volume in memory, in which it notes what its dirty names held at the last good sync.

ghost use Rattle.mi_volume.specs.Slots.{AreWritten};

use crate::before::{Before, Slot};
use mi_text::{Bytes, Name, NoMemory};
use std::alloc::Global;
use std::collections::BTreeMap;

/// The slots of the names that are held or dirty, and of some that were.
///
/// A good sync visits no slot: it counts itself, which makes every note old. Only where more than half of the slots are
/// of names that aren't held, which took as many calls, it visits them all and drops those.
#[derive(Drop)]
pub struct Notes {
    pub slots: BTreeMap<Name, Slot>,
    /// How many good syncs were made since the slots were last visited.
    pub syncs: u64,
    ghost written: { AreWritten syncs slots.entries },
}

impl Notes {
    ghost use Rattle.std.specs.Prelude.{◌≡◌, [], Some, OnOk, OnErr, option_map, unwrap_or, false, not};
    ghost use Rattle.std.specs.Option.{option_map_or};
    ghost use Rattle.mi_volume.specs.Slots.{Sets, Cleans, at_name, noted_as, is_unnoted};
    ghost use Rattle.mi_volume.specs.Notes.{notes_of};
    ghost use Rattle.mi_volume.specs.declared.before.Before.TheVariants.{Clean};

    /// No slots, which takes no memory.
    pub fn new(alloc: Global) -> Notes
        ensures { notes_of result ≡ [] }
    {
        Notes {
            slots: BTreeMap::new(alloc),
            syncs: 0,
        }
    }

    /// Makes a clean slot for the name where it has none.
    pub fn add(&mut self, alloc: Global, name: &Name) -> Result<(), NoMemory>
        ensures ok { OnOk result (Sets name.now (Some (unwrap_or (at_name (notes_of self.old) name.now) Clean)) (notes_of self.old) (notes_of self.new)) }
        ensures err { OnErr result (notes_of self.new ≡ notes_of self.old) }
    {
        if !self.slots.contains_key(name) {
            self.slots.insert(name.copy(alloc)?, Slot::clean())?;
        }
        Ok(())
    }

    /// Gives the name a clean slot.
    pub fn set_clean(&mut self, alloc: Global, name: &Name) -> Result<(), NoMemory>
        ensures ok { OnOk result (Sets name.now (Some Clean) (notes_of self.old) (notes_of self.new)) }
        ensures err { OnErr result (notes_of self.new ≡ notes_of self.old) }
    {
        self.slots.insert(name.copy(alloc)?, Slot::clean())?;
        Ok(())
    }

    /// Notes in the name's slot what was held, if it isn't noted yet. It takes no memory.
    pub fn note(&mut self, name: &Name, saved: Before)
        ensures { Sets name.now (option_map (noted_as saved) (at_name (notes_of self.old) name.now)) (notes_of self.old) (notes_of self.new) }
    {
        let syncs = self.syncs;
        if let Some(slot) = self.slots.get_mut(name) {
            slot.note(syncs, saved);
        }
    }

    /// Whether the name's slot has noted what was held.
    pub fn is_noted(&self, name: &Name) -> bool
        ensures { result ≡ option_map_or (λ b. not (is_unnoted b)) (at_name (notes_of self.now) name.now) false }
    {
        match self.slots.get(name) {
            Some(slot) => !slot.is_unnoted(self.syncs),
            None => false,
        }
    }

    /// Makes all slots clean, which takes no memory.
    pub fn clean(&mut self, held: &BTreeMap<Name, Bytes>)
        ensures { Cleans held.now.entries (notes_of self.old) (notes_of self.new) }
    {
        if self.syncs == u64::MAX || self.slots.len() / 2 > held.len() {
            self.drop_absent(held);
        } else {
            self.syncs += 1;
        }
    }

    // Visits all slots, makes them clean, and drops those of names that aren't held.
    fn drop_absent(&mut self, held: &BTreeMap<Name, Bytes>)
        ensures { Cleans held.now.entries (notes_of self.old) (notes_of self.new) }
    {
        self.slots.retain(|name, slot| {
            *slot = Slot::clean();
            held.contains_key(name)
        });
        self.syncs = 0;
    }
}
