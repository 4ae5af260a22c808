//! The slots of a volume in memory.

ghost use Rattle.std.specs.Prelude.{◌≡◌, ◌∷◌, [], ◌++◌, List, ℕ, Some, None, OnOk, OnErr, IfOk, length, min, ◌^◌, ◌-◌};
ghost use Rattle.std.specs.FinMap.{get, insert, remove};
ghost use Rattle.std.specs.Option.{option_copied, option_map};
ghost use Rattle.mi_text.specs.Next.{next_name};
ghost use Rattle.mi_volume.specs.Maps.{HoldsByte, bytes_or_none, size};
ghost use Rattle.mi_volume.specs.Kept.{nothing_kept, changed, changed_if_held, cleaned, imaged, with_clean};

use crate::before::Before;
use crate::call::CallKind;
use crate::choice::{Choice, left};
use crate::held::{extend_held, first_above, mark_held, size_of_all};
use crate::notes::Notes;
use mi_text::{Bytes, Name, NoMemory};
use std::alloc::Global;
use std::collections::BTreeMap;
use std::marker::Model;

/// Names with what they hold, and with what the dirty ones held at the last good sync.
#[derive(Drop)]
pub struct Slots {
    held: BTreeMap<Name, Bytes>,
    before: Notes,
    alloc: Global,
}

impl Model for Slots {
    ghost use Rattle.mi_volume.specs.Kept.{Kept, kept_code};

    ghost Value = { Kept };

    ghost coded = { kept_code };

    ghost use Rattle.mi_volume.specs.Slots.{kept_of, HaveSlots};
    ghost use Rattle.mi_volume.specs.Notes.{notes_of};

    ghost view = { λ s. kept_of s.held.entries (notes_of s.before) };

    ghost invariant = { λ s. HaveSlots s.held.entries (notes_of s.before) };
}

impl Slots {
    ghost use Rattle.mi_volume.specs.Memory.{with_piece};

    /// No names, which takes no memory.
    pub fn new(alloc: Global) -> Slots
        ensures { result ≡ nothing_kept }
    {
        Slots {
            held: BTreeMap::new(alloc),
            before: Notes::new(alloc),
            alloc,
        }
    }

    /// What the name holds.
    pub fn get(&self, name: &Name) -> Option<&Bytes>
        ensures { option_copied result ≡ get self.now.held name.now }
    {
        self.held.get(name)
    }

    /// The number of bytes that the name holds.
    pub fn size_of(&self, name: &Name) -> Option<u64>
        ensures { result ≡ option_map length (get self.now.held name.now) }
    {
        match self.get(name) {
            None => None,
            Some(bytes) => Some(bytes.len() as u64),
        }
    }

    /// The least held name above `after`.
    pub fn next_above(&self, after: Option<&Name>) -> Option<&Name>
        ensures { option_copied result ≡ next_name self.now.held (option_copied after.entry) }
    {
        first_above(&self.held, after)
    }

    /// Gives the name these bytes.
    pub fn give(&mut self, alloc: Global, name: &Name, bytes: Bytes) -> Result<(), NoMemory>
        ensures ok { OnOk result (self.new ≡ changed self.old name.now (Some bytes)) }
        ensures err { OnErr result (self.new ≡ self.old) }
    {
        self.before.add(alloc, name)?;
        let held = self.held.insert(name.copy(alloc)?, bytes)?;
        self.before.note(name, Before::saved(held));
        Ok(())
    }

    /// Adds bytes at the end of the name, in place where what it held is noted.
    pub fn extend(&mut self, alloc: Global, name: &Name, bytes: &[u8]) -> Result<(), NoMemory>
        ensures ok { OnOk result (self.new ≡ changed self.old name.now (Some (bytes_or_none (get self.old.held name.now) ++ bytes.now))) }
        ensures err { OnErr result (self.new ≡ self.old) }
    {
        let Some(held) = self.held.get(name) else {
            return self.give(alloc, name, Bytes::copy_of(alloc, bytes)?);
        };
        if self.before.is_noted(name) {
            return extend_held(&mut self.held, name, bytes);
        }
        let saved = Bytes::copy_of(alloc, held.as_slice())?;
        extend_held(&mut self.held, name, bytes)?;
        self.before.note(name, Before::Held(saved));
        Ok(())
    }

    /// The size of what is held; at the greatest u64 it stands still.
    pub fn size(&self) -> u64
        ensures { result ≡ min (size self.now.held) (2 ^ 64 - 1) }
    {
        size_of_all(&self.held)
    }

    /// Puts or appends a piece.
    pub fn store(
        &mut self,
        alloc: Global,
        kind: CallKind,
        name: &Name,
        piece: &[u8],
    ) -> Result<(), NoMemory>
        ensures ok { OnOk result (self.new ≡ changed self.old name.now (Some (with_piece kind (get self.old.held name.now) piece.now))) }
        ensures err { OnErr result (self.new ≡ self.old) }
    {
        match kind {
            CallKind::Put => self.give(alloc, name, Bytes::copy_of(alloc, piece)?),
            CallKind::Append => self.extend(alloc, name, piece),
        }
    }

    /// Replaces the one byte of the name, which takes no memory.
    pub fn mark(&mut self, name: &Name, byte: u8)
        requires { HoldsByte self.old.held name.now }
        ensures { self.new ≡ changed self.old name.now (Some (byte ∷ [])) }
    {
        let held = mark_held(&mut self.held, self.alloc, name, byte);
        self.before.note(name, Before::OneByte(held));
    }

    /// Takes the name away, if it is held, which takes no memory.
    pub fn remove(&mut self, name: &Name)
        ensures { self.new ≡ changed_if_held self.old name.now None }
    {
        if let Some(bytes) = self.held.remove(name) {
            self.before.note(name, Before::Held(bytes));
        }
    }

    /// Makes the name dirty, if it is held, which takes no memory.
    pub fn touch(&mut self, name: &Name)
        ensures { self.new ≡ changed_if_held self.old name.now (get self.old.held name.now) }
    {
        if self.held.contains_key(name) {
            self.before.note(name, Before::Same);
        }
    }

    /// Gives the name these bytes, if any, which it held at the last good sync too.
    fn keep(&mut self, alloc: Global, name: &Name, bytes: Option<Bytes>) -> Result<(), NoMemory>
        ensures { OnOk result (self.new ≡ with_clean self.old name.now bytes) }
    {
        let Some(bytes) = bytes else {
            return Ok(());
        };
        self.before.set_clean(alloc, name)?;
        self.held.insert(name.copy(alloc)?, bytes)?;
        Ok(())
    }

    /// The slots of a volume that is opened after a crash.
    pub fn image(&self, alloc: Global, choice: Choice) -> Result<Slots, NoMemory>
        ensures { IfOk result (λ image. image ≡ imaged choice self.now) }
    {
        let mut image = Slots::new(alloc);
        for (name, slot) in &self.before.slots {
            let left = left(alloc, choice, self.held.get(name), slot, self.before.syncs)?;
            image.keep(alloc, name, left)?;
        }
        Ok(image)
    }

    /// Makes all names clean, which takes no memory.
    pub fn sync(&mut self)
        ensures { self.new ≡ cleaned self.old }
    {
        self.before.clean(&self.held);
    }
}
