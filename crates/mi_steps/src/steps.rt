//! Single steps of a plan: each changes the machine as it will be, and adds the record that carries the change out,
//! unless it changes nothing.

ghost use Rattle.std.specs.Prelude.{◌≡◌, ◌∷◌, [], List, ℕ, map, OnOk, OnErr, IsErrOf, ◌↔◌, false};
ghost use Rattle.mi_text.specs.Maps.{Map};
ghost use Rattle.mi_base.specs.Limits.{fits};
ghost use Rattle.mi_base.specs.Spelling.{name_of, record_of};
ghost use Rattle.mi_image.specs.Items.{AreThere, MayStand};
ghost use Rattle.mi_image.specs.declared.item.Item.TheVariants.{Whole};
ghost use Rattle.mi_image.specs.Overlays.{former_items, present_items};
ghost use Rattle.mi_script.specs.Spelled.{is_file_name};
ghost use Rattle.mi_steps.specs.Follows.{Grows, put_touch, drop_touch};
ghost use Rattle.mi_steps.specs.Makes.{Makes, is_file};

use crate::outside::is_held;
use crate::plan::Plan;
use crate::records::{note_put, push_drop};
use mi_base::{Bytes, EncError, Entry, Name, NoMemory, enc_entry};
use std::alloc::Global;

impl Plan {
    // Puts an entry under its name, with its record.
    fn put_named(
        &mut self,
        alloc: Global,
        name: Name,
        bytes: Bytes,
        entry: Entry,
    ) -> Result<(), NoMemory>
        requires may { MayStand name (Whole entry) }
        requires plain { is_file_name name ≡ false }
        requires record { bytes ≡ record_of entry }
        ensures makes { (held files : Map (List ℕ)) → OnOk result (Makes held files self.old self.new (put_touch name entry ∷ [])) }
        ensures image { OnErr result (present_items self.new.overlay ≡ present_items self.old.overlay) }
        ensures there { (held files : Map (List ℕ)) → AreThere held files (present_items self.old.overlay) → AreThere held files (present_items self.new.overlay) }
        ensures former { former_items self.new.overlay ≡ former_items self.old.overlay }
        ensures grows { Grows self.old.script self.new.script }
    {
        match note_put(alloc, self.overlay.image(), &mut self.script, &name, bytes) {
            Ok(()) => {
                self.overlay.put_entry(alloc, &name, entry)?;
                Ok(())
            }
            Err(_) => {
                drop(entry);
                Err(NoMemory)
            }
        }
    }

    /// Puts an entry that isn't a file under its name, whatever stands there. `Field` comes exactly where the entry
    /// breaks a limit or rule of its record. After an error the machine is as it was, and the script has the record
    /// at most (this project's own).
    pub fn put(&mut self, alloc: Global, entry: Entry) -> Result<(), EncError>
        requires { is_file entry ≡ false }
        ensures makes { (held files : Map (List ℕ)) → OnOk result (Makes held files self.old self.new (put_touch (name_of entry) entry ∷ [])) }
        ensures field { IsErrOf result EncError.Field ↔ (fits entry ≡ false) }
        ensures image { OnErr result (present_items self.new.overlay ≡ present_items self.old.overlay) }
        ensures there { (held files : Map (List ℕ)) → AreThere held files (present_items self.old.overlay) → AreThere held files (present_items self.new.overlay) }
        ensures former { former_items self.new.overlay ≡ former_items self.old.overlay }
        ensures grows { Grows self.old.script self.new.script }
    {
        match enc_entry(alloc, &entry) {
            Ok((name, bytes)) => {
                self.put_named(alloc, name, bytes, entry)?;
                Ok(())
            }
            Err(error) => {
                drop(entry);
                Err(error)
            }
        }
    }

    /// Takes away what stands at a name, if anything does. After an error the machine is as it was, and the script has
    /// the record at most (this project's own).
    pub fn drop_name(&mut self, alloc: Global, name: &Name) -> Result<(), NoMemory>
        ensures makes { (held files : Map (List ℕ)) → OnOk result (Makes held files self.old self.new (drop_touch name.now ∷ [])) }
        ensures image { OnErr result (present_items self.new.overlay ≡ present_items self.old.overlay) }
        ensures there { (held files : Map (List ℕ)) → AreThere held files (present_items self.old.overlay) → AreThere held files (present_items self.new.overlay) }
        ensures former { former_items self.new.overlay ≡ former_items self.old.overlay }
        ensures grows { Grows self.old.script self.new.script }
    {
        if !is_held(self.overlay.image(), name) {
            return Ok(());
        }
        push_drop(alloc, &mut self.script, name)?;
        self.overlay.take(alloc, name)?;
        Ok(())
    }

    /// Takes away what stands at these names, one after the other. After an error some of them may be gone; what
    /// stood before the plan is as it was (this project's own).
    pub fn drop_names(&mut self, alloc: Global, names: &[Name]) -> Result<(), NoMemory>
        ensures makes { (held files : Map (List ℕ)) → OnOk result (Makes held files self.old self.new (map drop_touch names.now)) }
        ensures there { (held files : Map (List ℕ)) → AreThere held files (present_items self.old.overlay) → AreThere held files (present_items self.new.overlay) }
        ensures former { former_items self.new.overlay ≡ former_items self.old.overlay }
        ensures grows { Grows self.old.script self.new.script }
    {
        for name in names {
            self.drop_name(alloc, name)?;
        }
        Ok(())
    }
}
