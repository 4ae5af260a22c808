//! Steps that write files. Their records are always added, also where nothing changes.

ghost use Rattle.std.specs.Prelude.{◌≡◌, ◌≢◌, ◌∷◌, ◌++◌, [], Some, List, ℕ, OnOk, OnErr, length, true};
ghost use Rattle.std.specs.FinMap.{get, insert};
ghost use Rattle.mi_text.specs.Maps.{Map};
ghost use Rattle.mi_base.specs.declared.entry.Entry.TheVariants as entry;
ghost use Rattle.mi_base.specs.Limits.{fits};
ghost use Rattle.mi_base.specs.Names.{file_name};
ghost use Rattle.mi_base.specs.Records.{with_bytes};
ghost use Rattle.mi_image.specs.Items.{bytes_of_file, bytes_or_none, AreThere, HeadMayStand};
ghost use Rattle.mi_image.specs.Lookups.{length_in};
ghost use Rattle.mi_image.specs.Overlays.{former_items, present_items, present_machine};
ghost use Rattle.mi_script.specs.declared.rec.Rec.TheVariants as record_of_script;
ghost use Rattle.mi_steps.specs.Follows.{Grows};
ghost use Rattle.mi_steps.specs.Makes.{Makes, plan_machine, copy_touch, duplicate_touch};

use crate::heads::{copy_head, head_name};
use crate::outside::stands_outside;
use crate::plan::Plan;
use crate::records::{push_copy, push_duplicate};
use mi_base::{FileHead, Name, NoMemory, Text};
use mi_image::Overlay;
use std::alloc::Global;

/// Puts a file with the bytes of the source's file of this path.
pub fn put_copy(
    alloc: Global,
    overlay: &mut Overlay,
    name: &Name,
    head: &FileHead,
    path: &str,
) -> Result<(), NoMemory>
    requires { HeadMayStand name.now head.now }
    ensures machine { (held files : Map (List ℕ)) → OnOk result (present_machine held files overlay.new ≡ insert (present_machine held files overlay.old) name.now (entry.File (with_bytes head.now (bytes_or_none (get files path.now))))) }
    ensures there { (held files : Map (List ℕ)) → length (bytes_or_none (get files path.now)) ≡ head.now.length → AreThere held files (present_items overlay.old) → AreThere held files (present_items overlay.new) }
    ensures err { OnErr result (present_items overlay.new ≡ present_items overlay.old) }
    ensures former { former_items overlay.new ≡ former_items overlay.old }
{
    let path = Text::copy_of(alloc, path)?;
    match copy_head(alloc, head) {
        Ok(own) => overlay.copy_file(alloc, name, own, path),
        Err(_) => {
            drop(path);
            Err(NoMemory)
        }
    }
}

/// Puts a file with the bytes of another file.
pub fn put_duplicate(
    alloc: Global,
    overlay: &mut Overlay,
    name: &Name,
    head: &FileHead,
    from: &Name,
) -> Result<(), NoMemory>
    requires may { HeadMayStand name.now head.now }
    requires from { length_in (get (present_items overlay.old) from.now) ≡ Some head.now.length }
    ensures machine { (held files : Map (List ℕ)) → OnOk result (present_machine held files overlay.new ≡ insert (present_machine held files overlay.old) name.now (entry.File (with_bytes head.now (bytes_of_file (get (present_machine held files overlay.old) from.now))))) }
    ensures there { (held files : Map (List ℕ)) → AreThere held files (present_items overlay.old) → AreThere held files (present_items overlay.new) }
    ensures err { OnErr result (present_items overlay.new ≡ present_items overlay.old) }
    ensures former { former_items overlay.new ≡ former_items overlay.old }
{
    match copy_head(alloc, head) {
        Ok(own) => overlay.dup_file(alloc, name, own, from),
        Err(_) => Err(NoMemory),
    }
}

impl Plan {
    /// Copies a file of the source: from now on a file with this head stands at its path, with the bytes of the source's
    /// file; `file` is the key of its row. After an error the machine is as it was, and the script has the record at most
    /// (File table; InstallFiles Action).
    pub fn copy_file(
        &mut self,
        alloc: Global,
        head: &FileHead,
        file: &str,
        path: &str,
    ) -> Result<(), NoMemory>
        requires { fits (entry.File (with_bytes head.now [])) ≡ true }
        ensures makes { (held files : Map (List ℕ)) → OnOk result (Makes held files self.old self.new (copy_touch files head.now path.now ∷ [])) }
        ensures adds { OnOk result (self.new.script ≡ self.old.script ++ record_of_script.Copy (file_name head.now.shown) head.now file.now path.now head.now.length ∷ []) }
        ensures there { (held files : Map (List ℕ)) → length (bytes_or_none (get files path.now)) ≡ head.now.length → AreThere held files (present_items self.old.overlay) → AreThere held files (present_items self.new.overlay) }
        ensures image { OnErr result (present_items self.new.overlay ≡ present_items self.old.overlay) }
        ensures former { former_items self.new.overlay ≡ former_items self.old.overlay }
        ensures grows { Grows self.old.script self.new.script }
    {
        let name = head_name(alloc, head)?;
        push_copy(alloc, &mut self.script, &name, head, file, path)?;
        put_copy(alloc, &mut self.overlay, &name, head, path)?;
        Ok(())
    }

    /// Duplicates a file that is there: from now on a file with this head stands at its path, with the bytes of the other
    /// file, of which there are as many as the head states. After an error the machine is as it was, and the script has
    /// the record at most (DuplicateFile table; DuplicateFiles Action).
    pub fn duplicate_file(
        &mut self,
        alloc: Global,
        head: &FileHead,
        from: &Name,
    ) -> Result<(), NoMemory>
        requires right { fits (entry.File (with_bytes head.now [])) ≡ true }
        requires from { length_in (get (present_items self.old.overlay) from.now) ≡ Some head.now.length }
        requires other { from.now ≢ file_name head.now.shown }
        ensures makes { (held files : Map (List ℕ)) → AreThere held files (present_items self.old.overlay) → OnOk result (Makes held files self.old self.new (duplicate_touch (plan_machine held files self.old) head.now from.now ∷ [])) }
        ensures there { (held files : Map (List ℕ)) → AreThere held files (present_items self.old.overlay) → AreThere held files (present_items self.new.overlay) }
        ensures image { OnErr result (present_items self.new.overlay ≡ present_items self.old.overlay) }
        ensures former { former_items self.new.overlay ≡ former_items self.old.overlay }
        ensures grows { Grows self.old.script self.new.script }
    {
        let name = head_name(alloc, head)?;
        stands_outside(self.overlay.image(), from);
        push_duplicate(alloc, &mut self.script, &name, head, from)?;
        put_duplicate(alloc, &mut self.overlay, &name, head, from)?;
        Ok(())
    }
}
