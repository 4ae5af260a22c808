//! What a plan changes of an image: it puts entries, copies of the source's files and copies of files that are there,
//! and takes away.

ghost use Rattle.std.specs.Prelude.{◌≡◌, List, ℕ, IfOk, OnOk, OnErr, Some, is_some, true, length};
ghost use Rattle.std.specs.FinMap as tree;
ghost use Rattle.mi_text.specs.Maps.{Map};
ghost use Rattle.mi_base.specs.declared.entry.Entry.TheVariants as entry;
ghost use Rattle.mi_base.specs.Records.{with_bytes};
ghost use Rattle.mi_image.specs.declared.item.Item.TheVariants.{Whole};
ghost use Rattle.mi_image.specs.Items.{bytes_of_file, bytes_or_none, content_bytes, machine_over, AreThere, MayStand, HeadMayStand};
ghost use Rattle.mi_image.specs.Lookups.{length_in};
ghost use Rattle.mi_image.specs.Overlays.{former_items, present_items, present_machine};

use crate::image::Image;
use crate::item::{Content, Item};
use crate::overlay::Overlay;
use mi_base::{Entry, FileHead, Name, NoMemory, Text};
use std::alloc::Global;

// A copy of the content of a file of this name, for another file.
fn content_for_another(alloc: Global, content: &Content, own: &Name) -> Result<Content, NoMemory>
    ensures { (held files : Map (List ℕ)) (other : List ℕ) → IfOk result (λ c. content_bytes held files other c ≡ content_bytes held files own.now content.now) }
{
    match content {
        Content::Own => Ok(Content::Held(own.copy(alloc)?)),
        Content::Held(name) => Ok(Content::Held(name.copy(alloc)?)),
        Content::Copied(path) => Ok(Content::Copied(Text::copy_of(alloc, path.as_str())?)),
    }
}

impl Image {
    // A copy of the content of the file that stands at a name, for another file.
    fn content_from(&self, alloc: Global, from: &Name) -> Result<Content, NoMemory>
        requires { is_some (length_in (tree.get self.now from.now)) ≡ true }
        ensures { (held files : Map (List ℕ)) (other : List ℕ) → IfOk result (λ c. content_bytes held files other c ≡ bytes_of_file (tree.get (machine_over held files self.now) from.now)) }
    {
        match self.get(from.as_str()) {
            Some(Item::Head(_, content)) => content_for_another(alloc, content, from),
            Some(Item::Whole(_)) => unreachable!(),
            None => unreachable!(),
        }
    }
}

impl Overlay {
    /// Puts an entry that isn't a file. Where memory is refused nothing is changed.
    pub fn put_entry(&mut self, alloc: Global, name: &Name, entry: Entry) -> Result<(), NoMemory>
        requires { MayStand name.now (Whole entry) }
        ensures machine { (held files : Map (List ℕ)) → OnOk result (present_machine held files self.new ≡ tree.insert (present_machine held files self.old) name.now entry) }
        ensures there { (held files : Map (List ℕ)) → AreThere held files (present_items self.old) → AreThere held files (present_items self.new) }
        ensures err { OnErr result (present_items self.new ≡ present_items self.old) }
        ensures former { former_items self.new ≡ former_items self.old }
    {
        self.put(alloc, name, Item::Whole(entry))?;
        Ok(())
    }

    /// Takes away what stands at a name, if anything does. Where memory is refused nothing is changed.
    pub fn take(&mut self, alloc: Global, name: &Name) -> Result<(), NoMemory>
        ensures machine { (held files : Map (List ℕ)) → OnOk result (present_machine held files self.new ≡ tree.remove (present_machine held files self.old) name.now) }
        ensures there { (held files : Map (List ℕ)) → AreThere held files (present_items self.old) → AreThere held files (present_items self.new) }
        ensures err { OnErr result (present_items self.new ≡ present_items self.old) }
        ensures former { former_items self.new ≡ former_items self.old }
    {
        self.remove(alloc, name)?;
        Ok(())
    }

    /// Puts a file with this head and the bytes of the source's file of this path (File table). Where memory is refused
    /// nothing is changed.
    pub fn copy_file(
        &mut self,
        alloc: Global,
        name: &Name,
        head: FileHead,
        path: Text,
    ) -> Result<(), NoMemory>
        requires { HeadMayStand name.now head }
        ensures machine { (held files : Map (List ℕ)) → OnOk result (present_machine held files self.new ≡ tree.insert (present_machine held files self.old) name.now (entry.File (with_bytes head (bytes_or_none (tree.get files path))))) }
        ensures there { (held files : Map (List ℕ)) → length (bytes_or_none (tree.get files path)) ≡ head.length → AreThere held files (present_items self.old) → AreThere held files (present_items self.new) }
        ensures err { OnErr result (present_items self.new ≡ present_items self.old) }
        ensures former { former_items self.new ≡ former_items self.old }
    {
        self.put(alloc, name, Item::Head(head, Content::Copied(path)))?;
        Ok(())
    }

    /// Puts a file with this head and the bytes of another file, as many as the head states (DuplicateFile table). Where
    /// memory is refused nothing is changed.
    pub fn dup_file(
        &mut self,
        alloc: Global,
        name: &Name,
        head: FileHead,
        from: &Name,
    ) -> Result<(), NoMemory>
        requires may { HeadMayStand name.now head }
        requires from { length_in (tree.get (present_items self.old) from.now) ≡ Some head.length }
        ensures machine { (held files : Map (List ℕ)) → OnOk result (present_machine held files self.new ≡ tree.insert (present_machine held files self.old) name.now (entry.File (with_bytes head (bytes_of_file (tree.get (present_machine held files self.old) from.now))))) }
        ensures there { (held files : Map (List ℕ)) → AreThere held files (present_items self.old) → AreThere held files (present_items self.new) }
        ensures err { OnErr result (present_items self.new ≡ present_items self.old) }
        ensures former { former_items self.new ≡ former_items self.old }
    {
        match self.image().content_from(alloc, from) {
            Ok(content) => {
                self.put(alloc, name, Item::Head(head, content))?;
                Ok(())
            }
            Err(_) => {
                drop(head);
                Err(NoMemory)
            }
        }
    }
}
