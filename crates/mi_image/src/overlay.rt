//! An image that a plan changes, beside what it was before.

ghost use Rattle.std.specs.Prelude.{◌≡◌, IfOk, OnOk, OnErr, Some, None, is_some, true, string_bytes};
ghost use Rattle.std.specs.Option.{option_copied, option_map};
ghost use Rattle.std.specs.FinMap as tree;
ghost use Rattle.mi_text.specs.Maps.{set_to};
ghost use Rattle.mi_image.specs.declared.item.Item as item_value;
ghost use Rattle.mi_image.specs.Items.{MayStand, unboxed};
ghost use Rattle.mi_image.specs.Overlays.{before, former_items, present_items};

use crate::former::Former;
use crate::image::Image;
use crate::item::Item;
use mi_base::{Name, NoMemory};
use std::alloc::Global;
use std::marker::Model;

/// An image, and what it was before it was changed (this project's own). What a change takes away is moved to what
/// stood before; nothing that stays is copied.
#[derive(Drop)]
pub struct Overlay {
    image: Image,
    former: Former,
}

impl Model for Overlay {
    ghost use Rattle.std.specs.FinMap as map;
    ghost use Rattle.std.specs.Coded.{coded_list, coded_ℕ, coded×};
    ghost use Rattle.mi_image.specs.contracts.item.Item as item;
    ghost use Rattle.mi_image.specs.Overlays.{Overlaid, before};

    ghost Value = { Overlaid };

    ghost coded = { coded× (map.code (coded_list coded_ℕ) item.the_row.coded) (map.code (coded_list coded_ℕ) item.the_row.coded) };

    ghost view = { λ o. (before o.image o.former, o.image) };
}

// Notes what stood at a name that was set, or puts it back where there is no memory for a note.
fn note_or_put_back(
    image: &mut Image,
    former: &mut Former,
    key: String,
    was: Option<Box<Item>>,
) -> Result<(), NoMemory>
    requires set { is_some (tree.get image.old (string_bytes key)) ≡ true }
    requires may { (i : item_value.Item) → option_map unboxed was ≡ Some i → MayStand (string_bytes key) i }
    ensures stays { OnOk result (image.new ≡ image.old) }
    ensures noted { OnOk result (former.new ≡ tree.insert former.old (string_bytes key) (option_map unboxed was)) }
    ensures back { OnErr result (image.new ≡ set_to image.old (string_bytes key) (option_map unboxed was)) }
    ensures err { OnErr result (former.new ≡ former.old) }
{
    match former.note(key, was) {
        Ok(()) => Ok(()),
        Err(refused) => {
            let (key, was) = refused.value;
            image.put_back(key, was);
            Err(NoMemory)
        }
    }
}

// Sets what stands at a name that wasn't changed yet. What stood there is noted last, since it can be put back without
// memory.
fn put_first(
    alloc: Global,
    image: &mut Image,
    former: &mut Former,
    keys: (String, String),
    item: Item,
) -> Result<(), NoMemory>
    requires may { MayStand (string_bytes keys.0) item }
    requires same { string_bytes keys.1 ≡ string_bytes keys.0 }
    requires new { tree.get former.old (string_bytes keys.0) ≡ None }
    ensures ok { OnOk result (image.new ≡ tree.insert image.old (string_bytes keys.0) item) }
    ensures err { OnErr result (image.new ≡ image.old) }
    ensures before { before image.new former.new ≡ before image.old former.old }
{
    let (key, name) = keys;
    match image.exchange(alloc, key, item) {
        Ok(was) => {
            note_or_put_back(image, former, name, was)?;
            Ok(())
        }
        Err(_) => {
            drop(name);
            Err(NoMemory)
        }
    }
}

// Takes away what stands at a name that wasn't changed yet: it is marked first, so that what stood there is noted
// without memory.
fn take_first(
    image: &mut Image,
    former: &mut Former,
    mark: String,
    name: String,
) -> Result<(), NoMemory>
    requires same { string_bytes name ≡ string_bytes mark }
    requires new { tree.get former.old (string_bytes mark) ≡ None }
    ensures ok { OnOk result (image.new ≡ tree.remove image.old (string_bytes mark)) }
    ensures err { OnErr result (image.new ≡ image.old) }
    ensures before { before image.new former.new ≡ before image.old former.old }
{
    match former.note(mark, None) {
        Ok(()) => {
            let was = image.take(name.as_str());
            former.fill(name, was);
            Ok(())
        }
        Err(refused) => {
            drop(refused);
            drop(name);
            Err(NoMemory)
        }
    }
}

// Two copies of a name.
fn two_of(alloc: Global, name: &str) -> Result<(String, String), NoMemory>
    ensures first { IfOk result (λ keys. string_bytes keys.0 ≡ name.now) }
    ensures second { IfOk result (λ keys. string_bytes keys.1 ≡ name.now) }
{
    Ok((
        String::from_str(alloc, name)?,
        String::from_str(alloc, name)?,
    ))
}

impl Overlay {
    /// An image before it is changed, which takes no memory.
    pub fn new(alloc: Global, image: Image) -> Overlay
        ensures former { former_items result ≡ image }
        ensures present { present_items result ≡ image }
    {
        Overlay {
            image,
            former: Former::new(alloc),
        }
    }

    /// The image after the changes.
    pub fn image(&self) -> &Image
        ensures { result.now ≡ present_items self.now }
    {
        &self.image
    }

    /// What stood at a name before the changes. No memory.
    pub fn was(&self, name: &str) -> Option<&Item>
        ensures { option_copied result ≡ tree.get (former_items self.now) name.now }
    {
        match self.former.get(name) {
            Some(stood) => stood,
            None => self.image.get(name),
        }
    }

    /// Sets what stands at a name. Where memory is refused nothing is changed.
    pub fn put(&mut self, alloc: Global, name: &Name, item: Item) -> Result<(), NoMemory>
        requires { MayStand name.now item }
        ensures ok { OnOk result (present_items self.new ≡ tree.insert (present_items self.old) name.now item) }
        ensures err { OnErr result (present_items self.new ≡ present_items self.old) }
        ensures former { former_items self.new ≡ former_items self.old }
    {
        if self.former.holds(name.as_str()) {
            return self.image.put(alloc, name, item);
        }
        match two_of(alloc, name.as_str()) {
            Ok(keys) => put_first(alloc, &mut self.image, &mut self.former, keys, item),
            Err(_) => {
                drop(item);
                Err(NoMemory)
            }
        }
    }

    /// Takes away what stands at a name, if anything does. Where memory is refused nothing is changed.
    pub(crate) fn remove(&mut self, alloc: Global, name: &Name) -> Result<(), NoMemory>
        ensures ok { OnOk result (present_items self.new ≡ tree.remove (present_items self.old) name.now) }
        ensures err { OnErr result (present_items self.new ≡ present_items self.old) }
        ensures former { former_items self.new ≡ former_items self.old }
    {
        if self.former.holds(name.as_str()) {
            let was = self.image.take(name.as_str());
            drop(was);
            return Ok(());
        }
        let (mark, key) = two_of(alloc, name.as_str())?;
        take_first(&mut self.image, &mut self.former, mark, key)
    }
}
