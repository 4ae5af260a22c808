//! Keys that are made where they are missing, with the keys above them.

ghost use Rattle.std.specs.Prelude.{◌≡◌, ◌<◌, ◌∷◌, [], List, ℕ, IfOk, OnOk, true, false, is_none};
ghost use Rattle.std.specs.FinMap.{get};
ghost use Rattle.mi_text.specs.Maps.{Map};
ghost use Rattle.mi_base.specs.Limits.{fits, is_key};
ghost use Rattle.mi_base.specs.Spelling.{name_of};
ghost use Rattle.mi_changes.specs.Touches.{Set};
ghost use Rattle.mi_model.specs.Parents.{key_touch, key_with_parents, or_new};
ghost use Rattle.mi_steps.specs.Follows.{put_touch};
ghost use Rattle.mi_steps.specs.Makes.{Makes, is_file};
ghost use Rattle.mi_records.specs.Keeps.{Keeps};

use mi_base::{EncError, Entry, Name, NoMemory, Text, enc_entry};
use mi_image::Image;
use mi_steps::Plan;
use std::alloc::Global;

/// The name of an entry.
pub fn name_of(alloc: Global, entry: &Entry) -> Result<Name, NoMemory>
    requires { fits entry.now ≡ true }
    ensures { IfOk result (λ name. name ≡ name_of entry.now) }
{
    match enc_entry(alloc, entry) {
        Ok((name, _)) => Ok(name),
        Err(EncError::NoMemory) => Err(NoMemory),
        Err(EncError::Field) => unreachable!(),
    }
}

/// Puts an entry that isn't a file.
pub fn put_entry(alloc: Global, plan: &mut Plan, entry: Entry) -> Result<(), NoMemory>
    requires right { fits entry ≡ true }
    requires plain { is_file entry ≡ false }
    ensures makes { (held files : Map (List ℕ)) → OnOk result (Makes held files plan.old plan.new (put_touch (name_of entry) entry ∷ [])) }
    ensures keeps { Keeps plan.old plan.new }
{
    match plan.put(alloc, entry) {
        Ok(()) => Ok(()),
        Err(EncError::NoMemory) => Err(NoMemory),
        Err(EncError::Field) => unreachable!(),
    }
}

// Whether nothing stands at the name of an entry.
fn is_missing(alloc: Global, image: &Image, entry: &Entry) -> Result<bool, NoMemory>
    requires { fits entry.now ≡ true }
    ensures { IfOk result (λ missing. missing ≡ is_none (get image.now (name_of entry.now))) }
{
    let name = name_of(alloc, entry)?;
    Ok(image.get(name.as_str()).is_none())
}

// Puts an entry that isn't a file, where nothing stands at its name.
fn put_missing(alloc: Global, plan: &mut Plan, entry: Entry) -> Result<(), NoMemory>
    requires right { fits entry ≡ true }
    requires plain { is_file entry ≡ false }
    ensures makes { (held files : Map (List ℕ)) → OnOk result (Makes held files plan.old plan.new (Set (name_of entry) (or_new entry) ∷ [])) }
    ensures keeps { Keeps plan.old plan.new }
{
    match is_missing(alloc, plan.overlay.image(), &entry) {
        Ok(true) => put_entry(alloc, plan, entry),
        Ok(false) => {
            drop(entry);
            Ok(())
        }
        Err(_) => {
            drop(entry);
            Err(NoMemory)
        }
    }
}

// Makes a key where it is missing. A key that is there takes no memory.
fn make_key(alloc: Global, plan: &mut Plan, root: u8, key: &str) -> Result<(), NoMemory>
    requires root { root < 4 }
    requires key { is_key key.now ≡ true }
    ensures makes { (held files : Map (List ℕ)) → OnOk result (Makes held files plan.old plan.new (key_touch root key.now ∷ [])) }
    ensures keeps { Keeps plan.old plan.new }
{
    if plan.overlay.image().key(root, key) {
        return Ok(());
    }
    let shown = Text::copy_of(alloc, key)?;
    put_missing(alloc, plan, Entry::Key(root, shown))
}

/// Makes a key and the keys above it where they are missing, the outermost first. It costs a search for each of them.
pub fn make_keys(alloc: Global, plan: &mut Plan, root: u8, key: &str) -> Result<(), NoMemory>
    requires root { root < 4 }
    requires key { is_key key.now ≡ true }
    ensures makes { (held files : Map (List ℕ)) → OnOk result (Makes held files plan.old plan.new (key_with_parents root key.now)) }
    ensures keeps { Keeps plan.old plan.new }
{
    for (place, byte) in key.as_bytes().iter().enumerate() {
        if *byte == b'\\' {
            make_key(alloc, plan, root, &key[..place])?;
        }
    }
    make_key(alloc, plan, root, key)
}
