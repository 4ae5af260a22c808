//! Folders that are made where they are missing, with the folders above them (CreateFolders Action; Directory table).

ghost use Rattle.std.specs.Prelude.{◌≡◌, ◌∷◌, [], List, ℕ, IfOk, OnOk, IsTrue, true, false, is_none};
ghost use Rattle.std.specs.FinMap.{get};
ghost use Rattle.mi_text.specs.Maps.{Map};
ghost use Rattle.mi_text.specs.Path.{is_folder_path};
ghost use Rattle.mi_base.specs.declared.entry.Entry.TheVariants as entry;
ghost use Rattle.mi_base.specs.Limits.{fits};
ghost use Rattle.mi_base.specs.Spelling.{name_of};
ghost use Rattle.mi_changes.specs.Touches.{Set};
ghost use Rattle.mi_image.specs.Items.{AreThere};
ghost use Rattle.mi_image.specs.Overlays.{former_items, present_items};
ghost use Rattle.mi_model.specs.Parents.{folder_touch, folder_with_parents, or_new};
ghost use Rattle.mi_steps.specs.Follows.{Grows};
ghost use Rattle.mi_steps.specs.Makes.{Makes, is_file};
ghost use Rattle.mi_records.specs.Keeps.{Keeps};

use mi_base::{EncError, Entry, Name, NoMemory, PathText, Text, enc_entry};
use mi_image::Image;
use mi_steps::Plan;
use std::alloc::Global;

// The name of an entry.
fn name_of(alloc: Global, entry: &Entry) -> Result<Name, NoMemory>
    requires { fits entry.now ≡ true }
    ensures { IfOk result (λ name. name ≡ name_of entry.now) }
{
    match enc_entry(alloc, entry) {
        Ok((name, _)) => Ok(name),
        Err(EncError::NoMemory) => Err(NoMemory),
        Err(EncError::Field) => unreachable!(),
    }
}

// Whether nothing stands at the name of an entry.
fn is_missing(alloc: Global, image: &Image, entry: &Entry) -> Result<bool, NoMemory>
    requires { fits entry.now ≡ true }
    ensures { IfOk result (λ missing. missing ≡ is_none (get image.now (name_of entry.now))) }
{
    let name = name_of(alloc, entry)?;
    Ok(image.get(name.as_str()).is_none())
}

// Puts an entry that isn't a file, where nothing stands at its name.
fn put_missing(alloc: Global, plan: &mut Plan, entry: Entry) -> Result<(), NoMemory>
    requires right { fits entry ≡ true }
    requires plain { is_file entry ≡ false }
    ensures makes { (held files : Map (List ℕ)) → OnOk result (Makes held files plan.old plan.new (Set (name_of entry) (or_new entry) ∷ [])) }
    ensures keeps { Keeps plan.old plan.new }
{
    match is_missing(alloc, plan.overlay.image(), &entry) {
        Ok(true) => match plan.put(alloc, entry) {
            Ok(()) => Ok(()),
            Err(EncError::NoMemory) => Err(NoMemory),
            Err(EncError::Field) => unreachable!(),
        },
        Ok(false) => {
            drop(entry);
            Ok(())
        }
        Err(_) => {
            drop(entry);
            Err(NoMemory)
        }
    }
}

// The path of a folder's text.
fn path_of(alloc: Global, folder: &str) -> Result<PathText, NoMemory>
    requires { is_folder_path folder.now ≡ true }
    ensures { IfOk result (λ path. path ≡ folder.now) }
{
    let text = Text::copy_of(alloc, folder)?;
    match PathText::of(text) {
        Some(path) => Ok(path),
        None => unreachable!(),
    }
}

// Makes a folder, which isn't the drive's own, where it is missing.
fn make_folder(alloc: Global, plan: &mut Plan, folder: &str) -> Result<(), NoMemory>
    requires { fits (entry.Folder folder.now) ≡ true }
    ensures makes { (held files : Map (List ℕ)) → OnOk result (Makes held files plan.old plan.new (folder_touch folder.now ∷ [])) }
    ensures keeps { Keeps plan.old plan.new }
{
    let shown = path_of(alloc, folder)?;
    put_missing(alloc, plan, Entry::Folder(shown))
}

/// Makes a folder and the folders above it where they are missing, the outermost first; the drive itself is always there. A folder
/// that stands adds no record, and is shown as it was. It costs a search for each of them (CreateFolders Action; that missing
/// parents are made is this project's own).
pub fn make_folders(alloc: Global, plan: &mut Plan, folder: &PathText) -> Result<(), NoMemory>
    requires { IsTrue (is_folder_path folder.now) }
    ensures makes { (held files : Map (List ℕ)) → OnOk result (Makes held files plan.old plan.new (folder_with_parents folder.now)) }
    ensures there { (held files : Map (List ℕ)) → AreThere held files (present_items plan.old.overlay) → AreThere held files (present_items plan.new.overlay) }
    ensures former { former_items plan.new.overlay ≡ former_items plan.old.overlay }
    ensures grows { Grows plan.old.script plan.new.script }
{
    let text = folder.as_str();
    for (place, byte) in text.as_bytes().iter().enumerate() {
        if place > 2 && *byte == b'\\' {
            make_folder(alloc, plan, &text[..place + 1])?;
        }
    }
    Ok(())
}
