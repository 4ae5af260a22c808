//! Names and folders of files, and how rows are refused.

ghost use Rattle.std.specs.Prelude.{◌≡◌, IfOk};
ghost use Rattle.mi_text.specs.Fold.{folded};
ghost use Rattle.mi_text.specs.Path.{up_to_last, last_part};
ghost use Rattle.mi_base.specs.Names.{file_name};
ghost use Rattle.mi_base.specs.declared.answers.Fault.TheVariants.{BadPath};
ghost use Rattle.mi_records.specs.Clients.{IsFault};

use mi_base::{Bytes, Fault, Name, NameError, NoMemory, PathText, Text, fold};
use mi_records::PlanError;
use std::alloc::Global;

// ---- names

// The text of the name of a file.
#[tactic(auto, unfolding(mi_base::specs::Names::file_name))]
fn name_text(alloc: Global, path: &PathText) -> Result<Text, NoMemory>
    ensures { IfOk result (λ text. text ≡ file_name path.now) }
{
    let mut text = Text::copy_of(alloc, "f/")?;
    text.push_str(fold(alloc, path.as_str())?.as_str())?;
    Ok(text)
}

/// The name under which the file of a path is held.
pub fn name_of_file(alloc: Global, path: &PathText) -> Result<Name, NoMemory>
    ensures { IfOk result (λ name. name ≡ file_name path.now) }
{
    let _text = path.as_str();
    let text = name_text(alloc, path)?;
    match Name::of(alloc, text.as_str()) {
        Ok(name) => Ok(name),
        Err(NameError::NoMemory) => Err(NoMemory),
        Err(NameError::Length) => unreachable!(),
    }
}

// ---- folders

/// The text up to and with its last backslash, and what stands behind that.
pub fn split_last(text: &str) -> (&str, &str)
    ensures { (result.0.now ≡ up_to_last text.now) × (result.1.now ≡ last_part text.now) }
{
    match text.rfind('\\') {
        Some(place) => text.split_at(place + 1),
        None => ("", text),
    }
}

/// The place of a folder in the tree of folders: its path, folded.
pub fn place_of(alloc: Global, folder: &str) -> Result<Bytes, NoMemory>
    ensures { IfOk result (λ place. place ≡ folded folder.now) }
{
    let text = fold(alloc, folder)?;
    let place = Bytes::copy_of(alloc, text.as_bytes())?;
    Ok(place)
}

/// The place of the folder that a file lies in.
pub fn place_above(alloc: Global, path: &PathText) -> Result<Bytes, NoMemory>
    ensures { IfOk result (λ place. place ≡ folded (up_to_last path.now)) }
{
    let (folder, _) = split_last(path.as_str());
    let place = place_of(alloc, folder)?;
    Ok(place)
}

// ---- refusals

/// The path of the row with this number, from 1, of a table is none, or is past the limits.
pub fn bad_path(alloc: Global, table: &str, number: u32) -> PlanError
    ensures { IsFault (BadPath table.now number) result }
{
    match Text::copy_of(alloc, table) {
        Ok(table) => PlanError::Fault(Fault::BadPath(table, number)),
        Err(_) => PlanError::NoMemory,
    }
}
