//! Heads of files, their copies and names.

ghost use Rattle.std.specs.Prelude.{◌≡◌, [], IfOk, true};
ghost use Rattle.mi_base.specs.declared.entry.Entry.TheVariants as entry;
ghost use Rattle.mi_base.specs.Limits.{fits};
ghost use Rattle.mi_base.specs.Names.{file_name};
ghost use Rattle.mi_base.specs.Records.{with_bytes};

use mi_base::{FileHead, Languages, Name, NameError, NoMemory, PathText, Text, fold};
use std::alloc::Global;

fn copy_languages(alloc: Global, languages: &Languages) -> Result<Languages, NoMemory>
    ensures { IfOk result (λ l. l ≡ languages.now) }
{
    Ok(Languages::from_vec(Vec::from_slice(alloc, languages.as_slice())?))
}

/// A copy of a head.
pub fn copy_head(alloc: Global, head: &FileHead) -> Result<FileHead, NoMemory>
    ensures { IfOk result (λ h. h ≡ head.now) }
{
    Ok(FileHead {
        shown: head.shown.copy(alloc)?,
        version: head.version,
        languages: copy_languages(alloc, &head.languages)?,
        created: head.created,
        modified: head.modified,
        attributes: head.attributes,
        length: head.length,
    })
}

// The text of the name of a file's path.
#[tactic(auto, unfolding(mi_base::specs::Names::file_name))]
fn name_text(alloc: Global, path: &PathText) -> Result<Text, NoMemory>
    ensures { IfOk result (λ text. text ≡ file_name path.now) }
{
    let mut text = Text::copy_of(alloc, "f/")?;
    text.push_str(fold(alloc, path.as_str())?.as_str())?;
    Ok(text)
}

/// The name under which a file with this head is held.
pub fn head_name(alloc: Global, head: &FileHead) -> Result<Name, NoMemory>
    requires { fits (entry.File (with_bytes head.now [])) ≡ true }
    ensures { IfOk result (λ name. name ≡ file_name head.now.shown) }
{
    let text = name_text(alloc, &head.shown)?;
    match Name::of(alloc, text.as_str()) {
        Ok(name) => Ok(name),
        Err(NameError::NoMemory) => Err(NoMemory),
        Err(NameError::Length) => unreachable!(),
    }
}
