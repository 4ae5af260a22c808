//! The records that steps add to a script.

ghost use Rattle.std.specs.Prelude.{◌≡◌, ◌≢◌, ◌++◌, ◌∷◌, [], Some, List, ℕ, IfOk, OnOk, true, false, if◌then◌else◌};
ghost use Rattle.std.specs.Str.{bytes_eq};
ghost use Rattle.std.specs.FinMap.{get};
ghost use Rattle.mi_text.specs.Maps.{Map};
ghost use Rattle.mi_base.specs.Limits.{fits};
ghost use Rattle.mi_base.specs.Machine.{volume_of};
ghost use Rattle.mi_base.specs.Spelling.{record_of};
ghost use Rattle.mi_image.specs.Items.{machine_over, HeadMayStand};
ghost use Rattle.mi_script.specs.Spelled.{is_file_name, same_record};
ghost use Rattle.mi_script.specs.declared.rec.Rec.TheVariants as record_of_script;
ghost use Rattle.mi_undo.specs.Names.{is_inside};
ghost use Rattle.mi_steps.specs.Follows.{Grows};

use crate::heads::copy_head;
use crate::script::Records;
use mi_base::{Bytes, EncError, Entry, FileHead, Name, NoMemory, Text, enc_entry};
use mi_image::{Image, Item};
use mi_script::Rec;
use std::alloc::Global;

// Whether these bytes are the record of an entry.
fn is_record(alloc: Global, entry: &Entry, own: &[u8]) -> Result<bool, NoMemory>
    requires { fits entry.now ≡ true }
    ensures { IfOk result (λ b. b ≡ bytes_eq own.now (record_of entry.now)) }
{
    match enc_entry(alloc, entry) {
        Ok((_, bytes)) => Ok(own == bytes.as_slice()),
        Err(EncError::NoMemory) => Err(NoMemory),
        Err(EncError::Field) => unreachable!(),
    }
}

// Whether what stands at a name, which isn't a file's, has this record.
fn stands(alloc: Global, image: &Image, name: &str, own: &[u8]) -> Result<bool, NoMemory>
    requires { is_file_name name.now ≡ false }
    ensures { (held files : Map (List ℕ)) → IfOk result (λ b. same_record (Some own.now) (get (volume_of (machine_over held files image.now)) name.now) ≡ b) }
{
    match image.get(name) {
        Some(Item::Whole(entry)) => is_record(alloc, entry, own),
        Some(Item::Head(_, _)) => Ok(false),
        None => Ok(false),
    }
}

// Adds the record that puts these bytes at a name, unless they stand there.
fn push_put(
    alloc: Global,
    script: &mut Records,
    name: &Name,
    bytes: Bytes,
    stays: bool,
) -> Result<(), NoMemory>
    requires outside { is_inside name.now ≡ false }
    ensures ok { OnOk result (script.new ≡ script.old ++ (if stays then [] else record_of_script.Put name.now bytes ∷ [])) }
    ensures grows { Grows script.old script.new }
{
    if stays {
        return Ok(());
    }
    let at = name.copy(alloc)?;
    script.push(Rec::Put(at, bytes))
}

/// Adds the record that puts these bytes at a name that isn't a file's, unless they stand there.
pub fn note_put(
    alloc: Global,
    image: &Image,
    script: &mut Records,
    name: &Name,
    bytes: Bytes,
) -> Result<(), NoMemory>
    requires plain { is_file_name name.now ≡ false }
    requires outside { is_inside name.now ≡ false }
    ensures ok { (held files : Map (List ℕ)) → OnOk result (script.new ≡ script.old ++ (if same_record (Some bytes) (get (volume_of (machine_over held files image.now)) name.now) then [] else record_of_script.Put name.now bytes ∷ [])) }
    ensures grows { Grows script.old script.new }
{
    let stays = stands(alloc, image, name.as_str(), bytes.as_slice())?;
    push_put(alloc, script, name, bytes, stays)
}

/// Adds the record that takes away what stands at a name.
pub fn push_drop(alloc: Global, script: &mut Records, name: &Name) -> Result<(), NoMemory>
    requires outside { is_inside name.now ≡ false }
    ensures ok { OnOk result (script.new ≡ script.old ++ record_of_script.Drop name.now ∷ []) }
    ensures grows { Grows script.old script.new }
{
    let at = name.copy(alloc)?;
    script.push(Rec::Drop(at))
}

// A record that copies a file of the source.
fn copy_record(
    alloc: Global,
    name: &Name,
    head: &FileHead,
    file: &str,
    path: &str,
) -> Result<Rec, NoMemory>
    ensures { IfOk result (λ r. r ≡ record_of_script.Copy name.now head.now file.now path.now head.now.length) }
{
    Ok(Rec::Copy {
        name: name.copy(alloc)?,
        head: copy_head(alloc, head)?,
        file: Text::copy_of(alloc, file)?,
        path: Text::copy_of(alloc, path)?,
        length: head.length,
    })
}

/// Adds the record that copies a file of the source.
pub fn push_copy(
    alloc: Global,
    script: &mut Records,
    name: &Name,
    head: &FileHead,
    file: &str,
    path: &str,
) -> Result<(), NoMemory>
    requires may { HeadMayStand name.now head.now }
    ensures ok { OnOk result (script.new ≡ script.old ++ record_of_script.Copy name.now head.now file.now path.now head.now.length ∷ []) }
    ensures grows { Grows script.old script.new }
{
    let copy = copy_record(alloc, name, head, file, path)?;
    script.push(copy)
}

// A record that duplicates a file that is there.
fn duplicate_record(
    alloc: Global,
    name: &Name,
    head: &FileHead,
    from: &Name,
) -> Result<Rec, NoMemory>
    ensures { IfOk result (λ r. r ≡ record_of_script.Dup name.now head.now from.now) }
{
    Ok(Rec::Dup {
        name: name.copy(alloc)?,
        head: copy_head(alloc, head)?,
        from: from.copy(alloc)?,
    })
}

/// Adds the record that duplicates a file that is there.
pub fn push_duplicate(
    alloc: Global,
    script: &mut Records,
    name: &Name,
    head: &FileHead,
    from: &Name,
) -> Result<(), NoMemory>
    requires may { HeadMayStand name.now head.now }
    requires other { from.now ≢ name.now }
    requires from { is_inside from.now ≡ false }
    ensures ok { OnOk result (script.new ≡ script.old ++ record_of_script.Dup name.now head.now from.now ∷ []) }
    ensures grows { Grows script.old script.new }
{
    let duplicate = duplicate_record(alloc, name, head, from)?;
    script.push(duplicate)
}
