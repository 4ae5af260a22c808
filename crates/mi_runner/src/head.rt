//! What stands before a file's bytes in its record.

ghost use Rattle.std.specs.Prelude.{◌≡◌, [], IfOk, true};
ghost use Rattle.mi_base.specs.declared.entry.Entry.TheVariants as entry;
ghost use Rattle.mi_base.specs.Limits.{fits};
ghost use Rattle.mi_base.specs.Records.{with_bytes};
ghost use Rattle.mi_base.specs.Spelling.{head_bytes, record_of};

use mi_base::{Bytes, EncError, Entry, FileEntry, FileHead, Languages, NoMemory, enc_entry};
use std::alloc::Global;

// The file of a head, without a byte.
fn empty_file(alloc: Global, head: &FileHead) -> Result<FileEntry, NoMemory>
    ensures { IfOk result (λ file. file ≡ with_bytes head.now []) }
{
    Ok(FileEntry {
        shown: head.shown.copy(alloc)?,
        version: head.version,
        languages: Languages::from_vec(Vec::from_slice(alloc, head.languages.as_slice())?),
        created: head.created,
        modified: head.modified,
        attributes: head.attributes,
        bytes: Bytes::new(alloc),
    })
}

// The record of a file.
fn file_record(alloc: Global, file: &Entry) -> Result<Bytes, NoMemory>
    requires { fits file.now ≡ true }
    ensures { IfOk result (λ bytes. bytes ≡ record_of file.now) }
{
    match enc_entry(alloc, file) {
        Ok((name, record)) => {
            drop(name);
            Ok(record)
        }
        Err(EncError::NoMemory) => Err(NoMemory),
        Err(EncError::Field) => unreachable!(),
    }
}

/// The bytes of a file's record before the file's own bytes.
pub fn head_record(alloc: Global, head: &FileHead) -> Result<Bytes, NoMemory>
    requires { fits (entry.File (with_bytes head.now [])) ≡ true }
    ensures { IfOk result (λ bytes. bytes ≡ head_bytes head.now) }
{
    let file = Entry::File(empty_file(alloc, head)?);
    let record = file_record(alloc, &file);
    drop(file);
    record
}
