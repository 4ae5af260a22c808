//! How long the records of names are.

ghost use Rattle.std.specs.Prelude.{◌≡◌, ◌+◌, ◌<◌, ◌^◌, true, length, IfOk};
ghost use Rattle.mi_base.specs.Spelling.{head_bytes, record_of};
ghost use Rattle.mi_base.specs.Limits.{fits};
ghost use Rattle.mi_base.specs.Fields.{version as version_bytes};
ghost use Rattle.mi_image.specs.Items.{item_fits};
ghost use Rattle.mi_model.specs.StatedSizes.{stated_size};
ghost use Rattle.mi_cost.specs.Tallies.{item_length};

use mi_base::{EncError, Entry, FileHead, NoMemory, Version, enc_entry};
use mi_image::Item;
use mi_script::Rec;
use std::alloc::Global;

// The bytes of a version and its presence.
fn version_length(version: &Option<Version>) -> u128
    ensures { result ≡ length (version_bytes version.now) }
{
    match version {
        Some(_) => 9,
        None => 1,
    }
}

// The bytes of a file's record before those of the file.
fn head_length(head: &FileHead) -> u128
    ensures bytes { result ≡ length (head_bytes head.now) }
    ensures bound { result < 2 ^ 66 }
{
    26 + head.shown.as_str().len() as u128
        + version_length(&head.version)
        + 2 * head.languages.len() as u128
}

// The bytes of a file's record.
fn file_length(head: &FileHead) -> u128
    ensures bytes { result ≡ length (head_bytes head.now) + head.now.length }
    ensures bound { result < 2 ^ 67 }
{
    head_length(head) + head.length as u128
}

/// What a record of a script states of the size of its name afterwards, in bytes: that of the name and what stands there (this project's
/// own). No memory.
pub fn stated_size(rec: &Rec) -> u128
    ensures { result ≡ stated_size rec.now }
{
    match rec {
        Rec::Put(name, bytes) => name.as_bytes().len() as u128 + bytes.len() as u128,
        Rec::Drop(_) => 0,
        Rec::Copy { name, head, .. } => name.as_bytes().len() as u128 + file_length(head),
        Rec::Dup { name, head, .. } => name.as_bytes().len() as u128 + file_length(head),
    }
}

// The bytes of the record of an entry.
fn entry_length(alloc: Global, entry: &Entry) -> Result<u128, NoMemory>
    requires { fits entry.now ≡ true }
    ensures bytes { IfOk result (λ n. n ≡ length (record_of entry.now)) }
    ensures bound { IfOk result (λ n. n < 2 ^ 67) }
{
    match enc_entry(alloc, entry) {
        Ok((name, record)) => {
            let bytes = record.len() as u128;
            drop(name);
            drop(record);
            Ok(bytes)
        }
        Err(EncError::NoMemory) => Err(NoMemory),
        Err(EncError::Field) => unreachable!(),
    }
}

/// The bytes of the record of what an item stands for.
pub fn item_length(alloc: Global, item: &Item) -> Result<u128, NoMemory>
    requires { item_fits item.now ≡ true }
    ensures bytes { IfOk result (λ n. n ≡ item_length item.now) }
    ensures bound { IfOk result (λ n. n < 2 ^ 67) }
{
    match item {
        Item::Head(head, _) => Ok(file_length(head)),
        Item::Whole(entry) => entry_length(alloc, entry),
    }
}
