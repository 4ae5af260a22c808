//! The written form of a script.

ghost use Rattle.std.specs.Prelude.{◌≡◌, ◌++◌, OnOk, IfOk};
ghost use Rattle.std.specs.List.{flat_map};
ghost use Rattle.std.specs.Int.{w16, w64, to_be_bytes};
ghost use Rattle.mi_script.specs.Written.{long, long_numbers, written_head, written_rec, written_script};

use crate::rec::Rec;
use crate::script::Script;
use mi_base::{Bytes, FileHead, NoMemory, Text, put_u16, put_u32, put_u64, put_version};
use std::alloc::Global;

// A length, and the bytes.
fn put_long(out: &mut Vec<u8>, bytes: &[u8]) -> Result<(), NoMemory>
    ensures { OnOk result (out.new.items ≡ out.old.items ++ long bytes.now) }
{
    put_u64(out, bytes.len() as u64)?;
    out.extend_from_slice(bytes)?;
    Ok(())
}

fn put_each_number(out: &mut Vec<u8>, items: &[u16]) -> Result<(), NoMemory>
    ensures { OnOk result (out.new.items ≡ out.old.items ++ flat_map (to_be_bytes w16) items.now) }
{
    for number in items {
        put_u16(out, *number)?;
    }
    Ok(())
}

// A count, and the numbers.
fn put_numbers(out: &mut Vec<u8>, items: &[u16]) -> Result<(), NoMemory>
    ensures { OnOk result (out.new.items ≡ out.old.items ++ long_numbers items.now) }
{
    put_u64(out, items.len() as u64)?;
    put_each_number(out, items)
}

#[tactic(auto, unfolding(crate::specs::Written::written_head))]
fn put_head(out: &mut Vec<u8>, head: &FileHead) -> Result<(), NoMemory>
    ensures { OnOk result (out.new.items ≡ out.old.items ++ written_head head.now) }
{
    put_long(out, head.shown.as_str().as_bytes())?;
    put_version(out, &head.version)?;
    put_numbers(out, head.languages.as_slice())?;
    put_u64(out, head.created)?;
    put_u64(out, head.modified)?;
    put_u32(out, head.attributes)?;
    put_u64(out, head.length)
}

// A length, and a head of as many bytes.
fn put_long_head(alloc: Global, out: &mut Vec<u8>, head: &FileHead) -> Result<(), NoMemory>
    ensures { OnOk result (out.new.items ≡ out.old.items ++ long (written_head head.now)) }
{
    let mut bytes = Vec::new(alloc);
    put_head(&mut bytes, head)?;
    put_long(out, bytes.as_slice())
}

fn put_texts(out: &mut Vec<u8>, file: &Text, path: &Text, length: u64) -> Result<(), NoMemory>
    ensures { OnOk result (out.new.items ≡ out.old.items ++ long file.now ++ long path.now ++ to_be_bytes w64 length) }
{
    put_long(out, file.as_bytes())?;
    put_long(out, path.as_bytes())?;
    put_u64(out, length)
}

#[tactic(auto, unfolding(crate::specs::Written::written_rec))]
fn put_rec(alloc: Global, out: &mut Vec<u8>, rec: &Rec) -> Result<(), NoMemory>
    ensures { OnOk result (out.new.items ≡ out.old.items ++ written_rec rec.now) }
{
    match rec {
        Rec::Put(name, bytes) => {
            out.push(1)?;
            put_long(out, name.as_bytes())?;
            put_long(out, bytes.as_slice())
        }
        Rec::Drop(name) => {
            out.push(2)?;
            put_long(out, name.as_bytes())
        }
        Rec::Copy {
            name,
            head,
            file,
            path,
            length,
        } => {
            out.push(3)?;
            put_long(out, name.as_bytes())?;
            put_long_head(alloc, out, head)?;
            put_texts(out, file, path, *length)
        }
        Rec::Dup { name, head, from } => {
            out.push(4)?;
            put_long(out, name.as_bytes())?;
            put_long_head(alloc, out, head)?;
            put_long(out, from.as_bytes())
        }
    }
}

fn put_recs(alloc: Global, out: &mut Vec<u8>, recs: &[Rec]) -> Result<(), NoMemory>
    ensures { OnOk result (out.new.items ≡ out.old.items ++ flat_map written_rec recs.now) }
{
    for rec in recs {
        put_rec(alloc, out, rec)?;
    }
    Ok(())
}

/// The written form of a script. Every script has one (this project's own).
#[tactic(auto, unfolding(crate::specs::Written::written_script))]
pub fn write_script(alloc: Global, script: &Script) -> Result<Bytes, NoMemory>
    ensures written { IfOk result (λ bytes. bytes ≡ written_script script.now) }
{
    let recs = script.recs();
    let mut out = Vec::new(alloc);
    put_u64(&mut out, recs.len() as u64)?;
    put_recs(alloc, &mut out, recs)?;
    Ok(Bytes::from_vec(out))
}
