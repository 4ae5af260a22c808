//! Writing the fields of records, one after the other.

ghost use Rattle.std.specs.Prelude.{◌≡◌, ◌++◌, ◌∷◌, [], OnOk, true, length};
ghost use Rattle.std.specs.List.{list_all, flat_map};
ghost use Rattle.std.specs.Int.{w16, w32, w64, to_be_bytes};
ghost use Rattle.mi_base.specs.Limits.{is_short, are_few, fits_value};
ghost use Rattle.mi_base.specs.Fields.{string, strings, numbers, signed, four_numbers, version, payload};

use crate::entry::RegValue;
use mi_text::{NoMemory, Text, Version};

/// A number in two bytes.
pub fn put_u16(out: &mut Vec<u8>, number: u16) -> Result<(), NoMemory>
    ensures { OnOk result (out.new.items ≡ out.old.items ++ to_be_bytes w16 number) }
{
    out.extend_from_slice(&number.to_be_bytes())?;
    Ok(())
}

/// A number in four bytes.
pub fn put_u32(out: &mut Vec<u8>, number: u32) -> Result<(), NoMemory>
    ensures { OnOk result (out.new.items ≡ out.old.items ++ to_be_bytes w32 number) }
{
    out.extend_from_slice(&number.to_be_bytes())?;
    Ok(())
}

/// A number in eight bytes.
pub fn put_u64(out: &mut Vec<u8>, number: u64) -> Result<(), NoMemory>
    ensures { OnOk result (out.new.items ≡ out.old.items ++ to_be_bytes w64 number) }
{
    out.extend_from_slice(&number.to_be_bytes())?;
    Ok(())
}

/// A number in two bytes, in two's complement.
pub fn put_i16(out: &mut Vec<u8>, number: i16) -> Result<(), NoMemory>
    ensures { OnOk result (out.new.items ≡ out.old.items ++ signed number) }
{
    out.extend_from_slice(&number.to_be_bytes())?;
    Ok(())
}

/// A length, and the bytes.
pub fn put_bytes(out: &mut Vec<u8>, bytes: &[u8]) -> Result<(), NoMemory>
    requires { is_short bytes.now ≡ true }
    ensures { OnOk result (out.new.items ≡ out.old.items ++ string bytes.now) }
{
    put_u32(out, bytes.len() as u32)?;
    out.extend_from_slice(bytes)?;
    Ok(())
}

fn put_each_text(out: &mut Vec<u8>, texts: &[Text]) -> Result<(), NoMemory>
    requires { list_all is_short texts.now ≡ true }
    ensures { OnOk result (out.new.items ≡ out.old.items ++ flat_map string texts.now) }
{
    for text in texts {
        put_bytes(out, text.as_bytes())?;
    }
    Ok(())
}

/// A count, and the texts.
pub fn put_texts(out: &mut Vec<u8>, texts: &[Text]) -> Result<(), NoMemory>
    requires few { are_few texts.now ≡ true }
    requires short { list_all is_short texts.now ≡ true }
    ensures { OnOk result (out.new.items ≡ out.old.items ++ strings texts.now) }
{
    put_u16(out, texts.len() as u16)?;
    put_each_text(out, texts)
}

fn put_each_number(out: &mut Vec<u8>, items: &[u16]) -> Result<(), NoMemory>
    ensures { OnOk result (out.new.items ≡ out.old.items ++ flat_map (to_be_bytes w16) items.now) }
{
    for number in items {
        put_u16(out, *number)?;
    }
    Ok(())
}

/// A count, and the numbers.
pub fn put_numbers(out: &mut Vec<u8>, items: &[u16]) -> Result<(), NoMemory>
    requires { are_few items.now ≡ true }
    ensures { OnOk result (out.new.items ≡ out.old.items ++ numbers items.now) }
{
    put_u16(out, items.len() as u16)?;
    put_each_number(out, items)
}

/// The four numbers of a version.
pub fn put_four_numbers(out: &mut Vec<u8>, version: &Version) -> Result<(), NoMemory>
    ensures { OnOk result (out.new.items ≡ out.old.items ++ four_numbers version.now) }
{
    put_u16(out, version.major)?;
    put_u16(out, version.minor)?;
    put_u16(out, version.build)?;
    put_u16(out, version.revision)
}

/// A version or none.
pub fn put_version(out: &mut Vec<u8>, or_none: &Option<Version>) -> Result<(), NoMemory>
    ensures { OnOk result (out.new.items ≡ out.old.items ++ version or_none.now) }
{
    match or_none {
        None => {
            out.push(0)?;
            Ok(())
        }
        Some(version) => {
            out.push(1)?;
            put_four_numbers(out, version)
        }
    }
}

// The kind of a registry value, and its bytes.
fn put_kind_and_bytes(out: &mut Vec<u8>, kind: u8, bytes: &[u8]) -> Result<(), NoMemory>
    requires { is_short bytes.now ≡ true }
    ensures { OnOk result (out.new.items ≡ out.old.items ++ kind ∷ string bytes.now) }
{
    out.push(kind)?;
    put_bytes(out, bytes)
}

// The kind of a number, and the number.
fn put_int(out: &mut Vec<u8>, number: u32) -> Result<(), NoMemory>
    ensures { OnOk result (out.new.items ≡ out.old.items ++ 3 ∷ to_be_bytes w32 number) }
{
    out.push(3)?;
    put_u32(out, number)
}

// The kind of a list, and its texts.
fn put_list(out: &mut Vec<u8>, texts: &[Text]) -> Result<(), NoMemory>
    requires few { are_few texts.now ≡ true }
    requires short { list_all is_short texts.now ≡ true }
    ensures { OnOk result (out.new.items ≡ out.old.items ++ 5 ∷ strings texts.now) }
{
    out.push(5)?;
    put_texts(out, texts)
}

/// A registry value: its kind, and what it holds.
pub fn put_value(out: &mut Vec<u8>, value: &RegValue) -> Result<(), NoMemory>
    requires { fits_value value.now ≡ true }
    ensures { OnOk result (out.new.items ≡ out.old.items ++ payload value.now) }
{
    match value {
        RegValue::Text(text) => put_kind_and_bytes(out, 1, text.as_bytes()),
        RegValue::Expand(text) => put_kind_and_bytes(out, 2, text.as_bytes()),
        RegValue::Int(number) => put_int(out, *number),
        RegValue::Binary(bytes) => put_kind_and_bytes(out, 4, bytes.as_slice()),
        RegValue::List(texts) => put_list(out, texts.as_slice()),
    }
}
