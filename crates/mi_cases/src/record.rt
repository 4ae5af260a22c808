//! The bytes that the step `hold` names.

use crate::entry_read::text_in;
use crate::ill::Ill;
use std::alloc::Global;

fn number_in(text: &[u8]) -> Result<u64, Ill> {
    text_in(text)?.parse::<u64>().map_err(|_| Ill::Bad)
}

/// Adds the last `width` bytes of a number's eight, where the others are zero.
fn push_number(bytes: &mut Vec<u8>, number: u64, width: usize) -> Result<(), Ill> {
    let all = number.to_be_bytes();
    let (front, rest) = all.split_at(8usize.saturating_sub(width));
    if front.iter().any(|byte| *byte != 0) {
        return Err(Ill::Bad);
    }
    bytes.extend_from_slice(rest)?;
    Ok(())
}

fn push_text(bytes: &mut Vec<u8>, text: &[u8]) -> Result<(), Ill> {
    push_number(bytes, text.len() as u64, 4)?;
    bytes.extend_from_slice(text)?;
    Ok(())
}

fn push_field(bytes: &mut Vec<u8>, field: &[u8]) -> Result<(), Ill> {
    if let Some(number) = field.strip_prefix(b"u8:") {
        return push_number(bytes, number_in(number)?, 1);
    }
    if let Some(number) = field.strip_prefix(b"u16:") {
        return push_number(bytes, number_in(number)?, 2);
    }
    if let Some(number) = field.strip_prefix(b"u32:") {
        return push_number(bytes, number_in(number)?, 4);
    }
    if let Some(number) = field.strip_prefix(b"u64:") {
        return push_number(bytes, number_in(number)?, 8);
    }
    if let Some(text) = field.strip_prefix(b"text:") {
        return push_text(bytes, text);
    }
    bytes.extend_from_slice(field)?;
    Ok(())
}

/// The bytes of these fields, one behind another.
pub fn bytes_of(alloc: Global, fields: &[Vec<u8>]) -> Result<Vec<u8>, Ill> {
    let mut bytes = Vec::new(alloc);
    for field in fields {
        push_field(&mut bytes, field.as_slice())?;
    }
    Ok(bytes)
}
