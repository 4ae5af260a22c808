//! How answers are printed.

use crate::ill::Ill;
use mi_lines::push_field;

/// Adds a line of one field.
pub fn say(out: &mut Vec<u8>, answer: &[u8]) -> Result<(), Ill> {
    push_field(out, answer)?;
    out.push(b'\n')?;
    Ok(())
}

/// Adds a line of a word.
pub fn say_word(out: &mut Vec<u8>, word: &str) -> Result<(), Ill> {
    say(out, word.as_bytes())
}

/// Adds a line of a word and a number.
pub fn say_number(out: &mut Vec<u8>, word: &str, number: u64) -> Result<(), Ill> {
    let alloc = *out.allocator();
    let line = format!(in alloc; "{word} {number}\n")?;
    out.extend_from_slice(line.as_bytes())?;
    Ok(())
}

/// Adds a line of two fields.
pub fn say_two(out: &mut Vec<u8>, first: &[u8], second: &[u8]) -> Result<(), Ill> {
    push_field(out, first)?;
    out.push(b'\t')?;
    say(out, second)
}
