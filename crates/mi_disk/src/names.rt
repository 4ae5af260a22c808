//! Names of the volume as paths of files.
//!
//! A name is the file whose path is its bytes in lower-case hexadecimal, in parts of 200 digits joined by `/`.
//! Each part but the last has a `+` behind it, so that no file and folder share a path.

ghost use Rattle.std.specs.Prelude.{◌<◌, ◌≤◌, length};

use crate::trouble::Trouble;
use std::alloc::AllocError;

/// The bytes of a name in one part of its path.
pub const PART_BYTES: usize = 100;

/// The longest name of a volume, in bytes.
pub const LONGEST_NAME: usize = 1_024;

/// The longest path of a name below the folder, in bytes: 2,048 digits in eleven parts.
pub const LONGEST_PATH: usize = 2_068;

// The digits of a part.
const PART_DIGITS: usize = 200;

// What stands behind each part but the last.
const BETWEEN: &str = "+/";

// The bytes of a part and of what stands behind it.
const WHOLE_PART: usize = 202;

// The digit of a value below 16.
fn digit_of(value: u8) -> u8
    requires { value < 16 }
{
    if value < 10 {
        b'0' + value
    } else {
        b'a' + (value - 10)
    }
}

// Puts the digits of bytes side by side. Nothing is looked up and nothing ends early, so that many are put at once.
fn put_digits(digits: &mut [u8; PART_DIGITS], part: &[u8])
    requires { length part.now ≤ PART_BYTES }
{
    for at in 0..part.len() {
        let byte = part[at];
        digits[2 * at] = digit_of(byte >> 4);
        digits[2 * at + 1] = digit_of(byte & 15);
    }
}

/// Adds the digits of a part of a name.
pub fn push_digits(path: &mut String, part: &[u8]) -> Result<(), Trouble>
    requires { length part.now ≤ PART_BYTES }
{
    let mut digits = [0u8; PART_DIGITS];
    put_digits(&mut digits, part);
    match str::from_utf8(&digits[..2 * part.len()]) {
        Ok(text) => Ok(path.push_str(text)?),
        Err(_) => Err(Trouble::Failed),
    }
}

// The value of a digit, and 16 of any other byte.
fn value_of(digit: u8) -> u8 {
    match digit {
        b'0'..=b'9' => digit - b'0',
        b'a'..=b'f' => digit - b'a' + 10,
        _ => 16,
    }
}

// Puts the bytes that pairs of digits spell side by side; false where one spells none. It ends behind the last pair in
// either case, so that many are put at once.
fn put_bytes(bytes: &mut [u8; PART_BYTES], digits: &[u8]) -> bool
    requires { length digits.now ≤ PART_DIGITS }
{
    let mut values = 0u8;
    for at in 0..digits.len() / 2 {
        let high = value_of(digits[2 * at]);
        let low = value_of(digits[2 * at + 1]);
        bytes[at] = (high << 4) | low;
        values |= high | low;
    }
    values < 16
}

/// Adds the bytes that the digits of a part spell; false where they spell none.
pub fn push_bytes(name: &mut Vec<u8>, digits: &[u8]) -> Result<bool, AllocError> {
    if digits.is_empty() || digits.len() % 2 == 1 || digits.len() > PART_DIGITS {
        return Ok(false);
    }
    let mut bytes = [0u8; PART_BYTES];
    if !put_bytes(&mut bytes, digits) {
        return Ok(false);
    }
    name.extend_from_slice(&bytes[..digits.len() / 2])?;
    Ok(true)
}

/// Adds the path of a name below the folder.
pub fn push_path(path: &mut String, name: &str) -> Result<(), Trouble> {
    for (number, part) in name.as_bytes().chunks(PART_BYTES).enumerate() {
        if number > 0 {
            path.push_str(BETWEEN)?;
        }
        push_digits(path, part)?;
    }
    Ok(())
}

/// Adds the bytes of the name whose path below the folder this is; false where it is none's.
pub fn push_name(name: &mut Vec<u8>, path: &[u8]) -> Result<bool, AllocError> {
    if path.len() > LONGEST_PATH {
        return Ok(false);
    }
    for part in path.chunks(WHOLE_PART) {
        let digits = part.strip_suffix(BETWEEN.as_bytes()).unwrap_or(part);
        if !push_bytes(name, digits)? {
            return Ok(false);
        }
    }
    Ok(true)
}
