//! How texts and numbers are printed.

ghost use Rattle.std.specs.Prelude.{◌≡◌, ◌++◌, ◌∷◌, ◌<◌, ◌%◌, ◌/◌, [], IfOk, OnOk};
ghost use Rattle.std.specs.List.{flat_map};
ghost use Rattle.std.specs.Str.{chars};
ghost use Rattle.std.specs.Fmt.{decimal, signed_decimal};
ghost use Rattle.std.specs.Char.Escape.{encode_utf16};
ghost use Rattle.mi_text.specs.Guid.{guid_text};
ghost use Rattle.mi_print.specs.Texts.{digit, two_digits, is_control, is_escaped, is_escaped_in_tree, is_escaped_in_key, escaped_byte, field, quoted_byte, quoted, bytes_text, wide, version_text};

use mi_base::{Guid, NoMemory, Version};
use std::alloc::Global;

// The digit of a value below 16.
const fn digit(value: u8) -> u8
    requires { value < 16 }
    ensures { result ≡ digit value }
{
    if value < 10 { 48 + value } else { 87 + value }
}

/// Adds the two hexadecimal digits of a byte.
pub fn push_byte(out: &mut Vec<u8>, byte: u8) -> Result<(), NoMemory>
    ensures { OnOk result (out.new.items ≡ out.old.items ++ two_digits byte) }
{
    out.extend_from_slice(&[digit(byte / 16), digit(byte % 16)])?;
    Ok(())
}

const fn is_control(byte: u8) -> bool
    ensures { result ≡ is_control byte }
{
    byte < 32 || byte == 127
}

/// Whether a byte of a field is printed by its number.
pub const fn is_escaped(byte: u8) -> bool
    ensures { result ≡ is_escaped byte }
{
    is_control(byte) || byte == b'<'
}

/// Whether a byte of a path in a tree is printed by its number.
pub const fn is_escaped_in_tree(byte: u8) -> bool
    ensures { result ≡ is_escaped_in_tree byte }
{
    is_escaped(byte) || byte == b'|'
}

/// Whether a byte of a key is printed by its number.
pub const fn is_escaped_in_key(byte: u8) -> bool
    ensures { result ≡ is_escaped_in_key byte }
{
    is_escaped(byte) || byte == b']'
}

// Adds the number of a byte in angle brackets.
fn push_number_of(out: &mut Vec<u8>, byte: u8) -> Result<(), NoMemory>
    ensures { OnOk result (out.new.items ≡ out.old.items ++ 60 ∷ two_digits byte ++ 62 ∷ []) }
{
    out.push(b'<')?;
    push_byte(out, byte)?;
    out.push(b'>')?;
    Ok(())
}

// Adds a byte of a field.
fn push_field_byte(out: &mut Vec<u8>, byte: u8) -> Result<(), NoMemory>
    ensures { OnOk result (out.new.items ≡ out.old.items ++ escaped_byte is_escaped byte) }
{
    if is_escaped(byte) {
        return push_number_of(out, byte);
    }
    out.push(byte)?;
    Ok(())
}

/// Adds a byte of a path in a tree.
pub fn push_tree_byte(out: &mut Vec<u8>, byte: u8) -> Result<(), NoMemory>
    ensures { OnOk result (out.new.items ≡ out.old.items ++ escaped_byte is_escaped_in_tree byte) }
{
    if is_escaped_in_tree(byte) {
        return push_number_of(out, byte);
    }
    out.push(byte)?;
    Ok(())
}

// Adds a byte of a key.
fn push_key_byte(out: &mut Vec<u8>, byte: u8) -> Result<(), NoMemory>
    ensures { OnOk result (out.new.items ≡ out.old.items ++ escaped_byte is_escaped_in_key byte) }
{
    if is_escaped_in_key(byte) {
        return push_number_of(out, byte);
    }
    out.push(byte)?;
    Ok(())
}

/// Adds a text as a field of a line: a control character and `<` by two digits of sixteen in angle brackets, any other byte
/// as itself.
pub fn push_field(out: &mut Vec<u8>, text: &str) -> Result<(), NoMemory>
    ensures { OnOk result (out.new.items ≡ out.old.items ++ field text.now) }
{
    for byte in text.as_bytes() {
        push_field_byte(out, *byte)?;
    }
    Ok(())
}

/// Adds the text of a key.
pub fn push_key_name(out: &mut Vec<u8>, key: &str) -> Result<(), NoMemory>
    ensures { OnOk result (out.new.items ≡ out.old.items ++ flat_map (escaped_byte is_escaped_in_key) key.now) }
{
    for byte in key.as_bytes() {
        push_key_byte(out, *byte)?;
    }
    Ok(())
}

// Adds a byte in quotes.
fn push_quoted_byte(out: &mut Vec<u8>, byte: u8) -> Result<(), NoMemory>
    ensures { OnOk result (out.new.items ≡ out.old.items ++ quoted_byte byte) }
{
    if byte == b'\\' || byte == b'"' {
        out.extend_from_slice(&[b'\\', byte])?;
        return Ok(());
    }
    if is_control(byte) {
        out.push(b'\\')?;
        return push_byte(out, byte);
    }
    out.push(byte)?;
    Ok(())
}

fn push_quoted_bytes(out: &mut Vec<u8>, text: &str) -> Result<(), NoMemory>
    ensures { OnOk result (out.new.items ≡ out.old.items ++ flat_map quoted_byte text.now) }
{
    for byte in text.as_bytes() {
        push_quoted_byte(out, *byte)?;
    }
    Ok(())
}

/// Adds a text in quotes.
#[tactic(auto, unfolding(crate::specs::Texts::quoted))]
pub fn push_quoted(out: &mut Vec<u8>, text: &str) -> Result<(), NoMemory>
    ensures { OnOk result (out.new.items ≡ out.old.items ++ quoted text.now) }
{
    out.push(b'"')?;
    push_quoted_bytes(out, text)?;
    out.push(b'"')?;
    Ok(())
}

/// Adds the two hexadecimal digits of each byte.
pub fn push_digits(out: &mut Vec<u8>, bytes: &[u8]) -> Result<(), NoMemory>
    ensures { OnOk result (out.new.items ≡ out.old.items ++ flat_map two_digits bytes.now) }
{
    for byte in bytes {
        push_byte(out, *byte)?;
    }
    Ok(())
}

fn push_more_bytes(out: &mut Vec<u8>, bytes: &[u8]) -> Result<(), NoMemory>
    ensures { OnOk result (out.new.items ≡ out.old.items ++ flat_map (λ c. 44 ∷ two_digits c) bytes.now) }
{
    for byte in bytes {
        out.push(b',')?;
        push_byte(out, *byte)?;
    }
    Ok(())
}

/// Adds bytes with a comma between.
#[tactic(auto, unfolding(crate::specs::Texts::bytes_text))]
pub fn push_bytes(out: &mut Vec<u8>, bytes: &[u8]) -> Result<(), NoMemory>
    ensures { OnOk result (out.new.items ≡ out.old.items ++ bytes_text bytes.now) }
{
    match bytes {
        [] => Ok(()),
        [first, rest @ ..] => {
            push_byte(out, *first)?;
            push_more_bytes(out, rest)
        }
    }
}

// Adds units of UTF-16, the low byte first.
fn push_units(out: &mut Vec<u8>, units: &[u16]) -> Result<(), NoMemory>
    ensures { OnOk result (out.new.items ≡ out.old.items ++ flat_map (λ u. u % 256 ∷ u / 256 ∷ []) units.now) }
{
    for unit in units {
        out.extend_from_slice(&[(*unit % 256) as u8, (*unit / 256) as u8])?;
    }
    Ok(())
}

fn push_char(out: &mut Vec<u8>, c: char) -> Result<(), NoMemory>
    ensures { OnOk result (out.new.items ≡ out.old.items ++ flat_map (λ u. u % 256 ∷ u / 256 ∷ []) (encode_utf16 c)) }
{
    let mut buffer = [0u16; 2];
    push_units(out, c.encode_utf16(&mut buffer))
}

fn push_chars(out: &mut Vec<u8>, chars: &[char]) -> Result<(), NoMemory>
    ensures { OnOk result (out.new.items ≡ out.old.items ++ flat_map (λ c. flat_map (λ u. u % 256 ∷ u / 256 ∷ []) (encode_utf16 c)) chars.now) }
{
    for c in chars {
        push_char(out, *c)?;
    }
    Ok(())
}

// The characters of a text.
fn chars_of(alloc: Global, text: &str) -> Result<Vec<char>, NoMemory>
    ensures { IfOk result (λ v. v.items ≡ chars text.now) }
{
    let all = text.chars().collect(alloc)?;
    Ok(all)
}

/// Adds the bytes of a text in UTF-16, with its end.
#[tactic(auto, unfolding(crate::specs::Texts::wide))]
pub fn push_wide(alloc: Global, out: &mut Vec<u8>, text: &str) -> Result<(), NoMemory>
    ensures { OnOk result (out.new.items ≡ out.old.items ++ wide text.now) }
{
    let chars = chars_of(alloc, text)?;
    push_chars(out, chars.as_slice())?;
    out.extend_from_slice(&[0, 0])?;
    Ok(())
}

/// Adds a fixed text as it stands.
pub fn push_word(out: &mut Vec<u8>, word: &str) -> Result<(), NoMemory>
    ensures { OnOk result (out.new.items ≡ out.old.items ++ word.now) }
{
    out.extend_from_slice(word.as_bytes())?;
    Ok(())
}

/// Adds a number in decimal.
pub fn push_number(alloc: Global, out: &mut Vec<u8>, number: u64) -> Result<(), NoMemory>
    ensures { OnOk result (out.new.items ≡ out.old.items ++ decimal number) }
{
    let text = number.to_string(alloc)?;
    out.extend_from_slice(text.as_bytes())?;
    Ok(())
}

/// Adds a number in decimal, with a sign where it is below 0.
pub fn push_signed(alloc: Global, out: &mut Vec<u8>, number: i16) -> Result<(), NoMemory>
    ensures { OnOk result (out.new.items ≡ out.old.items ++ signed_decimal number) }
{
    let text = number.to_string(alloc)?;
    out.extend_from_slice(text.as_bytes())?;
    Ok(())
}

/// Adds a code in braces.
pub fn push_code(alloc: Global, out: &mut Vec<u8>, code: Guid) -> Result<(), NoMemory>
    ensures { OnOk result (out.new.items ≡ out.old.items ++ guid_text code.number) }
{
    let text = code.print(alloc)?;
    out.extend_from_slice(text.as_str().as_bytes())?;
    Ok(())
}

// Adds a point and a number.
fn push_part(alloc: Global, out: &mut Vec<u8>, part: u16) -> Result<(), NoMemory>
    ensures { OnOk result (out.new.items ≡ out.old.items ++ 46 ∷ decimal part) }
{
    out.push(b'.')?;
    push_number(alloc, out, u64::from(part))
}

/// Adds a version.
#[tactic(auto, unfolding(crate::specs::Texts::version_text))]
pub fn push_version(alloc: Global, out: &mut Vec<u8>, version: Version) -> Result<(), NoMemory>
    ensures { OnOk result (out.new.items ≡ out.old.items ++ version_text version) }
{
    push_number(alloc, out, u64::from(version.major))?;
    push_part(alloc, out, version.minor)?;
    push_part(alloc, out, version.build)?;
    push_part(alloc, out, version.revision)
}
