//! Bytes as they are written in scripts and printed.

ghost use Rattle.std.specs.Prelude.{◌≡◌, ◌++◌, ◌<◌, ◌≤◌, length, IsTrue, IfOk, OnOk};
ghost use Rattle.mi_lines.specs.Escapes.{is_plain, is_digit, digit_value, digit, escaped_byte, escaped, unescaped, first_byte};

use std::alloc::{AllocError, Global};

/// The longest field that is printed whole, in bytes.
const LONGEST: usize = 200;

/// The modulus of a long field's sum.
const MODULUS: u64 = 1_000_000_007;

/// Whether a byte is printed as itself.
const fn is_plain(byte: u8) -> bool
    ensures { result ≡ is_plain byte }
{
    32 <= byte && byte <= 126 && byte != b'<'
}

/// The digit of a value below 16.
const fn digit(value: u8) -> u8
    requires { value < 16 }
    ensures { result ≡ digit value }
{
    if value < 10 { 48 + value } else { 87 + value }
}

/// Adds a byte as it is printed.
fn push_byte(out: &mut Vec<u8>, byte: u8) -> Result<(), AllocError>
    ensures { OnOk result (out.new.items ≡ out.old.items ++ escaped_byte byte) }
{
    if is_plain(byte) {
        out.push(byte)?;
        return Ok(());
    }
    out.extend_from_slice(&[b'<', digit(byte / 16), digit(byte % 16), b'>'])?;
    Ok(())
}

/// Adds bytes as they are printed: a byte below 32 or above 126, and `<`, as two lower-case digits of sixteen in angle
/// brackets, and any other as itself.
pub fn push_escaped(out: &mut Vec<u8>, bytes: &[u8]) -> Result<(), AllocError>
    ensures { OnOk result (out.new.items ≡ out.old.items ++ escaped bytes.now) }
{
    for byte in bytes {
        push_byte(out, *byte)?;
    }
    Ok(())
}

/// The sum of (i + 1) times byte i over all i, modulo 1000000007.
fn sum_of(bytes: &[u8]) -> u64 {
    let mut sum = 0u64;
    let mut place = 0u64;
    for byte in bytes {
        place = (place % MODULUS) + 1;
        sum = (sum % MODULUS + place % MODULUS * u64::from(*byte)) % MODULUS;
    }
    sum
}

fn push_summary(out: &mut Vec<u8>, length: usize, sum: u64) -> Result<(), AllocError> {
    let alloc = *out.allocator();
    let summary = format!(in alloc; "<{length} bytes sum {sum}>")?;
    out.extend_from_slice(summary.as_bytes())?;
    Ok(())
}

/// Adds a field as it is printed: `<>` where it is empty, its length and a sum of its bytes where it has more than 200, and
/// else its bytes.
pub fn push_field(out: &mut Vec<u8>, bytes: &[u8]) -> Result<(), AllocError> {
    if bytes.is_empty() {
        return out.extend_from_slice(b"<>");
    }
    if bytes.len() > LONGEST {
        return push_summary(out, bytes.len(), sum_of(bytes));
    }
    push_escaped(out, bytes)
}

/// Whether a byte is a lower-case digit of sixteen.
const fn is_digit(byte: u8) -> bool
    ensures { result ≡ is_digit byte }
{
    (48 <= byte && byte <= 57) || (97 <= byte && byte <= 102)
}

/// The value of a digit.
const fn digit_value(byte: u8) -> u8
    requires { IsTrue (is_digit byte) }
    ensures value { result ≡ digit_value byte }
    ensures small { result < 16 }
{
    if byte <= 57 { byte - 48 } else { byte - 87 }
}

/// The byte at the front of a field's text, and what stands behind it.
fn first_byte(first: u8, rest: &[u8]) -> (u8, &[u8])
    ensures splits { (result.0, result.1.now) ≡ first_byte first rest.now }
    ensures shorter { length result.1.now ≤ length rest.now }
{
    match rest {
        [high, low, b'>', behind @ ..] if first == b'<' && is_digit(*high) && is_digit(*low) => {
            (digit_value(*high) * 16 + digit_value(*low), behind)
        }
        _ => (first, rest),
    }
}

/// The bytes that a field's text stands for: two lower-case digits of sixteen in angle brackets are the byte of that
/// number, and any other byte is itself.
pub fn unescape(alloc: Global, text: &[u8]) -> Result<Vec<u8>, AllocError>
    ensures { IfOk result (λ bytes. bytes.items ≡ unescaped text.now) }
{
    let mut bytes = Vec::new(alloc);
    let mut left = text;
    while let Some((first, rest)) = left.split_first() {
        let (byte, behind) = first_byte(*first, rest);
        bytes.push(byte)?;
        left = behind;
    }
    Ok(bytes)
}
