//! The names of the area.

ghost use Rattle.std.specs.Prelude.{◌≡◌, ◌≢◌, ◌<◌, ℕ, ◌∷◌, [], IfOk, IfSome, IfNone};
ghost use Rattle.mi_undo.specs.Names.{marker, digits, gate_name, entry_name, is_inside, is_entry_like, most_entries};

use mi_text::{Name, NoMemory};
use std::alloc::Global;
use std::str;

/// How many entries there are at most.
pub(crate) const MOST_ENTRIES: u32 = 100_000_000;

/// The name of these bytes, which are ASCII.
fn name_of(alloc: Global, bytes: &[u8]) -> Result<Name, NoMemory>
    ensures { IfOk result (λ n. n ≡ bytes.now) }
{
    let Ok(text) = str::from_utf8(bytes) else {
        return Err(NoMemory);
    };
    match Name::of(alloc, text) {
        Ok(name) => Ok(name),
        Err(_) => Err(NoMemory),
    }
}

/// The name of the marker.
pub(crate) fn marker_of(alloc: Global) -> Result<Name, NoMemory>
    ensures { IfOk result (λ n. n ≡ marker) }
{
    name_of(alloc, b"j/m")
}

/// The name of which all others inside the area are longer.
pub(crate) fn top_of(alloc: Global) -> Result<Name, NoMemory>
    ensures { IfOk result (λ n. n ≡ 106 ∷ 47 ∷ []) }
{
    name_of(alloc, b"j/")
}

/// The name that stands before all names of entries.
pub(crate) fn entries_of(alloc: Global) -> Result<Name, NoMemory>
    ensures { IfOk result (λ n. n ≡ 106 ∷ 47 ∷ 101 ∷ 47 ∷ []) }
{
    name_of(alloc, b"j/e/")
}

/// The name that has this letter and the number as eight decimal digits.
fn numbered(letter: u8, number: u32) -> [u8; 12]
    ensures { result ≡ 106 ∷ 47 ∷ letter ∷ 47 ∷ digits 8 number }
{
    let a = number / 10;
    let b = a / 10;
    let c = b / 10;
    let d = c / 10;
    let e = d / 10;
    let f = e / 10;
    let g = f / 10;
    [
        b'j',
        b'/',
        letter,
        b'/',
        48 + (g % 10) as u8,
        48 + (f % 10) as u8,
        48 + (e % 10) as u8,
        48 + (d % 10) as u8,
        48 + (c % 10) as u8,
        48 + (b % 10) as u8,
        48 + (a % 10) as u8,
        48 + (number % 10) as u8,
    ]
}

/// The name of an entry.
pub(crate) fn entry_of(alloc: Global, number: u32) -> Result<Name, NoMemory>
    ensures { IfOk result (λ n. n ≡ entry_name number) }
{
    name_of(alloc, &numbered(b'e', number))
}

/// The name of an entry's gate.
pub(crate) fn gate_of(alloc: Global, number: u32) -> Result<Name, NoMemory>
    ensures { IfOk result (λ n. n ≡ gate_name number) }
{
    name_of(alloc, &numbered(b'g', number))
}

/// Whether a name begins with `j/`.
pub(crate) fn is_within(name: &Name) -> bool
    ensures { result ≡ is_inside name.now }
{
    matches!(name.as_bytes(), [b'j', b'/', ..])
}

/// Whether a name begins with `j/e/`.
pub(crate) fn is_entry_like(name: &Name) -> bool
    ensures { result ≡ is_entry_like name.now }
{
    matches!(name.as_bytes(), [b'j', b'/', b'e', b'/', ..])
}

/// The number that these eight decimal digits spell, if they are such.
fn number_of(bytes: &[u8]) -> Option<u32>
    ensures some { IfSome result (λ k. (k < 100000000) × (bytes.now ≡ digits 8 k)) }
    ensures none { IfNone result ((k : ℕ) → bytes.now ≢ digits 8 k) }
{
    if bytes.len() != 8 {
        return None;
    }
    let mut number: u32 = 0;
    for digit in bytes {
        if !digit.is_ascii_digit() {
            return None;
        }
        number = number * 10 + u32::from(*digit - b'0');
    }
    Some(number)
}

/// The number of the entry of this name, or None where it is no entry's.
pub(crate) fn entry_number(name: &Name) -> Option<u32>
    ensures some { IfSome result (λ k. (k < most_entries) × (name.now ≡ entry_name k)) }
    ensures none { IfNone result ((k : ℕ) → name.now ≢ entry_name k) }
{
    if !is_entry_like(name) {
        return None;
    }
    number_of(&name.as_bytes()[4..])
}
