//! The parts of a key.

ghost use Rattle.std.specs.Prelude.{◌≡◌, map, IfOk};
ghost use Rattle.mi_base.specs.Limits.{is_key, is_value_name, has_no_zero, has_whole_parts};
ghost use Rattle.mi_model.specs.Parents.{parts_of, key_text};

use mi_base::{NoMemory, Text};
use std::alloc::Global;

// What stands between backslashes and isn't empty.
fn parts_of<'a>(alloc: Global, text: &'a str) -> Result<Vec<&'a str>, NoMemory>
    ensures { IfOk result (λ parts. map (λ p. p.now) parts.items ≡ parts_of text.now) }
{
    let parts = text
        .split('\\')
        .filter(|part| !part.is_empty())
        .collect(alloc)?;
    Ok(parts)
}

/// A text without the parts between backslashes that are empty (Registry table, column Key).
pub fn without_empty_parts(alloc: Global, text: &str) -> Result<Text, NoMemory>
    ensures { IfOk result (λ key. key ≡ key_text (parts_of text.now)) }
{
    let parts = parts_of(alloc, text)?;
    let key = parts.as_slice().join(alloc, "\\")?;
    let text = Text::from_string(alloc, key)?;
    Ok(text)
}

/// Whether no byte of a text is 0.
pub fn lacks_zero(text: &str) -> bool
    ensures { result ≡ has_no_zero text.now }
{
    text.as_bytes().iter().all(|byte| !(*byte == 0))
}

// Whether no part between backslashes is empty.
fn has_whole_parts(text: &[u8]) -> bool
    ensures { result ≡ has_whole_parts text.now }
{
    let mut begins = true;
    for byte in text {
        if *byte == b'\\' {
            if begins {
                return false;
            }
            begins = true;
        } else {
            begins = false;
        }
    }
    !begins
}

/// Whether a text is a key: parts joined by a backslash, none empty, 1 to 500 bytes without a byte 0.
#[tactic(auto, unfolding(mi_base::specs::Limits::is_key))]
pub fn is_key(text: &str) -> bool
    ensures { result ≡ is_key text.now }
{
    let short = text.len() <= 500;
    let no_zero = lacks_zero(text);
    let whole = has_whole_parts(text.as_bytes());
    short && no_zero && whole
}

/// Whether a text is the name of a value: at most 500 bytes without a byte 0.
#[tactic(auto, unfolding(mi_base::specs::Limits::is_value_name))]
pub fn is_value_name(text: &str) -> bool
    ensures { result ≡ is_value_name text.now }
{
    let short = text.len() <= 500;
    let no_zero = lacks_zero(text);
    short && no_zero
}
