//! The value of a text.

ghost use Rattle.std.specs.Prelude.{◌≡◌, ℕ, false, List, Option};
ghost use Rattle.std.specs.List.{list_any};
ghost use Rattle.std.specs.Option.{option_copied};
ghost use Rattle.mi_base.specs.declared.entry.RegValue.{RegValue};
ghost use Rattle.mi_regval.specs.Lists.{is_zero};
ghost use Rattle.mi_regval.specs.ListTexts.{list_text_of};
ghost use Rattle.mi_regval.specs.Values.{old_items, typed_value, plain_value, binary_value};
ghost use Rattle.mi_regval.specs.Changes.{change_of};
ghost use Rattle.mi_regval.specs.Reads.{ValueReads, ChangeReads};
ghost use Rattle.hex.specs.Hex.{decode_of};

use crate::beside::change;
use crate::change::Change;
use crate::error::{ValueError, ValueFault};
use crate::lists::{ListText, list_text};
use crate::number::read_int;
use hex::FromHexError;
use mi_base::{Bytes, RegValue, Text, Texts};
use std::alloc::Global;

fn old_items(old: Option<&RegValue>) -> Option<&Texts>
    ensures { option_copied result ≡ old_items (option_copied old.entry) }
{
    match old {
        Some(RegValue::List(items)) => Some(items),
        _ => None,
    }
}

fn read_binary(alloc: Global, digits: &str) -> Result<RegValue, ValueError>
    ensures { ValueReads result (binary_value (decode_of digits.now)) }
{
    match hex::decode(alloc, digits) {
        Ok(bytes) => Ok(RegValue::Binary(Bytes::from_vec(bytes))),
        Err(FromHexError::OutOfMemory) => Err(ValueError::NoMemory),
        Err(_) => Err(ValueError::Fault(ValueFault::BadHex)),
    }
}

// What stands behind a `#`.
fn read_typed(alloc: Global, rest: &str) -> Result<RegValue, ValueError>
    ensures { ValueReads result (typed_value rest.now) }
{
    if rest.starts_with('#') {
        return Ok(RegValue::Text(Text::copy_of(alloc, rest)?));
    }
    if let Some(text) = rest.strip_prefix('%') {
        return Ok(RegValue::Expand(Text::copy_of(alloc, text)?));
    }
    if let Some(digits) = rest.strip_prefix('x') {
        return read_binary(alloc, digits);
    }
    match read_int(rest) {
        Some(bits) => Ok(RegValue::Int(bits)),
        None => Err(ValueError::Fault(ValueFault::BadInt)),
    }
}

fn read_plain(alloc: Global, text: &str) -> Result<RegValue, ValueError>
    ensures { ValueReads result (plain_value text.now) }
{
    match text.strip_prefix('#') {
        Some(rest) => read_typed(alloc, rest),
        None => Ok(RegValue::Text(Text::copy_of(alloc, text)?)),
    }
}

// The value of a text without a byte 0, which no old value has a part in.
fn read_alone(alloc: Global, text: &str) -> Result<Change, ValueError>
    ensures { (old : Option RegValue) → list_any is_zero text.now ≡ false → ChangeReads result (change_of text.now old) }
{
    match read_plain(alloc, text) {
        Ok(value) => Ok(Change::Value(value)),
        Err(error) => Err(error),
    }
}

// What a text that is a list makes of an old value.
fn change_beside(
    alloc: Global,
    list: ListText,
    old: Option<&RegValue>,
) -> Result<Change, ValueError>
    ensures { (text : List ℕ) → Some list ≡ list_text_of text → ChangeReads result (change_of text (option_copied old.entry)) }
{
    let changed = change(alloc, list, old_items(old))?;
    Ok(changed)
}

/// What a text of the Registry table makes of the value that stood before: a list where it has a byte 0, else by its
/// prefix a text (`##`), a text to be expanded (`#%`), bytes (`#x`), an integer (`#`), or the text itself. An old list that
/// equals the new one is answered as unchanged, and isn't copied. Refusals: BadInt, BadHex (Registry table, column Value).
pub fn read_value(alloc: Global, text: &str, old: Option<&RegValue>) -> Result<Change, ValueError>
    ensures { ChangeReads result (change_of text.now (option_copied old.entry)) }
{
    let found = list_text(alloc, text)?;
    match found {
        Some(list) => change_beside(alloc, list, old),
        None => read_alone(alloc, text),
    }
}
