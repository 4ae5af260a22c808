//! Keys and values of the registry, as an exported file has them.

ghost use Rattle.std.specs.Prelude.{◌≡◌, ◌++◌, ◌∷◌, [], IfOk, OnOk, codes};
ghost use Rattle.std.specs.List.{flat_map};
ghost use Rattle.mi_print.specs.Texts.{quoted, bytes_text, wide};
ghost use Rattle.mi_print.specs.Registry.{root_name, key_text, key_line, value_name, int_text, data_text, value_line, exported, stray};

use crate::texts::{push_bytes, push_digits, push_key_name, push_quoted, push_wide, push_word};
use mi_base::{NoMemory, RegValue, Text};
use std::alloc::Global;

fn root_name(root: u8) -> &'static str
    ensures { result.now ≡ root_name root }
{
    match root {
        0 => "HKEY_CLASSES_ROOT",
        1 => "HKEY_CURRENT_USER",
        2 => "HKEY_LOCAL_MACHINE",
        _ => "HKEY_USERS",
    }
}

/// Adds a key in brackets.
#[tactic(auto, unfolding(crate::specs::Registry::key_text))]
pub fn push_key_text(out: &mut Vec<u8>, root: u8, key: &str) -> Result<(), NoMemory>
    ensures { OnOk result (out.new.items ≡ out.old.items ++ key_text root key.now) }
{
    out.push(b'[')?;
    push_word(out, root_name(root))?;
    out.push(b'\\')?;
    push_key_name(out, key)?;
    out.push(b']')?;
    Ok(())
}

/// Adds the line of a key: its root and its path in brackets, and a line feed.
#[tactic(auto, unfolding(crate::specs::Registry::key_line))]
pub fn push_key_line(out: &mut Vec<u8>, root: u8, key: &str) -> Result<(), NoMemory>
    ensures { OnOk result (out.new.items ≡ out.old.items ++ key_line root key.now) }
{
    push_key_text(out, root, key)?;
    out.push(b'\n')?;
    Ok(())
}

fn push_value_name(out: &mut Vec<u8>, shown: &str) -> Result<(), NoMemory>
    ensures { OnOk result (out.new.items ≡ out.old.items ++ value_name shown.now) }
{
    if shown.is_empty() {
        return push_word(out, "@=");
    }
    push_quoted(out, shown)?;
    out.push(b'=')?;
    Ok(())
}

fn push_texts(out: &mut Vec<u8>, texts: &[Text]) -> Result<(), NoMemory>
    ensures { OnOk result (out.new.items ≡ out.old.items ++ flat_map (λ t. 32 ∷ quoted t) texts.now) }
{
    for text in texts {
        out.push(b' ')?;
        push_quoted(out, text.as_str())?;
    }
    Ok(())
}

// Adds the digits of a number.
#[tactic(auto, unfolding(crate::specs::Registry::int_text))]
fn push_int(out: &mut Vec<u8>, number: u32) -> Result<(), NoMemory>
    ensures { OnOk result (out.new.items ≡ out.old.items ++ int_text number) }
{
    let bytes = number.to_be_bytes();
    push_digits(out, &bytes)
}

// Adds what a value holds, so that it can be read.
fn push_data(out: &mut Vec<u8>, value: &RegValue) -> Result<(), NoMemory>
    ensures { OnOk result (out.new.items ≡ out.old.items ++ data_text value.now) }
{
    match value {
        RegValue::Text(text) => push_quoted(out, text.as_str()),
        RegValue::Expand(text) => {
            push_word(out, "expand:")?;
            push_quoted(out, text.as_str())
        }
        RegValue::Int(number) => {
            push_word(out, "dword:")?;
            push_int(out, *number)?;
            Ok(())
        }
        RegValue::Binary(bytes) => {
            push_word(out, "hex:")?;
            push_bytes(out, bytes.as_slice())
        }
        RegValue::List(texts) => {
            push_word(out, "list:")?;
            push_texts(out, texts.as_slice())
        }
    }
}

/// Adds the line of a value.
#[tactic(auto, unfolding(crate::specs::Registry::value_line))]
pub fn push_value_line(out: &mut Vec<u8>, shown: &str, value: &RegValue) -> Result<(), NoMemory>
    ensures { OnOk result (out.new.items ≡ out.old.items ++ value_line shown.now value.now) }
{
    push_value_name(out, shown)?;
    push_data(out, value)?;
    out.push(b'\n')?;
    Ok(())
}

fn push_wides(alloc: Global, out: &mut Vec<u8>, texts: &[Text]) -> Result<(), NoMemory>
    ensures { OnOk result (out.new.items ≡ out.old.items ++ flat_map wide texts.now) }
{
    for text in texts {
        push_wide(alloc, out, text.as_str())?;
    }
    Ok(())
}

// Adds a value by the number of its type and its bytes.
fn push_typed(out: &mut Vec<u8>, shown: &str, title: &str, bytes: &[u8]) -> Result<(), NoMemory>
    ensures { OnOk result (out.new.items ≡ out.old.items ++ value_name shown.now ++ title.now ++ bytes_text bytes.now ++ 10 ∷ []) }
{
    push_value_name(out, shown)?;
    push_word(out, title)?;
    push_bytes(out, bytes)?;
    out.push(b'\n')?;
    Ok(())
}

// The bytes of a list.
fn wide_list(alloc: Global, texts: &[Text]) -> Result<Vec<u8>, NoMemory>
    ensures { IfOk result (λ bytes. bytes.items ≡ flat_map wide texts.now ++ 0 ∷ 0 ∷ []) }
{
    let mut bytes = Vec::new(alloc);
    push_wides(alloc, &mut bytes, texts)?;
    bytes.extend_from_slice(&[0, 0])?;
    Ok(bytes)
}

// The bytes of a text.
fn wide_text(alloc: Global, text: &str) -> Result<Vec<u8>, NoMemory>
    ensures { IfOk result (λ bytes. bytes.items ≡ wide text.now) }
{
    let mut bytes = Vec::new(alloc);
    push_wide(alloc, &mut bytes, text)?;
    Ok(bytes)
}

// Adds a value as a comment.
fn push_comment(out: &mut Vec<u8>, shown: &str, value: &RegValue) -> Result<(), NoMemory>
    ensures { OnOk result (out.new.items ≡ out.old.items ++ codes "; " ++ value_line shown.now value.now) }
{
    push_word(out, "; ")?;
    push_value_line(out, shown, value)
}

/// Adds a value as an exported .reg file has it (Registry Editor, version 5.00), with a line feed. A text that is to be
/// expanded, and a list, stand there as bytes, behind a comment that can be read.
#[tactic(auto, unfolding(crate::specs::Registry::exported))]
pub fn push_exported(
    alloc: Global,
    out: &mut Vec<u8>,
    shown: &str,
    value: &RegValue,
) -> Result<(), NoMemory>
    ensures { OnOk result (out.new.items ≡ out.old.items ++ exported shown.now value.now) }
{
    match value {
        RegValue::Text(_) | RegValue::Int(_) | RegValue::Binary(_) => {
            push_value_line(out, shown, value)
        }
        RegValue::Expand(text) => {
            push_comment(out, shown, value)?;
            let bytes = wide_text(alloc, text.as_str())?;
            push_typed(out, shown, "hex(2):", bytes.as_slice())
        }
        RegValue::List(texts) => {
            push_comment(out, shown, value)?;
            let bytes = wide_list(alloc, texts.as_slice())?;
            push_typed(out, shown, "hex(7):", bytes.as_slice())
        }
    }
}

/// Adds a value whose key isn't recorded: a comment, the line of the key, the value as an exported file has it, and an
/// empty line.
#[tactic(auto, unfolding(crate::specs::Registry::stray))]
pub fn push_stray(
    alloc: Global,
    out: &mut Vec<u8>,
    root: u8,
    key: &str,
    shown: &str,
    value: &RegValue,
) -> Result<(), NoMemory>
    ensures { OnOk result (out.new.items ≡ out.old.items ++ stray root key.now shown.now value.now) }
{
    push_word(out, "; not recorded:\n")?;
    push_key_line(out, root, key)?;
    push_exported(alloc, out, shown, value)?;
    out.push(b'\n')?;
    Ok(())
}
