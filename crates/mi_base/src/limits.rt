//! Which texts, lists and entries have a record.

ghost use Rattle.std.specs.Prelude.{◌≡◌, ◌==◌, ◌&&◌, not, nat_lt, None, Some, MatchOption, false, true, length};
ghost use Rattle.std.specs.List.{list_all, slice_split};
ghost use Rattle.std.specs.Option.{option_copied};
ghost use Rattle.std.specs.Str.{is_utf8};
ghost use Rattle.mi_text.specs.Path.{is_folder_path};
ghost use Rattle.mi_base.specs.declared.entry.Entry.TheVariants.{File, Product as ProductEntry, Shortcut as ShortcutEntry};
ghost use Rattle.mi_base.specs.Limits.{is_folded, has_no_zero, has_whole_parts, is_key, is_value_name, is_variable_name, is_system_name, is_short, are_few, is_above, is_chain, rises, text_below, fits_value, fits};

use crate::entry::{Entry, FileEntry, Product, RegValue, Shortcut, ValueKey};
use crate::reading::{folds_to, is_above};
use mi_text::{PathText, Text, is_property_name};
use std::str;

/// The text that bytes are, where they are UTF-8.
pub fn utf8(bytes: &[u8]) -> Option<&str>
    ensures { MatchOption result (is_utf8 bytes.now ≡ false) (λ s. (s.now ≡ bytes.now) × (is_utf8 bytes.now ≡ true)) }
{
    match str::from_utf8(bytes) {
        Ok(text) => Some(text),
        Err(_) => None,
    }
}

/// Whether a text has no ASCII upper-case letter.
pub fn is_folded(text: &[u8]) -> bool
    ensures { result ≡ is_folded text.now }
{
    folds_to(text, text)
}

fn has_no_zero(text: &[u8]) -> bool
    ensures { result ≡ has_no_zero text.now }
{
    text.iter().all(|byte| *byte != 0)
}

fn has_whole_parts(key: &[u8]) -> bool
    ensures { result ≡ has_whole_parts key.now }
{
    let mut begins = true;
    for byte in key {
        if *byte == b'\\' {
            if begins {
                return false;
            }
            begins = true;
        } else {
            begins = false;
        }
    }
    !begins
}

/// Whether a text is a registry key: parts joined by `\`, none empty, 1 to 500 bytes without byte 0.
#[tactic(auto, unfolding(crate::specs::Limits::is_key))]
pub fn is_key(key: &[u8]) -> bool
    ensures { result ≡ is_key key.now }
{
    key.len() <= 500 && has_no_zero(key) && has_whole_parts(key)
}

/// Whether a text is the name of a registry value: 0 to 500 bytes without byte 0.
#[tactic(auto, unfolding(crate::specs::Limits::is_value_name))]
pub fn is_value_name(name: &[u8]) -> bool
    ensures { result ≡ is_value_name name.now }
{
    name.len() <= 500 && has_no_zero(name)
}

/// Whether a text is the name of an environment variable: 1 to 500 bytes without byte 0.
#[tactic(auto, unfolding(crate::specs::Limits::is_variable_name))]
pub fn is_variable_name(name: &[u8]) -> bool
    ensures { result ≡ is_variable_name name.now }
{
    !name.is_empty() && name.len() <= 500 && has_no_zero(name)
}

/// Whether a text is the name of a property (Property table) that a name of the volume has room for.
#[tactic(auto, unfolding(crate::specs::Limits::is_system_name))]
pub fn is_system_name(name: &str) -> bool
    ensures { result ≡ is_system_name name.now }
{
    is_property_name(name) && name.len() <= 1022
}

fn is_short(bytes: &[u8]) -> bool
    ensures { result ≡ is_short bytes.now }
{
    bytes.len() < 1 << 32
}

fn are_short(texts: &[Text]) -> bool
    ensures { result ≡ list_all is_short texts.now }
{
    for text in texts {
        if !is_short(text.as_bytes()) {
            return false;
        }
    }
    true
}

fn numbers_rise(numbers: &[u16]) -> bool
    ensures { result ≡ rises nat_lt numbers.now }
{
    let mut last: Option<&u16> = None;
    for number in numbers {
        if !is_above(last, *number) {
            return false;
        }
        last = Some(number);
    }
    true
}

/// Whether a text is above the one before, if there is one.
pub fn is_text_above(last: Option<&Text>, text: &Text) -> bool
    ensures { result ≡ is_above text_below (option_copied last.entry) text.now }
{
    match last {
        None => true,
        Some(last) => last.cmp(text).is_lt(),
    }
}

fn texts_rise(texts: &[Text]) -> bool
    ensures { result ≡ rises text_below texts.now }
{
    let mut last: Option<&Text> = None;
    for text in texts {
        if !is_text_above(last, text) {
            return false;
        }
        last = Some(text);
    }
    true
}

fn fits_value(value: &RegValue) -> bool
    ensures { result ≡ fits_value value.now }
{
    match value {
        RegValue::Text(text) => is_short(text.as_bytes()),
        RegValue::Expand(text) => is_short(text.as_bytes()),
        RegValue::Int(_) => true,
        RegValue::Binary(bytes) => is_short(bytes.as_slice()),
        RegValue::List(texts) => texts.len() < 65536 && are_short(texts.as_slice()),
    }
}

fn is_inner_folder(path: &PathText) -> bool
    ensures { result ≡ (is_folder_path path.now && not (length path.now == 3)) }
{
    path.is_folder() && path.as_str().len() != 3
}

#[tactic(auto, unfolding(crate::specs::Limits::fits))]
fn fits_file(file: &FileEntry) -> bool
    ensures { result ≡ fits (File file.now) }
{
    !file.shown.is_folder()
        && file.languages.len() < 65536
        && numbers_rise(file.languages.as_slice())
        && file.attributes < 8
}

fn fits_place(key: &ValueKey) -> bool
    ensures { result ≡ (nat_lt key.now.root 4 && is_key key.now.key && is_folded key.now.key && is_value_name key.now.shown) }
{
    key.root < 4
        && is_key(key.key.as_bytes())
        && is_folded(key.key.as_bytes())
        && is_value_name(key.shown.as_bytes())
}

#[tactic(auto, unfolding(crate::specs::Limits::fits))]
fn fits_shortcut(shortcut: &Shortcut) -> bool
    ensures { result ≡ fits (ShortcutEntry shortcut.now) }
{
    !shortcut.shown.is_folder()
        && is_short(shortcut.target.as_bytes())
        && is_short(shortcut.arguments.as_bytes())
        && is_short(shortcut.description.as_bytes())
        && is_short(shortcut.icon.as_bytes())
        && is_short(shortcut.folder.as_bytes())
}

#[tactic(auto, unfolding(crate::specs::Limits::fits))]
fn fits_product(product: &Product) -> bool
    ensures { result ≡ fits (ProductEntry product.now) }
{
    is_short(product.name.as_bytes())
        && product.features.len() < 65536
        && are_short(product.features.as_slice())
        && texts_rise(product.features.as_slice())
}

/// Whether an entry keeps every limit and rule of its record.
#[tactic(auto, unfolding(crate::specs::Limits::fits))]
pub fn fits(entry: &Entry) -> bool
    ensures { result ≡ fits entry.now }
{
    match entry {
        Entry::File(file) => fits_file(file),
        Entry::Folder(shown) => is_inner_folder(shown),
        Entry::Value(key, value) => fits_place(key) && fits_value(value),
        Entry::Key(root, shown) => *root < 4 && is_key(shown.as_bytes()),
        Entry::Shortcut(shortcut) => fits_shortcut(shortcut),
        Entry::Variable(variable) => {
            is_variable_name(variable.name.as_bytes()) && is_short(variable.value.as_bytes())
        }
        Entry::Client(client) => is_short(client.key_path.as_bytes()),
        Entry::Product(product) => fits_product(product),
        Entry::System(property, text) => {
            is_system_name(property.as_str()) && is_short(text.as_bytes())
        }
    }
}
