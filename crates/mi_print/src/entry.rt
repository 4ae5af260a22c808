//! The line of an entry that isn't a file.

ghost use Rattle.std.specs.Prelude.{◌≡◌, ◌++◌, ◌∷◌, OnOk};
ghost use Rattle.mi_print.specs.Registry.{key_text, value_line};
ghost use Rattle.mi_print.specs.Entries.{other_line};

use crate::lines::{
    push_client, push_folder, push_product, push_shortcut, push_system, push_variable,
};
use crate::registry::{push_key_line, push_key_text, push_value_line};
use mi_base::{Entry, NoMemory, RegValue, ValueKey};
use std::alloc::Global;

// Adds the line of a value, behind its key.
fn push_value(out: &mut Vec<u8>, key: &ValueKey, value: &RegValue) -> Result<(), NoMemory>
    ensures { OnOk result (out.new.items ≡ out.old.items ++ key_text key.now.root key.now.key ++ 32 ∷ value_line key.now.shown value.now) }
{
    push_key_text(out, key.root, key.key.as_str())?;
    out.push(b' ')?;
    push_value_line(out, key.shown.as_str(), value)
}

/// Adds the line of an entry that isn't a file, fields parted by tabs, with its line feed; of a file nothing. A value of the
/// registry stands behind its key.
#[tactic(auto, unfolding(crate::specs::Entries::other_line))]
pub fn push_other(alloc: Global, out: &mut Vec<u8>, entry: &Entry) -> Result<(), NoMemory>
    ensures { OnOk result (out.new.items ≡ out.old.items ++ other_line entry.now) }
{
    match entry {
        Entry::File(_) => Ok(()),
        Entry::Folder(shown) => push_folder(out, shown.as_str()),
        Entry::Value(key, value) => push_value(out, key, value),
        Entry::Key(root, shown) => push_key_line(out, *root, shown.as_str()),
        Entry::Shortcut(shortcut) => push_shortcut(alloc, out, shortcut),
        Entry::Variable(variable) => push_variable(out, variable),
        Entry::Client(client) => push_client(alloc, out, client),
        Entry::Product(product) => push_product(alloc, out, product),
        Entry::System(property, text) => push_system(out, property.as_str(), text.as_str()),
    }
}
