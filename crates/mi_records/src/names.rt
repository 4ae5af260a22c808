//! Names under which values and keys are held.

ghost use Rattle.std.specs.Prelude.{◌≡◌, ◌<◌, IfOk, true};
ghost use Rattle.mi_text.specs.Fold.{folded};
ghost use Rattle.mi_base.specs.Limits.{fits, is_key, is_value_name};
ghost use Rattle.mi_base.specs.Names.{value_name, key_name};
ghost use Rattle.mi_base.specs.Spelling.{name_of};
ghost use Rattle.mi_model.specs.RegistryRows.{name_of_value};

use crate::keys::name_of;
use crate::place::RegistryPlace;
use mi_base::{Entry, Name, NoMemory, RegValue, Text, ValueKey, fold};
use std::alloc::Global;

/// The key of a value's entry: its root, its key in folded bytes, and its name as it is shown.
pub fn value_key(alloc: Global, root: u8, key: &str, name: &str) -> Result<ValueKey, NoMemory>
    ensures { IfOk result (λ k. k ≡ record { root = root; key = folded key.now; shown = name.now }) }
{
    Ok(ValueKey {
        root,
        key: fold(alloc, key)?,
        shown: Text::copy_of(alloc, name)?,
    })
}

// The name of an entry, which is dropped.
fn entry_name(alloc: Global, entry: Entry) -> Result<Name, NoMemory>
    requires { fits entry ≡ true }
    ensures { IfOk result (λ name. name ≡ name_of entry) }
{
    let name = name_of(alloc, &entry);
    drop(entry);
    name
}

/// The name of a value.
pub fn value_name(alloc: Global, root: u8, key: &str, name: &str) -> Result<Name, NoMemory>
    requires root { root < 4 }
    requires key { is_key key.now ≡ true }
    requires name { is_value_name name.now ≡ true }
    ensures { IfOk result (λ n. n ≡ value_name root key.now name.now) }
{
    match value_key(alloc, root, key, name) {
        Ok(key) => entry_name(alloc, Entry::Value(key, RegValue::Int(0))),
        Err(_) => Err(NoMemory),
    }
}

/// The name of a key.
pub fn key_name(alloc: Global, root: u8, key: &str) -> Result<Name, NoMemory>
    requires root { root < 4 }
    requires key { is_key key.now ≡ true }
    ensures { IfOk result (λ n. n ≡ key_name root key.now) }
{
    match Text::copy_of(alloc, key) {
        Ok(key) => entry_name(alloc, Entry::Key(root, key)),
        Err(_) => Err(NoMemory),
    }
}

/// The name of the value at a place.
pub fn name_at(alloc: Global, place: &RegistryPlace) -> Result<Name, NoMemory>
    ensures { IfOk result (λ n. n ≡ name_of_value place.now) }
{
    let root = place.root();
    let key = place.key();
    let name = place.name();
    value_name(alloc, root, key, name)
}
