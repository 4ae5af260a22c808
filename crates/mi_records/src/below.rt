//! The names that are held at a key and below it.

ghost use Rattle.std.specs.Prelude.{◌≡◌, ◌<◌, List, ℕ, All, IfOk, map, filter, true};
ghost use Rattle.std.specs.FinMap.{keys};
ghost use Rattle.mi_text.specs.Maps.{Map};
ghost use Rattle.mi_base.specs.Limits.{is_key};
ghost use Rattle.mi_base.specs.Names.{key_name};
ghost use Rattle.mi_image.specs.Items.{machine_over, AreRight};
ghost use Rattle.mi_model.specs.Prune.{key_place, key_seat};
ghost use Rattle.mi_model.specs.RegistryGuards.{is_value_at};
ghost use Rattle.mi_records.specs.Removing.{IsHeld, held_name, is_key_at};

use crate::names::{key_name, value_name};
use mi_base::{Name, NoMemory, Text, ValueKey};
use mi_image::Image;
use std::alloc::Global;

// What stands in an image may stand there.
fn stands_right(image: &Image)
    ensures { AreRight image.now }
{
    let _none = image.get("");
}

fn names_of_values(alloc: Global, values: &[ValueKey]) -> Result<Vec<Name>, NoMemory>
    requires { All IsHeld values.now }
    ensures { IfOk result (λ names. names.items ≡ map held_name values.now) }
{
    let mut names = Vec::new(alloc);
    for value in values {
        let name = value_name(alloc, value.root, value.key.as_str(), value.shown.as_str())?;
        names.push(name)?;
    }
    Ok(names)
}

fn names_of_keys(alloc: Global, root: u8, shown: &[Text]) -> Result<Vec<Name>, NoMemory>
    requires root { root < 4 }
    requires keys { All (λ key. is_key key ≡ true) shown.now }
    ensures { IfOk result (λ names. names.items ≡ map (key_name root) shown.now) }
{
    let mut names = Vec::new(alloc);
    for key in shown {
        let name = key_name(alloc, root, key.as_str())?;
        names.push(name)?;
    }
    Ok(names)
}

/// The names of the values of a key and of the keys below it, in byte order. It costs two searches for each length of a key that
/// is held, and what is listed.
pub fn values_at(alloc: Global, image: &Image, root: u8, key: &str) -> Result<Vec<Name>, NoMemory>
    ensures { (held files : Map (List ℕ)) → IfOk result (λ names. names.items ≡ filter (λ q. is_value_at (key_place root key.now) (key_seat q)) (keys (machine_over held files image.now))) }
{
    stands_right(image);
    let values = image.values_below(alloc, root, key)?;
    let names = names_of_values(alloc, values.as_slice())?;
    Ok(names)
}

/// The names of a key and of the keys below it, in byte order. It costs two searches and what is listed.
pub fn keys_at(alloc: Global, image: &Image, root: u8, key: &str) -> Result<Vec<Name>, NoMemory>
    requires { root < 4 }
    ensures { (held files : Map (List ℕ)) → IfOk result (λ names. names.items ≡ filter (λ q. is_key_at (key_place root key.now) (key_seat q)) (keys (machine_over held files image.now))) }
{
    stands_right(image);
    let shown = image.keys_below(alloc, root, key)?;
    let names = names_of_keys(alloc, root, shown.as_slice())?;
    Ok(names)
}
