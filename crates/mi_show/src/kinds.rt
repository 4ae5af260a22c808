//! The registry of an image.

ghost use Rattle.std.specs.Prelude.{◌≡◌, ◌<◌, ◌++◌, ◌∷◌, [], List, ℕ, IfOk, OnOk, Some, length, codes, string_bytes};
ghost use Rattle.std.specs.Option.{option_copied};
ghost use Rattle.std.specs.List.{flat_map};
ghost use Rattle.std.specs.FinMap.{get};
ghost use Rattle.mi_text.specs.Fold.{folded};
ghost use Rattle.mi_image.specs.Fronts.{value_front};
ghost use Rattle.mi_base.specs.Names.{four_digits};
ghost use Rattle.mi_print_looks.specs.Machines.{plain_machine};
ghost use Rattle.mi_print_looks.specs.Sets.{names_of};
ghost use Rattle.mi_print_looks.specs.Strays.{stray_at};
ghost use Rattle.mi_show.specs.Prints.{exported_at, values_of, key_with_values, registry};

use crate::entries::entry_at;
use mi_base::{Entry, NoMemory, fold};
use mi_image::Image;
use mi_print::{push_exported, push_key_line, push_word};
use mi_print_looks::push_if_stray;
use std::alloc::Global;

// Adds the last four decimal digits of a number.
fn push_four(out: &mut Vec<u8>, number: usize) -> Result<(), NoMemory>
    ensures { OnOk result (out.new.items ≡ out.old.items ++ four_digits number) }
{
    out.extend_from_slice(&[
        48 + (number / 1000 % 10) as u8,
        48 + (number / 100 % 10) as u8,
        48 + (number / 10 % 10) as u8,
        48 + (number % 10) as u8,
    ])?;
    Ok(())
}

// How the names of the values of a key begin. A root that no key has is answered by want of memory, and so are bytes that
// are no text, which these always are.
fn value_front(alloc: Global, root: u8, key: &str) -> Result<String, NoMemory>
    ensures { IfOk result (λ front. string_bytes front ≡ value_front root (length (folded key.now)) (folded key.now)) }
{
    if root > 9 {
        return Err(NoMemory);
    }
    let key = fold(alloc, key)?;
    let mut front = Vec::new(alloc);
    push_word(&mut front, "v/")?;
    front.push(48 + root)?;
    push_four(&mut front, key.len())?;
    front.extend_from_slice(key.as_bytes())?;
    match String::from_utf8(front) {
        Ok(front) => Ok(front),
        Err(_) => Err(NoMemory),
    }
}

// Adds an entry that is a value.
fn push_exported_entry(
    alloc: Global,
    out: &mut Vec<u8>,
    entry: Option<&Entry>,
) -> Result<(), NoMemory>
    ensures { OnOk result (out.new.items ≡ out.old.items ++ exported_at (option_copied entry.entry)) }
{
    match entry {
        Some(Entry::Value(key, value)) => push_exported(alloc, out, key.shown.as_str(), value),
        _ => Ok(()),
    }
}

// Adds the value that stands at a name.
fn push_exported_at(
    alloc: Global,
    out: &mut Vec<u8>,
    image: &Image,
    name: &str,
) -> Result<(), NoMemory>
    ensures { OnOk result (out.new.items ≡ out.old.items ++ exported_at (get (plain_machine image.now) name.now)) }
{
    push_exported_entry(alloc, out, entry_at(image, name))?;
    Ok(())
}

// Adds the values that stand at these names.
fn push_exported_all(
    alloc: Global,
    out: &mut Vec<u8>,
    image: &Image,
    names: &[&str],
) -> Result<(), NoMemory>
    ensures { OnOk result (out.new.items ≡ out.old.items ++ flat_map (λ n. exported_at (get (plain_machine image.now) n.now)) names.now) }
{
    for name in names {
        push_exported_at(alloc, out, image, name)?;
    }
    Ok(())
}

// Adds the values at the names that begin so.
fn push_values_at(
    alloc: Global,
    out: &mut Vec<u8>,
    image: &Image,
    front: &str,
) -> Result<(), NoMemory>
    ensures { OnOk result (out.new.items ≡ out.old.items ++ flat_map (λ q. exported_at (get (plain_machine image.now) q)) (names_of front.now (plain_machine image.now))) }
{
    let names = image.names(alloc, front)?;
    push_exported_all(alloc, out, image, names.as_slice())?;
    Ok(())
}

// Adds the values of a key.
fn push_values(
    alloc: Global,
    out: &mut Vec<u8>,
    image: &Image,
    root: u8,
    key: &str,
) -> Result<(), NoMemory>
    ensures { OnOk result (out.new.items ≡ out.old.items ++ flat_map (λ q. exported_at (get (plain_machine image.now) q)) (values_of root key.now (plain_machine image.now))) }
{
    let front = value_front(alloc, root, key)?;
    push_values_at(alloc, out, image, front.as_str())?;
    Ok(())
}

// Adds a key and its values.
fn push_key(
    alloc: Global,
    out: &mut Vec<u8>,
    image: &Image,
    root: u8,
    shown: &str,
) -> Result<(), NoMemory>
    ensures { OnOk result (out.new.items ≡ out.old.items ++ key_with_values (plain_machine image.now) (Some (Entry.Key root shown.now))) }
{
    push_key_line(out, root, shown)?;
    push_values(alloc, out, image, root, shown)?;
    out.push(b'\n')?;
    Ok(())
}

// Adds an entry that is a key, and its values.
fn push_key_entry(
    alloc: Global,
    out: &mut Vec<u8>,
    image: &Image,
    entry: Option<&Entry>,
) -> Result<(), NoMemory>
    ensures { OnOk result (out.new.items ≡ out.old.items ++ key_with_values (plain_machine image.now) (option_copied entry.entry)) }
{
    match entry {
        Some(Entry::Key(root, shown)) => push_key(alloc, out, image, *root, shown.as_str()),
        _ => Ok(()),
    }
}

// Adds the key that stands at a name, and its values.
fn push_key_at(alloc: Global, out: &mut Vec<u8>, image: &Image, name: &str) -> Result<(), NoMemory>
    ensures { OnOk result (out.new.items ≡ out.old.items ++ key_with_values (plain_machine image.now) (get (plain_machine image.now) name.now)) }
{
    push_key_entry(alloc, out, image, entry_at(image, name))?;
    Ok(())
}

// Adds an entry that is a value, where its key isn't recorded.
fn push_stray_entry(
    alloc: Global,
    out: &mut Vec<u8>,
    image: &Image,
    entry: Option<&Entry>,
) -> Result<(), NoMemory>
    ensures { OnOk result (out.new.items ≡ out.old.items ++ stray_at (plain_machine image.now) (option_copied entry.entry)) }
{
    match entry {
        Some(Entry::Value(key, value)) => push_if_stray(alloc, out, image, key, value),
        _ => Ok(()),
    }
}

// Adds the value that stands at a name, where its key isn't recorded.
fn push_stray_at(
    alloc: Global,
    out: &mut Vec<u8>,
    image: &Image,
    name: &str,
) -> Result<(), NoMemory>
    ensures { OnOk result (out.new.items ≡ out.old.items ++ stray_at (plain_machine image.now) (get (plain_machine image.now) name.now)) }
{
    push_stray_entry(alloc, out, image, entry_at(image, name))?;
    Ok(())
}

// Adds the keys that stand at these names, and their values.
fn push_keys_all(
    alloc: Global,
    out: &mut Vec<u8>,
    image: &Image,
    names: &[&str],
) -> Result<(), NoMemory>
    ensures { OnOk result (out.new.items ≡ out.old.items ++ flat_map (λ n. key_with_values (plain_machine image.now) (get (plain_machine image.now) n.now)) names.now) }
{
    for name in names {
        push_key_at(alloc, out, image, name)?;
    }
    Ok(())
}

// Adds the values that stand at these names, where their keys aren't recorded.
fn push_strays_all(
    alloc: Global,
    out: &mut Vec<u8>,
    image: &Image,
    names: &[&str],
) -> Result<(), NoMemory>
    ensures { OnOk result (out.new.items ≡ out.old.items ++ flat_map (λ n. stray_at (plain_machine image.now) (get (plain_machine image.now) n.now)) names.now) }
{
    for name in names {
        push_stray_at(alloc, out, image, name)?;
    }
    Ok(())
}

fn push_keys(alloc: Global, out: &mut Vec<u8>, image: &Image) -> Result<(), NoMemory>
    ensures { OnOk result (out.new.items ≡ out.old.items ++ flat_map (λ q. key_with_values (plain_machine image.now) (get (plain_machine image.now) q)) (names_of (codes "k/") (plain_machine image.now))) }
{
    let names = image.names(alloc, "k/")?;
    push_keys_all(alloc, out, image, names.as_slice())?;
    Ok(())
}

fn push_strays(alloc: Global, out: &mut Vec<u8>, image: &Image) -> Result<(), NoMemory>
    ensures { OnOk result (out.new.items ≡ out.old.items ++ flat_map (λ q. stray_at (plain_machine image.now) (get (plain_machine image.now) q)) (names_of (codes "v/") (plain_machine image.now))) }
{
    let names = image.names(alloc, "v/")?;
    push_strays_all(alloc, out, image, names.as_slice())?;
    Ok(())
}

/// Adds the registry.
#[tactic(auto, unfolding(crate::specs::Prints::registry))]
pub fn push_registry(alloc: Global, out: &mut Vec<u8>, image: &Image) -> Result<(), NoMemory>
    ensures { OnOk result (out.new.items ≡ out.old.items ++ registry (plain_machine image.now)) }
{
    push_word(out, "Windows Registry Editor Version 5.00\n\n")?;
    push_keys(alloc, out, image)?;
    push_strays(alloc, out, image)?;
    Ok(())
}
