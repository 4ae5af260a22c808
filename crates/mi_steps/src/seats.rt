//! The places that names have in the trees of a machine.

ghost use Rattle.std.specs.Prelude.{◌≡◌, ◌++◌, ◌∷◌, ◌-◌, ◌<◌, [], IfOk, drop};
ghost use Rattle.mi_base.specs.Records.{number_of};
ghost use Rattle.mi_model.specs.Prune.{folder_seat, key_in, key_seat};
ghost use Rattle.mi_steps.specs.Trees.{seat_in, seat_of};

use crate::places::front;
use mi_base::{Bytes, NoMemory};
use std::alloc::Global;

/// A tree of the machine (this project's own).
#[derive(Clone, Copy)]
pub enum Tree {
    /// Folders, with the files and shortcuts in them.
    Folders,
    /// Keys of the registry, with the values in them.
    Keys,
}

/// What a name is in a tree, with its place in folded bytes; that of a holder ends with a backslash.
#[derive(Drop)]
pub enum Place {
    /// A folder or a key.
    Holder(Bytes),
    /// What lies in folders or keys.
    Leaf(Bytes),
    /// No part of the tree.
    Apart,
}

// The bytes behind the kind of a name.
fn behind_kind(name: &[u8]) -> &[u8]
    ensures { result.now ≡ drop 2 name.now }
{
    match name {
        [_, _, rest @ ..] => rest,
        [_] => &[],
        [] => &[],
    }
}

fn folder_place(alloc: Global, name: &[u8]) -> Result<Place, NoMemory>
    ensures { IfOk result (λ p. seat_of p ≡ folder_seat name.now) }
{
    if name.starts_with(b"d/") {
        return Ok(Place::Holder(Bytes::copy_of(alloc, behind_kind(name))?));
    }
    if name.starts_with(b"f/") || name.starts_with(b"s/") {
        return Ok(Place::Leaf(Bytes::copy_of(alloc, behind_kind(name))?));
    }
    Ok(Place::Apart)
}

fn digit(byte: u8) -> usize
    ensures value { result ≡ byte - 48 }
    ensures small { result < 256 }
{
    usize::from(byte.saturating_sub(48))
}

fn number_of(a: u8, b: u8, c: u8, d: u8) -> usize
    ensures { result ≡ number_of a b c d }
{
    digit(a) * 1000 + digit(b) * 100 + digit(c) * 10 + digit(d)
}

// The key in a value's name behind the digit of its root.
fn key_in(rest: &[u8]) -> &[u8]
    ensures { result.now ≡ key_in rest.now }
{
    match rest {
        [a, b, c, d, rest @ ..] => front(rest, number_of(*a, *b, *c, *d)),
        _ => &[],
    }
}

/// The place of a key of a root in the tree of keys: the root's digit, the folded key and a backslash that ends it.
pub fn key_place(alloc: Global, root: u8, key: &[u8]) -> Result<Bytes, NoMemory>
    ensures { IfOk result (λ place. place ≡ root ∷ key.now ++ 92 ∷ []) }
{
    let mut place = Bytes::copy_of(alloc, &[root])?;
    place.extend(key)?;
    place.extend(b"\\")?;
    Ok(place)
}

fn key_place_of(alloc: Global, name: &[u8]) -> Result<Place, NoMemory>
    ensures { IfOk result (λ p. seat_of p ≡ key_seat name.now) }
{
    match name {
        [b'k', _, root, key @ ..] => Ok(Place::Holder(key_place(alloc, *root, key)?)),
        [b'v', _, root, rest @ ..] => Ok(Place::Leaf(key_place(alloc, *root, key_in(rest))?)),
        _ => Ok(Place::Apart),
    }
}

/// What a name is in a tree.
pub fn place_in(alloc: Global, tree: Tree, name: &[u8]) -> Result<Place, NoMemory>
    ensures { IfOk result (λ p. seat_of p ≡ seat_in tree name.now) }
{
    match tree {
        Tree::Folders => folder_place(alloc, name),
        Tree::Keys => key_place_of(alloc, name),
    }
}
