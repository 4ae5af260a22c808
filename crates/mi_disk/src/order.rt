//! Putting names into byte order.
//!
//! Names are sorted by sixteen bytes at a time, as numbers. Names of one machine begin alike, and a sort that compares
//! whole names would go through what they share each time.

use crate::trouble::Trouble;
use std::alloc::Global;
use std::mem;

// The bytes by which names are sorted at once.
const KEY_BYTES: usize = 16;

// The bytes of half of them, which are one number.
const HALF_BYTES: usize = 8;

// The bytes of a name behind those that it shares with others, as two numbers, how many bytes these are, and the name's
// place.
type Key = (u64, u64, usize, usize);

// Keys that stand side by side, whose names share so many bytes.
#[derive(Clone, Copy)]
struct Alike {
    from: usize,
    to: usize,
    shared: usize,
}

// The number of fewer bytes than a number has, as of the first of its bytes.
fn number_of_few(bytes: &[u8]) -> u64 {
    let mut all = [0u8; HALF_BYTES];
    for (place, byte) in all.iter_mut().zip(bytes) {
        *place = *byte;
    }
    u64::from_be_bytes(all)
}

// The number of the first bytes.
fn number_of(bytes: &[u8]) -> u64 {
    match bytes.first_chunk() {
        Some(all) => u64::from_be_bytes(*all),
        None => number_of_few(bytes),
    }
}

// The bytes from some byte on.
fn bytes_from(bytes: &[u8], from: usize) -> &[u8] {
    bytes.get(from..).unwrap_or(&[])
}

fn key_of(name: &[u8], shared: usize, place: usize) -> Key {
    let rest = bytes_from(name, shared);
    let count = rest.len().min(KEY_BYTES);
    (
        number_of(rest),
        number_of(bytes_from(rest, HALF_BYTES)),
        count,
        place,
    )
}

// Whether two names have more bytes, and can't be told apart by their keys.
fn are_alike(one: &Key, other: &Key) -> bool {
    one.0 == other.0 && one.1 == other.1 && one.2 == KEY_BYTES && other.2 == KEY_BYTES
}

// Sorts keys by what their names have behind the bytes that they share.
fn sort_alike(names: &[String], keys: &mut [Key], shared: usize) {
    for key in keys.iter_mut() {
        if let Some(name) = names.get(key.3) {
            *key = key_of(name.as_bytes(), shared, key.3);
        }
    }
    keys.sort_unstable();
}

// Adds the runs of sorted keys whose names are still alike, where the first of these keys stands at `from`.
fn add_alike(
    keys: &[Key],
    from: usize,
    shared: usize,
    runs: &mut Vec<Alike>,
) -> Result<(), Trouble> {
    let mut first = 0;
    for at in 1..=keys.len() {
        if at < keys.len() && are_alike(&keys[at - 1], &keys[at]) {
            continue;
        }
        if at.saturating_sub(first) > 1 {
            runs.push(Alike {
                from: from.saturating_add(first),
                to: from.saturating_add(at),
                shared,
            })?;
        }
        first = at;
    }
    Ok(())
}

// Sorts the keys by their names, of which `runs` has all.
fn sort_keys(names: &[String], keys: &mut Vec<Key>, runs: &mut Vec<Alike>) -> Result<(), Trouble> {
    for _ in 0..u64::MAX {
        let Some(Alike { from, to, shared }) = runs.pop() else {
            break;
        };
        if let Some(keys) = keys.as_mut_slice().get_mut(from..to) {
            sort_alike(names, keys, shared);
            add_alike(keys, from, shared.saturating_add(KEY_BYTES), runs)?;
        }
    }
    Ok(())
}

// Moves names out, in the order of the keys.
fn take_names(
    alloc: Global,
    names: &mut Vec<String>,
    keys: &[Key],
) -> Result<Vec<String>, Trouble> {
    let mut sorted = Vec::with_capacity(alloc, keys.len())?;
    for key in keys {
        if let Some(name) = names.get_mut(key.3) {
            sorted.push(mem::replace(name, String::new(alloc)))?;
        }
    }
    Ok(sorted)
}

/// Puts names into their byte order.
pub fn sort_names(alloc: Global, mut names: Vec<String>) -> Result<Vec<String>, Trouble> {
    let mut keys: Vec<Key> = Vec::with_capacity(alloc, names.len())?;
    for place in 0..names.len() {
        keys.push((0, 0, 0, place))?;
    }
    let mut runs = Vec::new(alloc);
    runs.push(Alike {
        from: 0,
        to: names.len(),
        shared: 0,
    })?;
    sort_keys(names.as_slice(), &mut keys, &mut runs)?;
    take_names(alloc, &mut names, keys.as_slice())
}
