//! The volume in memory that holds what a case gives.

ghost use Rattle.std.specs.Prelude.{◌^◌, ◌-◌, ◌<◌, ◌≤◌, IfSome, length};

use crate::answer::{say, say_number, say_two, say_word};
use crate::given::Given;
use crate::ill::Ill;
use mi_lines::push_field;
use mi_text::{Bytes, Name, NameError, Settled, Text};
use mi_undo::UndoError;
use mi_volume::{Failed, Fails, MemVolume, PIECE, PutFault, VolFault, Volume};
use std::alloc::Global;

/// The bound of a capacity.
const BOUND: u64 = 1_000_000_000_000;

/// More names than a volume holds here, and more pieces than a name has.
const MOST: u64 = 100_000;

/// The name that a text spells.
pub fn name_of(alloc: Global, text: &str) -> Result<Name, Ill> {
    match Name::of(alloc, text) {
        Ok(name) => Ok(name),
        Err(NameError::NoMemory) => Err(Ill::NoMemory),
        Err(NameError::Length) => Err(Ill::BadLine),
    }
}

fn volume_with(alloc: Global, capacity: Option<u64>, fails: Fails) -> Result<MemVolume, Ill>
    requires { IfSome capacity (λ c. c < 2 ^ 64 - 1) }
{
    Ok(MemVolume::new(alloc, capacity, fails)?)
}

/// An empty volume whose calls of these numbers, counted from this one on, fail.
fn empty(alloc: Global, capacity: Option<u64>, fails: &[u64], from: u64) -> Result<MemVolume, Ill> {
    let mut list = Vec::new(alloc);
    for number in fails {
        list.push(number.saturating_add(from))?;
    }
    let fails = Fails { list, from: None };
    match capacity {
        None => volume_with(alloc, None, fails),
        Some(bytes) if bytes < BOUND => volume_with(alloc, Some(bytes), fails),
        Some(_) => Err(Ill::BadLine),
    }
}

/// The piece at the front of these bytes.
fn front(bytes: &[u8]) -> &[u8]
    ensures { length result.now ≤ PIECE }
{
    &bytes[..bytes.len().min(PIECE)]
}

fn is_put(answer: Result<(), PutFault>) -> Result<(), Ill> {
    match answer {
        Ok(()) => Ok(()),
        Err(PutFault::NoMemory) => Err(Ill::NoMemory),
        Err(_) => Err(Ill::BadLine),
    }
}

/// Puts bytes by pieces.
fn put<V: Volume>(alloc: Global, volume: &mut V, name: &Name, bytes: &[u8]) -> Result<(), Ill> {
    is_put(volume.put(alloc, name, front(bytes)))?;
    for piece in bytes.chunks(PIECE).skip(1) {
        is_put(volume.append(alloc, name, front(piece)))?;
    }
    Ok(())
}

fn put_all<V: Volume>(alloc: Global, volume: &mut V, held: &[(Text, Vec<u8>)]) -> Result<(), Ill> {
    for (name, bytes) in held {
        put(alloc, volume, &name_of(alloc, name.as_str())?, bytes)?;
    }
    match volume.sync() {
        Ok(()) => Ok(()),
        Err(Failed) => Err(Ill::BadLine),
    }
}

/// How many calls of a volume put these names and sync.
fn calls_to_hold(held: &[(Text, Vec<u8>)]) -> u64 {
    let mut calls = 1u64;
    for (_, bytes) in held {
        let pieces = (bytes.len() / PIECE) as u64;
        let more = u64::from(bytes.is_empty() || bytes.len() % PIECE > 0);
        calls = calls.saturating_add(pieces).saturating_add(more);
    }
    calls
}

/// A volume that holds the names that are given, for good, and whose calls of the given numbers from then on fail.
pub fn holding(alloc: Global, given: &Given) -> Result<MemVolume, Ill> {
    let held = given.held.as_slice();
    let from = calls_to_hold(held);
    let mut volume = empty(alloc, given.capacity, given.fails.as_slice(), from)?;
    match put_all(alloc, &mut volume, held) {
        Ok(()) => Ok(volume),
        Err(ill) => {
            drop(volume);
            Err(ill)
        }
    }
}

fn is_told<T>(answer: Result<T, VolFault>) -> Result<T, Ill> {
    match answer {
        Ok(told) => Ok(told),
        Err(VolFault::NoMemory) => Err(Ill::NoMemory),
        Err(VolFault::Failed) => Err(Ill::BadLine),
    }
}

/// All bytes of a name.
fn whole<V: Volume>(alloc: Global, volume: &mut V, name: &Name) -> Result<Bytes, Ill> {
    let mut bytes = Bytes::new(alloc);
    for _ in 0..MOST {
        let piece = is_told(volume.read(alloc, name, bytes.len() as u64, PIECE))?;
        bytes.extend(piece.as_slice())?;
        if piece.len() < PIECE {
            break;
        }
    }
    Ok(bytes)
}

/// Adds a name and its bytes.
fn push_held<V: Volume>(
    alloc: Global,
    volume: &mut V,
    name: &Name,
    out: &mut Vec<u8>,
) -> Result<(), Ill> {
    let bytes = whole(alloc, volume, name)?;
    push_field(out, name.as_bytes())?;
    out.push(b'\t')?;
    push_field(out, bytes.as_slice())?;
    Ok(())
}

/// The names that a volume holds, in byte order.
fn names<V: Volume>(alloc: Global, volume: &mut V) -> Result<Vec<Name>, Ill> {
    let mut names: Vec<Name> = Vec::new(alloc);
    for _ in 0..MOST {
        let Some(name) = is_told(volume.next(alloc, names.last()))? else {
            break;
        };
        names.push(name)?;
    }
    Ok(names)
}

/// Adds a line for each name that a volume holds: the name and its bytes.
pub fn say_held<V: Volume>(alloc: Global, volume: &mut V, out: &mut Vec<u8>) -> Result<(), Ill> {
    for name in names(alloc, volume)? {
        push_held(alloc, volume, &name, out)?;
        out.push(b'\n')?;
    }
    Ok(())
}

/// Adds a number, or that there is none.
pub fn say_count(answer: Result<Option<u64>, Failed>, out: &mut Vec<u8>) -> Result<(), Ill> {
    match answer {
        Ok(Some(number)) => say_number(out, "Ok", number),
        Ok(None) => say_word(out, "none"),
        Err(Failed) => say_word(out, "Failed"),
    }
}

/// Adds the bytes that were read.
pub fn say_read(answer: &Result<Bytes, VolFault>, out: &mut Vec<u8>) -> Result<(), Ill> {
    match answer {
        Ok(bytes) => say(out, bytes.as_slice()),
        Err(VolFault::Failed) => say_word(out, "Failed"),
        Err(VolFault::NoMemory) => Err(Ill::NoMemory),
    }
}

/// Adds what settling answers.
pub fn say_settled(settled: &Result<Settled, UndoError>, out: &mut Vec<u8>) -> Result<(), Ill> {
    match settled {
        Ok(Settled::Clean) => say_word(out, "Clean"),
        Ok(Settled::Undone(notes)) => say_number(out, "Undone", *notes),
        Err(UndoError::NoMemory) => Err(Ill::NoMemory),
        Err(UndoError::Fault) => say_word(out, "Fault"),
        Err(UndoError::BadRollback(name)) => say_two(out, b"BadRollback", name.as_bytes()),
        Err(UndoError::Full(name)) => say_two(out, b"Full", name.as_bytes()),
    }
}
