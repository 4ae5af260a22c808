//! The volume in memory that holds what a case gives.

ghost use Rattle.std.specs.Prelude.{◌^◌, ◌-◌, ◌<◌, ◌≤◌, IfSome, length};

use crate::call::Call;
use crate::given::Given;
use crate::stop::Stop;
use mi_text::{Bytes, Name, NameError, Text};
use mi_volume::{Failed, Fails, MemVolume, PIECE, PutFault, VolFault, Volume};
use std::alloc::Global;

/// The bound of a capacity.
const BOUND: u64 = 1_000_000_000_000;

/// More names than a volume holds here, and more pieces than a name has.
const MOST: u64 = 100_000;

/// The name that a text spells.
pub fn name_of(alloc: Global, text: &str) -> Result<Name, Stop> {
    match Name::of(alloc, text) {
        Ok(name) => Ok(name),
        Err(NameError::NoMemory) => Err(Stop::NoMemory),
        Err(NameError::Length) => Err(Stop::BadLine),
    }
}

fn volume_with(alloc: Global, capacity: Option<u64>, fails: Fails) -> Result<MemVolume, Stop>
    requires { IfSome capacity (λ c. c < 2 ^ 64 - 1) }
{
    Ok(MemVolume::new(alloc, capacity, fails)?)
}

/// An empty volume of the given capacity, whose calls of the given numbers, counted from this one on, fail.
pub fn empty_volume(alloc: Global, given: &Given, from: u64) -> Result<MemVolume, Stop> {
    let mut list = Vec::new(alloc);
    for number in &given.fails {
        list.push(number.saturating_add(from))?;
    }
    let fails = Fails { list, from: None };
    match given.capacity {
        None => volume_with(alloc, None, fails),
        Some(bytes) if bytes < BOUND => volume_with(alloc, Some(bytes), fails),
        Some(_) => Err(Stop::BadLine),
    }
}

/// The piece at the front of these bytes.
fn front(bytes: &[u8]) -> &[u8]
    ensures { length result.now ≤ PIECE }
{
    &bytes[..bytes.len().min(PIECE)]
}

fn is_put(answer: Result<(), PutFault>) -> Result<(), Stop> {
    match answer {
        Ok(()) => Ok(()),
        Err(PutFault::NoMemory) => Err(Stop::NoMemory),
        Err(_) => Err(Stop::BadLine),
    }
}

/// Puts bytes by pieces.
fn put<V: Volume>(alloc: Global, volume: &mut V, name: &Name, bytes: &[u8]) -> Result<(), Stop> {
    is_put(volume.put(alloc, name, front(bytes)))?;
    for piece in bytes.chunks(PIECE).skip(1) {
        is_put(volume.append(alloc, name, front(piece)))?;
    }
    Ok(())
}

fn put_all<V: Volume>(alloc: Global, volume: &mut V, held: &[(Text, Vec<u8>)]) -> Result<(), Stop> {
    for (name, bytes) in held {
        put(alloc, volume, &name_of(alloc, name.as_str())?, bytes)?;
    }
    match volume.sync() {
        Ok(()) => Ok(()),
        Err(Failed) => Err(Stop::BadLine),
    }
}

/// How many calls of a volume put these names and sync.
fn calls_to_hold(held: &[(Text, Vec<u8>)]) -> u64 {
    let mut calls = 1u64;
    for (_, bytes) in held {
        let pieces = (bytes.len() / PIECE) as u64;
        let more = u64::from(bytes.is_empty() || bytes.len() % PIECE > 0);
        calls = calls.saturating_add(pieces).saturating_add(more);
    }
    calls
}

/// A volume that holds the given names, for good, and whose calls of the given numbers from then on fail.
pub fn holding(alloc: Global, given: &Given) -> Result<MemVolume, Stop> {
    let held = given.held.as_slice();
    let mut volume = empty_volume(alloc, given, calls_to_hold(held))?;
    match put_all(alloc, &mut volume, held) {
        Ok(()) => Ok(volume),
        Err(stop) => {
            drop(volume);
            Err(stop)
        }
    }
}

fn is_told<T>(answer: Result<T, VolFault>) -> Result<T, Stop> {
    match answer {
        Ok(told) => Ok(told),
        Err(VolFault::NoMemory) => Err(Stop::NoMemory),
        Err(VolFault::Failed) => Err(Stop::BadLine),
    }
}

/// All bytes of a name.
fn whole<V: Volume>(alloc: Global, volume: &mut V, name: &Name) -> Result<Bytes, Stop> {
    let mut bytes = Bytes::new(alloc);
    for _ in 0..MOST {
        let piece = is_told(volume.read(alloc, name, bytes.len() as u64, PIECE))?;
        bytes.extend(piece.as_slice())?;
        if piece.len() < PIECE {
            break;
        }
    }
    Ok(bytes)
}

/// The names that a volume holds, in byte order.
fn names<V: Volume>(alloc: Global, volume: &mut V) -> Result<Vec<Name>, Stop> {
    let mut names: Vec<Name> = Vec::new(alloc);
    for _ in 0..MOST {
        let Some(name) = is_told(volume.next(alloc, names.last()))? else {
            break;
        };
        names.push(name)?;
    }
    Ok(names)
}

// Adds a name and its bytes, with these bytes in front and behind.
fn push_held<V: Volume>(
    volume: &mut V,
    name: &Name,
    front: &[u8],
    end: &[u8],
    call: &mut Call<'_>,
) {
    call.push(front);
    call.field(name.as_bytes());
    call.push(b"\t");
    match &whole(call.alloc(), volume, name) {
        Ok(bytes) => call.field(bytes.as_slice()),
        Err(stop) => call.stop(*stop),
    }
    call.push(end);
}

fn push_all<V: Volume>(
    volume: &mut V,
    names: &[Name],
    front: &[u8],
    end: &[u8],
    call: &mut Call<'_>,
) {
    for name in names {
        push_held(volume, name, front, end, call);
    }
}

/// Adds each name that a volume holds and its bytes, with a tab between and these bytes in front and behind.
pub fn say_held<V: Volume>(volume: &mut V, front: &[u8], end: &[u8], call: &mut Call<'_>) {
    match &names(call.alloc(), volume) {
        Ok(names) => push_all(volume, names.as_slice(), front, end, call),
        Err(stop) => call.stop(*stop),
    }
}
