//! What a volume in memory holds.

ghost use Rattle.std.specs.Prelude.{◌<◌, ◌^◌, ◌-◌, IfSome};

use crate::ill::Ill;
use mi_text::Name;
use mi_volume::{Choice, Fails, MemVolume, PIECE, Volume};
use std::alloc::Global;

/// What a crash may leave, by the name that steps give it.
pub const IMAGES: [(&str, Choice); 4] = [
    ("old", Choice::Old),
    ("new", Choice::New),
    ("torn", Choice::Torn),
    ("gone", Choice::Gone),
];

/// A name and its bytes.
#[derive(Drop)]
pub struct Held {
    pub name: Name,
    pub bytes: Vec<u8>,
}

/// Which calls fail: those of these numbers, from 0 behind the filling of the volume, or all from a number on.
#[derive(Clone, Copy)]
pub struct Faulty<'a> {
    pub list: &'a [u64],
    pub from: Option<u64>,
}

/// Whether a name is one of the rollback area.
pub fn is_area(name: &str) -> bool {
    name.starts_with("j/")
}

fn read_pieces(
    alloc: Global,
    volume: &mut MemVolume,
    name: &Name,
    size: u64,
    bytes: &mut Vec<u8>,
) -> Result<(), Ill> {
    for number in 0..size.div_ceil(PIECE as u64) {
        let at = number.saturating_mul(PIECE as u64);
        let piece = volume.read(alloc, name, at, PIECE)?;
        bytes.extend_from_slice(piece.as_slice())?;
    }
    Ok(())
}

fn bytes_of(alloc: Global, volume: &mut MemVolume, name: &Name) -> Result<Vec<u8>, Ill> {
    let mut bytes = Vec::new(alloc);
    let size = volume.size(name)?.unwrap_or(0);
    read_pieces(alloc, volume, name, size, &mut bytes)?;
    Ok(bytes)
}

fn next_name(
    alloc: Global,
    volume: &mut MemVolume,
    last: Option<&Held>,
) -> Result<Option<Name>, Ill> {
    Ok(volume.next(alloc, last.map(|held| &held.name))?)
}

fn add_next(alloc: Global, volume: &mut MemVolume, found: &mut Vec<Held>) -> Result<bool, Ill> {
    let Some(name) = next_name(alloc, volume, found.last())? else {
        return Ok(false);
    };
    let bytes = bytes_of(alloc, volume, &name)?;
    found.push(Held { name, bytes })?;
    Ok(true)
}

/// All names, in byte order, with their bytes.
pub fn held_of(alloc: Global, volume: &mut MemVolume) -> Result<Vec<Held>, Ill> {
    let mut found = Vec::new(alloc);
    for _ in 0..u64::MAX {
        if !add_next(alloc, volume, &mut found)? {
            break;
        }
    }
    Ok(found)
}

/// Gives a name these bytes.
fn write(alloc: Global, volume: &mut MemVolume, name: &Name, bytes: &[u8]) -> Result<(), Ill> {
    let (first, rest) = bytes.split_at(bytes.len().min(PIECE));
    volume.put(alloc, name, first)?;
    for piece in rest.chunks(PIECE) {
        volume.append(alloc, name, &piece[..piece.len().min(PIECE)])?;
    }
    Ok(())
}

/// Gives a name these bytes for good.
pub fn hold(alloc: Global, volume: &mut MemVolume, name: &Name, bytes: &[u8]) -> Result<(), Ill> {
    write(alloc, volume, name, bytes)?;
    volume.sync()?;
    Ok(())
}

/// Takes a name away for good.
pub fn unhold(volume: &mut MemVolume, name: &Name) -> Result<(), Ill> {
    if volume.size(name)?.is_none() {
        return Err(Ill::Bad);
    }
    volume.remove(name)?;
    volume.sync()?;
    Ok(())
}

/// How many calls fill a volume.
fn filling(held: &[Held]) -> u64 {
    let mut calls = 1u64;
    for held in held {
        let pieces = (held.bytes.len() as u64).div_ceil(PIECE as u64).max(1);
        calls = calls.saturating_add(pieces);
    }
    calls
}

/// How many puts and appends fill a volume.
pub fn writes_in(held: &[Held]) -> usize {
    filling(held).saturating_sub(1) as usize
}

fn numbers_of(alloc: Global, faulty: Faulty<'_>, first: u64) -> Result<Fails, Ill> {
    let mut list = Vec::new(alloc);
    for number in faulty.list {
        list.push(number.saturating_add(first))?;
    }
    let from = match faulty.from {
        Some(from) => Some(from.saturating_add(first)),
        None => None,
    };
    Ok(Fails { list, from })
}

/// A capacity, where it is below the greatest u64.
fn small(capacity: Option<u64>) -> Option<u64>
    ensures { IfSome result (λ c. c < 2 ^ 64 - 1) }
{
    match capacity {
        Some(capacity) if capacity < u64::MAX => Some(capacity),
        _ => None,
    }
}

fn opened(alloc: Global, capacity: Option<u64>, fails: Fails) -> Result<MemVolume, Ill> {
    Ok(MemVolume::new(alloc, small(capacity), fails)?)
}

fn write_all(alloc: Global, volume: &mut MemVolume, held: &[Held]) -> Result<(), Ill> {
    for held in held {
        write(alloc, volume, &held.name, held.bytes.as_slice())?;
    }
    volume.sync()?;
    Ok(())
}

/// A volume that holds this for good and has this capacity, and whose calls fail so.
pub fn volume_of(
    alloc: Global,
    held: &[Held],
    capacity: Option<u64>,
    faulty: Faulty<'_>,
) -> Result<MemVolume, Ill> {
    let fails = numbers_of(alloc, faulty, filling(held))?;
    let mut volume = opened(alloc, capacity, fails)?;
    write_all(alloc, &mut volume, held)?;
    Ok(volume)
}

/// No call fails.
pub const SOUND: Faulty<'static> = Faulty {
    list: &[],
    from: None,
};

/// What is held, as bytes: equal where the same is held; the names of the rollback area only where they are wanted.
pub fn key_of(alloc: Global, held: &[Held], area: bool) -> Result<Vec<u8>, Ill> {
    let mut key = Vec::new(alloc);
    for held in held {
        if area || !is_area(held.name.as_str()) {
            push_key(&mut key, held)?;
        }
    }
    Ok(key)
}

fn push_key(key: &mut Vec<u8>, held: &Held) -> Result<(), Ill> {
    let length = held.bytes.len() as u64;
    key.extend_from_slice(held.name.as_bytes())?;
    key.push(0)?;
    key.extend_from_slice(&length.to_be_bytes())?;
    key.extend_from_slice(held.bytes.as_slice())?;
    Ok(())
}
