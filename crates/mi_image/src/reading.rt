//! Reading what a volume holds under one name: as much of a record as its entry needs.
//!
//! - Of a file it reads as many bytes as the longest head has; the file's bytes stay where they
//!   are.
//! - Of a folder or a key that is longer than any of its kind it reads nothing.
//! - Any other record of at most 65,536 bytes is read whole.
//! - Of a longer one the lengths in it are walked first (module `stated`): each says where the next
//!   is, and a window of 65,536 bytes moves to it. A right record ends where they say, so one that
//!   ends elsewhere is refused after at most one read for each length.
//! - Then it is judged by fronts (module `fronts`): the first 65,536 bytes, the first 16,777,216,
//!   then twice as many each time. A right record that is cut has no other fault than that it ends,
//!   so a front with another fault refuses the whole. A right record is read whole at last, and is
//!   in memory twice for a moment: as it was read, and as its entry.

ghost use Rattle.std.specs.Prelude.{◌≡◌, ◌≤◌, ◌++◌, ◌||◌, List, ℕ, None, MatchOption, IfOk, OnOk, OnErr, IsErrOf, length, take, codes, min, true, false, nat_eq};
ghost use Rattle.std.specs.List.{starts_with};
ghost use Rattle.std.specs.FinMap.{get};
ghost use Rattle.mi_text.specs.Bytes.{AreBytes};
ghost use Rattle.mi_volume.specs.Maps.{bytes_or_none};
ghost use Rattle.mi_volume.specs.State.{Passes, Rose};
ghost use Rattle.mi_image.specs.Items.{MayStand};
ghost use Rattle.mi_image.specs.Looks.{OnlyLooks};
ghost use Rattle.mi_image.specs.Scan.{Tells, item_read};

use crate::fault::ImageError;
use crate::fronts::may_go_on;
use crate::item::{Content, Item};
use crate::stated::stated_length;
use mi_base::{Bytes, Name, NoMemory, RecError, dec_entry, dec_file_head};
use mi_volume::{PIECE, VolFault, Volume};
use std::alloc::Global;

/// The length of the longest head of a file, in bytes.
const HEAD_LIMIT: u64 = 131_364;

/// The length of the longest record of a folder or of a key, in bytes.
const SHOWN_LIMIT: u64 = 504;

/// As many bytes as the program itself writes in one record that isn't a file's.
const WRITTEN_LIMIT: u64 = 16_777_216;

/// Whether a name begins with some bytes.
pub fn begins(name: &Name, front: &[u8]) -> bool
    ensures { result ≡ starts_with nat_eq name.now front.now }
{
    name.as_bytes().starts_with(front)
}

/// Adds a piece behind bytes. Behind none it is moved.
fn append(bytes: &mut Bytes, piece: Bytes) -> Result<(), NoMemory>
    ensures ok { OnOk result (bytes.new ≡ bytes.old ++ piece) }
    ensures err { OnErr result (bytes.new ≡ bytes.old) }
{
    if bytes.is_empty() {
        *bytes = piece;
        return Ok(());
    }
    bytes.extend(piece.as_slice())?;
    Ok(())
}

/// Reads on after the first bytes that a name holds, up to `want` of them, or all if there are fewer. They are read in pieces:
/// it goes on by the bytes that a read gave, and ends when a read gives none.
fn read_on<V: Volume>(
    alloc: Global,
    vol: &mut V,
    name: &Name,
    bytes: &mut Bytes,
    want: usize,
) -> Result<(), VolFault>
    ensures value { V.told → let whole = bytes_or_none (get (V.state vol.old).held name.now) in bytes.old ≡ take (length bytes.old) whole → length bytes.old ≤ want → OnOk result (bytes.new ≡ take want whole) }
    ensures short { length bytes.old ≤ want → length bytes.new ≤ want }
    ensures looks { V.told → OnlyLooks (V.state vol.old) (V.state vol.new) }
    ensures passes { Passes (V.state vol.old) (V.state vol.new) }
    ensures failed { IsErrOf result VolFault.Failed → Rose (V.state vol.old) (V.state vol.new) }
{
    while bytes.len() < want {
        let asked = PIECE.min(want - bytes.len());
        let piece = vol.read(alloc, name, bytes.len() as u64, asked)?;
        if piece.is_empty() {
            return Ok(());
        }
        append(bytes, piece)?;
    }
    Ok(())
}

/// The item of a file, from a front of its record, which has `size` bytes.
fn head_item(alloc: Global, name: &Name, front: &[u8], size: u64) -> Result<Item, ImageError>
    requires file { starts_with nat_eq name.now (codes "f/") ≡ true }
    requires within { length front.now ≤ size }
    requires enough { min size 131364 ≤ length front.now }
    ensures tells { (whole : List ℕ) → AreBytes whole → length whole ≡ size → take (length front.now) whole ≡ front.now → Tells name.now whole result }
    ensures right { IfOk result (MayStand name.now) }
    ensures no_fault { ¬ IsErrOf result ImageError.Fault }
{
    match dec_file_head(alloc, name.as_str(), front, size) {
        Ok(head) => Ok(Item::Head(head, Content::Own)),
        Err(RecError::NoMemory) => Err(ImageError::NoMemory),
        Err(RecError::Fault(_)) => Err(ImageError::BadImage(name.copy(alloc)?)),
    }
}

/// The item of another entry, from its record.
fn record_item(alloc: Global, name: &Name, bytes: &[u8]) -> Result<Item, ImageError>
    requires other { starts_with nat_eq name.now (codes "f/") ≡ false }
    ensures tells { Tells name.now bytes.now result }
    ensures right { IfOk result (MayStand name.now) }
    ensures no_fault { ¬ IsErrOf result ImageError.Fault }
{
    match dec_entry(alloc, name.as_str(), bytes) {
        Ok(entry) => Ok(Item::Whole(entry)),
        Err(RecError::NoMemory) => Err(ImageError::NoMemory),
        Err(RecError::Fault(_)) => Err(ImageError::BadImage(name.copy(alloc)?)),
    }
}

/// The length of a file's record of which so many bytes were read, where `want` were asked for: the stated one, or, over a
/// volume that gave fewer bytes than it stated, that of what it gave.
fn record_length(stated: u64, want: usize, read: usize) -> u64
    requires want { want ≡ min stated 131364 }
    requires read { read ≤ want }
    ensures whole { read ≡ want → result ≡ stated }
    ensures within { read ≤ result }
    ensures enough { min result 131364 ≤ read }
{
    if read < want { read as u64 } else { stated }
}

/// The item of a file, whose record has `size` bytes; at most the bytes of the longest head are read. A record of which the
/// volume gives fewer bytes is taken as it is.
fn read_head<V: Volume>(
    alloc: Global,
    vol: &mut V,
    name: &Name,
    size: u64,
) -> Result<Item, ImageError>
    requires file { starts_with nat_eq name.now (codes "f/") ≡ true }
    ensures tells { V.told → let whole = bytes_or_none (get (V.state vol.old).held name.now) in AreBytes whole → length whole ≡ size → Tells name.now whole result }
    ensures right { IfOk result (MayStand name.now) }
    ensures looks { V.told → OnlyLooks (V.state vol.old) (V.state vol.new) }
    ensures passes { Passes (V.state vol.old) (V.state vol.new) }
    ensures fault { IsErrOf result ImageError.Fault → Rose (V.state vol.old) (V.state vol.new) }
{
    let want = size.min(HEAD_LIMIT) as usize;
    let mut front = Bytes::new(alloc);
    read_on(alloc, vol, name, &mut front, want)?;
    let length = record_length(size, want, front.len());
    head_item(alloc, name, front.as_slice(), length)
}

/// Whether a name is of a folder or of a key, whose record is the shown path or key alone.
fn is_shown_alone(name: &Name) -> bool
    ensures { result ≡ (starts_with nat_eq name.now (codes "d/") || starts_with nat_eq name.now (codes "k/")) }
{
    begins(name, b"d/") || begins(name, b"k/")
}

/// Whether the record of `size` bytes of another entry isn't spelled, as far as its name and the lengths in it tell.
fn is_refused<V: Volume>(
    alloc: Global,
    vol: &mut V,
    name: &Name,
    size: u64,
) -> Result<bool, VolFault>
    requires other { starts_with nat_eq name.now (codes "f/") ≡ false }
    ensures refused { V.told → let whole = bytes_or_none (get (V.state vol.old).held name.now) in length whole ≡ size → IfOk result (λ refused. refused ≡ true → item_read name.now whole ≡ None) }
    ensures looks { V.told → OnlyLooks (V.state vol.old) (V.state vol.new) }
    ensures passes { Passes (V.state vol.old) (V.state vol.new) }
    ensures failed { IsErrOf result VolFault.Failed → Rose (V.state vol.old) (V.state vol.new) }
{
    if size > SHOWN_LIMIT && is_shown_alone(name) {
        return Ok(true);
    }
    if size <= PIECE as u64 {
        return Ok(false);
    }
    match stated_length(alloc, vol, name, size)? {
        Some(stated) => Ok(stated != size),
        None => Ok(true),
    }
}

/// The bytes of the record of `size` bytes of another entry, or None where it isn't spelled, as a front of it tells: the
/// first 65,536 bytes, the first 16,777,216, and then twice as many each time.
fn read_spelled<V: Volume>(
    alloc: Global,
    vol: &mut V,
    name: &Name,
    size: u64,
) -> Result<Option<Bytes>, VolFault>
    requires other { starts_with nat_eq name.now (codes "f/") ≡ false }
    ensures value { V.told → let whole = bytes_or_none (get (V.state vol.old).held name.now) in length whole ≡ size → IfOk result (λ read. MatchOption read (item_read name.now whole ≡ None) (λ bytes. bytes ≡ whole)) }
    ensures looks { V.told → OnlyLooks (V.state vol.old) (V.state vol.new) }
    ensures passes { Passes (V.state vol.old) (V.state vol.new) }
    ensures failed { IsErrOf result VolFault.Failed → Rose (V.state vol.old) (V.state vol.new) }
{
    let mut want = size.min(PIECE as u64);
    let mut bytes = Bytes::new(alloc);
    read_on(alloc, vol, name, &mut bytes, want as usize)?;
    while want < size {
        if !may_go_on(alloc, name, bytes.as_slice())? {
            return Ok(None);
        }
        want = want.saturating_mul(2).max(WRITTEN_LIMIT).min(size);
        read_on(alloc, vol, name, &mut bytes, want as usize)?;
    }
    Ok(Some(bytes))
}

/// The item of another entry, whose record has `size` bytes; it is read on only where its front may be that of a right one.
fn read_record<V: Volume>(
    alloc: Global,
    vol: &mut V,
    name: &Name,
    size: u64,
) -> Result<Item, ImageError>
    requires other { starts_with nat_eq name.now (codes "f/") ≡ false }
    ensures tells { V.told → let whole = bytes_or_none (get (V.state vol.old).held name.now) in length whole ≡ size → Tells name.now whole result }
    ensures right { IfOk result (MayStand name.now) }
    ensures looks { V.told → OnlyLooks (V.state vol.old) (V.state vol.new) }
    ensures passes { Passes (V.state vol.old) (V.state vol.new) }
    ensures fault { IsErrOf result ImageError.Fault → Rose (V.state vol.old) (V.state vol.new) }
{
    if is_refused(alloc, vol, name, size)? {
        return Err(ImageError::BadImage(name.copy(alloc)?));
    }
    match read_spelled(alloc, vol, name, size)? {
        Some(bytes) => record_item(alloc, name, bytes.as_slice()),
        None => Err(ImageError::BadImage(name.copy(alloc)?)),
    }
}

/// The item that a volume holds under a name.
pub fn read_item<V: Volume>(alloc: Global, vol: &mut V, name: &Name) -> Result<Item, ImageError>
    ensures tells { V.told → Tells name.now (bytes_or_none (get (V.state vol.old).held name.now)) result }
    ensures right { IfOk result (MayStand name.now) }
    ensures looks { V.told → OnlyLooks (V.state vol.old) (V.state vol.new) }
    ensures passes { Passes (V.state vol.old) (V.state vol.new) }
    ensures fault { IsErrOf result ImageError.Fault → Rose (V.state vol.old) (V.state vol.new) }
{
    let size = vol.size(name)?.unwrap_or(0);
    if begins(name, b"f/") {
        read_head(alloc, vol, name, size)
    } else {
        read_record(alloc, vol, name, size)
    }
}
