//! Writing a file: its head, and the bytes of the source's file or of another file.

ghost use Rattle.std.specs.Prelude.{◌≡◌, ◌≢◌, ◌+◌, ◌-◌, ◌≤◌, ◌++◌, List, ℕ, Some, Contains, IfOk, OnOk, IsErrOf, IsTrue, length, take, min, false};
ghost use Rattle.std.specs.FinMap.{get, insert};
ghost use Rattle.mi_base.specs.Spelling.{head_bytes};
ghost use Rattle.mi_source.specs.Paths.{bytes_or_none};
ghost use Rattle.mi_source.specs.Counts.{Rose};
ghost use Rattle.mi_image.specs.Items.{HeadMayStand};
ghost use Rattle.mi_script.specs.Scripts.{last_bytes};
ghost use Rattle.mi_undo.specs.Area.{volume, noted_names, IsWorking};
ghost use Rattle.mi_undo.specs.declared.fault.OpFault.TheVariants as op;
ghost use Rattle.mi_runner.specs.declared.fault.RunFault.TheVariants as run;
ghost use Rattle.mi_runner.specs.Steps.{Writes, Reads, NeverDiffers};

use crate::bytes::{append_held, write_bytes};
use crate::fault::RunFault;
use crate::head::head_record;
use mi_base::{Bytes, FileHead, Name};
use mi_source::{Source, SrcFault};
use mi_undo::{OpFault, Open};
use mi_volume::{PIECE, Volume};
use std::alloc::Global;

// Gives a noted name the head of a file's record alone.
fn write_head<V: Volume>(
    alloc: Global,
    area: &mut Open<'_, V>,
    name: &Name,
    head: &FileHead,
) -> Result<(), OpFault>
    requires working { IsWorking area.old }
    requires noted { Contains (noted_names area.old) name.now }
    requires head { HeadMayStand name.now head.now }
    ensures writes { Writes V.told V.state area.old area.new name.now (length name.now + length (head_bytes head.now)) op.Fault op.Full result }
    ensures map { V.told → OnOk result ((V.state (volume area.new)).held ≡ insert (V.state (volume area.old)).held name.now (head_bytes head.now)) }
{
    let record = head_record(alloc, head)?;
    write_bytes(alloc, area, name, record.as_slice())?;
    Ok(())
}

// Adds the bytes of the source's file, up to this length, at the end of a noted name, and answers how many there were. It
// goes on by the bytes that a read gave, and ends when a read gives none.
fn append_file<S: Source, V: Volume>(
    alloc: Global,
    area: &mut Open<'_, V>,
    src: &mut S,
    name: &Name,
    path: &str,
    stated: u64,
) -> Result<u64, RunFault>
    requires working { IsWorking area.old }
    requires noted { Contains (noted_names area.old) name.now }
    ensures writes { (before : List ℕ) → (V.told → get (V.state (volume area.old)).held name.now ≡ Some before)
        → Writes V.told V.state area.old area.new name.now (length name.now + (length before + stated)) run.Volume run.Full result }
    ensures map { V.told → S.told → (before : List ℕ) → get (V.state (volume area.old)).held name.now ≡ Some before
        → IfOk result (λ n. (V.state (volume area.new)).held ≡ insert (V.state (volume area.old)).held name.now (before ++ take stated (bytes_or_none (get (S.files src.old) path.now)))) }
    ensures found { S.told → IfOk result (λ n. n ≡ min stated (length (bytes_or_none (get (S.files src.old) path.now)))) }
    ensures reads { Reads S.files S.faults src.old src.new result }
    ensures never { NeverDiffers result }
{
    let mut at = 0;
    while at < stated {
        let want = (stated - at).min(PIECE as u64);
        let bytes = src.read(alloc, path, at, want as usize)?;
        area.append(alloc, name, bytes.as_slice())?;
        let found = bytes.len() as u64;
        at += found;
        if found == 0 {
            return Ok(at);
        }
    }
    Ok(at)
}

// Whether bytes follow the head of a record, and all of it is no more than a piece.
fn is_one_piece(head: usize, length: u64) -> bool
    ensures { IsTrue result → head + length ≤ PIECE }
{
    length > 0 && length <= PIECE.saturating_sub(head) as u64
}

// The first bytes of the source's file, up to this many. It goes on by the bytes that a read gave, and ends when a read gives
// none.
fn read_front<S: Source>(
    alloc: Global,
    src: &mut S,
    path: &str,
    want: usize,
) -> Result<Bytes, SrcFault>
    requires { want ≤ PIECE }
    ensures value { S.told → IfOk result (λ bytes. bytes ≡ take want (bytes_or_none (get (S.files src.old) path.now))) }
    ensures short { IfOk result (λ bytes. length bytes ≤ want) }
    ensures stays { S.files src.new ≡ S.files src.old }
    ensures counts { S.faults src.old ≤ S.faults src.new }
    ensures failed { IsErrOf result SrcFault.Failed → Rose (S.faults src.old) (S.faults src.new) }
{
    let mut bytes = Bytes::new(alloc);
    while bytes.len() < want {
        let piece = src.read(alloc, path, bytes.len() as u64, want - bytes.len())?;
        if piece.is_empty() {
            return Ok(bytes);
        }
        bytes.extend(piece.as_slice())?;
    }
    Ok(bytes)
}

// Gives a noted name these bytes with those of the source's file behind them, as one piece, and answers how many the
// file had.
fn put_file<S: Source, V: Volume>(
    alloc: Global,
    area: &mut Open<'_, V>,
    src: &mut S,
    name: &Name,
    mut front: Bytes,
    path: &str,
    stated: usize,
) -> Result<u64, RunFault>
    requires working { IsWorking area.old }
    requires noted { Contains (noted_names area.old) name.now }
    requires piece { length front + stated ≤ PIECE }
    ensures writes { Writes V.told V.state area.old area.new name.now (length name.now + (length front + stated)) run.Volume run.Full result }
    ensures map { V.told → S.told → length (bytes_or_none (get (S.files src.old) path.now)) ≡ stated
        → IfOk result (λ n. (V.state (volume area.new)).held ≡ insert (V.state (volume area.old)).held name.now (front ++ bytes_or_none (get (S.files src.old) path.now))) }
    ensures found { S.told → length (bytes_or_none (get (S.files src.old) path.now)) ≡ stated → IfOk result (λ n. n ≡ stated) }
    ensures reads { Reads S.files S.faults src.old src.new result }
    ensures never { NeverDiffers result }
{
    let bytes = read_front(alloc, src, path, stated)?;
    front.extend(bytes.as_slice())?;
    area.put(alloc, name, front.as_slice())?;
    Ok(bytes.len() as u64)
}

// Gives a noted name these bytes, and then adds those of the source's file by pieces. Answers how many the file had.
fn put_by_pieces<S: Source, V: Volume>(
    alloc: Global,
    area: &mut Open<'_, V>,
    src: &mut S,
    name: &Name,
    front: &[u8],
    path: &str,
    stated: u64,
) -> Result<u64, RunFault>
    requires working { IsWorking area.old }
    requires noted { Contains (noted_names area.old) name.now }
    ensures writes { Writes V.told V.state area.old area.new name.now (length name.now + (length front.now + stated)) run.Volume run.Full result }
    ensures map { V.told → S.told → length (bytes_or_none (get (S.files src.old) path.now)) ≡ stated
        → IfOk result (λ n. (V.state (volume area.new)).held ≡ insert (V.state (volume area.old)).held name.now (front.now ++ bytes_or_none (get (S.files src.old) path.now))) }
    ensures found { S.told → length (bytes_or_none (get (S.files src.old) path.now)) ≡ stated → IfOk result (λ n. n ≡ stated) }
    ensures reads { Reads S.files S.faults src.old src.new result }
    ensures never { NeverDiffers result }
{
    write_bytes(alloc, area, name, front)?;
    let found = append_file(alloc, area, src, name, path, stated)?;
    Ok(found)
}

// Gives a noted name these bytes with those of the source's file behind them: at once where that is a piece. Answers
// how many the file had.
fn put_record<S: Source, V: Volume>(
    alloc: Global,
    area: &mut Open<'_, V>,
    src: &mut S,
    name: &Name,
    front: Bytes,
    path: &str,
    stated: u64,
) -> Result<u64, RunFault>
    requires working { IsWorking area.old }
    requires noted { Contains (noted_names area.old) name.now }
    ensures writes { Writes V.told V.state area.old area.new name.now (length name.now + (length front + stated)) run.Volume run.Full result }
    ensures map { V.told → S.told → length (bytes_or_none (get (S.files src.old) path.now)) ≡ stated
        → IfOk result (λ n. (V.state (volume area.new)).held ≡ insert (V.state (volume area.old)).held name.now (front ++ bytes_or_none (get (S.files src.old) path.now))) }
    ensures found { S.told → length (bytes_or_none (get (S.files src.old) path.now)) ≡ stated → IfOk result (λ n. n ≡ stated) }
    ensures reads { Reads S.files S.faults src.old src.new result }
    ensures never { NeverDiffers result }
{
    if is_one_piece(front.len(), stated) {
        return put_file(alloc, area, src, name, front, path, stated as usize);
    }
    put_by_pieces(alloc, area, src, name, front.as_slice(), path, stated)
}

/// Gives a noted name the record of a file with the bytes of the source's file, and answers how many bytes that has.
/// Where they aren't as many as are stated, the record isn't whole.
pub fn write_copy<S: Source, V: Volume>(
    alloc: Global,
    area: &mut Open<'_, V>,
    src: &mut S,
    name: &Name,
    head: &FileHead,
    path: &str,
    stated: u64,
) -> Result<u64, RunFault>
    requires working { IsWorking area.old }
    requires noted { Contains (noted_names area.old) name.now }
    requires head { HeadMayStand name.now head.now }
    ensures writes { Writes V.told V.state area.old area.new name.now (length name.now + (length (head_bytes head.now) + stated)) run.Volume run.Full result }
    ensures map { V.told → S.told → length (bytes_or_none (get (S.files src.old) path.now)) ≡ stated
        → IfOk result (λ n. (V.state (volume area.new)).held ≡ insert (V.state (volume area.old)).held name.now (head_bytes head.now ++ bytes_or_none (get (S.files src.old) path.now))) }
    ensures found { S.told → length (bytes_or_none (get (S.files src.old) path.now)) ≡ stated → IfOk result (λ n. n ≡ stated) }
    ensures reads { Reads S.files S.faults src.old src.new result }
    ensures never { NeverDiffers result }
{
    let size = src.size(path)?.unwrap_or(0);
    if size != stated {
        return Ok(size);
    }
    let record = head_record(alloc, head)?;
    let found = put_record(alloc, area, src, name, record, path, stated)?;
    Ok(found)
}

/// Gives a noted name the record of a file with the bytes that the record of another file ends with, as many as the head
/// states.
pub fn write_duplicate<V: Volume>(
    alloc: Global,
    area: &mut Open<'_, V>,
    name: &Name,
    head: &FileHead,
    from: &Name,
) -> Result<(), OpFault>
    requires working { IsWorking area.old }
    requires noted { Contains (noted_names area.old) name.now }
    requires head { HeadMayStand name.now head.now }
    requires other { from.now ≢ name.now }
    ensures writes { Writes V.told V.state area.old area.new name.now (length name.now + (length (head_bytes head.now) + head.now.length)) op.Fault op.Full result }
    ensures map { V.told → OnOk result ((V.state (volume area.new)).held ≡ insert (V.state (volume area.old)).held name.now (head_bytes head.now ++ last_bytes head.now.length (bytes_or_none (get (V.state (volume area.old)).held from.now)))) }
{
    write_head(alloc, area, name, head)?;
    let size = area.size(from)?.unwrap_or(0);
    append_held(
        alloc,
        area,
        name,
        from,
        size.saturating_sub(head.length),
        size,
    )?;
    Ok(())
}
