//! A table of the package, from its file.

ghost use Rattle.std.specs.Prelude.{◌≡◌, ◌≤◌, IfOk, IfErr, OnErr, OnOk, is_some, IsErrOf, length};
ghost use Rattle.std.specs.FinMap.{get};
ghost use Rattle.mi_source.specs.Counts.{Rose};
ghost use Rattle.mi_rows.specs.Reads.{Fails, IsCounted};
ghost use Rattle.mi_rows.specs.Columns.{table_as, refused};
ghost use Rattle.mi_schema.specs.Loaded.{AreRead, IsRight};
ghost use Rattle.mi_rows.specs.Rows.{size_fault, table_fault};
ghost use Rattle.mi_rows.specs.Values.{KeysTell};
ghost use Rattle.mi_schema.specs.Checks.{table_path, content_of};
ghost use Rattle.mi_source.specs.Paths.{bytes_or_none};

use indexmap::IndexMap;
use mi_base::{IdtFault, NoMemory, Text};
use mi_rows::{Checked, Key, Layout, LoadError, TableRow, misspelled, read_shared, refuse_bytes};
use mi_source::{Failed, PIECE, Source, SrcFault};
use mi_text::Bytes;
use std::alloc::Global;

/// The greatest length of a table, in bytes.
const TABLE_LIMIT: u64 = 16_777_216;

/// The bytes of a file of so many bytes. It is read in pieces: reading goes on by the bytes that came, and ends when a read gives
/// none, so that a source which states more than it gives gives a shorter text.
fn read_file<S: Source>(
    alloc: Global,
    src: &mut S,
    path: &str,
    size: usize,
) -> Result<Bytes, SrcFault>
    ensures value { S.told → size ≡ length (bytes_or_none (get (S.files src.old) path.now)) → IfOk result (λ bytes. bytes ≡ bytes_or_none (get (S.files src.old) path.now)) }
    ensures stays { S.files src.new ≡ S.files src.old }
    ensures counts { S.faults src.old ≤ S.faults src.new }
    ensures failed { IsErrOf result SrcFault.Failed → Rose (S.faults src.old) (S.faults src.new) }
{
    let mut bytes = Bytes::new(alloc);
    while bytes.len() < size {
        let want = PIECE.min(size - bytes.len());
        let piece = src.read(alloc, path, bytes.len() as u64, want)?;
        if piece.is_empty() {
            return Ok(bytes);
        }
        bytes.extend(piece.as_slice())?;
    }
    Ok(bytes)
}

/// The path of a table's file.
pub fn path_of(alloc: Global, folder: &str, table: &str) -> Result<Text, NoMemory>
    ensures { IfOk result (λ path. path ≡ table_path folder.now table.now) }
{
    let mut path = Text::copy_of(alloc, folder)?;
    path.push_str("/")?;
    path.push_str(table)?;
    path.push_str(".idt")?;
    Ok(path)
}

/// Whether a file is there.
pub fn is_there<S: Source>(src: &mut S, path: &str) -> Result<bool, Failed>
    ensures value { S.told → IfOk result (λ there. there ≡ is_some (get (S.files src.old) path.now)) }
    ensures stays { S.files src.new ≡ S.files src.old }
    ensures counts { S.faults src.old ≤ S.faults src.new }
    ensures failed { OnErr result (Rose (S.faults src.old) (S.faults src.new)) }
{
    let size = src.size(path)?;
    Ok(size.is_some())
}

/// The bytes of a table's file, if it is there. More of them than a table may have are its fault, by the size alone: nothing of
/// such a file is read.
fn bytes_of<S: Source>(
    alloc: Global,
    src: &mut S,
    folder: &str,
    name: &str,
) -> Result<Option<Bytes>, LoadError>
    ensures value { S.told → IfOk result (λ found. found ≡ content_of (S.files src.old) folder.now name.now) }
    ensures fault { S.told → IfErr result (Fails (Rose (S.faults src.old) (S.faults src.new)) (size_fault name.now (content_of (S.files src.old) folder.now name.now))) }
    ensures counted { IsCounted (Rose (S.faults src.old) (S.faults src.new)) result }
    ensures stays { S.files src.new ≡ S.files src.old }
    ensures counts { S.faults src.old ≤ S.faults src.new }
{
    let path = path_of(alloc, folder, name)?;
    let Some(size) = src.size(path.as_str())? else {
        return Ok(None);
    };
    if size > TABLE_LIMIT {
        return Err(misspelled(alloc, name, IdtFault::TooLarge));
    }
    Ok(Some(read_file(alloc, src, path.as_str(), size as usize)?))
}

/// Reads the rows of a known table in a folder into a map, under their keys; none where its file isn't there.
pub fn load_table<K: Key, R: TableRow<K>, S: Source>(
    alloc: Global,
    src: &mut S,
    folder: &str,
    layout: &Layout,
    rows: &mut IndexMap<K, R>,
) -> Checked
    requires is { table_as layout.now ≡ R.layout }
    requires apart { KeysTell K.eq K.key R.layout.columns }
    ensures read { OnOk result (AreRead K.key R.value S.told (content_of (S.files src.old) folder.now R.layout.name) R.layout rows.new.entries) }
    ensures fault { S.told → IfErr result (Fails (Rose (S.faults src.old) (S.faults src.new)) (table_fault R.layout (content_of (S.files src.old) folder.now R.layout.name))) }
    ensures counted { IsCounted (Rose (S.faults src.old) (S.faults src.new)) result }
    ensures stays { S.files src.new ≡ S.files src.old }
    ensures counts { S.faults src.old ≤ S.faults src.new }
{
    match bytes_of(alloc, src, folder, layout.name)? {
        Some(bytes) => read_shared(alloc, layout, bytes, rows),
        None => {
            *rows = IndexMap::new(alloc);
            Ok(())
        }
    }
}

/// Refuses a table in a folder that holds a row.
pub fn refuse_table<S: Source>(alloc: Global, src: &mut S, folder: &str, name: &str) -> Checked
    ensures read { OnOk result (IsRight S.told (content_of (S.files src.old) folder.now name.now) (refused name.now)) }
    ensures fault { S.told → IfErr result (Fails (Rose (S.faults src.old) (S.faults src.new)) (table_fault (refused name.now) (content_of (S.files src.old) folder.now name.now))) }
    ensures counted { IsCounted (Rose (S.faults src.old) (S.faults src.new)) result }
    ensures stays { S.files src.new ≡ S.files src.old }
    ensures counts { S.faults src.old ≤ S.faults src.new }
{
    match bytes_of(alloc, src, folder, name)? {
        Some(bytes) => refuse_bytes(alloc, name, bytes.as_slice()),
        None => Ok(()),
    }
}
