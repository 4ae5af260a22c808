//! Edits of the tables of a case's source.

use crate::base;
use crate::ill::Ill;
use crate::source::Files;
use mi_lines::lines;
use std::alloc::Global;

/// A line without the carriage return at its end.
fn bare(line: &[u8]) -> &[u8] {
    line.strip_suffix(b"\r").unwrap_or(line)
}

/// The lines of a table's file, without what ends them.
fn lines_of(alloc: Global, text: &[u8]) -> Result<Vec<Vec<u8>>, Ill> {
    let mut found = Vec::new(alloc);
    for line in lines(alloc, text)?.iter() {
        found.push(Vec::from_slice(alloc, bare(line))?)?;
    }
    Ok(found)
}

/// The file of these lines.
fn text_of(alloc: Global, lines: &[Vec<u8>]) -> Result<Vec<u8>, Ill> {
    let mut text = Vec::new(alloc);
    for line in lines {
        text.extend_from_slice(line.as_slice())?;
        text.extend_from_slice(b"\r\n")?;
    }
    Ok(text)
}

/// The fields of a line with a tab between, and empty ones up to a number of them.
fn joined(alloc: Global, fields: &[Vec<u8>], least: usize) -> Result<Vec<u8>, Ill> {
    let mut line = Vec::new(alloc);
    for i in 0..fields.len().max(least) {
        if i > 0 {
            line.push(b'\t')?;
        }
        if let Some(field) = fields.get(i) {
            line.extend_from_slice(field.as_slice())?;
        }
    }
    Ok(line)
}

/// The number of fields in a line.
fn width(line: &[u8]) -> usize {
    line.split(|byte| *byte == b'\t').count()
}

/// The first field of a line.
fn first_field(line: &[u8]) -> &[u8] {
    line.split(|byte| *byte == b'\t').next().unwrap_or(line)
}

/// The place of the first row whose first field is this key.
fn row_of(lines: &[Vec<u8>], key: &[u8]) -> Option<usize> {
    for (place, line) in lines.iter().enumerate() {
        if place >= 3 && first_field(line.as_slice()) == key {
            return Some(place);
        }
    }
    None
}

/// The place of the column of this name.
fn column_of(head: &[u8], column: &[u8]) -> Option<usize> {
    head.split(|byte| *byte == b'\t')
        .position(|name| name == column)
}

/// A line with one field replaced.
fn with_cell(alloc: Global, line: &[u8], column: usize, value: &[u8]) -> Result<Vec<u8>, Ill> {
    let mut changed = Vec::new(alloc);
    for (place, field) in line.split(|byte| *byte == b'\t').enumerate() {
        if place > 0 {
            changed.push(b'\t')?;
        }
        changed.extend_from_slice(if place == column { value } else { field })?;
    }
    Ok(changed)
}

/// Reads the lines of a table that is there.
fn read(alloc: Global, files: &Files, table: &str) -> Result<Vec<Vec<u8>>, Ill> {
    let path = files.path_of(alloc, table)?;
    match files.get(path.as_str()) {
        Some(text) => lines_of(alloc, text.as_slice()),
        None => Err(Ill::Bad),
    }
}

fn write(alloc: Global, files: &mut Files, table: &str, lines: &[Vec<u8>]) -> Result<(), Ill> {
    let path = files.path_of(alloc, table)?;
    files.put(alloc, path.as_str(), text_of(alloc, lines)?)
}

/// Makes a table that isn't there one without rows.
pub fn begin(rt: HostRuntime, files: &mut Files, table: &str) -> Result<(), Ill> {
    let path = files.path_of(rt.alloc(), table)?;
    if files.get(path.as_str()).is_some() {
        return Ok(());
    }
    files.put(rt.alloc(), path.as_str(), base::table(rt, table)?)
}

/// Adds a row behind the last one.
pub fn row(rt: HostRuntime, files: &mut Files, table: &str, fields: &[Vec<u8>]) -> Result<(), Ill> {
    begin(rt, files, table)?;
    let mut lines = read(rt.alloc(), files, table)?;
    let columns = lines.first().map_or(0, |line| width(line.as_slice()));
    lines.push(joined(rt.alloc(), fields, columns)?)?;
    write(rt.alloc(), files, table, lines.as_slice())
}

/// Takes away the first row of this key.
pub fn without(alloc: Global, files: &mut Files, table: &str, key: &[u8]) -> Result<(), Ill> {
    let mut lines = read(alloc, files, table)?;
    let place = row_of(lines.as_slice(), key).ok_or(Ill::Bad)?;
    if place >= lines.len() {
        return Err(Ill::Bad);
    }
    lines.remove(place);
    write(alloc, files, table, lines.as_slice())
}

/// Puts a line in place of this one, or behind the last.
fn put_line(lines: &mut Vec<Vec<u8>>, place: usize, line: Vec<u8>) -> Result<(), Ill> {
    match lines.get_mut(place) {
        Some(old) => *old = line,
        None => lines.push(line)?,
    }
    Ok(())
}

/// The row of this key with another value in the column of this name, and its place.
fn changed(
    alloc: Global,
    lines: &[Vec<u8>],
    key: &[u8],
    column: &[u8],
    value: &[u8],
) -> Result<(usize, Vec<u8>), Ill> {
    let head = lines.first().ok_or(Ill::Bad)?;
    let column = column_of(head.as_slice(), column).ok_or(Ill::Bad)?;
    let place = row_of(lines, key).ok_or(Ill::Bad)?;
    let line = lines.get(place).ok_or(Ill::Bad)?;
    Ok((place, with_cell(alloc, line.as_slice(), column, value)?))
}

/// Gives the first row of this key a value in the column of this name.
pub fn cell(
    alloc: Global,
    files: &mut Files,
    table: &str,
    key: &[u8],
    column: &[u8],
    value: &[u8],
) -> Result<(), Ill> {
    let mut lines = read(alloc, files, table)?;
    let (place, line) = changed(alloc, lines.as_slice(), key, column, value)?;
    put_line(&mut lines, place, line)?;
    write(alloc, files, table, lines.as_slice())
}

/// Makes these fields a line of the file, counted from 1, or adds them behind the last.
pub fn line(
    alloc: Global,
    files: &mut Files,
    table: &str,
    number: usize,
    fields: &[Vec<u8>],
) -> Result<(), Ill> {
    let place = number.checked_sub(1).ok_or(Ill::Bad)?;
    let path = files.path_of(alloc, table)?;
    let mut lines = match files.get(path.as_str()) {
        Some(text) => lines_of(alloc, text.as_slice())?,
        None => Vec::new(alloc),
    };
    put_line(&mut lines, place, joined(alloc, fields, 0)?)?;
    write(alloc, files, table, lines.as_slice())
}

/// Takes a table's file away.
pub fn drop_table(alloc: Global, files: &mut Files, table: &str) -> Result<(), Ill> {
    let path = files.path_of(alloc, table)?;
    files.remove(path.as_str())
}
