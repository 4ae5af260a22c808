//! What the steps that print add.

use crate::entry_line::{begins, line_of, printed};
use crate::held::Held;
use crate::ill::Ill;
use crate::told::Told;
use mi_lines::{push_escaped, push_field, push_line};
use mi_volume::{Call, CallKind};
use std::alloc::Global;

/// Whether a line is of one of these kinds, or none is given.
fn is_wanted(line: &[u8], kinds: &[Vec<u8>]) -> bool {
    kinds.is_empty() || kinds.iter().any(|kind| is_of_kind(line, kind.as_slice()))
}

fn is_of_kind(line: &[u8], kind: &[u8]) -> bool {
    match line.strip_prefix(b"\t") {
        Some(line) => begins(line, kind),
        None => false,
    }
}

/// Adds a line for each entry of these kinds.
pub fn push_machine(
    alloc: Global,
    out: &mut Vec<u8>,
    held: &[Held],
    kinds: &[Vec<u8>],
) -> Result<(), Ill> {
    for held in held {
        let line = line_of(alloc, held.name.as_str(), held.bytes.as_slice())?;
        if is_wanted(line.as_slice(), kinds) {
            push_line(out, line.get(1..).unwrap_or(&[]))?;
        }
    }
    Ok(())
}

/// The names of the entries that are printed with these fields in front.
pub fn names_of<'a>(
    alloc: Global,
    held: &'a [Held],
    fields: &[Vec<u8>],
) -> Result<Vec<&'a str>, Ill> {
    let wanted = printed(alloc, fields)?;
    let mut names = Vec::new(alloc);
    for held in held {
        let line = line_of(alloc, held.name.as_str(), held.bytes.as_slice())?;
        if begins(line.as_slice(), wanted.as_slice()) {
            names.push(held.name.as_str())?;
        }
    }
    Ok(names)
}

/// Adds a line for each name that begins so, with its bytes.
pub fn push_held(out: &mut Vec<u8>, held: &[Held], prefix: &[u8]) -> Result<(), Ill> {
    for held in held {
        if held.name.as_bytes().starts_with(prefix) {
            push_escaped(out, held.name.as_bytes())?;
            out.push(b'\t')?;
            push_field(out, held.bytes.as_slice())?;
            out.push(b'\n')?;
        }
    }
    Ok(())
}

/// How many names begin so, and the sum of the lengths of their names and bytes.
fn counted(held: &[Held], prefix: &[u8]) -> (u64, u64) {
    let mut names = 0u64;
    let mut bytes = 0u64;
    for held in held {
        if held.name.as_bytes().starts_with(prefix) {
            names = names.saturating_add(1);
            bytes = bytes.saturating_add(held.name.as_bytes().len() as u64);
            bytes = bytes.saturating_add(held.bytes.len() as u64);
        }
    }
    (names, bytes)
}

/// The size of what is held: the lengths of its names and bytes.
pub fn size_of(held: &[Held]) -> u64 {
    counted(held, &[]).1
}

/// Adds how many names begin so, and their bytes.
pub fn push_count(
    alloc: Global,
    out: &mut Vec<u8>,
    held: &[Held],
    prefix: &[u8],
) -> Result<(), Ill> {
    let (names, bytes) = counted(held, prefix);
    let line = format!(in alloc; "{names} names, {bytes} bytes\n")?;
    out.extend_from_slice(line.as_bytes())?;
    Ok(())
}

/// Whether a name was put among these calls.
fn is_put(calls: &[Call], call: &Call) -> bool {
    calls.iter().any(|earlier| earlier.kind == CallKind::Put && earlier.name == call.name)
}

/// Whether a call appended behind a put, and no earlier one did so to its name.
fn is_appended(calls: &[Call], place: usize, call: &Call) -> bool {
    let front = calls.get(..place).unwrap_or(&[]);
    call.kind == CallKind::Append && is_put(front, call)
}

fn push_names(out: &mut Vec<u8>, names: &[&str]) -> Result<(), Ill> {
    let mut last: Option<&str> = None;
    for name in names {
        if last != Some(*name) {
            push_escaped(out, name.as_bytes())?;
            out.push(b'\n')?;
        }
        last = Some(*name);
    }
    Ok(())
}

/// The names that begin so among these calls, or those that were appended to behind a put.
fn called<'a>(
    alloc: Global,
    calls: &'a [Call],
    prefix: &[u8],
    appended: bool,
) -> Result<Vec<&'a str>, Ill> {
    let mut names = Vec::new(alloc);
    for (place, call) in calls.iter().enumerate() {
        if call.name.as_bytes().starts_with(prefix)
            && (!appended || is_appended(calls, place, call))
        {
            names.push(call.name.as_str())?;
        }
    }
    Ok(names)
}

/// Adds the names that begin so among these calls, each once, in byte order; or those that were appended to behind a put.
pub fn push_called(
    alloc: Global,
    out: &mut Vec<u8>,
    calls: &[Call],
    prefix: &[u8],
    appended: bool,
) -> Result<(), Ill> {
    let mut names = called(alloc, calls, prefix, appended)?;
    names.sort()?;
    push_names(out, names.as_slice())
}

/// Adds a log, whole or without the lines of its actions.
fn push_log(out: &mut Vec<u8>, log: &[u8], whole: bool) -> Result<(), Ill> {
    for line in log.split_inclusive(|byte| *byte == b'\n') {
        if whole || !line.starts_with(b"Action: ") {
            out.extend_from_slice(line)?;
        }
    }
    Ok(())
}

fn push_result(out: &mut Vec<u8>, told: &Told) -> Result<(), Ill> {
    out.extend_from_slice(b"Result: ")?;
    push_line(out, told.text.as_slice())?;
    Ok(())
}

fn push_status(alloc: Global, out: &mut Vec<u8>, told: &Told) -> Result<(), Ill> {
    let status = told.marks.status;
    out.extend_from_slice(format!(in alloc; "status {status}")?.as_bytes())?;
    if !told.marks.by_device {
        let reached = told.marks.reached;
        out.extend_from_slice(format!(in alloc; " reached {reached}")?.as_bytes())?;
    }
    if told.marks.log_lost {
        out.extend_from_slice(b" log lost")?;
    }
    out.push(b'\n')?;
    Ok(())
}

/// Adds what a run tells.
pub fn push_told(alloc: Global, out: &mut Vec<u8>, told: &Told, whole: bool) -> Result<(), Ill> {
    if !told.marks.log_lost {
        if told.marks.by_device {
            push_result(out, told)?;
        } else {
            push_log(out, told.log.as_slice(), whole)?;
        }
    }
    push_status(alloc, out, told)
}
