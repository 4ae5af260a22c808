//! The list of the names that a process has changed, by which the next one knows what may not be synced.
//!
//! It is text: for each name a line feed and the name's path below the folder. A line begins with its line feed, so one that
//! a failure has cut off harms none after it; the name of such a line wasn't changed yet.

use crate::names::{push_name, push_path};
use crate::order::sort_names;
use crate::trouble::Trouble;
use std::alloc::Global;

/// The longest list that is read, in bytes. A longer one is taken as one without names.
pub const LONGEST_LIST: u64 = 67_108_864;

/// Makes a text the line of a name.
pub fn set_line(line: &mut String, name: &str) -> Result<(), Trouble> {
    line.clear();
    line.push('\n')?;
    push_path(line, name)
}

// Whether a list may have this byte.
fn is_of_list(byte: u8) -> bool {
    matches!(byte, b'\n' | b'+' | b'/' | b'0'..=b'9' | b'a'..=b'f')
}

// Adds the name that has this path, if one has.
fn add_name(alloc: Global, names: &mut Vec<String>, path: &[u8]) -> Result<(), Trouble> {
    let mut bytes = Vec::new(alloc);
    if !path.is_empty() && push_name(&mut bytes, path)? {
        if let Ok(name) = String::from_utf8(bytes) {
            names.push(name)?;
        }
    }
    Ok(())
}

fn add_names(alloc: Global, names: &mut Vec<String>, list: &[u8]) -> Result<(), Trouble> {
    for path in list.split(|byte| *byte == b'\n') {
        add_name(alloc, names, path)?;
    }
    Ok(())
}

/// The names of a list, in byte order; one that has more lines is there as often. None if the list has no name, or a byte
/// that no list has, as if the system has lost what it had of the list: then any name may have changed.
pub fn names_of(alloc: Global, list: &[u8]) -> Result<Option<Vec<String>>, Trouble> {
    if !list.iter().all(|byte| is_of_list(*byte)) {
        return Ok(None);
    }
    let mut names = Vec::new(alloc);
    match add_names(alloc, &mut names, list) {
        Ok(()) if names.is_empty() => Ok(None),
        Ok(()) => Ok(Some(sort_names(alloc, names)?)),
        Err(trouble) => Err(trouble),
    }
}
