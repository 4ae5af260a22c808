//! Going through what stands in a folder.

use crate::trouble::Trouble;
use memchr::memchr;
use std::alloc::{AllocError, Global};
use std::fs::Files;
use std::io::Read;

/// What is done with what stands in a folder.
pub trait Visit {
    /// Takes down what stands there by the bytes of its name in the folder, whose path ends in `/`.
    fn visit<F: Files>(&mut self, rt: &F, folder: &str, name: &[u8]) -> Result<(), Trouble>;
}

/// The bytes of names that are read at once.
const NAMES_READ: usize = 32_768;

/// The path of what stands in a folder, whose path ends in `/`.
pub fn path_in(alloc: Global, folder: &str, name: &str) -> Result<String, AllocError> {
    let mut path = String::from_str(alloc, folder)?;
    path.push_str(name)?;
    Ok(path)
}

// Where the name that begins there ends, before its NUL.
fn end_of(names: &[u8], from: usize) -> usize {
    let rest = names.get(from..).unwrap_or(&[]);
    from.saturating_add(memchr(0, rest).unwrap_or(rest.len()))
}

// Visits what has this name.
fn visit_name<F: Files, V: Visit>(
    rt: &F,
    visitor: &mut V,
    folder: &str,
    name: &[u8],
) -> Result<(), Trouble> {
    if matches!(name, b"" | b"." | b"..") {
        return Ok(());
    }
    visitor.visit(rt, folder, name)
}

// Visits what has these names, each of which ends in a NUL.
fn visit_named<F: Files, V: Visit>(
    rt: &F,
    visitor: &mut V,
    folder: &str,
    names: &[u8],
) -> Result<(), Trouble> {
    let mut from = 0usize;
    for _ in 0..names.len() {
        let end = end_of(names, from);
        if let Some(name) = names.get(from..end) {
            visit_name(rt, visitor, folder, name)?;
        }
        from = end.saturating_add(1);
        if from >= names.len() {
            break;
        }
    }
    Ok(())
}

// Reads names and visits what has them; false where no name is left.
fn visit_next<F: Files, V: Visit>(
    rt: &F,
    visitor: &mut V,
    folder: &str,
    listed: &mut F::Dir,
    names: &mut [u8],
) -> Result<bool, Trouble> {
    let count = listed.read(names)?;
    visit_named(rt, visitor, folder, &names[..count])?;
    Ok(count > 0)
}

fn visit_listed<F: Files, V: Visit>(
    rt: &F,
    visitor: &mut V,
    folder: &str,
    listed: &mut F::Dir,
) -> Result<(), Trouble> {
    let mut names = [0u8; NAMES_READ];
    for _ in 0..u64::MAX {
        if !visit_next(rt, visitor, folder, listed, &mut names)? {
            break;
        }
    }
    Ok(())
}

fn visit_folder<F: Files, V: Visit>(rt: &F, visitor: &mut V, folder: &str) -> Result<(), Trouble> {
    match rt.open_dir(folder) {
        Ok(mut listed) => {
            let visited = visit_listed(rt, visitor, folder, &mut listed);
            drop(listed);
            visited
        }
        Err(error) => Err(Trouble::from(error)),
    }
}

/// Visits each file and each folder directly in a folder, or in the one to which a link at its path leads, in no order.
pub fn visit_all<F: Files, V: Visit>(
    rt: &F,
    alloc: Global,
    visitor: &mut V,
    folder: &str,
) -> Result<(), Trouble> {
    let end = if folder.is_empty() || folder.ends_with('/') {
        ""
    } else {
        "/"
    };
    let path = path_in(alloc, folder, end)?;
    visit_folder(rt, visitor, path.as_str())
}
