//! Files that are put in the place of others.
//!
//! Such a file is written under a name that is none of the volume, and then renamed over the other. So what the other
//! holds is there up to that moment, whatever becomes of the process, and its further names keep it.

use crate::found::{look, plain_file};
use crate::trouble::Trouble;
use crate::writing::{remove_path, sync_open, write_on};
use std::fs::{File, Files, OpenOptions};
use std::io::{Seek, SeekFrom, Write};
use std::{fs, io};

/// What a file holds that is put in another's place.
#[derive(Clone, Copy)]
pub enum Contents<'a> {
    /// These bytes.
    Only(&'a [u8]),
    /// What the other holds, and these bytes after it.
    Added(&'a [u8]),
    /// What the other holds, but this first byte. The file is synced before it takes the other's place.
    Marked(u8),
    /// What the other holds. The file is synced before it takes the other's place.
    Same,
}

// Copies what the file at a path holds to the end of an open one.
fn copy_on<F: Files>(rt: &F, path: &str, file: &mut F::File) -> Result<(), Trouble> {
    let mut from = File::open(rt, path)?;
    io::copy(&mut from, file)?;
    Ok(())
}

// Writes the first byte of an open file.
fn mark_open<F: Write + Seek>(file: &mut F, byte: u8) -> Result<(), Trouble> {
    file.seek(SeekFrom::Start(0))?;
    write_on(file, &[byte])
}

// Writes an open file that is to take the place of the one at a path.
fn fill<F: Files>(
    rt: &F,
    path: &str,
    file: &mut F::File,
    contents: Contents<'_>,
) -> Result<(), Trouble> {
    match contents {
        Contents::Only(bytes) => write_on(file, bytes),
        Contents::Added(bytes) => {
            copy_on(rt, path, file)?;
            write_on(file, bytes)
        }
        Contents::Marked(byte) => {
            copy_on(rt, path, file)?;
            mark_open(file, byte)?;
            sync_open(file)
        }
        Contents::Same => {
            copy_on(rt, path, file)?;
            sync_open(file)
        }
    }
}

// Makes a new file at `spare`, and renames it over the one at a path. Returns it, open after what was written last.
fn put_over<F: Files>(
    rt: &F,
    spare: &str,
    path: &str,
    contents: Contents<'_>,
) -> Result<F::File, Trouble> {
    let mut how = OpenOptions::new();
    how.write(true).create_new(true);
    let mut file = how.open(rt, spare)?;
    fill(rt, path, &mut file, contents)?;
    fs::rename(rt, spare, path)?;
    Ok(file)
}

/// Puts a file with these contents in the place of the one at a path. It is written at `spare`; a plain file that an
/// earlier process has left there goes. Returns it, open after what was written last. After an error the one at the path
/// is as it was, and `spare` is taken away if it can be.
pub fn replace_file<F: Files>(
    rt: &F,
    spare: &str,
    path: &str,
    contents: Contents<'_>,
) -> Result<F::File, Trouble> {
    if plain_file(look(rt, spare)?)?.is_some() {
        remove_path(rt, spare)?;
    }
    let replaced = put_over(rt, spare, path, contents);
    if replaced.is_err() {
        let _ = remove_path(rt, spare);
    }
    replaced
}
