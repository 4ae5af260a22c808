//! Writing, making, syncing and taking away files and folders of the system.

use crate::trouble::Trouble;
use std::fs::{File, Files, OpenFile, OpenOptions};
use std::io::{ErrorKind, Write};
use std::{fs, io};

/// Gives a file exactly these bytes, in place: it is never longer than before or than they are. A file that isn't there
/// yet is made, and nothing else may stand there. Answers the file, open at its end.
pub fn put_file<F: Files>(
    rt: &F,
    path: &str,
    before: Option<u64>,
    bytes: &[u8],
) -> Result<F::File, Trouble> {
    let mut how = OpenOptions::new();
    how.write(true).create_new(before.is_none());
    let mut file = how.open(rt, path)?;
    file.write_all(bytes)?;
    let length = bytes.len() as u64;
    if before.is_some_and(|before| before > length) {
        file.set_len(length)?;
    }
    Ok(file)
}

/// Adds bytes at the end of a file. One that is new is made, and nothing else may stand there. Answers the file, open at its
/// end.
pub fn append_file<F: Files>(
    rt: &F,
    path: &str,
    is_new: bool,
    bytes: &[u8],
) -> Result<F::File, Trouble> {
    let mut how = OpenOptions::new();
    how.append(true).create_new(is_new);
    let mut file = how.open(rt, path)?;
    file.write_all(bytes)?;
    Ok(file)
}

/// Adds bytes at the end of a file that is open there.
pub fn write_on<F: Write>(file: &mut F, bytes: &[u8]) -> Result<(), Trouble> {
    file.write_all(bytes)?;
    Ok(())
}

/// Writes the first byte of a file that is there, in place. Answers the file, open behind it.
pub fn mark_file<F: Files>(rt: &F, path: &str, byte: u8) -> Result<F::File, Trouble> {
    let mut how = OpenOptions::new();
    how.write(true);
    let mut file = how.open(rt, path)?;
    file.write_all(&[byte])?;
    Ok(file)
}

/// Makes a folder where nothing stands.
pub fn make_folder<F: Files>(rt: &F, path: &str) -> Result<(), Trouble> {
    fs::create_dir(rt, path)?;
    Ok(())
}

/// Takes a file away, if it is there.
pub fn remove_path<F: Files>(rt: &F, path: &str) -> Result<(), Trouble> {
    match fs::remove_file(rt, path) {
        Ok(()) => Ok(()),
        Err(error) => unless_absent(Trouble::from(error)),
    }
}

fn unless_absent(trouble: Trouble) -> Result<(), Trouble> {
    match trouble {
        Trouble::Absent => Ok(()),
        trouble => Err(trouble),
    }
}

// Syncs an open folder: what stands in it.
fn sync_open_folder<F: OpenFile>(folder: &F) -> Result<(), Trouble> {
    folder.sync_all()?;
    Ok(())
}

/// Opens a folder and syncs it, if it is there.
pub fn sync_folder<F: Files>(rt: &F, path: &str) -> Result<(), Trouble> {
    match File::open(rt, path) {
        Ok(folder) => sync_open_folder(&folder),
        Err(error) => unless_absent(Trouble::from(error)),
    }
}

/// Opens a file and syncs it, if it is there.
pub fn sync_file<F: Files>(rt: &F, path: &str) -> Result<(), Trouble> {
    match File::open(rt, path) {
        Ok(file) => sync_open(&file),
        Err(error) => unless_absent(Trouble::from(error)),
    }
}

/// Syncs an open file: its bytes and its length, and not the times of its last changes, which nothing reads.
pub fn sync_open<F: OpenFile>(file: &F) -> Result<(), Trouble> {
    file.sync_data()?;
    Ok(())
}

// Whether a folder that this process didn't make can't be synced by it: this user may not open it, or its file system
// is read-only or knows no sync of a folder.
fn is_beyond(kind: ErrorKind) -> bool {
    matches!(
        kind,
        ErrorKind::PermissionDenied
            | ErrorKind::ReadOnlyFilesystem
            | ErrorKind::InvalidInput
            | ErrorKind::Unsupported
    )
}

fn unless_beyond(answer: io::Result<()>) -> Result<(), Trouble> {
    match answer {
        Err(error) if !is_beyond(error.kind()) => unless_absent(Trouble::from(error)),
        _ => Ok(()),
    }
}

/// Syncs a folder that was there before this process, if that is in its power: a folder that this user may not open
/// is passed over, and so is one whose file system is read-only or knows no sync of a folder.
pub fn sync_above<F: Files>(rt: &F, path: &str) -> Result<(), Trouble> {
    match File::open(rt, path) {
        Ok(file) => unless_beyond(file.sync_all()),
        Err(error) => unless_beyond(Err(error)),
    }
}
