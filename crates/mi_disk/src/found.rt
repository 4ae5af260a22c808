//! What stands at a path, and what of it a volume or a source takes.

use crate::trouble::Trouble;
use std::fs::{File, Files, Metadata};
use std::io::ErrorKind;
use std::os::unix::fs::MetadataExt;
use std::{fs, io};

/// What stands at a path. A link is never followed.
#[derive(Clone, Copy, PartialEq, Eq)]
pub enum Found {
    /// Nothing.
    Nothing,
    /// A plain file.
    File(Plain),
    /// A plain folder.
    Folder,
    /// A link, a pipe, a device.
    Other,
}

/// A plain file.
#[derive(Clone, Copy, PartialEq, Eq)]
pub struct Plain {
    /// Its bytes.
    pub length: u64,
    /// Whether it has other names, too: hard links. Who writes it in place writes what stands there.
    pub is_linked: bool,
}

fn found_of(metadata: &Metadata) -> Found {
    if metadata.is_file() {
        Found::File(Plain {
            length: metadata.len(),
            is_linked: metadata.nlink() > 1,
        })
    } else if metadata.is_dir() {
        Found::Folder
    } else {
        Found::Other
    }
}

// What stands at a path by an answer of the system.
fn told(answer: io::Result<Metadata>) -> Result<Found, Trouble> {
    match answer {
        Ok(metadata) => Ok(found_of(&metadata)),
        Err(error) => match Trouble::from(error) {
            Trouble::Absent => Ok(Found::Nothing),
            trouble => Err(trouble),
        },
    }
}

/// What stands at a path.
pub fn look<F: Files>(rt: &F, path: &str) -> Result<Found, Trouble> {
    told(fs::symlink_metadata(rt, path))
}

/// What stands at a path, or where the link that stands there leads: nothing, where that is nowhere or a loop.
pub fn look_through<F: Files>(rt: &F, path: &str) -> Result<Found, Trouble> {
    match fs::metadata(rt, path) {
        Err(error) if error.kind() == ErrorKind::FilesystemLoop => Ok(Found::Nothing),
        answer => told(answer),
    }
}

/// The plain file that was found, and None where nothing was; anything else isn't a volume's, and is never opened, written
/// or taken away.
pub fn plain_file(found: Found) -> Result<Option<Plain>, Trouble> {
    match found {
        Found::Nothing => Ok(None),
        Found::File(plain) => Ok(Some(plain)),
        Found::Folder | Found::Other => Err(Trouble::Strange),
    }
}

/// Whether a plain folder stands at a path; anything else there is a failure.
pub fn is_folder<F: Files>(rt: &F, path: &str) -> Result<bool, Trouble> {
    match look(rt, path)? {
        Found::Nothing => Ok(false),
        Found::Folder => Ok(true),
        Found::File(_) | Found::Other => Err(Trouble::Strange),
    }
}

/// An open file that can be locked against other processes.
pub trait Lockable {
    /// Takes the lock, and fails at once where another process has it. The lock ends with the process, too.
    fn take_lock(&self) -> io::Result<()>;
}

impl Lockable for File {
    fn take_lock(&self) -> io::Result<()> {
        match self.try_lock() {
            Ok(()) => Ok(()),
            Err(error) => Err(io::Error::from(error)),
        }
    }
}
