//! The names that a folder holds.

use crate::found::{Found, look};
use crate::names::{LONGEST_NAME, PART_BYTES, push_bytes};
use crate::trouble::Trouble;
use crate::walk::{Visit, path_in, visit_all};
use crate::writing::sync_folder;
use std::alloc::Global;
use std::fs::Files;

/// What is done with each folder that is listed.
#[derive(Clone, Copy)]
pub enum Folders {
    /// It is listed alone.
    Listed,
    /// It is synced, too.
    Synced,
}

/// What a listing has found.
#[derive(Drop)]
pub struct Listed {
    /// The names whose path is that of a file, whatever stands there, but for those below a level that is no plain folder;
    /// in no order.
    pub names: Vec<String>,
    /// Whether there was no such level: then nothing stands at the path of any other name.
    pub is_whole: bool,
}

// A folder of a long name, with the bytes that its path spells.
#[derive(Drop)]
struct Part {
    path: String,
    bytes: Vec<u8>,
}

// What is listed, the folders that are still to be, and the bytes that the path of the present one spells.
#[derive(Drop)]
struct Lists {
    alloc: Global,
    listed: Listed,
    parts: Vec<Part>,
    front: Vec<u8>,
}

// The bytes of the part with those of a file or folder in it; None where its name spells none.
fn spelled(alloc: Global, front: &[u8], digits: &[u8]) -> Result<Option<Vec<u8>>, Trouble> {
    let length = front.len().saturating_add(digits.len() / 2);
    if digits.len() > 2 * PART_BYTES || length > LONGEST_NAME {
        return Ok(None);
    }
    let mut bytes = Vec::with_capacity(alloc, length)?;
    bytes.extend_from_slice(front)?;
    if push_bytes(&mut bytes, digits)? {
        Ok(Some(bytes))
    } else {
        Ok(None)
    }
}

impl Lists {
    // Takes down the folder in which all others stand.
    fn add_top(&mut self, folder: &str) -> Result<(), Trouble> {
        let path = String::from_str(self.alloc, folder)?;
        let bytes = Vec::new(self.alloc);
        self.parts.push(Part { path, bytes })?;
        Ok(())
    }

    // Takes down the name that a file's path spells, whatever stands there.
    fn add_name(&mut self, digits: &[u8]) -> Result<(), Trouble> {
        if let Some(bytes) = spelled(self.alloc, self.front.as_slice(), digits)? {
            // A path whose bytes aren't UTF-8 is no name of the volume.
            if let Ok(name) = String::from_utf8(bytes) {
                self.listed.names.push(name)?;
            }
        }
        Ok(())
    }

    // Takes down a folder of long names.
    fn add_folder(&mut self, path: String, digits: &[u8]) -> Result<(), Trouble> {
        if let Some(bytes) = spelled(self.alloc, self.front.as_slice(), digits)? {
            self.parts.push(Part { path, bytes })?;
        }
        Ok(())
    }

    // Takes down a folder of long names, where a plain one stands there.
    fn add_level<F: Files>(
        &mut self,
        rt: &F,
        folder: &str,
        name: &[u8],
        digits: &[u8],
    ) -> Result<(), Trouble> {
        // A name that isn't text is a folder of another program: the digits are text.
        let Ok(name) = str::from_utf8(name) else {
            return Ok(());
        };
        let path = path_in(self.alloc, folder, name)?;
        if look(rt, path.as_str())? == Found::Folder {
            return self.add_folder(path, digits);
        }
        self.listed.is_whole = false;
        Ok(())
    }
}

impl Visit for Lists {
    fn visit<F: Files>(&mut self, rt: &F, folder: &str, name: &[u8]) -> Result<(), Trouble> {
        match name.split_last() {
            Some((b'+', digits)) if digits.len() == 2 * PART_BYTES => {
                self.add_level(rt, folder, name, digits)
            }
            Some((b'+', _)) => Ok(()),
            _ => self.add_name(name),
        }
    }
}

fn list_folder<F: Files>(
    rt: &F,
    lists: &mut Lists,
    path: &str,
    folders: Folders,
) -> Result<(), Trouble> {
    visit_all(rt, lists.alloc, lists, path)?;
    match folders {
        Folders::Listed => Ok(()),
        Folders::Synced => sync_folder(rt, path),
    }
}

// Lists folders until none is left.
fn list_all<F: Files>(rt: &F, lists: &mut Lists, folders: Folders) -> Result<(), Trouble> {
    for _ in 0..u64::MAX {
        let Some(part) = lists.parts.pop() else {
            break;
        };
        let Part { path, bytes } = part;
        lists.front = bytes;
        let listed = list_folder(rt, lists, path.as_str(), folders);
        drop(path);
        listed?;
    }
    Ok(())
}

/// The names that a folder holds.
pub fn list<F: Files>(
    rt: &F,
    alloc: Global,
    folder: &str,
    folders: Folders,
) -> Result<Listed, Trouble> {
    let mut lists = Lists {
        alloc,
        listed: Listed {
            names: Vec::new(alloc),
            is_whole: true,
        },
        parts: Vec::new(alloc),
        front: Vec::new(alloc),
    };
    let done = match lists.add_top(folder) {
        Ok(()) => list_all(rt, &mut lists, folders),
        Err(trouble) => Err(trouble),
    };
    let Lists {
        alloc: _,
        listed,
        parts,
        front,
    } = lists;
    drop(parts);
    drop(front);
    match done {
        Ok(()) => Ok(listed),
        Err(trouble) => Err(trouble),
    }
}
