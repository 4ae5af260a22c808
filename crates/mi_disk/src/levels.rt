//! The levels of a folder's path.

use crate::found::{Found, look_through};
use crate::trouble::Trouble;
use crate::writing::{make_folder, sync_above, sync_folder};
use std::fs::Files;

// The folder in which this one stands.
fn parent_of(folder: &str) -> &str {
    match folder.trim_end_matches('/').rsplit_once('/') {
        Some((parent, _)) if parent.trim_end_matches('/').is_empty() => "/",
        Some((parent, _)) => parent.trim_end_matches('/'),
        None => ".",
    }
}

/// What is done with each level of a folder's path, the highest first.
#[derive(Clone, Copy)]
pub enum Levels {
    /// It is made where it isn't there, and then the entry that names it is synced. What stands there and is no folder,
    /// nor a link to one, is a failure.
    Make,
    /// The entry that names it is synced, where this process can: a level above that it may not open is passed over.
    Sync,
}

fn make_level<F: Files>(rt: &F, folder: &str) -> Result<(), Trouble> {
    match look_through(rt, folder)? {
        Found::Folder => Ok(()),
        Found::Nothing => {
            make_folder(rt, folder)?;
            sync_folder(rt, parent_of(folder))
        }
        Found::File(_) | Found::Other => Err(Trouble::Failed),
    }
}

fn do_level<F: Files>(rt: &F, folder: &str, what: Levels) -> Result<(), Trouble> {
    match what {
        Levels::Make => make_level(rt, folder),
        Levels::Sync => sync_above(rt, parent_of(folder)),
    }
}

/// Does this with each level of a folder's path. There is no folder of the empty path.
pub fn do_levels<F: Files>(rt: &F, folder: &str, what: Levels) -> Result<(), Trouble> {
    if folder.is_empty() {
        return Err(Trouble::Failed);
    }
    for (end, _) in folder.match_indices('/') {
        if end > 0 {
            if let Some(level) = folder.get(..end) {
                do_level(rt, level, what)?;
            }
        }
    }
    do_level(rt, folder, what)
}
