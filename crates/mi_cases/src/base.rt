//! Bases: folders of package files beside the scripts.

use crate::ill::Ill;
use std::fs;

/// The base of the tables without rows.
const TABLES: &str = "tables";

/// More folders than a base has.
const MOST_FOLDERS: u32 = 1000;

/// The files of a base by their paths from it, also those in folders below.
#[derive(Drop)]
pub struct Listing {
    pub files: Vec<String>,
    folders: Vec<String>,
}

/// Adds what a folder holds by this name.
fn add(rt: HostRuntime, listing: &mut Listing, folder: &str, name: &str) -> Result<(), Ill> {
    let path = format!(in rt.alloc(); "{folder}/{name}")?;
    if fs::metadata(&rt, path.as_str())?.is_dir() {
        listing.folders.push(path)?;
    } else {
        listing.files.push(path)?;
    }
    Ok(())
}

fn add_folder(rt: HostRuntime, listing: &mut Listing, folder: &str) -> Result<(), Ill> {
    for entry in fs::read_dir(&rt, folder)? {
        let entry = entry?;
        add(rt, listing, folder, entry.file_name())?;
    }
    Ok(())
}

fn add_below(rt: HostRuntime, listing: &mut Listing) -> Result<(), Ill> {
    for _ in 0..MOST_FOLDERS {
        let Some(folder) = listing.folders.pop() else {
            break;
        };
        add_folder(rt, listing, folder.as_str())?;
    }
    Ok(())
}

/// The paths of a base's files, which begin with its name.
pub fn files_of(rt: HostRuntime, base: &str) -> Result<Listing, Ill> {
    let mut listing = Listing {
        files: Vec::new(rt.alloc()),
        folders: Vec::new(rt.alloc()),
    };
    listing.folders.push(String::from_str(rt.alloc(), base)?)?;
    add_below(rt, &mut listing)?;
    Ok(listing)
}

/// The bytes of a file of a base.
pub fn read(rt: HostRuntime, path: &str) -> Result<Vec<u8>, Ill> {
    Ok(fs::read(&rt, path)?)
}

/// The file of a table without rows.
pub fn table(rt: HostRuntime, table: &str) -> Result<Vec<u8>, Ill> {
    let path = format!(in rt.alloc(); "{TABLES}/{table}.idt")?;
    read(rt, path.as_str())
}
