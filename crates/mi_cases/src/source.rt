//! The files of a case's source.

use crate::base;
use crate::ill::Ill;
use mi_source::MemSource;
use std::alloc::Global;
use std::collections::BTreeMap;

/// The files by their paths, and the folder that the steps name tables of.
#[derive(Drop)]
pub struct Files {
    files: BTreeMap<String, Vec<u8>>,
    folder: String,
}

/// The letters with which a file is filled, over and over.
const LETTERS: &[u8; 26] = b"abcdefghijklmnopqrstuvwxyz";

/// The longest file that a step makes.
const LONGEST: usize = 1_000_000_000;

fn add_all(
    alloc: Global,
    source: &mut MemSource,
    files: &BTreeMap<String, Vec<u8>>,
) -> Result<(), Ill> {
    for (path, bytes) in files.iter() {
        source.add(alloc, path.as_str(), bytes.as_slice())?;
    }
    Ok(())
}

impl Files {
    pub fn new(alloc: Global) -> Files {
        Files {
            files: BTreeMap::new(alloc),
            folder: String::new(alloc),
        }
    }

    /// The source with these files.
    pub fn fill(&self, alloc: Global, source: &mut MemSource) -> Result<(), Ill> {
        add_all(alloc, source, &self.files)
    }

    /// The folder of the steps from here on.
    pub fn enter(&mut self, alloc: Global, folder: &str) -> Result<(), Ill> {
        self.folder = String::from_str(alloc, folder)?;
        Ok(())
    }

    pub fn put(&mut self, alloc: Global, path: &str, bytes: Vec<u8>) -> Result<(), Ill> {
        self.files.insert(String::from_str(alloc, path)?, bytes)?;
        Ok(())
    }

    pub fn remove(&mut self, path: &str) -> Result<(), Ill> {
        match self.files.remove(path) {
            Some(_) => Ok(()),
            None => Err(Ill::Bad),
        }
    }

    pub fn get(&self, path: &str) -> Option<&Vec<u8>> {
        self.files.get(path)
    }

    /// The path of a table in the folder.
    pub fn path_of(&self, alloc: Global, table: &str) -> Result<String, Ill> {
        let folder = self.folder.as_str();
        Ok(format!(in alloc; "{folder}/{table}.idt")?)
    }
}

fn use_file(
    rt: HostRuntime,
    files: &mut Files,
    base: &str,
    folder: &str,
    path: &str,
) -> Result<(), Ill> {
    let inside = path.strip_prefix(base).ok_or(Ill::Bad)?;
    let to = format!(in rt.alloc(); "{folder}{inside}")?;
    files.put(rt.alloc(), to.as_str(), base::read(rt, path)?)
}

/// Gives the source each file of a base, in this folder, which becomes that of the steps below.
pub fn use_base(rt: HostRuntime, files: &mut Files, base: &str, folder: &str) -> Result<(), Ill> {
    let listing = base::files_of(rt, base)?;
    for path in listing.files.iter() {
        use_file(rt, files, base, folder, path.as_str())?;
    }
    files.enter(rt.alloc(), folder)
}

/// So many letters.
pub fn letters(alloc: Global, count: usize) -> Result<Vec<u8>, Ill> {
    if count > LONGEST {
        return Err(Ill::Bad);
    }
    let mut bytes = Vec::new(alloc);
    for i in 0..count {
        bytes.push(LETTERS[i % 26])?;
    }
    Ok(bytes)
}
