//! Files below the current folder as a source.

ghost use Rattle.std.specs.Prelude.{◌≡◌, ◌≤◌, IfOk, vec_len};
ghost use Rattle.std.specs.FinMap.{empty};
ghost use Rattle.mi_feeds.specs.Count.{Counts};

use crate::fault_count::FaultCount;
use mi_disk::{Found, Trouble, Visit, look_through, path_in, read_at, visit_all};
use mi_source::{Failed, Source, SrcFault};
use mi_text::{Bytes, Text};
use std::alloc::Global;
use std::fs::Files;

/// Files as a source (this project's own); a path is one from the current folder. Links are followed, and a path that is
/// too long for the system has no file. It tells no content.
#[derive(Drop)]
pub struct FolderSource<R: Files> {
    rt: R,
    faults: FaultCount,
}

impl<R: Files + Alloc + Clone + Drop> FolderSource<R> {
    /// The files as a source. Takes no memory.
    pub fn new(rt: R) -> FolderSource<R> {
        FolderSource {
            rt,
            faults: FaultCount::new(),
        }
    }

    fn failed(&mut self) -> Failed
        ensures { Counts self.old.faults self.new.faults }
    {
        self.faults.rise();
        Failed
    }

    fn read_failed(&mut self, trouble: Trouble) -> SrcFault
        ensures failed { result ≡ SrcFault.Failed → Counts self.old.faults self.new.faults }
        ensures later { self.old.faults ≤ self.new.faults }
    {
        if trouble == Trouble::NoMemory {
            return SrcFault::NoMemory;
        }
        self.faults.rise();
        SrcFault::Failed
    }
}

// The names of files that are found in a folder.
#[derive(Drop)]
struct Names {
    alloc: Global,
    names: Vec<Text>,
}

impl Visit for Names {
    fn visit<F: Files>(&mut self, rt: &F, folder: &str, name: &[u8]) -> Result<(), Trouble> {
        // A name that isn't text is a file of another program.
        let Ok(name) = str::from_utf8(name) else {
            return Ok(());
        };
        let path = path_in(self.alloc, folder, name)?;
        if let Found::File(_) = look_through(rt, path.as_str())? {
            self.names.push(Text::copy_of(self.alloc, name)?)?;
        }
        Ok(())
    }
}

fn add_names<F: Files>(rt: &F, found: &mut Names, folder: &str) -> Result<(), Trouble> {
    if look_through(rt, folder)? == Found::Folder {
        visit_all(rt, found.alloc, found, folder)?;
        found.names.sort()?;
    }
    Ok(())
}

// The names of the files directly in the folder, in byte order. A link to nowhere is none, nor is one in a loop.
fn names_in<F: Files>(rt: &F, alloc: Global, folder: &str) -> Result<Vec<Text>, Trouble> {
    let mut found = Names {
        alloc,
        names: Vec::new(alloc),
    };
    match add_names(rt, &mut found, folder) {
        Ok(()) => Ok(found.names),
        Err(trouble) => Err(trouble),
    }
}

fn size_of<R: Files>(rt: &R, path: &str) -> Result<Option<u64>, Trouble> {
    match look_through(rt, path)? {
        Found::File(plain) => Ok(Some(plain.length)),
        Found::Nothing | Found::Folder | Found::Other => Ok(None),
    }
}

// The bytes of a file, and none where there is none at the path.
fn bytes_of<R: Files>(
    rt: &R,
    alloc: Global,
    path: &str,
    at: u64,
    want: usize,
) -> Result<Vec<u8>, Trouble>
    ensures { IfOk result (λ bytes. vec_len bytes ≤ want) }
{
    let length = size_of(rt, path)?.unwrap_or(0);
    read_at(rt, alloc, path, length, at, want)
}

impl<R: Files + Alloc + Clone + Drop> Source for FolderSource<R> {
    ghost told = { ⊥ };

    ghost files = { λ s. empty };

    ghost faults = { λ s. s.faults };

    fn names(&mut self, alloc: Global, folder: &str) -> Result<Vec<Text>, SrcFault> {
        match names_in(&self.rt, alloc, folder) {
            Ok(names) => Ok(names),
            Err(trouble) => Err(self.read_failed(trouble)),
        }
    }

    fn size(&mut self, path: &str) -> Result<Option<u64>, Failed> {
        match size_of(&self.rt, path) {
            Ok(size) => Ok(size),
            Err(_) => Err(self.failed()),
        }
    }

    fn read(&mut self, alloc: Global, path: &str, at: u64, want: usize) -> Result<Bytes, SrcFault> {
        match bytes_of(&self.rt, alloc, path, at, want) {
            Ok(bytes) => Ok(Bytes::from_vec(bytes)),
            Err(trouble) => Err(self.read_failed(trouble)),
        }
    }
}
