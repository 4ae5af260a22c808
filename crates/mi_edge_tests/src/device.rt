//! A disk in memory, which fails and loses its power when it is told to. A cut of the power may tear a file that was written
//! since its last sync, also if it was overwritten with the same bytes; of a renaming it leaves all or nothing.

use std::alloc::{AllocError, Global};
use std::collections::BTreeMap;
use std::fs::{Metadata, OpenOptions};
use std::io;
use std::io::ErrorKind;

/// What the disk has of what wasn't synced, after the power was cut.
#[derive(Clone, Copy, Debug)]
pub enum Choice {
    /// What was there at the last sync.
    Old,
    /// What reads gave.
    New,
    /// The first half of what reads gave, of a file that was written since.
    Torn,
    /// Zeros in place of the bytes, of a file that was written since.
    Zeroed,
    /// Names that were made or taken away since are gone.
    Gone,
    /// Any of these for each file and each entry, by a number.
    Mixed(usize),
}

impl Choice {
    // The choice at a place.
    fn at(self, place: usize) -> Choice {
        let Choice::Mixed(number) = self else {
            return self;
        };
        match number.wrapping_mul(31).wrapping_add(place.wrapping_mul(17)) % 5 {
            0 => Choice::Old,
            1 => Choice::New,
            2 => Choice::Torn,
            3 => Choice::Zeroed,
            _ => Choice::Gone,
        }
    }
}

/// How the call of a number goes wrong.
#[derive(Clone, Copy, Debug, PartialEq, Eq)]
pub enum Trip {
    /// The process is stopped: from this call on nothing happens.
    Stop,
    /// The call fails with this error, as EIO, ENOSPC or EINTR.
    Fail(Failure),
}

/// An error of the system.
#[derive(Clone, Copy, Debug, PartialEq, Eq)]
pub enum Failure {
    /// EIO.
    Broken,
    /// ENOSPC.
    Full,
    /// EINTR.
    Interrupted,
    /// EACCES.
    Denied,
    /// EROFS.
    ReadOnly,
    /// EINVAL.
    Invalid,
}

impl Failure {
    fn kind(self) -> ErrorKind {
        match self {
            Failure::Broken => ErrorKind::Other,
            Failure::Full => ErrorKind::StorageFull,
            Failure::Interrupted => ErrorKind::Interrupted,
            Failure::Denied => ErrorKind::PermissionDenied,
            Failure::ReadOnly => ErrorKind::ReadOnlyFilesystem,
            Failure::Invalid => ErrorKind::InvalidInput,
        }
    }
}

/// What always fails of the folder in which all others stand.
#[derive(Clone, Copy, Debug, PartialEq, Eq)]
pub enum Above {
    Opening(Failure),
    Syncing(Failure),
}

/// A file or a folder: what reads give, and what the disk has of it.
#[derive(Clone, Drop)]
struct Node {
    // Its path, where it is a folder.
    folder: Option<String>,
    now: Vec<u8>,
    disk: Vec<u8>,
    // Which bytes of `now` the next sync brings to the disk. After one that failed none are, and it is answered as good.
    fresh: Vec<bool>,
}

/// The node that a path names now, and the one that it names on the disk.
#[derive(Clone, Copy, PartialEq, Eq)]
struct Entry {
    now: Option<usize>,
    disk: Option<usize>,
    // Whether the one was renamed over the other: then a cut of the power leaves either.
    is_renamed: bool,
}

/// A disk in memory. Its calls are numbered from 0.
#[derive(Clone, Drop)]
pub struct Device {
    alloc: Global,
    nodes: Vec<Node>,
    entries: BTreeMap<String, Entry>,
    calls: usize,
    trip: Option<(usize, Trip)>,
    above: Option<Above>,
    // Whether a call has failed as it was told, and not as one that is to be tried again.
    failed: bool,
    // The paths of files that were opened to be written, and those over which a file was renamed, in their order.
    written: Vec<String>,
}

/// The number of the folder in which all others stand.
const TOP: usize = 0;

fn parent_of(path: &str) -> &str {
    match path.rsplit_once('/') {
        Some((parent, _)) => parent,
        None => ".",
    }
}

impl Node {
    fn new(alloc: Global, folder: Option<String>) -> Node {
        Node {
            folder,
            now: Vec::new(alloc),
            disk: Vec::new(alloc),
            fresh: Vec::new(alloc),
        }
    }

    // Writes a byte, directly behind the last one at most.
    fn write_byte(&mut self, at: usize, byte: u8) -> Result<(), AllocError> {
        match (self.now.get_mut(at), self.fresh.get_mut(at)) {
            (Some(place), Some(fresh)) => {
                *place = byte;
                *fresh = true;
            }
            _ => {
                self.now.push(byte)?;
                self.fresh.push(true)?;
            }
        }
        Ok(())
    }

    // Brings what is fresh to the disk.
    fn sync(&mut self) -> Result<(), AllocError> {
        self.disk.truncate(self.now.len());
        for (at, byte) in self.now.iter().enumerate() {
            let fresh = self.fresh.get(at) == Some(&true);
            match self.disk.get_mut(at) {
                Some(place) if fresh => *place = *byte,
                Some(_) => {}
                None => self.disk.push(if fresh { *byte } else { 0 })?,
            }
        }
        self.drop_fresh();
        Ok(())
    }

    fn drop_fresh(&mut self) {
        for place in self.fresh.iter_mut() {
            *place = false;
        }
    }

    // Whether it was written since the last sync, or has lost what was.
    fn is_unsynced(&self) -> bool {
        self.now != self.disk || self.fresh.contains(&true)
    }

    // The bytes that the disk has after the power was cut.
    fn left(&self, alloc: Global, choice: Choice) -> Result<Vec<u8>, AllocError> {
        match choice {
            Choice::Old => Vec::from_slice(alloc, self.disk.as_slice()),
            Choice::Torn if self.is_unsynced() => {
                Vec::from_slice(alloc, &self.now[..self.now.len() / 2])
            }
            Choice::Zeroed if self.is_unsynced() => zeros(alloc, self.now.len()),
            _ => Vec::from_slice(alloc, self.now.as_slice()),
        }
    }
}

fn zeros(alloc: Global, count: usize) -> Result<Vec<u8>, AllocError> {
    let mut bytes = Vec::new(alloc);
    for _ in 0..count {
        bytes.push(0)?;
    }
    Ok(bytes)
}

impl Entry {
    // The node that the path names after the power was cut.
    fn left(self, choice: Choice) -> Option<usize> {
        match choice {
            Choice::Old => self.disk,
            Choice::Gone if self.is_renamed => self.disk,
            Choice::Gone if self.now != self.disk => None,
            _ => self.now,
        }
    }

    // The entry after a node was renamed over what it names.
    fn renamed(self, node: usize) -> Entry {
        let is_durable = self.is_renamed || self.now == self.disk;
        Entry {
            now: Some(node),
            disk: self.disk,
            is_renamed: is_durable && self.now.is_some(),
        }
    }
}

impl Device {
    /// An empty disk.
    pub fn new(alloc: Global) -> Result<Device, AllocError> {
        let mut device = Device {
            alloc,
            nodes: Vec::new(alloc),
            entries: BTreeMap::new(alloc),
            calls: 0,
            trip: None,
            above: None,
            failed: false,
            written: Vec::new(alloc),
        };
        device.push_folder(".")?;
        Ok(device)
    }

    fn push_folder(&mut self, path: &str) -> Result<(), AllocError> {
        let path = String::from_str(self.alloc, path)?;
        self.nodes.push(Node::new(self.alloc, Some(path)))?;
        Ok(())
    }

    /// The disk as it is, for another process: its calls are numbered anew.
    pub fn again(&self, trip: Option<(usize, Trip)>) -> Result<Device, AllocError> {
        let mut device = self.clone()?;
        device.calls = 0;
        device.trip = trip;
        device.failed = false;
        device.written.clear();
        Ok(device)
    }

    /// The disk as it is, but that the file at a path, where there is one, has no bytes.
    pub fn with_empty(&self, path: &str) -> Result<Device, AllocError> {
        let mut device = self.again(None)?;
        if let Some(node) = device.find(path) {
            device.shorten(node, 0);
        }
        Ok(device)
    }

    /// The paths of files that were opened to be written, and those over which a file was renamed, in their order.
    pub fn written(&self) -> &[String] {
        self.written.as_slice()
    }

    /// The disk as it is, for another process, to which the folder above all others fails so.
    pub fn below(&self, above: Above) -> Result<Device, AllocError> {
        let mut device = self.again(None)?;
        device.above = Some(above);
        Ok(device)
    }

    /// How many calls were made.
    pub fn calls(&self) -> usize {
        self.calls
    }

    /// Whether a call has failed as it was told, and not as one that is to be tried again.
    pub fn has_failed(&self) -> bool {
        self.failed
    }

    /// The disk after the power was cut.
    pub fn cut(&self, choice: Choice) -> Result<Device, AllocError> {
        let mut left = Device::new(self.alloc)?;
        for (place, (path, entry)) in self.entries.iter().enumerate() {
            let choice = choice.at(place);
            if let Some(node) = entry.left(choice) {
                if let Some(node) = self.nodes.get(node) {
                    left.add_left(path.as_str(), node, choice)?;
                }
            }
        }
        Ok(left)
    }

    // Adds what is left of a file or a folder, where its folder is.
    fn add_left(&mut self, path: &str, node: &Node, choice: Choice) -> Result<(), AllocError> {
        if self.find(parent_of(path)).is_none() {
            return Ok(());
        }
        let number = self.push_node(path, node.folder.is_some())?;
        if let Some(left) = self.nodes.get_mut(number) {
            left.now = node.left(self.alloc, choice)?;
            left.disk = node.left(self.alloc, choice)?;
            for _ in 0..left.now.len() {
                left.fresh.push(false)?;
            }
        }
        let entry = Entry {
            now: Some(number),
            disk: Some(number),
            is_renamed: false,
        };
        self.entries
            .insert(String::from_str(self.alloc, path)?, entry)?;
        Ok(())
    }

    fn push_node(&mut self, path: &str, is_folder: bool) -> Result<usize, AllocError> {
        let number = self.nodes.len();
        if is_folder {
            self.push_folder(path)?;
        } else {
            self.nodes.push(Node::new(self.alloc, None))?;
        }
        Ok(number)
    }

    fn find(&self, path: &str) -> Option<usize> {
        match path.trim_end_matches('/') {
            "." => Some(TOP),
            path => self.entries.get(path)?.now,
        }
    }

    fn found(&self, path: &str) -> io::Result<usize> {
        match self.find(path) {
            Some(node) => Ok(node),
            None => Err(io::Error::from(ErrorKind::NotFound)),
        }
    }

    /// Numbers a call, and says whether it goes on.
    pub fn begin(&mut self) -> io::Result<()> {
        let number = self.calls;
        self.calls = number.saturating_add(1);
        match self.trip {
            Some((at, Trip::Stop)) if at <= number => Err(io::Error::from(ErrorKind::Other)),
            Some((at, Trip::Fail(failure))) if at == number => {
                self.failed = failure != Failure::Interrupted;
                Err(io::Error::from(failure.kind()))
            }
            _ => Ok(()),
        }
    }

    fn may_open(&self, number: usize) -> io::Result<()> {
        match self.above {
            Some(Above::Opening(failure)) if number == TOP => Err(io::Error::from(failure.kind())),
            _ => Ok(()),
        }
    }

    fn may_sync(&self, number: usize) -> io::Result<()> {
        match self.above {
            Some(Above::Syncing(failure)) if number == TOP => Err(io::Error::from(failure.kind())),
            _ => Ok(()),
        }
    }

    /// Whether the process is stopped.
    pub fn is_stopped(&self) -> bool {
        matches!(self.trip, Some((at, Trip::Stop)) if at < self.calls)
    }

    pub fn look(&mut self, path: &str) -> io::Result<Metadata> {
        self.begin()?;
        let node = self.found(path)?;
        match self.nodes.get(node) {
            Some(node) if node.folder.is_none() => Ok(Metadata::of_file(node.now.len() as u64)),
            _ => Ok(Metadata::of_dir()),
        }
    }

    // Makes a file or a folder in a folder that is there.
    fn make(&mut self, path: &str, is_folder: bool) -> io::Result<usize> {
        self.found(parent_of(path))?;
        let number = self.push_node(path, is_folder)?;
        let disk = match self.entries.get(path) {
            Some(entry) => entry.disk,
            None => None,
        };
        let entry = Entry {
            now: Some(number),
            disk,
            is_renamed: false,
        };
        self.entries
            .insert(String::from_str(self.alloc, path)?, entry)?;
        Ok(number)
    }

    /// Opens a file or a folder, and answers its number.
    pub fn open(&mut self, how: &OpenOptions, path: &str) -> io::Result<usize> {
        self.begin()?;
        if how.asks_write() || how.asks_append() {
            self.written.push(String::from_str(self.alloc, path)?)?;
        }
        match self.find(path) {
            Some(_) if how.asks_create_new() => Err(io::Error::from(ErrorKind::AlreadyExists)),
            Some(node) => {
                self.may_open(node)?;
                if how.asks_truncate() {
                    self.shorten(node, 0);
                }
                Ok(node)
            }
            None if how.asks_create_new() || how.asks_create() => self.make(path, false),
            None => Err(io::Error::from(ErrorKind::NotFound)),
        }
    }

    fn shorten(&mut self, node: usize, length: usize) {
        if let Some(node) = self.nodes.get_mut(node) {
            node.now.truncate(length);
            node.fresh.truncate(length);
        }
    }

    pub fn set_length(&mut self, node: usize, length: usize) -> io::Result<()> {
        self.begin()?;
        self.shorten(node, length);
        Ok(())
    }

    /// How many bytes reads give of a file.
    pub fn length(&self, node: usize) -> usize {
        match self.nodes.get(node) {
            Some(node) => node.now.len(),
            None => 0,
        }
    }

    pub fn write(&mut self, node: usize, at: usize, bytes: &[u8]) -> io::Result<()> {
        self.begin()?;
        let Some(node) = self.nodes.get_mut(node) else {
            return Ok(());
        };
        for (place, byte) in bytes.iter().enumerate() {
            node.write_byte(at.saturating_add(place), *byte)?;
        }
        Ok(())
    }

    /// Reads into a piece, and says how many bytes.
    pub fn read(&mut self, node: usize, at: usize, piece: &mut [u8]) -> io::Result<usize> {
        self.begin()?;
        let Some(node) = self.nodes.get(node) else {
            return Ok(0);
        };
        let mut count = 0usize;
        for (place, byte) in piece.iter_mut().zip(node.now.iter().skip(at)) {
            *place = *byte;
            count = count.saturating_add(1);
        }
        Ok(count)
    }

    /// Syncs a file, or the entries of a folder. Where that fails, the system drops what it had of the file.
    pub fn sync(&mut self, number: usize) -> io::Result<()> {
        if let Err(error) = self.begin() {
            if !self.is_stopped() {
                if let Some(node) = self.nodes.get_mut(number) {
                    node.drop_fresh();
                }
            }
            return Err(error);
        }
        self.may_sync(number)?;
        if let Some(node) = self.nodes.get_mut(number) {
            match &node.folder {
                Some(path) => sync_entries(&mut self.entries, path.as_str()),
                None => node.sync()?,
            }
        }
        Ok(())
    }

    pub fn make_folder(&mut self, path: &str) -> io::Result<()> {
        self.begin()?;
        self.make(path, true)?;
        Ok(())
    }

    pub fn remove(&mut self, path: &str) -> io::Result<()> {
        self.begin()?;
        match self.entries.get_mut(path) {
            Some(entry) => {
                entry.now = None;
                entry.is_renamed = false;
                Ok(())
            }
            None => Err(io::Error::from(ErrorKind::NotFound)),
        }
    }

    // Makes a path name a node, in place of the one that it names.
    fn name_node(&mut self, path: &str, node: usize) -> io::Result<()> {
        let before = match self.entries.get(path) {
            Some(entry) => *entry,
            None => Entry {
                now: None,
                disk: None,
                is_renamed: false,
            },
        };
        self.entries
            .insert(String::from_str(self.alloc, path)?, before.renamed(node))?;
        self.written.push(String::from_str(self.alloc, path)?)?;
        Ok(())
    }

    /// Renames a file over what stands there.
    pub fn rename(&mut self, from: &str, to: &str) -> io::Result<()> {
        self.begin()?;
        let node = self.found(from)?;
        self.found(parent_of(to))?;
        self.name_node(to, node)?;
        if let Some(entry) = self.entries.get_mut(from) {
            entry.now = None;
            entry.is_renamed = false;
        }
        Ok(())
    }

    /// The names that stand directly in a folder, each ended by a NUL.
    pub fn names(&mut self, folder: &str) -> io::Result<Vec<u8>> {
        self.begin()?;
        self.found(folder)?;
        let folder = folder.trim_end_matches('/');
        let mut names = Vec::new(self.alloc);
        for (path, entry) in self.entries.iter() {
            if entry.now.is_some() && parent_of(path.as_str()) == folder {
                let name = path.as_str().rsplit('/').next().unwrap_or(path.as_str());
                names.extend_from_slice(name.as_bytes())?;
                names.push(0)?;
            }
        }
        Ok(names)
    }
}

// Brings the entries directly in a folder to the disk.
fn sync_entries(entries: &mut BTreeMap<String, Entry>, folder: &str) {
    for (path, entry) in entries.iter_mut() {
        if parent_of(path.as_str()) == folder {
            entry.disk = entry.now;
            entry.is_renamed = false;
        }
    }
}
