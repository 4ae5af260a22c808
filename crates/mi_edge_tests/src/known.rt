//! What names of a volume hold, as far as a process knows.

use crate::fake::Fake;
use crate::step::{Act, piece_of};
use mi_edges::FolderVolume;
use mi_text::{Name, NoMemory};
use mi_volume::{PIECE, Volume};
use std::alloc::{AllocError, AllocFailed, Global};
use std::io;

/// A folder on a disk in memory as a volume.
pub type FakeVolume = FolderVolume<Fake>;

/// What a name holds.
pub type Held = Option<Vec<u8>>;

/// Why a trial isn't right.
#[derive(Clone, Copy, Debug, PartialEq, Eq)]
pub enum Wrong {
    NoMemory,
    /// The volume can't be opened or read, where nothing fails.
    Unread,
    /// A name holds something else than was written.
    Other,
    /// A name that was synced holds something else.
    Lost,
    /// What was read from the volume when it was opened is something else after the power was cut.
    Changed,
    /// A failure of the system wasn't counted, or the folder was opened all the same.
    Uncounted,
    /// The names that are listed aren't those that are held.
    Listed,
}

impl From<io::Error> for Wrong {
    fn from(_error: io::Error) -> Wrong {
        Wrong::NoMemory
    }
}

impl From<AllocError> for Wrong {
    fn from(_error: AllocError) -> Wrong {
        Wrong::NoMemory
    }
}

impl<T: Drop> From<AllocFailed<T>> for Wrong {
    fn from(_failed: AllocFailed<T>) -> Wrong {
        Wrong::NoMemory
    }
}

impl From<NoMemory> for Wrong {
    fn from(_want: NoMemory) -> Wrong {
        Wrong::NoMemory
    }
}

/// A name, and what it holds.
#[derive(Drop)]
pub struct Known {
    name: Name,
    // What reads give, where it is known: a failed change leaves any bytes.
    now: Held,
    is_known: bool,
    // Whether it has changed since the last good sync, and what it held then.
    is_dirty: bool,
    synced: Held,
}

/// What a name holds by its size and by reading it.
pub fn read_held(alloc: Global, volume: &mut FakeVolume, name: &Name) -> Result<Held, Wrong> {
    let Ok(size) = volume.size(name) else {
        return Err(Wrong::Unread);
    };
    let Ok(bytes) = volume.read(alloc, name, 0, PIECE) else {
        return Err(Wrong::Unread);
    };
    match size {
        None if bytes.as_slice().is_empty() => Ok(None),
        Some(size) if size == bytes.as_slice().len() as u64 => Ok(Some(bytes.into_vec())),
        _ => Err(Wrong::Other),
    }
}

fn copied(alloc: Global, text: &str) -> Result<Held, Wrong> {
    Ok(Some(Vec::from_slice(alloc, text.as_bytes())?))
}

// Replaces the one byte that is held. A mark is of such a name alone.
fn is_marked(held: &mut Held, byte: u8) -> bool {
    match held {
        Some(bytes) if bytes.len() == 1 => {
            bytes.clear();
            bytes.push(byte).is_ok()
        }
        _ => false,
    }
}

impl Known {
    /// A name that isn't held.
    pub fn absent(name: Name) -> Known {
        Known {
            name,
            now: None,
            is_known: true,
            is_dirty: false,
            synced: None,
        }
    }

    /// Does this at the name, and takes down what it holds then.
    pub fn change(
        &mut self,
        alloc: Global,
        volume: &mut FakeVolume,
        act: Act,
    ) -> Result<(), Wrong> {
        self.is_dirty = true;
        if self.is_done(alloc, volume, act) {
            self.note(alloc, act)
        } else {
            self.is_known = false;
            Ok(())
        }
    }

    fn is_done(&self, alloc: Global, volume: &mut FakeVolume, act: Act) -> bool {
        match act {
            Act::Put(text) => volume.put(alloc, &self.name, piece_of(text)).is_ok(),
            Act::Append(text) => volume.append(alloc, &self.name, piece_of(text)).is_ok(),
            Act::Mark(byte) => volume.mark(&self.name, byte).is_ok(),
            Act::Remove => volume.remove(&self.name).is_ok(),
            Act::Holds(_) | Act::Lacks | Act::Next(_) => false,
        }
    }

    // Takes down what the name holds behind a change.
    fn note(&mut self, alloc: Global, act: Act) -> Result<(), Wrong> {
        match act {
            Act::Put(text) => {
                self.now = copied(alloc, text)?;
                self.is_known = true;
            }
            Act::Remove => {
                self.now = None;
                self.is_known = true;
            }
            Act::Append(text) => match &mut self.now {
                Some(now) => now.extend_from_slice(text.as_bytes())?,
                None => self.now = copied(alloc, text)?,
            },
            // A mark is of a name that holds one byte.
            Act::Mark(byte) => {
                self.is_known = self.is_known && is_marked(&mut self.now, byte);
            }
            Act::Holds(_) | Act::Lacks | Act::Next(_) => {}
        }
        Ok(())
    }

    /// Takes down that all is synced, with what reads give. Where a read fails nothing is claimed.
    pub fn synced(&mut self, alloc: Global, volume: &mut FakeVolume) -> Result<(), Wrong> {
        match read_held(alloc, volume, &self.name) {
            Ok(held) => {
                if self.is_known && held != self.now {
                    return Err(Wrong::Other);
                }
                self.now = held.clone()?;
                self.is_known = true;
                self.synced = held;
                self.is_dirty = false;
                Ok(())
            }
            Err(Wrong::Unread) => Ok(()),
            Err(wrong) => Err(wrong),
        }
    }

    /// What the name holds in a volume: where it was synced, that.
    pub fn read(&self, alloc: Global, volume: &mut FakeVolume) -> Result<Held, Wrong> {
        let held = read_held(alloc, volume, &self.name)?;
        if self.is_dirty || held == self.synced {
            Ok(held)
        } else {
            Err(Wrong::Lost)
        }
    }
}
