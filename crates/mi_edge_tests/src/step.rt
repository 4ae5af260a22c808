//! Steps on a volume that is a folder.

ghost use Rattle.std.specs.Prelude.{◌≤◌, length};

use crate::folder::{has_file, write_file};
use mi_edges::FolderVolume;
use mi_text::Name;
use mi_volume::{PIECE, VolFault, Volume};
use std::alloc::Global;

/// A folder of the system as a volume.
pub type Folder = FolderVolume<HostRuntime>;

/// What is done, or what has to be found.
#[derive(Clone, Copy)]
pub enum Step {
    /// At this name.
    At(&'static str, Act),
    Sync,
    /// Nothing is changed any more.
    Close,
    /// This is the first name, or there is none.
    First(Option<&'static str>),
    /// A file that is no name of the volume is written beside those that are.
    Foreign(&'static str),
    /// Whether something was written and not synced.
    Unsynced(bool),
}

/// What is done at a name, or what has to be found there.
#[derive(Clone, Copy)]
pub enum Act {
    /// It is given these bytes.
    Put(&'static str),
    /// These bytes are added.
    Append(&'static str),
    /// Its first byte is written anew.
    Mark(u8),
    Remove,
    /// It holds exactly these bytes.
    Holds(&'static str),
    /// It isn't held.
    Lacks,
    /// This is the next name above it, or there is none.
    Next(Option<&'static str>),
}

/// The bytes of a text, as far as a volume takes them at once.
pub fn piece_of(text: &str) -> &[u8]
    ensures { length result.now ≤ PIECE }
{
    let bytes = text.as_bytes();
    &bytes[..bytes.len().min(PIECE)]
}

/// Whether a name holds exactly these bytes, by its size and by reading it.
pub fn holds(alloc: Global, volume: &mut Folder, name: &Name, bytes: &[u8]) -> bool {
    let sized = volume.size(name) == Ok(Some(bytes.len() as u64));
    match volume.read(alloc, name, 0, PIECE) {
        Ok(read) => sized && read.as_slice() == bytes,
        Err(_) => false,
    }
}

/// Whether this is the name that was found, or none was.
fn is_found(found: Result<Option<Name>, VolFault>, wanted: Option<&'static str>) -> bool {
    match (&found, wanted) {
        (Ok(Some(name)), Some(wanted)) => name.as_str() == wanted,
        (Ok(None), None) => true,
        _ => false,
    }
}

/// Does this at a name, and says whether it went well.
fn act_at(alloc: Global, volume: &mut Folder, name: &Name, act: Act) -> bool {
    match act {
        Act::Put(text) => volume.put(alloc, name, piece_of(text)).is_ok(),
        Act::Append(text) => volume.append(alloc, name, piece_of(text)).is_ok(),
        Act::Mark(byte) => volume.mark(name, byte).is_ok(),
        Act::Remove => volume.remove(name).is_ok(),
        Act::Holds(text) => holds(alloc, volume, name, text.as_bytes()),
        Act::Lacks => volume.size(name) == Ok(None),
        Act::Next(wanted) => is_found(volume.next(alloc, Some(name)), wanted),
    }
}

fn is_done_at(alloc: Global, volume: &mut Folder, text: &str, act: Act) -> bool {
    match Name::of(alloc, text) {
        Ok(name) => act_at(alloc, volume, &name, act),
        Err(_) => false,
    }
}

/// Makes a step, and says whether it went well.
pub fn is_done(rt: &HostRuntime, folder: &str, volume: &mut Folder, step: Step) -> bool {
    match step {
        Step::At(name, act) => is_done_at(rt.alloc(), volume, name, act),
        Step::Sync => volume.sync().is_ok(),
        Step::Close => {
            volume.close();
            true
        }
        Step::First(wanted) => is_found(volume.next(rt.alloc(), None), wanted),
        Step::Foreign(file) => write_file(rt, folder, file, "no name of the volume"),
        Step::Unsynced(there) => has_file(rt, folder, "unsynced") == there,
    }
}
