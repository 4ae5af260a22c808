//! What somebody else has put into a machine folder or in its place is never opened, written or taken away, but for plain
//! files and plain folders; and nobody opens a folder that is open.

use crate::folder::{file_in, folder_of, write_file};
use crate::known::Wrong;
use crate::step::{Act, Folder, Step, is_done, piece_of};
use mi_edges::EdgeFault;
use mi_text::Name;
use mi_volume::{PIECE, Volume};
use std::alloc::{AllocError, Global};
use std::fs;
use std::os::unix::fs::symlink;
use std::test::Fail;

/// What is put at a path.
#[derive(Clone, Copy)]
enum Strange {
    File,
    /// An empty folder.
    Folder,
    /// A link that leads there.
    Link(&'static str),
}

/// Where it is put in the machine folder.
#[derive(Clone, Copy)]
enum Place {
    /// In the place of a short name's file.
    Name,
    /// In the place of the folder in which a long name stands.
    Level,
    /// In the place of the file that says that something may not be synced.
    Unsynced,
}

/// What is put into a machine folder. A file and a folder stand beside that one.
const STRANGE: [(Place, Strange); 6] = [
    (Place::Name, Strange::Link("../file")),
    (Place::Name, Strange::Folder),
    (Place::Level, Strange::Link("../level")),
    (Place::Level, Strange::File),
    (Place::Unsynced, Strange::Link("../file")),
    (Place::Unsynced, Strange::Folder),
];

/// What stands at the path of a machine folder, and whether that is opened to read alone, and by what changes it.
const OPENED: [(Option<Strange>, [bool; 2]); 7] = [
    (None, [false, true]),
    (Some(Strange::Folder), [true, true]),
    (Some(Strange::Link("level")), [true, true]),
    (Some(Strange::File), [false, false]),
    (Some(Strange::Link("file")), [false, false]),
    (Some(Strange::Link("nowhere")), [false, false]),
    (Some(Strange::Link("m")), [false, false]),
];

/// The bytes of a file that isn't the volume's.
const PRECIOUS: &str = "precious";

/// The path of a place in the machine folder.
fn path_of(alloc: Global, place: Place) -> Result<String, AllocError> {
    match place {
        Place::Name => String::from_str(alloc, "73"),
        Place::Level => format!(in alloc; "{}+", "6c".repeat(alloc, 100)?),
        Place::Unsynced => String::from_str(alloc, "unsynced"),
    }
}

/// The name whose file can't be had because of what stands at a place.
fn name_of(alloc: Global, place: Place) -> Result<Name, Wrong> {
    let text = match place {
        Place::Name | Place::Unsynced => String::from_str(alloc, "s")?,
        Place::Level => "l".repeat(alloc, 150)?,
    };
    match Name::of(alloc, text.as_str()) {
        Ok(name) => Ok(name),
        Err(_) => Err(Wrong::NoMemory),
    }
}

fn put_strange(rt: &HostRuntime, path: &str, what: Strange) -> bool {
    match what {
        Strange::File => fs::write(rt, path, PRECIOUS).is_ok(),
        Strange::Folder => fs::create_dir(rt, path).is_ok(),
        Strange::Link(leads) => symlink(rt, leads, path).is_ok(),
    }
}

/// Whether this stands at a path.
fn is_there(rt: &HostRuntime, path: &str, what: Strange) -> bool {
    match fs::symlink_metadata(rt, path) {
        Ok(found) => match what {
            Strange::File => found.is_file(),
            Strange::Folder => found.is_dir(),
            Strange::Link(_) => found.is_symlink(),
        },
        Err(_) => false,
    }
}

/// Whether a file directly in a folder has the bytes of one that isn't the volume's.
fn is_precious(rt: &HostRuntime, folder: &str, file: &str) -> bool {
    let Ok(path) = file_in(rt, folder, file) else {
        return false;
    };
    match fs::read_to_string(rt, path.as_str()) {
        Ok(text) => text.as_str() == PRECIOUS,
        Err(_) => false,
    }
}

/// Makes a folder with a file and a folder that aren't the volume's. In the folder a file stands that would be that of the
/// long name, were the folder its level.
fn is_made(rt: &HostRuntime, room: &str, level: &str, file: &str) -> bool {
    fs::create_dir_all(rt, level).is_ok()
        && write_file(rt, room, "file", PRECIOUS)
        && write_file(rt, level, file, PRECIOUS)
}

/// Puts it at a place behind the opening of the folder, and says whether a call that meets it there fails.
fn is_met(
    rt: &HostRuntime,
    volume: &mut Folder,
    (place, what): (Place, Strange),
    path: &str,
    name: &Name,
) -> bool {
    let alloc = rt.alloc();
    match place {
        Place::Name => put_strange(rt, path, what),
        Place::Level => {
            volume.put(alloc, name, piece_of("x")).is_ok()
                && volume.sync().is_ok()
                && volume.remove(name).is_ok()
                && fs::remove_dir(rt, path).is_ok()
                && put_strange(rt, path, what)
                && volume.sync().is_err()
        }
        Place::Unsynced => {
            put_strange(rt, path, what) && volume.put(alloc, name, piece_of("x")).is_err()
        }
    }
}

/// Whether each call at a name fails, and each failure is counted.
fn are_refused(alloc: Global, volume: &mut Folder, name: &Name) -> bool {
    let before = volume.faults();
    volume.size(name).is_err()
        && volume.read(alloc, name, 0, PIECE).is_err()
        && volume.put(alloc, name, piece_of("x")).is_err()
        && volume.append(alloc, name, piece_of("x")).is_err()
        && volume.mark(name, b'x').is_err()
        && volume.remove(name).is_err()
        && volume.faults() == before.saturating_add(6)
}

/// Whether `a` alone is listed.
fn is_alone(rt: &HostRuntime, machine: &str, volume: &mut Folder) -> bool {
    is_done(rt, machine, volume, Step::First(Some("a")))
        && is_done(rt, machine, volume, Step::At("a", Act::Next(None)))
}

/// Whether a process that has opened the folder has nothing of a name: before the names are listed, or behind that.
fn is_passed_over(rt: &HostRuntime, machine: &str, name: &Name, is_listed: bool) -> bool {
    let alloc = rt.alloc();
    let Ok(mut volume) = Folder::at(*rt, alloc, machine) else {
        return false;
    };
    (!is_listed || is_alone(rt, machine, &mut volume)) && are_refused(alloc, &mut volume, name)
}

/// Whether the folder can't be opened.
fn is_shut(rt: &HostRuntime, machine: &str) -> bool {
    matches!(Folder::at(*rt, rt.alloc(), machine), Err(EdgeFault::Folder))
        && matches!(
            Folder::to_read(*rt, rt.alloc(), machine),
            Err(EdgeFault::Folder)
        )
}

/// Makes a machine with the name `a`, and puts it at a place there; whether all is as it has to be in that process.
fn is_put(
    rt: &HostRuntime,
    machine: &str,
    strange: (Place, Strange),
    path: &str,
    name: &Name,
) -> bool {
    let Ok(mut volume) = Folder::at(*rt, rt.alloc(), machine) else {
        return false;
    };
    is_done(rt, machine, &mut volume, Step::At("a", Act::Put("plain")))
        && is_done(rt, machine, &mut volume, Step::Sync)
        && is_done(rt, machine, &mut volume, Step::Close)
        && is_met(rt, &mut volume, strange, path, name)
}

/// Whether the processes behind that have nothing of it.
fn is_refused(rt: &HostRuntime, machine: &str, place: Place, name: &Name) -> bool {
    match place {
        Place::Unsynced => matches!(Folder::at(*rt, rt.alloc(), machine), Err(EdgeFault::Folder)),
        Place::Name | Place::Level => {
            is_passed_over(rt, machine, name, false) && is_passed_over(rt, machine, name, true)
        }
    }
}

/// Whether what is put at a place in a machine folder stays as it is, and nothing is had there.
fn is_left_alone(rt: &HostRuntime, room: &str, strange: (Place, Strange)) -> Result<bool, Wrong> {
    let alloc = rt.alloc();
    let machine = file_in(rt, room, "m")?;
    let level = file_in(rt, room, "level")?;
    let file = "6c".repeat(alloc, 50)?;
    let path = file_in(rt, machine.as_str(), path_of(alloc, strange.0)?.as_str())?;
    let name = name_of(alloc, strange.0)?;
    Ok(
        is_made(rt, room, level.as_str(), file.as_str())
            && is_put(rt, machine.as_str(), strange, path.as_str(), &name)
            && is_refused(rt, machine.as_str(), strange.0, &name)
            && is_there(rt, path.as_str(), strange.1)
            && is_precious(rt, room, "file")
            && is_precious(rt, level.as_str(), file.as_str()),
    )
}

/// Whether a folder is open, and nobody else can open it meanwhile.
fn is_held(rt: &HostRuntime, machine: &str, volume: Result<Folder, EdgeFault>) -> bool {
    let Ok(volume) = volume else {
        return false;
    };
    let is_shut = is_shut(rt, machine);
    drop(volume);
    is_shut
}

/// Whether a folder is opened to read alone, and by what changes it, where this stands at its path.
fn opened(rt: &HostRuntime, room: &str, what: Option<Strange>) -> Result<[bool; 2], Wrong> {
    let alloc = rt.alloc();
    let machine = file_in(rt, room, "m")?;
    let level = file_in(rt, room, "level")?;
    let machine = machine.as_str();
    let is_made = is_made(rt, room, level.as_str(), "file")
        && what.is_none_or(|what| put_strange(rt, machine, what));
    Ok([
        is_made && is_held(rt, machine, Folder::to_read(*rt, alloc, machine)),
        is_made && is_held(rt, machine, Folder::at(*rt, alloc, machine)),
    ])
}

#[test]
fn what_isnt_plain_is_left_alone(rt: HostRuntime) -> Result<(), Fail> {
    let room = folder_of(&rt, "strange")?;
    for (number, strange) in STRANGE.iter().enumerate() {
        assert_eq!(rt;
            is_left_alone(&rt, room.as_str(), *strange),
            Ok(true),
            "{number}"
        );
        assert!(rt; fs::remove_dir_all(&rt, room.as_str()).is_ok());
    }
    Ok(())
}

#[test]
fn a_folder_alone_is_opened_and_once_alone(rt: HostRuntime) -> Result<(), Fail> {
    let room = folder_of(&rt, "opened")?;
    for (number, (what, is_opened)) in OPENED.iter().enumerate() {
        assert_eq!(rt;
            opened(&rt, room.as_str(), *what),
            Ok(*is_opened),
            "{number}"
        );
        assert!(rt; fs::remove_dir_all(&rt, room.as_str()).is_ok());
    }
    Ok(())
}
