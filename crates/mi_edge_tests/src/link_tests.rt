//! Files of a machine folder that have other names, too: what these hold stays, whatever is done at the volume's names.

use crate::folder::{file_in, folder_of};
use crate::known::Wrong;
use crate::step::{Act, Folder, Step, is_done};
use std::alloc::{AllocError, Global};
use std::fs;
use std::test::Fail;

/// A name of two parts.
const LONG: &str =
    "lllllllllllllllllllllllllllllllllllllllllllllllllllllllllllllllllllllllllllllllllllllllllllllllllllllonger";

/// What is done at each name, which holds `old`, and what it holds then.
const CHANGES: [(&str, Act, Act); 6] = [
    ("put", Act::Put("new"), Act::Holds("new")),
    ("long", Act::Put("longer"), Act::Holds("longer")),
    ("more", Act::Append("er"), Act::Holds("older")),
    ("mark", Act::Mark(b'O'), Act::Holds("Old")),
    ("gone", Act::Remove, Act::Lacks),
    (LONG, Act::Mark(b'b'), Act::Holds("bld")),
];

/// The path of a name below the machine folder.
fn path_of(alloc: Global, name: &str) -> Result<String, AllocError> {
    let mut path = String::new(alloc);
    for (number, byte) in name.as_bytes().iter().enumerate() {
        if number == 100 {
            path.push_str("+/")?;
        }
        path.push_str(format!(in alloc; "{byte:02x}")?.as_str())?;
    }
    Ok(path)
}

/// Gives the file of a name another name outside the folder.
fn is_linked(rt: &HostRuntime, room: &str, machine: &str, name: &str) -> Result<bool, Wrong> {
    let inside = file_in(rt, machine, path_of(rt.alloc(), name)?.as_str())?;
    let outside = file_in(rt, room, name)?;
    Ok(fs::hard_link(rt, inside.as_str(), outside.as_str()).is_ok())
}

/// Whether the file outside holds what it held.
fn is_old(rt: &HostRuntime, room: &str, name: &str) -> Result<bool, Wrong> {
    let outside = file_in(rt, room, name)?;
    Ok(match fs::read_to_string(rt, outside.as_str()) {
        Ok(text) => text.as_str() == "old",
        Err(_) => false,
    })
}

/// Makes a machine in which each name holds `old`.
fn is_made(rt: &HostRuntime, machine: &str) -> bool {
    let Ok(mut volume) = Folder::at(*rt, rt.alloc(), machine) else {
        return false;
    };
    CHANGES.iter().all(|(name, _, _)| {
        is_done(rt, machine, &mut volume, Step::At(name, Act::Put("old")))
    }) && is_done(rt, machine, &mut volume, Step::Sync)
        && is_done(rt, machine, &mut volume, Step::Close)
}

/// Whether a process makes all changes, behind its listing or before it.
fn are_made(rt: &HostRuntime, machine: &str, is_listed: bool) -> bool {
    let Ok(mut volume) = Folder::at(*rt, rt.alloc(), machine) else {
        return false;
    };
    (!is_listed || is_done(rt, machine, &mut volume, Step::First(Some("gone"))))
        && CHANGES.iter().all(|(name, act, _)| is_done(
            rt,
            machine,
            &mut volume,
            Step::At(name, *act),
        ))
        && are_held(rt, machine, &mut volume)
}

fn are_held(rt: &HostRuntime, machine: &str, volume: &mut Folder) -> bool {
    CHANGES.iter().all(|(name, _, found)| is_done(rt, machine, volume, Step::At(name, *found)))
}

/// Whether the next process, too, finds what was changed, which nobody has synced.
fn are_found(rt: &HostRuntime, machine: &str) -> bool {
    match Folder::at(*rt, rt.alloc(), machine) {
        Ok(mut volume) => are_held(rt, machine, &mut volume),
        Err(_) => false,
    }
}

/// Whether all that stands outside the folder stays as it was, where each file has another name there.
fn is_kept_outside(rt: &HostRuntime, room: &str, is_listed: bool) -> Result<bool, Wrong> {
    let machine = file_in(rt, room, "m")?;
    let machine = machine.as_str();
    if fs::create_dir(rt, room).is_err() || !is_made(rt, machine) {
        return Ok(false);
    }
    let mut are_right = true;
    for (name, _, _) in CHANGES {
        are_right = are_right && is_linked(rt, room, machine, name)?;
    }
    are_right = are_right && are_made(rt, machine, is_listed) && are_found(rt, machine);
    for (name, _, _) in CHANGES {
        are_right = are_right && is_old(rt, room, name)?;
    }
    Ok(are_right)
}

#[test]
fn what_has_other_names_stays_under_these(rt: HostRuntime) -> Result<(), Fail> {
    let room = folder_of(&rt, "linked")?;
    for is_listed in [false, true] {
        assert_eq!(rt; is_kept_outside(&rt, room.as_str(), is_listed), Ok(true));
        assert!(rt; fs::remove_dir_all(&rt, room.as_str()).is_ok());
    }
    Ok(())
}
