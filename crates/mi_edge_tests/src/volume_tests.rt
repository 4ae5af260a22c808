//! What is done on a folder as a volume is found there by the next process.

use crate::folder::folder_of;
use crate::step::{Act, Folder, Step, is_done};
use std::fs;
use std::test::Fail;

/// A name of more than one part, whose first part ends within a character.
const LONG: &str = "k/aéééééééééééééééééééééééééééééééééééééééééééééééééééééééééééééééé";

/// The steps of a process on the folder.
type Process = &'static [Step];

/// Bytes come back after a sync, in another process too.
const WRITTEN: [Process; 2] = [
    &[
        Step::At("v/1", Act::Put("")),
        Step::At("d/c:\\a\\", Act::Put("hello")),
        Step::At(LONG, Act::Put("far")),
        Step::At("v/1", Act::Append("ab")),
        Step::At("v/1", Act::Append("cd")),
        Step::At("v/1", Act::Mark(b'x')),
        Step::Sync,
    ],
    &[
        Step::Sync,
        Step::At("v/1", Act::Holds("xbcd")),
        Step::At("d/c:\\a\\", Act::Holds("hello")),
        Step::At(LONG, Act::Holds("far")),
    ],
];

/// Names come in byte order, and other files are passed over.
const LISTED: [Process; 1] = [&[
    Step::At("v/b", Act::Put("1")),
    Step::At("c/a", Act::Put("2")),
    // Upper case is no name.
    Step::Foreign("6A"),
    Step::First(Some("c/a")),
    Step::At("d/", Act::Put("3")),
    Step::At("c/a", Act::Next(Some("d/"))),
    Step::At("v/b", Act::Remove),
    Step::At("v/b", Act::Lacks),
    Step::At("d/", Act::Next(None)),
]];

/// What a process has left without a sync is synced by the next.
const LEFT: [Process; 2] = [
    &[
        Step::Unsynced(false),
        Step::At("v/1", Act::Put("a")),
        Step::Unsynced(true),
    ],
    &[
        Step::Unsynced(false),
        Step::At("v/1", Act::Holds("a")),
        Step::At("v/1", Act::Remove),
        Step::Sync,
        Step::Unsynced(true),
        Step::Close,
        Step::Unsynced(false),
        Step::First(None),
    ],
];

/// The histories of folders, each with the word of its folder.
const HISTORIES: [(&str, &[Process]); 3] = [
    ("written", &WRITTEN),
    ("listed", &LISTED),
    ("left", &LEFT),
];

/// How many of the steps go well, up to the first that doesn't.
fn steps_done(rt: &HostRuntime, folder: &str, volume: &mut Folder, process: Process) -> usize {
    for (number, step) in process.iter().enumerate() {
        if !is_done(rt, folder, volume, *step) {
            return number;
        }
    }
    process.len()
}

/// How many of the steps go well on a folder that is opened for them.
fn steps_of(rt: HostRuntime, folder: &str, process: Process) -> usize {
    match Folder::at(rt, rt.alloc(), folder) {
        Ok(mut volume) => steps_done(&rt, folder, &mut volume, process),
        Err(_) => 0,
    }
}

#[test]
fn what_is_written_is_found_again(rt: HostRuntime) -> Result<(), Fail> {
    for (word, history) in HISTORIES {
        let folder = folder_of(&rt, word)?;
        for process in history {
            assert_eq!(rt;
                steps_of(rt, folder.as_str(), process),
                process.len(),
                "{word}"
            );
        }
        assert!(rt; fs::remove_dir_all(&rt, folder.as_str()).is_ok());
    }
    Ok(())
}
