//! The program: prints the machine of a machine folder, or what differs from that of another. It writes to no folder.
#![tactic(auto)]

use mi_edges::{EdgeFault, FolderVolume, StdSink};
use mi_show::{DiffError, ShowError, diff, is_waiting, show};
use mi_source::Sink;
use mi_text::Name;
use mi_volume::{VolFault, Volume};
use std::alloc::Global;
use std::io::ErrorKind;
use std::process::ExitCode;
use std::{env, io};

/// The folder, in the current one, that holds the machine where no other is named.
const MACHINE: &str = "machine";

const WAITING: &str =
    "A run was stopped here: the next command of msi_run puts back what it had changed. Shown is what stands now.\n\n";

const OTHER_WAITING: &str =
    "A run was stopped in the folder that is compared with: what stands there now is compared.\n\n";

const HELP: &str = "msi_show prints the machine of a machine folder, and changes nothing.

  msi_show [FOLDER]                 the whole machine, of the folder machine in the current one where none is named
  msi_show --diff OTHER [FOLDER]    what differs from the machine of the folder OTHER to that of FOLDER, kind by kind:
                                    + what only FOLDER has, - what only OTHER has, and of what both have and is not
                                    the same ~- the line of OTHER, ~+ that of FOLDER; nothing where all is the same
  msi_show --help                   this page

It ends with 0 where all is printed; with 10 where the words aren't these, 17 where the folder can't be read, 18 where a
name in it is no entry of a machine, 27 and 28 where that is so of OTHER, 40 where memory runs out, 41 where the output
can't be written, 42 where the words are no text, and 43 where a folder isn't there or another command has it, as where
FOLDER is OTHER itself.
";

/// What the words ask for.
enum Asked<'a> {
    Help,
    /// The machine of a folder.
    Machine(&'a str),
    /// What differs from the machine of the first folder to that of the second.
    Difference(&'a str, &'a str),
}

/// Why not all was printed.
#[derive(Drop)]
enum Stop {
    NoMemory,
    Words,
    Texts,
    Folder,
    Fault,
    BadImage(Name),
    OtherFault,
    BadOther(Name),
    Output,
}

impl From<EdgeFault> for Stop {
    fn from(fault: EdgeFault) -> Stop {
        match fault {
            EdgeFault::Folder => Stop::Folder,
            EdgeFault::NoMemory => Stop::NoMemory,
        }
    }
}

impl From<ShowError> for Stop {
    fn from(error: ShowError) -> Stop {
        match error {
            ShowError::NoMemory => Stop::NoMemory,
            ShowError::Fault => Stop::Fault,
            ShowError::BadImage(name) => Stop::BadImage(name),
        }
    }
}

impl From<DiffError> for Stop {
    fn from(error: DiffError) -> Stop {
        match error {
            DiffError::NoMemory => Stop::NoMemory,
            DiffError::Fault => Stop::Fault,
            DiffError::BadImage(name) => Stop::BadImage(name),
            DiffError::OtherFault => Stop::OtherFault,
            DiffError::BadOther(name) => Stop::BadOther(name),
        }
    }
}

impl From<VolFault> for Stop {
    fn from(fault: VolFault) -> Stop {
        match fault {
            VolFault::NoMemory => Stop::NoMemory,
            VolFault::Failed => Stop::Fault,
        }
    }
}

impl From<io::Error> for Stop {
    fn from(error: io::Error) -> Stop {
        if matches!(error.kind(), ErrorKind::OutOfMemory) {
            Stop::NoMemory
        } else {
            Stop::Texts
        }
    }
}

// The words behind the program's name.
fn words_of<R: std::rt::Env + AllocGlobal>(rt: &R) -> io::Result<Vec<String>> {
    let mut words = Vec::new(rt.alloc());
    for word in env::args(rt)?.skip(1) {
        words.push(word)?;
    }
    Ok(words)
}

fn is_folder(word: &String) -> bool {
    !word.as_str().starts_with("-")
}

fn is_diff(word: &String) -> bool {
    word.as_str() == "--diff"
}

fn asked_by(words: &[String]) -> Option<Asked<'_>> {
    match words {
        [] => Some(Asked::Machine(MACHINE)),
        [word] if word.as_str() == "--help" => Some(Asked::Help),
        [folder] if is_folder(folder) => Some(Asked::Machine(folder.as_str())),
        [word, other] if is_diff(word) && is_folder(other) => {
            Some(Asked::Difference(other.as_str(), MACHINE))
        }
        [word, other, folder] if is_diff(word) && is_folder(other) && is_folder(folder) => {
            Some(Asked::Difference(other.as_str(), folder.as_str()))
        }
        _ => None,
    }
}

fn print(rt: HostRuntime, text: &[u8]) -> Result<(), Stop> {
    match StdSink::new(rt).write(text) {
        Ok(()) => Ok(()),
        Err(_) => Err(Stop::Output),
    }
}

// Prints the machine of a volume.
fn print_volume<V: Volume>(rt: HostRuntime, volume: &mut V) -> Result<(), Stop> {
    let alloc = rt.alloc();
    let waits = is_waiting(alloc, volume)?;
    let text = show(alloc, volume)?;
    if waits {
        print(rt, WAITING.as_bytes())?;
    }
    print(rt, text.as_slice())
}

fn print_machine(rt: HostRuntime, folder: &str) -> Result<(), Stop> {
    let mut volume = FolderVolume::to_read(rt, rt.alloc(), folder)?;
    let printed = print_volume(rt, &mut volume);
    drop(volume);
    printed
}

// Whether a run was stopped in the folder that is compared with.
fn is_other_waiting<V: Volume>(alloc: Global, other: &mut V) -> Result<bool, Stop> {
    match is_waiting(alloc, other) {
        Ok(waits) => Ok(waits),
        Err(VolFault::NoMemory) => Err(Stop::NoMemory),
        Err(VolFault::Failed) => Err(Stop::OtherFault),
    }
}

// Prints what differs from the machine of the first volume to that of the second.
fn print_changes<B: Volume, V: Volume>(
    rt: HostRuntime,
    before: &mut B,
    volume: &mut V,
) -> Result<(), Stop> {
    let alloc = rt.alloc();
    let before_waits = is_other_waiting(alloc, before)?;
    let waits = is_waiting(alloc, volume)?;
    let text = diff(alloc, volume, before)?;
    if before_waits {
        print(rt, OTHER_WAITING.as_bytes())?;
    }
    if waits {
        print(rt, WAITING.as_bytes())?;
    }
    print(rt, text.as_slice())
}

// Prints what differs from the machine of a volume to that of a folder.
fn print_compared<B: Volume>(rt: HostRuntime, before: &mut B, folder: &str) -> Result<(), Stop> {
    let mut volume = FolderVolume::to_read(rt, rt.alloc(), folder)?;
    let printed = print_changes(rt, before, &mut volume);
    drop(volume);
    printed
}

fn print_difference(rt: HostRuntime, other: &str, folder: &str) -> Result<(), Stop> {
    let mut before = FolderVolume::to_read(rt, rt.alloc(), other)?;
    let printed = print_compared(rt, &mut before, folder);
    drop(before);
    printed
}

fn carry_out(rt: HostRuntime) -> Result<(), Stop> {
    let words = words_of(&rt)?;
    match asked_by(words.as_slice()) {
        Some(Asked::Help) => print(rt, HELP.as_bytes()),
        Some(Asked::Machine(folder)) => print_machine(rt, folder),
        Some(Asked::Difference(other, folder)) => print_difference(rt, other, folder),
        None => Err(Stop::Words),
    }
}

// The line and the status of a stop.
fn words_for(stop: &Stop) -> (&'static str, u8) {
    match stop {
        Stop::Words => (
            "these words can't be read: msi_show --help says which can",
            10,
        ),
        Stop::Fault => ("a file of the machine folder can't be read", 17),
        Stop::BadImage(_) => ("a name in the machine folder is no entry of a machine:", 18),
        Stop::OtherFault => (
            "a file of the machine folder that is compared with can't be read",
            27,
        ),
        Stop::BadOther(_) => (
            "a name in the machine folder that is compared with is no entry of a machine:",
            28,
        ),
        Stop::NoMemory => ("memory ran out", 40),
        Stop::Output => ("the output can't be written", 41),
        Stop::Texts => ("the words are no texts", 42),
        Stop::Folder => (
            "a machine folder isn't there, or another command has it",
            43,
        ),
    }
}

fn report(rt: &HostRuntime, stop: &Stop) -> u8 {
    let (text, status) = words_for(stop);
    let _ = match stop {
        Stop::BadImage(name) | Stop::BadOther(name) => eprintln!(rt;
            "msi_show: {} {}",
            text,
            name.as_str()
        ),
        _ => eprintln!(rt; "msi_show: {}", text),
    };
    status
}

fn main(rt: HostRuntime) -> ExitCode {
    match carry_out(rt) {
        Ok(()) => ExitCode::from(0),
        Err(stop) => ExitCode::from(report(&rt, &stop)),
    }
}
