//! The program: carries out its words on the machine that the folder `machine` holds.
#![tactic(auto)]

use mi_edges::{EdgeFault, FolderSource, FolderVolume, StdSink};
use mi_engine::{Answer, answer_code, run};
use std::io::ErrorKind;
use std::process::ExitCode;
use std::rt::Clock;
use std::time::{SystemTime, UNIX_EPOCH};
use std::{env, io};

/// The folder, in the current one, that holds the machine.
const MACHINE: &str = "machine";

/// The status where memory was wanted.
const NO_MEMORY: u8 = 40;

/// The status where the arguments can't be read.
const NO_WORDS: u8 = 42;

/// The status where the machine folder can't be made, locked or synced.
const NO_FOLDER: u8 = 43;

// The words behind the program's name.
fn words_of<R: std::rt::Env + AllocGlobal>(rt: &R) -> io::Result<Vec<String>> {
    let mut words = Vec::new(rt.alloc());
    for word in env::args(rt)?.skip(1) {
        words.push(word)?;
    }
    Ok(words)
}

// The seconds since 1970, and 0 where the clock can't be read.
fn seconds(clock: &impl Clock) -> u64 {
    match SystemTime::now(clock) {
        Ok(now) => match now.duration_since(UNIX_EPOCH) {
            Ok(since) => since.as_secs(),
            Err(_) => 0,
        },
        Err(_) => 0,
    }
}

// The status where the words can't be read.
fn words_status(error: &io::Error) -> u8 {
    if matches!(error.kind(), ErrorKind::OutOfMemory) {
        NO_MEMORY
    } else {
        NO_WORDS
    }
}

// The status of an answer: that of the folder where it couldn't be had, since the answer then knows only of a fault.
fn status(refusal: Option<EdgeFault>, answer: &Answer) -> u8 {
    match refusal {
        Some(EdgeFault::NoMemory) => NO_MEMORY,
        Some(EdgeFault::Folder) => NO_FOLDER,
        None => answer_code(answer),
    }
}

// Carries out the words on the machine of a volume; the status of the answer. The answer is wide, so a call drops it.
fn carried_out(rt: HostRuntime, words: &[String], volume: &mut FolderVolume<HostRuntime>) -> u8 {
    let mut source = FolderSource::new(rt);
    let mut sink = StdSink::new(rt);
    let now = seconds(&rt);
    let answer = run(rt.alloc(), words, &mut source, volume, &mut sink, now);
    volume.close();
    let status = status(volume.refusal(), &answer);
    drop(answer);
    status
}

// Carries out the words on the machine of the folder; the status of the answer.
fn status_of(rt: HostRuntime, words: &[String]) -> u8 {
    match FolderVolume::deferred(rt, rt.alloc(), MACHINE) {
        Ok(mut volume) => carried_out(rt, words, &mut volume),
        Err(_) => NO_MEMORY,
    }
}

fn main(rt: HostRuntime) -> ExitCode {
    let status = match words_of(&rt) {
        Ok(words) => status_of(rt, words.as_slice()),
        Err(error) => words_status(&error),
    };
    ExitCode::from(status)
}
