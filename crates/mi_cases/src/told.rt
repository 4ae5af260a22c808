//! What a run tells.

use crate::ill::Ill;
use mi_base::{Cause, Kind, Settled, Texts};
use mi_engine::{Answer, answer_code};
use mi_report::{Outcome, report};
use mi_text::{Bytes, NoMemory};
use std::alloc::Global;

/// Want of room: the bytes that a run needs, and the bytes that are free.
#[derive(Clone, Copy, PartialEq, Eq)]
pub struct Full {
    pub need: u64,
    pub free: u64,
}

/// What a suspended run says of the volume's count of faults: when it began to write, and when it went back.
#[derive(Clone, Copy)]
pub struct PauseCounts {
    pub begun: u64,
    pub again: u64,
}

/// What an answer is, beside its text.
#[derive(Clone, Copy)]
pub struct Marks {
    pub status: u8,
    pub reached: u32,
    pub log_lost: bool,
    /// Whether a device's fault made the answer.
    pub by_device: bool,
    /// The counts of a suspended run.
    pub paused: Option<PauseCounts>,
    pub is_recovered: bool,
    /// The room that it asked for in vain.
    pub full: Option<Full>,
}

/// What a run tells: its answer, the answer's text, and its log.
#[derive(Drop)]
pub struct Told {
    pub marks: Marks,
    pub text: Vec<u8>,
    pub log: Vec<u8>,
}

fn is_by_device(kind: &Kind) -> bool {
    matches!(
        kind,
        Kind::Suspended(_) | Kind::Refused(Cause::SourceFault | Cause::VolumeFault)
    )
}

fn paused_by(kind: &Kind) -> Option<PauseCounts> {
    match kind {
        Kind::Suspended(pause) => Some(PauseCounts {
            begun: pause.begun,
            again: pause.again,
        }),
        _ => None,
    }
}

fn full_of(kind: &Kind) -> Option<Full> {
    match kind {
        Kind::Refused(Cause::Full(need, free)) => Some(Full {
            need: *need,
            free: *free,
        }),
        _ => None,
    }
}

fn marks_of(answer: &Answer) -> Marks {
    Marks {
        status: answer_code(answer),
        reached: answer.reached,
        log_lost: answer.log_lost,
        by_device: is_by_device(&answer.kind),
        paused: paused_by(&answer.kind),
        is_recovered: matches!(answer.kind, Kind::Recovered(_)),
        full: full_of(&answer.kind),
    }
}

/// The result line of an answer, and nothing for a listing.
fn line_of(alloc: Global, kind: Kind) -> Result<Bytes, NoMemory> {
    let outcome = Outcome {
        kind,
        settled: Settled::Clean,
        walks: false,
        begun: Texts::new(alloc),
    };
    let line = report(alloc, &outcome, 0);
    drop(outcome);
    line
}

/// The result line without its first word and its end, or `Listed`.
fn text_of(alloc: Global, line: &[u8]) -> Result<Vec<u8>, Ill> {
    let text = match line.strip_prefix(b"Result: ") {
        Some(text) => text.strip_suffix(b"\n").unwrap_or(text),
        None => b"Listed",
    };
    Ok(Vec::from_slice(alloc, text)?)
}

fn told_of(alloc: Global, marks: Marks, line: &[u8], log: &[u8]) -> Result<Told, Ill> {
    let text = text_of(alloc, line)?;
    let log = Vec::from_slice(alloc, log)?;
    Ok(Told { marks, text, log })
}

/// What a run tells, by its answer and its log.
pub fn told_by(alloc: Global, answer: Answer, log: &[u8]) -> Result<Told, Ill> {
    let marks = marks_of(&answer);
    let line = line_of(alloc, answer.kind);
    match line {
        Ok(line) => told_of(alloc, marks, line.as_slice(), log),
        Err(_) => Err(Ill::NoMemory),
    }
}
