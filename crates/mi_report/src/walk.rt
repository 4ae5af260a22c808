//! The log of a run that walks over its sequence, made before its first write.

ghost use Rattle.std.specs.Prelude.{◌≡◌, ◌++◌, ◌∷◌, [], List, ℕ, Option, IfOk, OnOk, MatchResult, codes, length, take, true};
ghost use Rattle.std.specs.List.{flat_map};
ghost use Rattle.mi_text.specs.declared.answers.Settled.{Settled as Found};
ghost use Rattle.mi_base.specs.declared.answers.Cause.{Cause as Why};
ghost use Rattle.mi_model.specs.Lines.{action_line, result_line, spaced, place_words};
ghost use Rattle.mi_model.specs.Report.{report_of};
ghost use Rattle.mi_report.specs.WalkLogs.{log_text, line_text, front_at, end_at, ends_from, IsMadeFor, IsRefusalLine, IsWalkKind, IsWalkCause};

use crate::log::{push_action, push_recovered};
use crate::words::push_refused_line;
use mi_base::{Bytes, Cause, Kind, NoMemory, Place, Settled, Text};
use std::alloc::Global;

/// The last line of a log (this project's own).
#[derive(Drop)]
pub enum ResultLine {
    /// A line without fields, or none.
    Fixed(&'static [u8]),
    /// A line that was made before.
    Made(Bytes),
}

impl ResultLine {
    /// The bytes of the line.
    pub fn as_slice(&self) -> &[u8]
        ensures { result.now ≡ line_text self.now }
    {
        match self {
            ResultLine::Fixed(line) => line,
            ResultLine::Made(line) => line.as_slice(),
        }
    }
}

/// A log: these bytes, and behind them this line (this project's own).
#[derive(Drop)]
pub struct Log {
    pub front: Bytes,
    pub line: ResultLine,
}

/// The log of a run that walks over its sequence, for each number of begun actions and for each answer of the walk
/// (this project's own).
#[derive(Drop)]
pub struct WalkLog {
    /// What stands before the result line, with all begun actions.
    text: Vec<u8>,
    /// Where the text ends without this action and those behind it.
    ends: Vec<usize>,
    /// The result line of the walk's refusal, if it has one.
    refused: Bytes,
}

impl WalkLog {
    /// The log of a walk that begins these actions and ends with this refusal, or with none, where settling found this.
    pub fn new(
        alloc: Global,
        settled: Settled,
        begun: &[Text],
        refusal: &Option<Cause>,
    ) -> Result<WalkLog, NoMemory>
        ensures { IfOk result (λ log. IsMadeFor settled begun.now refusal.now log) }
    {
        let mut text = Vec::new(alloc);
        push_recovered(alloc, &mut text, settled)?;
        let mut ends = Vec::new(alloc);
        push_actions(&mut text, &mut ends, begun)?;
        let refused = refusal_line(alloc, refusal)?;
        Ok(WalkLog {
            text,
            ends,
            refused,
        })
    }

    /// The log of an answer, with the first `reached` of the begun actions. It takes no memory.
    pub fn close(self, kind: &Kind, reached: u32) -> Log
        ensures { (settled : Found) (begun : List (List ℕ)) (refusal : Option Why) → IsMadeFor settled begun refusal self → IsWalkKind refusal kind.now → log_text result ≡ report_of kind.now settled true begun reached }
    {
        let WalkLog {
            text,
            ends,
            refused,
        } = self;
        Log {
            front: front_of(text, &ends, reached),
            line: line_of(kind, refused),
        }
    }

    /// The log of a refusal whose line is made only now, or, where memory is wanted, that of want of memory.
    pub fn close_refused(self, alloc: Global, cause: &Cause, reached: u32) -> Result<Log, Log>
        ensures { (settled : Found) (begun : List (List ℕ)) (refusal : Option Why) → IsMadeFor settled begun refusal self → MatchResult result (λ log. log_text log ≡ report_of (Kind.Refused cause.now) settled true begun reached) (λ log. log_text log ≡ report_of Kind.NoMemory settled true begun reached) }
    {
        let WalkLog {
            text,
            ends,
            refused: _,
        } = self;
        let front = front_of(text, &ends, reached);
        match refused_line(alloc, cause) {
            Ok(line) => Ok(Log {
                front,
                line: ResultLine::Made(line),
            }),
            Err(_) => Err(Log {
                front,
                line: ResultLine::Fixed(b"Result: NoMemory\n"),
            }),
        }
    }
}

/// The text with so many actions. It takes no memory.
fn front_of(mut text: Vec<u8>, ends: &[usize], reached: u32) -> Bytes
    ensures { result ≡ take (end_at text.items ends.now reached) text.items }
{
    let end = end_in(&text, ends, reached);
    text.truncate(end);
    Bytes::from_vec(text)
}

/// Where the text ends with so many actions.
fn end_in(text: &[u8], ends: &[usize], reached: u32) -> usize
    ensures { result ≡ end_at text.now ends.now reached }
{
    match ends.get(reached as usize) {
        Some(end) => *end,
        None => text.len(),
    }
}

/// Adds a line for each action, and where the text ends before it.
fn push_actions(text: &mut Vec<u8>, ends: &mut Vec<usize>, names: &[Text]) -> Result<(), NoMemory>
    ensures text { OnOk result (text.new.items ≡ text.old.items ++ flat_map action_line names.now) }
    ensures ends { OnOk result (ends.new.items ≡ ends.old.items ++ ends_from (length text.old.items) names.now) }
{
    for name in names {
        ends.push(text.len())?;
        push_action(text, name.as_str())?;
    }
    Ok(())
}

/// The result line of a refusal, or nothing.
fn refusal_line(alloc: Global, refusal: &Option<Cause>) -> Result<Bytes, NoMemory>
    ensures { IfOk result (λ line. IsRefusalLine refusal.now line) }
{
    match refusal {
        Some(cause) => refused_line(alloc, cause),
        None => Ok(Bytes::new(alloc)),
    }
}

fn refused_line(alloc: Global, cause: &Cause) -> Result<Bytes, NoMemory>
    ensures { IfOk result (λ line. line ≡ result_line (Kind.Refused cause.now)) }
{
    let mut line = Vec::new(alloc);
    push_refused_line(alloc, &mut line, cause)?;
    Ok(Bytes::from_vec(line))
}

/// The result line of an answer of a walk, whose refusal has this line.
fn line_of(kind: &Kind, refused: Bytes) -> ResultLine
    ensures { (refusal : Option Why) → IsRefusalLine refusal refused → IsWalkKind refusal kind.now → line_text result ≡ result_line kind.now }
{
    match kind {
        Kind::Done => ResultLine::Fixed(b"Result: Done\n"),
        Kind::Listed => ResultLine::Made(refused),
        Kind::Recovered(_) => ResultLine::Made(refused),
        Kind::Refused(cause) => line_of_cause(cause, refused),
        Kind::Suspended(pause) => ResultLine::Fixed(pause_line(pause.place)),
        Kind::NoMemory => ResultLine::Fixed(b"Result: NoMemory\n"),
    }
}

/// The result line of a refusal: a device's, or that of the walk.
fn line_of_cause(cause: &Cause, refused: Bytes) -> ResultLine
    ensures { (refusal : Option Why) → IsRefusalLine refusal refused → IsWalkCause refusal cause.now → line_text result ≡ result_line (Kind.Refused cause.now) }
{
    match cause {
        Cause::VolumeFault => ResultLine::Fixed(b"Result: Refused VolumeFault\n"),
        Cause::SourceFault => ResultLine::Fixed(b"Result: Refused SourceFault\n"),
        Cause::BadWords(_) => ResultLine::Made(refused),
        Cause::BadRollback(_) => ResultLine::Made(refused),
        Cause::RecoveryFull(_) => ResultLine::Made(refused),
        Cause::BadImage(_) => ResultLine::Made(refused),
        Cause::Table(_) => ResultLine::Made(refused),
        Cause::UnknownProduct(_) => ResultLine::Made(refused),
        Cause::Launch(_) => ResultLine::Made(refused),
        Cause::ErrorAction(_, _) => ResultLine::Made(refused),
        Cause::Full(_, _) => ResultLine::Made(refused),
    }
}

/// The result line of a suspended run.
fn pause_line(place: Place) -> &'static [u8]
    ensures { result.now ≡ codes "Result:" ++ spaced (codes "Suspended" ∷ place_words place) ++ 10 ∷ [] }
{
    match place {
        Place::InRollback => b"Result: Suspended InRollback\n",
        Place::InCommit => b"Result: Suspended InCommit\n",
    }
}
