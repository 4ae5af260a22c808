//! What a command answers, with its log.

ghost use Rattle.std.specs.Prelude.{◌≡◌};
ghost use Rattle.mi_text.specs.declared.answers.Settled.{Settled as Found};
ghost use Rattle.mi_commands.specs.Replies.{Replies, WantsMemory, IsFront, log_in, log_of};

use mi_base::{Bytes, Kind, Settled, Texts};
use mi_report::{Log, Outcome, ResultLine, report};
use std::alloc::Global;

/// What a command answers, how many actions it has begun, and its log.
#[derive(Drop)]
pub struct Reply {
    pub kind: Kind,
    pub reached: u32,
    pub log: Log,
}

/// An answer without begun actions, with its log, which takes memory. Where it is wanted, the log is a front of it.
pub fn logged(alloc: Global, kind: Kind, settled: Settled, walks: bool) -> Reply
    ensures { Replies walks settled kind result }
{
    let outcome = Outcome {
        kind,
        settled,
        walks,
        begun: Texts::new(alloc),
    };
    match report(alloc, &outcome, 0) {
        Ok(text) => told(kind_of(outcome), text),
        Err(_) => {
            drop(outcome);
            out_of_memory(alloc, walks)
        }
    }
}

/// An answer without begun actions, with this log.
pub fn told(kind: Kind, text: Bytes) -> Reply
    ensures kind { result.kind ≡ kind }
    ensures reached { result.reached ≡ 0 }
    ensures log { log_in result ≡ text }
{
    Reply {
        kind,
        reached: 0,
        log: Log {
            front: text,
            line: ResultLine::Fixed(b""),
        },
    }
}

/// The answer alone.
fn kind_of(outcome: Outcome) -> Kind
    ensures { result ≡ outcome.kind }
{
    let Outcome {
        kind,
        settled: _,
        walks: _,
        begun: _,
    } = outcome;
    kind
}

/// The answer of want of memory, which takes none. Where what settling found may stand before the result line, nothing is
/// written.
pub fn out_of_memory(alloc: Global, walks: bool) -> Reply
    ensures wants { WantsMemory walks result }
    ensures reached { result.reached ≡ 0 }
{
    Reply {
        kind: Kind::NoMemory,
        reached: 0,
        log: Log {
            front: Bytes::new(alloc),
            line: ResultLine::Fixed(memory_line(walks)),
        },
    }
}

/// The result line of want of memory, or nothing where another line may stand before it.
fn memory_line(walks: bool) -> &'static [u8]
    ensures { (found : Found) → IsFront (log_of walks found Kind.NoMemory) result.now }
{
    if walks { b"" } else { b"Result: NoMemory\n" }
}
