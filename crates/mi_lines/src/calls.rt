//! Scripts of calls: what is given to the calls of a case, and the calls.

use crate::call::Call;
use crate::program::{Carrier, run_scripts};
use crate::step::{push_line, push_step};
use crate::stop::Stop;
use std::alloc::Global;
use std::process::ExitCode;
use std::rt::{Env, Files};
use std::str;

/// What makes the calls of scripts.
pub trait Caller {
    /// Takes away all that was given.
    fn clear(&mut self);

    /// Gives what the arguments say of this kind.
    fn give(&mut self, kind: &str, call: &mut Call<'_>) -> Result<(), Stop>;

    /// Makes the call of this name.
    fn call(&self, name: &str, call: &mut Call<'_>);
}

// What makes the calls, and the text of the case.
#[derive(Drop)]
struct Calls<C: Drop> {
    text: Vec<u8>,
    caller: C,
}

// Adds a text so many times.
fn push_repeated(text: &mut Vec<u8>, count: &[u8], piece: &[u8]) -> Result<(), Stop> {
    let count = str::from_utf8(count)?.parse::<u32>()?;
    if let [byte] = piece {
        let more = vec![in *text.allocator(); *byte; count as usize]?;
        text.extend_from_slice(more.as_slice())?;
        return Ok(());
    }
    for _ in 0..count {
        text.extend_from_slice(piece)?;
    }
    Ok(())
}

// Makes a text of these texts, each so many times.
fn set_text(text: &mut Vec<u8>, fields: &[Vec<u8>]) -> Result<(), Stop> {
    text.clear();
    for pair in fields.chunks(2) {
        match pair {
            [count, piece] => push_repeated(text, count, piece)?,
            _ => return Err(Stop::BadLine),
        }
    }
    Ok(())
}

// Gives what fields say of a kind.
fn give<C: Caller>(
    alloc: Global,
    caller: &mut C,
    text: &mut Vec<u8>,
    kind: &str,
    fields: &[Vec<u8>],
) -> Result<(), Stop> {
    if kind == "text" {
        return set_text(text, fields);
    }
    let mut call = Call::new(alloc, fields, text.as_slice());
    let given = caller.give(kind, &mut call);
    let good = call.end(&mut Vec::new(alloc));
    match given {
        Ok(()) => good,
        Err(stop) => Err(stop),
    }
}

// Makes the call of a name, and adds its answer.
fn make<C: Caller>(
    alloc: Global,
    caller: &C,
    text: &[u8],
    name: &str,
    fields: &[Vec<u8>],
    out: &mut Vec<u8>,
) -> Result<(), Stop> {
    let mut call = Call::new(alloc, fields, text);
    caller.call(name, &mut call);
    call.end(out)
}

// Begins a case, to which nothing is given.
fn begin<C: Caller>(
    caller: &mut C,
    text: &mut Vec<u8>,
    line: &[u8],
    out: &mut Vec<u8>,
) -> Result<(), Stop> {
    text.clear();
    caller.clear();
    Ok(push_line(out, line)?)
}

// The word of a field, and the fields behind it.
fn split(fields: &[Vec<u8>]) -> Result<(&str, &[Vec<u8>]), Stop> {
    match fields {
        [word, rest @ ..] => Ok((str::from_utf8(word)?, rest)),
        [] => Err(Stop::BadLine),
    }
}

impl<C: Caller + Drop> Carrier for Calls<C> {
    fn step(
        &mut self,
        alloc: Global,
        line: &[u8],
        fields: &[Vec<u8>],
        out: &mut Vec<u8>,
    ) -> Result<(), Stop> {
        let (verb, fields) = split(fields)?;
        if verb == "case" {
            return begin(&mut self.caller, &mut self.text, line, out);
        }
        let (name, fields) = split(fields)?;
        match verb {
            "given" => give(alloc, &mut self.caller, &mut self.text, name, fields),
            "call" => {
                push_step(out, line)?;
                make(alloc, &self.caller, self.text.as_slice(), name, fields, out)
            }
            _ => Err(Stop::BadLine),
        }
    }
}

/// The program over scripts of calls: each step begins a case, gives its calls something, or makes a call.
pub fn run_calls<R: Env + Files + Print + AllocGlobal, C: Caller + Drop>(
    rt: &R,
    caller: C,
) -> ExitCode {
    let text = Vec::new(rt.alloc());
    run_scripts(rt, &mut Calls { text, caller })
}
