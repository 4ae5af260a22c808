//! Carries out scripts of calls of rollback areas and of scripts of segments, and prints what each call answers.
#![tactic(auto)]

mod answer;
mod areas;
mod arguments;
mod given;
mod ill;
mod scripts;
mod segments;
mod volumes;

use areas::say_area;
use arguments::Arguments;
use given::Given;
use ill::Ill;
use mi_lines::{Carrier, Stop, push_line, push_step, run_scripts};
use scripts::{say_read_script, say_touched, say_written_script};
use std::alloc::Global;
use std::process::ExitCode;
use std::str;

// Makes the call of this name.
fn call(
    alloc: Global,
    given: &Given,
    name: &str,
    args: &Arguments<'_>,
    out: &mut Vec<u8>,
) -> Result<(), Ill> {
    match name {
        "area" => say_area(alloc, given, args, out),
        "write-script" => say_written_script(alloc, args, out),
        "read-script" => say_read_script(alloc, args, out),
        "touched" => say_touched(alloc, args, out),
        _ => Err(Ill::BadLine),
    }
}

// Adds what the call answers that these fields name.
fn make(alloc: Global, given: &Given, fields: &[Vec<u8>], out: &mut Vec<u8>) -> Result<(), Ill> {
    let [name, fields @ ..] = fields else {
        return Err(Ill::BadLine);
    };
    let args = Arguments {
        fields,
        text: given.text.as_slice(),
    };
    call(alloc, given, str::from_utf8(name)?, &args, out)
}

fn give(alloc: Global, given: &mut Given, fields: &[Vec<u8>]) -> Result<(), Ill> {
    let [kind, fields @ ..] = fields else {
        return Err(Ill::BadLine);
    };
    given.give(alloc, str::from_utf8(kind)?, fields)
}

// Carries out a step by its name.
fn carry(
    alloc: Global,
    given: &mut Given,
    line: &[u8],
    verb: &str,
    fields: &[Vec<u8>],
    out: &mut Vec<u8>,
) -> Result<(), Ill> {
    match verb {
        "case" => {
            given.clear();
            push_line(out, line)?;
            Ok(())
        }
        "given" => give(alloc, given, fields),
        "call" => {
            push_step(out, line)?;
            make(alloc, given, fields, out)
        }
        _ => Err(Ill::BadLine),
    }
}

impl Carrier for Given {
    fn step(
        &mut self,
        alloc: Global,
        line: &[u8],
        fields: &[Vec<u8>],
        out: &mut Vec<u8>,
    ) -> Result<(), Stop> {
        let [verb, fields @ ..] = fields else {
            return Err(Stop::BadLine);
        };
        match str::from_utf8(verb) {
            Ok(verb) => Ok(carry(alloc, self, line, verb, fields, out)?),
            Err(_) => Err(Stop::BadLine),
        }
    }
}

fn main(rt: HostRuntime) -> ExitCode {
    let mut given = Given::new(rt.alloc());
    run_scripts(&rt, &mut given)
}
