//! The program over scripts, whatever carries out their steps.

use crate::comparison::{Verdict, compare};
use crate::step::{fields, is_step, lines, push_line};
use crate::stop::Stop;
use std::alloc::{AllocError, Global};
use std::io::Write;
use std::process::ExitCode;
use std::rt::{Env, Files};
use std::{env, fs, io};

/// What carries out the steps of scripts.
pub trait Carrier {
    /// Carries out a step, by its line as it stands and by its fields, unescaped, of which there is at least one. What it
    /// prints is added to `out`, each line with its line feed.
    fn step(
        &mut self,
        alloc: Global,
        line: &[u8],
        fields: &[Vec<u8>],
        out: &mut Vec<u8>,
    ) -> Result<(), Stop>;
}

fn carry_line<C: Carrier>(
    alloc: Global,
    carrier: &mut C,
    line: &[u8],
    out: &mut Vec<u8>,
) -> Result<(), Stop> {
    if !is_step(line) {
        return Ok(());
    }
    let fields = fields(alloc, line)?;
    carrier.step(alloc, line, fields.as_slice(), out)
}

/// Adds what a bad line ends the program with.
fn push_bad(alloc: Global, out: &mut Vec<u8>, place: usize, line: &[u8]) -> Result<(), AllocError> {
    let number = place.saturating_add(1);
    let head = format!(in alloc; "bad line {number}: ")?;
    out.extend_from_slice(head.as_bytes())?;
    push_line(out, line)
}

/// Carries out a line, and says whether it was a good one.
fn is_carried<C: Carrier>(
    alloc: Global,
    carrier: &mut C,
    place: usize,
    line: &[u8],
    out: &mut Vec<u8>,
) -> Result<bool, AllocError> {
    match carry_line(alloc, carrier, line, out) {
        Ok(()) => Ok(true),
        Err(Stop::NoMemory) => Err(AllocError),
        Err(Stop::BadLine) => {
            push_bad(alloc, out, place, line)?;
            Ok(false)
        }
    }
}

/// Carries out a script up to a bad line, and says whether there was none.
fn carry<C: Carrier>(
    alloc: Global,
    carrier: &mut C,
    script: &[u8],
    out: &mut Vec<u8>,
) -> Result<bool, AllocError> {
    for (place, line) in lines(alloc, script)?.iter().enumerate() {
        if !is_carried(alloc, carrier, place, line, out)? {
            return Ok(false);
        }
    }
    Ok(true)
}

/// What a script says of itself: one line where all is as expected, else what differs; a bad line is told besides.
fn push_verdict(
    alloc: Global,
    told: &mut Vec<u8>,
    name: &str,
    verdict: &Verdict,
) -> Result<(), AllocError> {
    let cases = verdict.cases;
    if verdict.same {
        let line = format!(in alloc; "{name}: {cases} cases\n")?;
        return told.extend_from_slice(line.as_bytes());
    }
    told.extend_from_slice(verdict.text.as_slice())
}

/// Carries out a script, compares, and adds what it says; whether all is as expected and no line was bad.
fn judge<C: Carrier>(
    alloc: Global,
    carrier: &mut C,
    name: &str,
    script: &[u8],
    wanted: &[u8],
    told: &mut Vec<u8>,
) -> Result<bool, AllocError> {
    let mut made = Vec::new(alloc);
    let good = carry(alloc, carrier, script, &mut made)?;
    let verdict = compare(alloc, made.as_slice(), wanted)?;
    push_verdict(alloc, told, name, &verdict)?;
    Ok(good && verdict.same)
}

fn read_file<R: Files + AllocGlobal>(rt: &R, name: &str, ending: &str) -> io::Result<Vec<u8>> {
    let path = format!(in rt.alloc(); "{name}{ending}")?;
    fs::read(rt, path.as_str())
}

fn run_script<R: Files + Print + AllocGlobal, C: Carrier>(
    rt: &R,
    carrier: &mut C,
    name: &str,
) -> io::Result<bool> {
    let script = read_file(rt, name, ".cases")?;
    let wanted = read_file(rt, name, ".expected")?;
    let mut told = Vec::new(rt.alloc());
    let good = judge(
        rt.alloc(),
        carrier,
        name,
        script.as_slice(),
        wanted.as_slice(),
        &mut told,
    )?;
    io::writer(rt).write_all(told.as_slice())?;
    Ok(good)
}

/// Runs a script, and says whether all was as expected; a script that can't be read is told.
fn is_as_expected<R: Files + Print + AllocGlobal, C: Carrier>(
    rt: &R,
    carrier: &mut C,
    name: &str,
) -> io::Result<bool> {
    match run_script(rt, carrier, name) {
        Ok(good) => Ok(good),
        Err(error) => {
            println!(rt; "{name}: {error}")?;
            Ok(false)
        }
    }
}

fn run_all<R: Env + Files + Print + AllocGlobal, C: Carrier>(
    rt: &R,
    carrier: &mut C,
) -> io::Result<bool> {
    let mut good = true;
    for name in env::args(rt)?.skip(1) {
        if !is_as_expected(rt, carrier, name.as_str())? {
            good = false;
        }
    }
    Ok(good)
}

/// The program: for each of its words, the name of a script, it reads NAME.cases and NAME.expected from the folder where it
/// runs, carries out the script, and writes `NAME: N cases` where all is as expected, and else, for each case that differs,
/// its name, the first line that differs and both texts. The status is 0 where all is as expected, else 1.
pub fn run_scripts<R: Env + Files + Print + AllocGlobal, C: Carrier>(
    rt: &R,
    carrier: &mut C,
) -> ExitCode {
    match run_all(rt, carrier) {
        Ok(true) => ExitCode::SUCCESS,
        _ => ExitCode::FAILURE,
    }
}
