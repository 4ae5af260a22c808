//! Calls of a source and of a sink in memory, and of loading a package.

use crate::given::Given;
use crate::reports::say_outcome;
use mi_base::{Bytes, Cause, Kind, Settled, Texts};
use mi_lines::{Call, Stop};
use mi_report::Outcome;
use mi_schema::{LoadError, Package};
use mi_source::{Failed, MemSink, MemSource, PIECE, Sink, Source, SrcFault};
use mi_text::{NoMemory, Text};
use std::alloc::Global;

fn add_all(alloc: Global, source: &mut MemSource, files: &[(Text, Vec<u8>)]) -> Result<(), Stop> {
    for (path, bytes) in files {
        source.add(alloc, path.as_str(), bytes.as_slice())?;
    }
    Ok(())
}

/// The source with the files that are given, whose calls of the given numbers fail.
fn source_of(alloc: Global, given: &Given) -> Result<MemSource, Stop> {
    let fails = Vec::from_slice(alloc, given.volume.fails.as_slice())?;
    let mut source = MemSource::new(alloc, fails)?;
    match add_all(alloc, &mut source, given.files.as_slice()) {
        Ok(()) => Ok(source),
        Err(stop) => {
            drop(source);
            Err(stop)
        }
    }
}

fn push_texts(names: &[Text], call: &mut Call<'_>) {
    call.push(b"names");
    for name in names {
        call.next(name.as_bytes());
    }
    call.push(b"\n");
}

fn say_fault(fault: SrcFault, call: &mut Call<'_>) {
    match fault {
        SrcFault::Failed => call.say_word("Failed"),
        SrcFault::NoMemory => call.no_memory(),
    }
}

fn say_names(answer: &Result<Vec<Text>, SrcFault>, call: &mut Call<'_>) {
    match answer {
        Ok(names) => push_texts(names.as_slice(), call),
        Err(fault) => say_fault(*fault, call),
    }
}

fn say_size(answer: Result<Option<u64>, Failed>, call: &mut Call<'_>) {
    match answer {
        Ok(Some(size)) => call.say_number("Ok", size),
        Ok(None) => call.say_word("none"),
        Err(Failed) => call.say_word("Failed"),
    }
}

fn say_read(answer: &Result<Bytes, SrcFault>, call: &mut Call<'_>) {
    match answer {
        Ok(bytes) => call.say(bytes.as_slice()),
        Err(fault) => say_fault(*fault, call),
    }
}

/// Reads a piece: a path, where it begins, and how long it is.
fn read_piece<S: Source>(source: &mut S, step: &mut Call<'_>) {
    let (path, at) = (step.text(1), step.number(2));
    let want = step.size(3);
    if want > PIECE {
        step.bad_line();
    } else {
        say_read(&source.read(step.alloc(), path, at, want), step);
    }
}

fn make<S: Source>(source: &mut S, step: &mut Call<'_>) {
    let name = step.text(1);
    match step.text(0) {
        "names" => say_names(&source.names(step.alloc(), name), step),
        "size" => say_size(source.size(name), step),
        "read" => read_piece(source, step),
        _ => step.bad_line(),
    }
}

fn make_step<S: Source>(source: &mut S, place: usize, call: &mut Call<'_>) {
    let words = call.words(place);
    let mut step = call.with(words.as_slice());
    make(source, &mut step);
    call.resume(step);
}

fn make_all<S: Source>(source: &mut S, call: &mut Call<'_>) {
    for place in 0..call.len() {
        make_step(source, place, call);
    }
}

/// Makes calls of the source that is given.
pub fn say_source(given: &Given, call: &mut Call<'_>) {
    match &mut source_of(call.alloc(), given) {
        Ok(source) => make_all(source, call),
        Err(stop) => call.stop(*stop),
    }
}

fn write_all(sink: &mut MemSink, call: &mut Call<'_>) {
    for place in 1..call.len() {
        let written = sink.write(call.bytes(place));
        call.say_word(if written.is_ok() { "Ok" } else { "Failed" });
    }
    call.say(sink.bytes());
}

fn sink_of(alloc: Global, room: usize, fails: &[u64]) -> Result<MemSink, Stop> {
    let fails = Vec::from_slice(alloc, fails)?;
    Ok(MemSink::new(alloc, room, fails)?)
}

/// Writes pieces to a sink.
pub fn say_sink(given: &Given, call: &mut Call<'_>) {
    let room = call.size(0);
    match &mut sink_of(call.alloc(), room, given.volume.fails.as_slice()) {
        Ok(sink) => write_all(sink, call),
        Err(stop) => call.stop(*stop),
    }
}

fn refusal(loaded: Result<Package, LoadError>) -> Result<Option<Cause>, NoMemory> {
    match loaded {
        Ok(package) => {
            drop(package);
            Ok(None)
        }
        Err(LoadError::NoMemory) => Err(NoMemory),
        Err(LoadError::Source) => Ok(Some(Cause::SourceFault)),
        Err(LoadError::Table(fault)) => Ok(Some(Cause::Table(fault))),
    }
}

fn load(alloc: Global, source: &mut MemSource, folder: &str) -> Result<Option<Cause>, NoMemory> {
    refusal(Package::load(alloc, source, folder))
}

/// Adds the result line of a refusal.
fn say_refusal(cause: Cause, call: &mut Call<'_>) {
    let outcome = Outcome {
        kind: Kind::Refused(cause),
        settled: Settled::Clean,
        walks: true,
        begun: Texts::new(call.alloc()),
    };
    say_outcome(&outcome, 0, call);
    drop(outcome);
}

fn load_from(source: &mut MemSource, call: &mut Call<'_>) {
    let folder = call.text(0);
    match load(call.alloc(), source, folder) {
        Ok(None) => call.say_word("Ok"),
        Ok(Some(cause)) => say_refusal(cause, call),
        Err(NoMemory) => call.no_memory(),
    }
}

/// Loads a package from the source that is given.
pub fn say_loaded(given: &Given, call: &mut Call<'_>) {
    match &mut source_of(call.alloc(), given) {
        Ok(source) => load_from(source, call),
        Err(stop) => call.stop(*stop),
    }
}
