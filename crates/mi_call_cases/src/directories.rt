//! Calls of directories.

ghost use Rattle.std.specs.Prelude.{All, IfOk};
ghost use Rattle.mi_dirs.specs.Views.{IsFolder};

use crate::given::Given;
use crate::properties::start;
use mi_dirs::{DirError, DirFault, Dirs, resolve};
use mi_lines::{Call, Stop};
use mi_props::Props;
use mi_text::{NoMemory, PathError, PathText, Text};
use std::alloc::Global;

fn folder(alloc: Global, text: &str) -> Result<PathText, Stop>
    ensures { IfOk result IsFolder }
{
    match PathText::folder(alloc, text) {
        Ok(path) => Ok(path),
        Err(PathError::NoMemory) => Err(Stop::NoMemory),
        Err(_) => Err(Stop::BadLine),
    }
}

/// The remembered folders, by their keys.
fn folders(alloc: Global, remembered: &[(Text, Text)]) -> Result<Vec<(Text, PathText)>, Stop>
    ensures { IfOk result (λ v. All (λ r. IsFolder r.1) v.items) }
{
    let mut folders = Vec::new(alloc);
    for (key, text) in remembered {
        let key = Text::copy_of(alloc, key.as_str())?;
        let path = folder(alloc, text.as_str())?;
        folders.push((key, path))?;
    }
    Ok(folders)
}

fn say_error(error: DirError, call: &mut Call<'_>) {
    match error {
        DirError::NoMemory => call.no_memory(),
        DirError::Fault(DirFault::Cycle(row)) => call.say_number("Cycle", u64::from(row)),
        DirError::Fault(DirFault::BadPath(row)) => call.say_number("BadPath", u64::from(row)),
    }
}

fn say_set(dirs: &mut Dirs, dir: &str, text: &str, call: &mut Call<'_>) {
    if dirs.target(dir).is_none() {
        call.bad_line();
        return;
    }
    match dirs.set(call.alloc(), dir, text) {
        Ok(()) => call.say_word("Ok"),
        Err(error) => say_error(error, call),
    }
}

fn say_both(target: Option<&PathText>, source: &str, call: &mut Call<'_>) {
    match target {
        Some(target) => call.say_two(target.as_str().as_bytes(), source.as_bytes()),
        None => call.say_word("no row"),
    }
}

/// Adds the target and the source of a directory.
fn say_places(dirs: &Dirs, dir: &str, call: &mut Call<'_>) {
    match &dirs.source(call.alloc(), dir) {
        Ok(Some(source)) => say_both(dirs.target(dir), source.as_str(), call),
        Ok(None) => call.say_word("no row"),
        Err(NoMemory) => call.no_memory(),
    }
}

/// Sets the target of a directory, or gets its target and source.
fn ask(dirs: &mut Dirs, text: &str, call: &mut Call<'_>) {
    match text.split_once('=') {
        Some((dir, path)) => say_set(dirs, dir, path, call),
        None => say_places(dirs, text, call),
    }
}

fn ask_all(dirs: &mut Dirs, call: &mut Call<'_>) {
    for place in 2..call.len() {
        ask(dirs, call.text(place), call);
    }
}

fn say_resolved(resolved: &mut Result<Dirs, DirError>, call: &mut Call<'_>) {
    match resolved {
        Ok(dirs) => ask_all(dirs, call),
        Err(error) => say_error(*error, call),
    }
}

fn is_short(call: &mut Call<'_>) -> bool {
    match call.text(1) {
        "short" => true,
        "long" => false,
        _ => {
            call.bad_line();
            false
        }
    }
}

fn resolve_with(given: &Given, props: &Props, remembered: &[(Text, PathText)], call: &mut Call<'_>)
    requires { All (λ r. IsFolder r.1) remembered.now }
{
    let short = is_short(call);
    let package = call.text(0);
    let rows = given.rows.as_slice();
    let mut resolved = resolve(call.alloc(), rows, props, remembered, package, short);
    say_resolved(&mut resolved, call);
}

fn say_with(given: &Given, props: &Props, call: &mut Call<'_>) {
    match &folders(call.alloc(), given.remembered.as_slice()) {
        Ok(remembered) => resolve_with(given, props, remembered.as_slice(), call),
        Err(stop) => call.stop(*stop),
    }
}

/// Resolves the given rows, and sets and gets the directories that the arguments name.
pub fn say_directories(given: &Given, call: &mut Call<'_>) {
    match &start(call.alloc(), given) {
        Ok(props) => say_with(given, props, call),
        Err(_) => call.bad_line(),
    }
}
