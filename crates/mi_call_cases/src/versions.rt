//! Calls of the rules on versions of files.

use mi_base::{FileHead, PathText};
use mi_fver::{Mode, NewFile, replaces};
use mi_lines::{Call, languages, version};
use std::alloc::{AllocError, Global};

fn letter(set: bool, letter: &'static str) -> &'static str {
    if set { letter } else { "" }
}

fn letters(alloc: Global, mode: Mode) -> Result<String, AllocError> {
    let mut letters = String::new(alloc);
    for letter in [
        letter(mode.p, "p"),
        letter(mode.o, "o"),
        letter(mode.e, "e"),
        letter(mode.d, "d"),
        letter(mode.a, "a"),
        letter(mode.u, "u"),
        letter(mode.m, "m"),
        letter(mode.s, "s"),
        letter(mode.v, "v"),
    ] {
        letters.push_str(letter)?;
    }
    Ok(letters)
}

/// Adds the letters that are set.
pub fn say_mode(call: &mut Call<'_>) {
    match Mode::read(call.text(0)) {
        Ok(mode) => call.say_string(&letters(call.alloc(), mode)),
        Err(_) => call.say_word("BadMode"),
    }
}

/// The file that is there, which the arguments spell.
fn old_file(call: &mut Call<'_>) -> Option<FileHead> {
    let shown = PathText::of(call.copy("C:\\"))?;
    Some(FileHead {
        shown,
        version: version(5, call),
        languages: languages(6, call),
        created: call.number(7),
        modified: call.number(8),
        attributes: 0,
        length: 0,
    })
}

/// A file on the machine, one that comes, and what else decides.
#[derive(Clone, Copy)]
struct Files<'a> {
    old: Option<&'a FileHead>,
    new: &'a NewFile,
    language: u16,
    same_hash: bool,
}

fn say_answer(letters: &str, files: &Files<'_>, call: &mut Call<'_>) {
    let Ok(mode) = Mode::read(letters) else {
        call.bad_line();
        return;
    };
    let answer = replaces(mode, files.old, files.new, files.language, files.same_hash);
    call.push(if answer { b"yes" } else { b"no" });
}

/// Adds a word for each of the letters, which are joined by `,`.
fn say_letters(files: &Files<'_>, call: &mut Call<'_>) {
    let mut between: &[u8] = b"";
    for letters in call.text(0).split(',') {
        call.push(between);
        say_answer(letters, files, call);
        between = b"\t";
    }
    call.push(b"\n");
}

fn same_hash(call: &mut Call<'_>) -> bool {
    match call.text(2) {
        "same" => true,
        "other" => false,
        _ => {
            call.bad_line();
            false
        }
    }
}

fn language(call: &mut Call<'_>) -> u16 {
    match call.text(1).parse::<u16>() {
        Ok(language) => language,
        Err(_) => {
            call.bad_line();
            0
        }
    }
}

fn say_beside(old: Option<&FileHead>, call: &mut Call<'_>) {
    let new = NewFile {
        version: version(3, call),
        languages: languages(4, call),
    };
    let (language, same_hash) = (language(call), same_hash(call));
    let files = Files {
        old,
        new: &new,
        language,
        same_hash,
    };
    say_letters(&files, call);
}

/// Adds whether a file is written over one that is there.
pub fn say_replaces(call: &mut Call<'_>) {
    if call.len() == 5 {
        say_beside(None, call);
        return;
    }
    match &old_file(call) {
        Some(old) => say_beside(Some(old), call),
        None => call.bad_line(),
    }
}
