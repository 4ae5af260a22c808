//! Calls of the scripts that a segment carries out.

use crate::answer::say_word;
use crate::arguments::Arguments;
use crate::ill::Ill;
use crate::volumes::name_of;
use mi_base::{Bytes, FileHead, Languages, Name, PathText, RecError, RecFault, Text, Version};
use mi_lines::{fields, push_field};
use mi_script::{Rec, Script, read_script, touched, write_script};
use std::alloc::Global;

/// A version, where `-` stands for none.
fn version(text: &str) -> Result<Option<Version>, Ill> {
    if text == "-" {
        return Ok(None);
    }
    match Version::read(text) {
        Ok(version) => Ok(Some(version)),
        Err(_) => Err(Ill::BadLine),
    }
}

/// Languages that are joined by `,`, where `-` stands for none.
fn languages(alloc: Global, text: &str) -> Result<Languages, Ill> {
    let mut languages = Languages::new(alloc);
    if text == "-" {
        return Ok(languages);
    }
    for language in text.split(',') {
        languages.push(language.parse::<u16>()?)?;
    }
    Ok(languages)
}

/// The canonical path that a text spells.
fn path(alloc: Global, text: &str) -> Result<PathText, Ill> {
    match PathText::of(Text::copy_of(alloc, text)?) {
        Some(path) => Ok(path),
        None => Err(Ill::BadLine),
    }
}

/// The head that the fields from the third on spell: path, version, languages, created, modified, attributes, length.
fn head(alloc: Global, step: &Arguments<'_>) -> Result<FileHead, Ill> {
    let version = version(step.text(3)?)?;
    let created = step.number(5)?;
    let modified = step.number(6)?;
    let attributes = step.text(7)?.parse::<u32>()?;
    let length = step.number(8)?;
    let languages = languages(alloc, step.text(4)?)?;
    let shown = path(alloc, step.text(2)?)?;
    Ok(FileHead {
        shown,
        version,
        languages,
        created,
        modified,
        attributes,
        length,
    })
}

fn put(alloc: Global, step: &Arguments<'_>) -> Result<Rec, Ill> {
    let name = name_of(alloc, step.text(1)?)?;
    let bytes = Bytes::copy_of(alloc, step.bytes(2)?)?;
    Ok(Rec::Put(name, bytes))
}

fn drop_name(alloc: Global, step: &Arguments<'_>) -> Result<Rec, Ill> {
    Ok(Rec::Drop(name_of(alloc, step.text(1)?)?))
}

fn copy(alloc: Global, step: &Arguments<'_>) -> Result<Rec, Ill> {
    let length = step.number(11)?;
    let head = head(alloc, step)?;
    let name = name_of(alloc, step.text(1)?)?;
    let file = Text::copy_of(alloc, step.text(9)?)?;
    let path = Text::copy_of(alloc, step.text(10)?)?;
    Ok(Rec::Copy {
        name,
        head,
        file,
        path,
        length,
    })
}

fn dup(alloc: Global, step: &Arguments<'_>) -> Result<Rec, Ill> {
    let head = head(alloc, step)?;
    let name = name_of(alloc, step.text(1)?)?;
    let from = name_of(alloc, step.text(9)?)?;
    Ok(Rec::Dup { name, head, from })
}

/// The record that these words spell.
pub fn rec(alloc: Global, step: &Arguments<'_>) -> Result<Rec, Ill> {
    match step.text(0)? {
        "put" => put(alloc, step),
        "drop" => drop_name(alloc, step),
        "copy" => copy(alloc, step),
        "dup" => dup(alloc, step),
        _ => Err(Ill::BadLine),
    }
}

fn rec_at(alloc: Global, args: &Arguments<'_>, place: usize) -> Result<Rec, Ill> {
    let words = fields(alloc, args.bytes(place)?)?;
    rec(alloc, &args.of(words.as_slice()))
}

fn script(alloc: Global, args: &Arguments<'_>) -> Result<Script, Ill> {
    let mut script = Script::new(alloc);
    for place in 0..args.len() {
        script.push(rec_at(alloc, args, place)?)?;
    }
    Ok(script)
}

fn say_form(alloc: Global, script: &Script, out: &mut Vec<u8>) -> Result<(), Ill> {
    let bytes = write_script(alloc, script)?;
    push_field(out, bytes.as_slice())?;
    out.push(b'\n')?;
    Ok(())
}

/// The written form of the script of these records.
pub fn say_written_script(
    alloc: Global,
    args: &Arguments<'_>,
    out: &mut Vec<u8>,
) -> Result<(), Ill> {
    let script = script(alloc, args)?;
    let said = say_form(alloc, &script, out);
    drop(script);
    said
}

fn push_names(alloc: Global, script: &Script, out: &mut Vec<u8>) -> Result<(), Ill> {
    for name in touched(alloc, script)? {
        push_field(out, name.as_bytes())?;
        out.push(b'\n')?;
    }
    Ok(())
}

/// The names that the script of these records changes.
pub fn say_touched(alloc: Global, args: &Arguments<'_>, out: &mut Vec<u8>) -> Result<(), Ill> {
    let script = script(alloc, args)?;
    let said = push_names(alloc, &script, out);
    drop(script);
    said
}

fn push_languages(languages: &[u16], out: &mut Vec<u8>) -> Result<(), Ill> {
    let alloc = *out.allocator();
    if languages.is_empty() {
        out.push(b'-')?;
    }
    for (place, language) in languages.iter().enumerate() {
        if place > 0 {
            out.push(b',')?;
        }
        out.extend_from_slice(language.to_string(alloc)?.as_bytes())?;
    }
    Ok(())
}

fn push_version(head: &FileHead, out: &mut Vec<u8>) -> Result<(), Ill> {
    let Some(version) = head.version else {
        out.push(b'-')?;
        return Ok(());
    };
    let alloc = *out.allocator();
    let (major, minor) = (version.major, version.minor);
    let (build, revision) = (version.build, version.revision);
    let text = format!(in alloc; "{major}.{minor}.{build}.{revision}")?;
    out.extend_from_slice(text.as_bytes())?;
    Ok(())
}

/// Adds the fields of a head.
fn push_head(head: &FileHead, out: &mut Vec<u8>) -> Result<(), Ill> {
    let alloc = *out.allocator();
    push_field(out, head.shown.as_str().as_bytes())?;
    out.push(b'\t')?;
    push_version(head, out)?;
    out.push(b'\t')?;
    push_languages(head.languages.as_slice(), out)?;
    let (created, modified) = (head.created, head.modified);
    let (attributes, length) = (head.attributes, head.length);
    let numbers = format!(in alloc; "\t{created}\t{modified}\t{attributes}\t{length}")?;
    out.extend_from_slice(numbers.as_bytes())?;
    Ok(())
}

fn say_fault(fault: RecFault, out: &mut Vec<u8>) -> Result<(), Ill> {
    say_word(
        out,
        match fault {
            RecFault::Short => "Short",
            RecFault::Extra => "Extra",
            RecFault::Field => "Field",
        },
    )
}

fn say_error(error: RecError, out: &mut Vec<u8>) -> Result<(), Ill> {
    match error {
        RecError::NoMemory => Err(Ill::NoMemory),
        RecError::Fault(fault) => say_fault(fault, out),
    }
}

/// Adds a field behind a tab.
fn push_next(out: &mut Vec<u8>, bytes: &[u8]) -> Result<(), Ill> {
    out.push(b'\t')?;
    push_field(out, bytes)?;
    Ok(())
}

/// Adds a kind and a name.
fn push_kind(out: &mut Vec<u8>, kind: &[u8], name: &Name) -> Result<(), Ill> {
    out.extend_from_slice(kind)?;
    push_next(out, name.as_bytes())
}

fn push_copy(
    head: &FileHead,
    file: &Text,
    path: &Text,
    length: u64,
    out: &mut Vec<u8>,
) -> Result<(), Ill> {
    let alloc = *out.allocator();
    out.push(b'\t')?;
    push_head(head, out)?;
    push_next(out, file.as_bytes())?;
    push_next(out, path.as_bytes())?;
    push_next(out, length.to_string(alloc)?.as_bytes())
}

fn push_dup(head: &FileHead, from: &Name, out: &mut Vec<u8>) -> Result<(), Ill> {
    out.push(b'\t')?;
    push_head(head, out)?;
    push_next(out, from.as_bytes())
}

/// Adds what a record has behind its name.
fn push_rest(rec: &Rec, out: &mut Vec<u8>) -> Result<(), Ill> {
    match rec {
        Rec::Put(_, bytes) => push_next(out, bytes.as_slice()),
        Rec::Drop(_) => Ok(()),
        Rec::Copy {
            name: _,
            head,
            file,
            path,
            length,
        } => push_copy(head, file, path, *length, out),
        Rec::Dup {
            name: _,
            head,
            from,
        } => push_dup(head, from, out),
    }
}

/// Adds a line for each record: its kind, its name, and what it has behind it.
fn say_recs(recs: &[Rec], out: &mut Vec<u8>) -> Result<(), Ill> {
    for rec in recs {
        let kind: &[u8] = match rec {
            Rec::Put(_, _) => b"put",
            Rec::Drop(_) => b"drop",
            Rec::Copy { .. } => b"copy",
            Rec::Dup { .. } => b"dup",
        };
        push_kind(out, kind, rec.name())?;
        push_rest(rec, out)?;
        out.push(b'\n')?;
    }
    Ok(())
}

/// The records of a script that is read, or its first fault.
pub fn say_read_script(alloc: Global, args: &Arguments<'_>, out: &mut Vec<u8>) -> Result<(), Ill> {
    match &read_script(alloc, args.bytes(0)?) {
        Ok(script) => say_recs(script.recs(), out),
        Err(error) => say_error(*error, out),
    }
}
