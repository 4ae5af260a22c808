//! Versions, languages and heads of files, as they are written in scripts and printed.

use crate::call::Call;
use mi_base::{FileHead, Languages, PathText, Version};
use std::alloc::{AllocError, Global};

/// The version that an argument spells, where `-` stands for none.
pub fn version(place: usize, call: &mut Call<'_>) -> Option<Version> {
    let text = call.text(place);
    let version = Version::read(text).ok();
    if version.is_none() && text != "-" {
        call.bad_line();
    }
    version
}

fn push_language(languages: &mut Languages, text: &str, call: &mut Call<'_>) {
    let Ok(language) = text.parse::<u16>() else {
        call.bad_line();
        return;
    };
    if languages.push(language).is_err() {
        call.no_memory();
    }
}

/// The languages that an argument spells, which are joined by `,`; `-` stands for none.
pub fn languages(place: usize, call: &mut Call<'_>) -> Languages {
    let mut languages = Languages::new(call.alloc());
    let text = call.text(place);
    if text != "-" {
        for language in text.split(',') {
            push_language(&mut languages, language, call);
        }
    }
    languages
}

/// The head that seven arguments from the third on spell: path, version, languages, created, modified, attributes, length.
/// None where the path isn't canonical.
pub fn head(call: &mut Call<'_>) -> Option<FileHead> {
    let shown = PathText::of(call.owned(2))?;
    Some(FileHead {
        shown,
        version: version(3, call),
        languages: languages(4, call),
        created: call.number(5),
        modified: call.number(6),
        attributes: call.small(7),
        length: call.number(8),
    })
}

/// The four numbers of a version, with points between.
pub fn numbers(alloc: Global, version: Version) -> Result<String, AllocError> {
    let Version {
        major,
        minor,
        build,
        revision,
    } = version;
    format!(in alloc; "{major}.{minor}.{build}.{revision}")
}

fn joined(alloc: Global, languages: &[u16]) -> Result<String, AllocError> {
    let mut text = String::new(alloc);
    for language in languages {
        text.push_str(if text.is_empty() { "" } else { "," })?;
        text.push_str(language.to_string(alloc)?.as_str())?;
    }
    Ok(text)
}

/// Adds a version, or `-` where there is none.
pub fn push_version(version: Option<Version>, call: &mut Call<'_>) {
    match version {
        Some(version) => call.push_string(&numbers(call.alloc(), version)),
        None => call.push(b"-"),
    }
}

/// Adds languages, joined by `,`, or `-` where there are none.
pub fn push_languages(languages: &[u16], call: &mut Call<'_>) {
    if languages.is_empty() {
        call.push(b"-");
    } else {
        call.push_string(&joined(call.alloc(), languages));
    }
}

/// Adds the seven fields of a head.
pub fn push_head(head: &FileHead, call: &mut Call<'_>) {
    call.field(head.shown.as_str().as_bytes());
    call.push(b"\t");
    push_version(head.version, call);
    call.push(b"\t");
    push_languages(head.languages.as_slice(), call);
    call.next_number(head.created);
    call.next_number(head.modified);
    call.next_number(u64::from(head.attributes));
    call.next_number(head.length);
}
