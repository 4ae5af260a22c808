//! Calls of paths, and of fields that name files or folders.

use crate::texts::say_order;
use mi_lines::{Call, path};
use mi_text::{
    NoMemory, PathError, PathFault, PathText, compare_folded, is_default_dir, is_file_name,
    is_file_path, is_file_pattern, is_folder_path, long_name, short_name, source_part, target_part,
};
use std::alloc::Global;

fn say_path(path: &Result<PathText, PathError>, call: &mut Call<'_>) {
    match path {
        Ok(path) => call.say_word(path.as_str()),
        Err(PathError::NoMemory) => call.no_memory(),
        Err(PathError::Fault(PathFault::NotAbsolute)) => call.say_word("NotAbsolute"),
        Err(PathError::Fault(PathFault::BadPart)) => call.say_word("BadPart"),
        Err(PathError::Fault(PathFault::Length)) => call.say_word("Length"),
    }
}

fn say_folder(call: &mut Call<'_>) {
    let text = call.text(0);
    say_path(&PathText::folder(call.alloc(), text), call);
}

fn below(alloc: Global, folder: &str, part: &str) -> Result<PathText, PathError> {
    let folder = PathText::folder(alloc, folder)?;
    folder.below(alloc, part)
}

fn say_below(call: &mut Call<'_>) {
    let (folder, part) = (call.text(0), call.text(1));
    say_path(&below(call.alloc(), folder, part), call);
}

fn file(alloc: Global, folder: &str, part: &str) -> Result<PathText, PathError> {
    let folder = PathText::folder(alloc, folder)?;
    folder.file(alloc, part)
}

fn say_file(call: &mut Call<'_>) {
    let (folder, part) = (call.text(0), call.text(1));
    say_path(&file(call.alloc(), folder, part), call);
}

fn say_kind(call: &mut Call<'_>) {
    let text = call.text(0);
    call.say_word(if is_folder_path(text) {
        "folder"
    } else if is_file_path(text) {
        "file"
    } else {
        "none"
    });
}

fn parent(alloc: Global, path: &PathText) -> Result<PathText, NoMemory> {
    path.copy(alloc)?.parent(alloc)
}

fn say_parent_of(path: &PathText, call: &mut Call<'_>) {
    match &parent(call.alloc(), path) {
        Ok(parent) => call.say_word(parent.as_str()),
        Err(NoMemory) => call.no_memory(),
    }
}

fn say_parent(call: &mut Call<'_>) {
    if let Some(path) = &path(0, call) {
        say_parent_of(path, call);
    }
}

/// Adds two parts of a field.
fn say_parts(first: &str, second: &str, call: &mut Call<'_>) {
    call.say_two(first.as_bytes(), second.as_bytes());
}

fn call_field(name: &str, text: &str, call: &mut Call<'_>) {
    match name {
        "short-and-long" => say_parts(short_name(text), long_name(text), call),
        "target-and-source" => say_parts(target_part(text), source_part(text), call),
        "is-file-name" => call.say_whether(is_file_name(text)),
        "is-file-pattern" => call.say_whether(is_file_pattern(text)),
        "is-default-dir" => call.say_whether(is_default_dir(text)),
        "compare-folded" => say_order(compare_folded(text, call.text(1)), call),
        _ => call.bad_line(),
    }
}

/// Makes the call of this name.
pub fn call(name: &str, call: &mut Call<'_>) {
    match name {
        "folder" => say_folder(call),
        "below" => say_below(call),
        "file" => say_file(call),
        "parent" => say_parent(call),
        "path" => say_kind(call),
        _ => call_field(name, call.text(0), call),
    }
}
