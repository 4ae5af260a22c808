//! Entries of the machine as they are printed.

use crate::held::is_area;
use crate::ill::Ill;
use mi_base::{
    Client, Entry, FileEntry, Product, RecError, RegValue, Shortcut, ValueKey, Variable, dec_entry,
};
use mi_lines::push_field;
use mi_text::{Guid, Version};
use std::alloc::Global;

/// Adds a field behind a tab.
fn push_next(line: &mut Vec<u8>, field: &[u8]) -> Result<(), Ill> {
    line.push(b'\t')?;
    push_field(line, field)?;
    Ok(())
}

fn push_texts(line: &mut Vec<u8>, fields: &[&str]) -> Result<(), Ill> {
    for field in fields {
        push_next(line, field.as_bytes())?;
    }
    Ok(())
}

fn push_number(alloc: Global, line: &mut Vec<u8>, number: u64) -> Result<(), Ill> {
    let text = format!(in alloc; "{number}")?;
    push_next(line, text.as_bytes())
}

fn version_text(alloc: Global, version: Version) -> Result<String, Ill> {
    let Version {
        major,
        minor,
        build,
        revision,
    } = version;
    Ok(format!(in alloc; "{major}.{minor}.{build}.{revision}")?)
}

fn push_version(alloc: Global, line: &mut Vec<u8>, version: Option<Version>) -> Result<(), Ill> {
    match version {
        None => push_next(line, b"-"),
        Some(version) => push_next(line, version_text(alloc, version)?.as_bytes()),
    }
}

fn languages_text(alloc: Global, languages: &[u16]) -> Result<String, Ill> {
    let mut text = String::new(alloc);
    for language in languages {
        if !text.is_empty() {
            text.push(',')?;
        }
        text.push_str(format!(in alloc; "{language}")?.as_str())?;
    }
    Ok(text)
}

fn push_languages(alloc: Global, line: &mut Vec<u8>, languages: &[u16]) -> Result<(), Ill> {
    if languages.is_empty() {
        return push_next(line, b"-");
    }
    push_next(line, languages_text(alloc, languages)?.as_bytes())
}

fn push_file(alloc: Global, line: &mut Vec<u8>, file: &FileEntry) -> Result<(), Ill> {
    push_texts(line, &["file", file.shown.as_str()])?;
    push_version(alloc, line, file.version)?;
    push_languages(alloc, line, file.languages.as_slice())?;
    push_number(alloc, line, file.created)?;
    push_number(alloc, line, file.modified)?;
    push_number(alloc, line, u64::from(file.attributes))?;
    push_next(line, file.bytes.as_slice())
}

fn hex(alloc: Global, bytes: &[u8]) -> Result<String, Ill> {
    let mut text = String::new(alloc);
    for byte in bytes {
        text.push_str(format!(in alloc; "{byte:02x}")?.as_str())?;
    }
    Ok(text)
}

fn push_binary(alloc: Global, line: &mut Vec<u8>, bytes: &[u8]) -> Result<(), Ill> {
    let digits = hex(alloc, bytes)?;
    push_texts(line, &["binary", digits.as_str()])
}

fn push_held(alloc: Global, line: &mut Vec<u8>, value: &RegValue) -> Result<(), Ill> {
    match value {
        RegValue::Text(text) => push_texts(line, &["text", text.as_str()]),
        RegValue::Expand(text) => push_texts(line, &["expand", text.as_str()]),
        RegValue::Int(number) => {
            push_texts(line, &["int"])?;
            push_number(alloc, line, u64::from(*number))
        }
        RegValue::Binary(bytes) => push_binary(alloc, line, bytes.as_slice()),
        RegValue::List(items) => {
            push_texts(line, &["list"])?;
            for item in items.as_slice() {
                push_next(line, item.as_bytes())?;
            }
            Ok(())
        }
    }
}

fn push_value(
    alloc: Global,
    line: &mut Vec<u8>,
    key: &ValueKey,
    value: &RegValue,
) -> Result<(), Ill> {
    push_texts(line, &["value"])?;
    push_number(alloc, line, u64::from(key.root))?;
    push_texts(line, &[key.key.as_str(), key.shown.as_str()])?;
    push_held(alloc, line, value)
}

fn push_key(alloc: Global, line: &mut Vec<u8>, root: u8, key: &str) -> Result<(), Ill> {
    push_texts(line, &["key"])?;
    push_number(alloc, line, u64::from(root))?;
    push_texts(line, &[key])
}

fn push_shortcut(alloc: Global, line: &mut Vec<u8>, shortcut: &Shortcut) -> Result<(), Ill> {
    push_texts(
        line,
        &[
            "shortcut",
            shortcut.shown.as_str(),
            shortcut.target.as_str(),
        ],
    )?;
    push_texts(
        line,
        &[shortcut.arguments.as_str(), shortcut.description.as_str()],
    )?;
    push_number(alloc, line, u64::from(shortcut.hotkey))?;
    push_texts(line, &[shortcut.icon.as_str()])?;
    let index = shortcut.icon_index;
    push_next(line, format!(in alloc; "{index}")?.as_bytes())?;
    push_number(alloc, line, u64::from(shortcut.show))?;
    push_texts(line, &[shortcut.folder.as_str()])
}

fn push_variable(line: &mut Vec<u8>, variable: &Variable) -> Result<(), Ill> {
    let owner = if variable.system { "system" } else { "user" };
    push_texts(
        line,
        &[
            "variable",
            owner,
            variable.name.as_str(),
            variable.value.as_str(),
        ],
    )
}

fn push_code(alloc: Global, line: &mut Vec<u8>, code: Guid) -> Result<(), Ill> {
    let text = code.print(alloc)?;
    push_next(line, text.as_bytes())
}

fn push_client(alloc: Global, line: &mut Vec<u8>, client: &Client) -> Result<(), Ill> {
    push_texts(line, &["client"])?;
    push_code(alloc, line, client.component)?;
    push_code(alloc, line, client.product)?;
    push_texts(line, &[client.key_path.as_str()])
}

fn push_product(alloc: Global, line: &mut Vec<u8>, product: &Product) -> Result<(), Ill> {
    push_texts(line, &["product"])?;
    push_code(alloc, line, product.code)?;
    push_texts(line, &[product.name.as_str()])?;
    push_version(alloc, line, Some(product.version))?;
    push_number(alloc, line, u64::from(product.language))?;
    for feature in product.features.as_slice() {
        push_next(line, feature.as_bytes())?;
    }
    Ok(())
}

fn push_entry(alloc: Global, line: &mut Vec<u8>, entry: &Entry) -> Result<(), Ill> {
    match entry {
        Entry::File(file) => push_file(alloc, line, file),
        Entry::Folder(path) => push_texts(line, &["folder", path.as_str()]),
        Entry::Value(key, value) => push_value(alloc, line, key, value),
        Entry::Key(root, key) => push_key(alloc, line, *root, key.as_str()),
        Entry::Shortcut(shortcut) => push_shortcut(alloc, line, shortcut),
        Entry::Variable(variable) => push_variable(line, variable),
        Entry::Client(client) => push_client(alloc, line, client),
        Entry::Product(product) => push_product(alloc, line, product),
        Entry::System(name, value) => {
            push_texts(line, &["property", name.as_str(), value.as_str()])
        }
    }
}

fn push_spelled(
    alloc: Global,
    line: &mut Vec<u8>,
    name: &str,
    read: &Result<Entry, RecError>,
) -> Result<(), Ill> {
    match read {
        Ok(entry) => push_entry(alloc, line, entry),
        Err(RecError::Fault(_)) => push_texts(line, &["other", name]),
        Err(RecError::NoMemory) => Err(Ill::NoMemory),
    }
}

fn push_any(alloc: Global, line: &mut Vec<u8>, name: &str, bytes: &[u8]) -> Result<(), Ill> {
    if is_area(name) {
        return push_texts(line, &["area", name]);
    }
    let read = dec_entry(alloc, name, bytes);
    let pushed = push_spelled(alloc, line, name, &read);
    drop(read);
    pushed
}

/// The fields that a name of the volume and its bytes are printed as, each behind a tab.
pub fn line_of(alloc: Global, name: &str, bytes: &[u8]) -> Result<Vec<u8>, Ill> {
    let mut line = Vec::new(alloc);
    push_any(alloc, &mut line, name, bytes)?;
    Ok(line)
}

/// The fields of a step as they are printed, each behind a tab.
pub fn printed(alloc: Global, fields: &[Vec<u8>]) -> Result<Vec<u8>, Ill> {
    let mut line = Vec::new(alloc);
    for field in fields {
        push_next(&mut line, field.as_slice())?;
    }
    Ok(line)
}

/// Whether a line begins with these fields.
pub fn begins(line: &[u8], fields: &[u8]) -> bool {
    match line.strip_prefix(fields) {
        Some(rest) => rest.is_empty() || rest.starts_with(b"\t"),
        None => false,
    }
}
