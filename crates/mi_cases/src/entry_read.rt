//! Entries of the machine from the fields of a step.

use crate::ill::Ill;
use mi_base::{
    Bytes, Client, Entry, FileEntry, Languages, PathText, Product, RegValue, Shortcut, Texts,
    ValueKey, Variable, fold,
};
use mi_text::{Guid, Text, Version};
use std::alloc::Global;
use std::str::FromStr;

/// The field at a place.
pub fn field(fields: &[Vec<u8>], place: usize) -> Result<&[u8], Ill> {
    match fields.get(place) {
        Some(field) => Ok(field.as_slice()),
        None => Err(Ill::Bad),
    }
}

/// A field's text.
pub fn text_in(bytes: &[u8]) -> Result<&str, Ill> {
    match str::from_utf8(bytes) {
        Ok(text) => Ok(text),
        Err(_) => Err(Ill::Bad),
    }
}

/// The text of the field at a place.
pub fn text_at(fields: &[Vec<u8>], place: usize) -> Result<&str, Ill> {
    text_in(field(fields, place)?)
}

/// The number that the field at a place spells.
pub fn number_at(fields: &[Vec<u8>], place: usize) -> Result<u64, Ill> {
    match text_at(fields, place)?.parse::<u64>() {
        Ok(number) => Ok(number),
        Err(_) => Err(Ill::Bad),
    }
}

fn owned(alloc: Global, fields: &[Vec<u8>], place: usize) -> Result<Text, Ill> {
    Ok(Text::copy_of(alloc, text_at(fields, place)?)?)
}

fn path_at(alloc: Global, fields: &[Vec<u8>], place: usize) -> Result<PathText, Ill> {
    PathText::of(owned(alloc, fields, place)?).ok_or(Ill::Bad)
}

fn half_at(fields: &[Vec<u8>], place: usize) -> Result<u16, Ill> {
    u16::try_from(number_at(fields, place)?).map_err(|_| Ill::Bad)
}

fn word_at(fields: &[Vec<u8>], place: usize) -> Result<u32, Ill> {
    u32::try_from(number_at(fields, place)?).map_err(|_| Ill::Bad)
}

fn root_at(fields: &[Vec<u8>], place: usize) -> Result<u8, Ill> {
    u8::try_from(number_at(fields, place)?).map_err(|_| Ill::Bad)
}

fn code_at(fields: &[Vec<u8>], place: usize) -> Result<Guid, Ill> {
    Guid::read(text_at(fields, place)?).map_err(|_| Ill::Bad)
}

fn version_in(text: &str) -> Result<Version, Ill> {
    Version::read(text).map_err(|_| Ill::Bad)
}

fn version_at(fields: &[Vec<u8>], place: usize) -> Result<Option<Version>, Ill> {
    match text_at(fields, place)? {
        "-" => Ok(None),
        text => Ok(Some(version_in(text)?)),
    }
}

fn language_in(text: &str) -> Result<u16, Ill> {
    text.parse::<u16>().map_err(|_| Ill::Bad)
}

fn languages_in(alloc: Global, text: &str) -> Result<Languages, Ill> {
    let mut numbers = Vec::new(alloc);
    if text != "-" {
        for part in text.split(',') {
            numbers.push(language_in(part)?)?;
        }
    }
    Ok(Languages::from_vec(numbers))
}

/// A file without versions and languages, with its bytes.
fn file(alloc: Global, shown: PathText, bytes: Bytes) -> FileEntry {
    FileEntry {
        shown,
        version: None,
        languages: Languages::new(alloc),
        created: 0,
        modified: 0,
        attributes: 0,
        bytes,
    }
}

fn fill_file(alloc: Global, file: &mut FileEntry, fields: &[Vec<u8>]) -> Result<(), Ill> {
    file.version = version_at(fields, 2)?;
    file.languages = languages_in(alloc, text_at(fields, 3)?)?;
    file.created = number_at(fields, 4)?;
    file.modified = number_at(fields, 5)?;
    file.attributes = word_at(fields, 6)?;
    file.bytes = Bytes::copy_of(alloc, field(fields, 7)?)?;
    Ok(())
}

/// An entry, where it could be filled.
fn filled(entry: Entry, done: Result<(), Ill>) -> Result<Entry, Ill> {
    match done {
        Ok(()) => Ok(entry),
        Err(ill) => {
            drop(entry);
            Err(ill)
        }
    }
}

fn file_entry(alloc: Global, shown: PathText, fields: &[Vec<u8>]) -> Result<Entry, Ill> {
    let mut file = file(alloc, shown, Bytes::new(alloc));
    let done = fill_file(alloc, &mut file, fields);
    filled(Entry::File(file), done)
}

fn nibble(digit: u8) -> Result<u8, Ill> {
    match digit {
        b'0'..=b'9' => Ok(digit - b'0'),
        b'a'..=b'f' => Ok(digit - b'a' + 10),
        b'A'..=b'F' => Ok(digit - b'A' + 10),
        _ => Err(Ill::Bad),
    }
}

fn byte_of(pair: &[u8]) -> Result<u8, Ill> {
    match pair {
        [high, low] => Ok((nibble(*high)? % 16) * 16 + nibble(*low)? % 16),
        _ => Err(Ill::Bad),
    }
}

fn bytes_in(alloc: Global, digits: &[u8]) -> Result<Bytes, Ill> {
    let mut bytes = Vec::new(alloc);
    for pair in digits.chunks(2) {
        bytes.push(byte_of(pair)?)?;
    }
    Ok(Bytes::from_vec(bytes))
}

fn texts_in(alloc: Global, fields: &[Vec<u8>]) -> Result<Texts, Ill> {
    let mut texts = Vec::new(alloc);
    for field in fields {
        texts.push(Text::copy_of(alloc, text_in(field.as_slice())?)?)?;
    }
    Ok(Texts::from_vec(texts))
}

fn behind(fields: &[Vec<u8>], place: usize) -> &[Vec<u8>] {
    fields.get(place..).unwrap_or(&[])
}

fn reg_value(alloc: Global, fields: &[Vec<u8>]) -> Result<RegValue, Ill> {
    match text_at(fields, 4)? {
        "text" => Ok(RegValue::Text(owned(alloc, fields, 5)?)),
        "expand" => Ok(RegValue::Expand(owned(alloc, fields, 5)?)),
        "int" => Ok(RegValue::Int(word_at(fields, 5)?)),
        "binary" => Ok(RegValue::Binary(bytes_in(alloc, field(fields, 5)?)?)),
        "list" => Ok(RegValue::List(texts_in(alloc, behind(fields, 5))?)),
        _ => Err(Ill::Bad),
    }
}

fn value_key(alloc: Global, fields: &[Vec<u8>]) -> Result<ValueKey, Ill> {
    let root = root_at(fields, 1)?;
    let key = fold(alloc, text_at(fields, 2)?)?;
    let shown = owned(alloc, fields, 3)?;
    Ok(ValueKey { root, key, shown })
}

fn value_entry(alloc: Global, fields: &[Vec<u8>]) -> Result<Entry, Ill> {
    let key = value_key(alloc, fields)?;
    let value = reg_value(alloc, fields)?;
    Ok(Entry::Value(key, value))
}

fn key_entry(alloc: Global, fields: &[Vec<u8>]) -> Result<Entry, Ill> {
    let root = root_at(fields, 1)?;
    Ok(Entry::Key(root, owned(alloc, fields, 2)?))
}

fn is_system(owner: &str) -> Result<bool, Ill> {
    match owner {
        "system" => Ok(true),
        "user" => Ok(false),
        _ => Err(Ill::Bad),
    }
}

fn variable_entry(alloc: Global, fields: &[Vec<u8>]) -> Result<Entry, Ill> {
    let system = is_system(text_at(fields, 1)?)?;
    let name = owned(alloc, fields, 2)?;
    let value = owned(alloc, fields, 3)?;
    Ok(Entry::Variable(Variable {
        system,
        name,
        value,
    }))
}

/// A shortcut that says nothing but its path.
fn shortcut(alloc: Global, shown: PathText) -> Shortcut {
    Shortcut {
        shown,
        target: Text::new(alloc),
        arguments: Text::new(alloc),
        description: Text::new(alloc),
        hotkey: 0,
        icon: Text::new(alloc),
        icon_index: 0,
        show: 0,
        folder: Text::new(alloc),
    }
}

fn index_at(fields: &[Vec<u8>], place: usize) -> Result<i16, Ill> {
    i16::from_str(text_at(fields, place)?).map_err(|_| Ill::Bad)
}

fn fill_shortcut(alloc: Global, shortcut: &mut Shortcut, fields: &[Vec<u8>]) -> Result<(), Ill> {
    shortcut.target = owned(alloc, fields, 2)?;
    shortcut.arguments = owned(alloc, fields, 3)?;
    shortcut.description = owned(alloc, fields, 4)?;
    shortcut.hotkey = half_at(fields, 5)?;
    shortcut.icon = owned(alloc, fields, 6)?;
    shortcut.icon_index = index_at(fields, 7)?;
    shortcut.show = half_at(fields, 8)?;
    shortcut.folder = owned(alloc, fields, 9)?;
    Ok(())
}

fn shortcut_entry(alloc: Global, shown: PathText, fields: &[Vec<u8>]) -> Result<Entry, Ill> {
    let mut shortcut = shortcut(alloc, shown);
    let done = fill_shortcut(alloc, &mut shortcut, fields);
    filled(Entry::Shortcut(shortcut), done)
}

fn client_entry(alloc: Global, fields: &[Vec<u8>]) -> Result<Entry, Ill> {
    let component = code_at(fields, 1)?;
    let product = code_at(fields, 2)?;
    let key_path = owned(alloc, fields, 3)?;
    Ok(Entry::Client(Client {
        component,
        product,
        key_path,
    }))
}

fn product_entry(alloc: Global, fields: &[Vec<u8>]) -> Result<Entry, Ill> {
    let code = code_at(fields, 1)?;
    let version = version_in(text_at(fields, 3)?)?;
    let language = half_at(fields, 4)?;
    let name = owned(alloc, fields, 2)?;
    let features = texts_in(alloc, behind(fields, 5))?;
    Ok(Entry::Product(Product {
        code,
        name,
        version,
        language,
        features,
    }))
}

fn property_entry(alloc: Global, fields: &[Vec<u8>]) -> Result<Entry, Ill> {
    let name = owned(alloc, fields, 1)?;
    let value = owned(alloc, fields, 2)?;
    Ok(Entry::System(name, value))
}

/// Whether there are as many fields as an entry of this kind has.
fn is_whole(kind: &str, count: usize) -> bool {
    match kind {
        "file" => count == 8,
        "folder" => count == 2,
        "key" | "property" => count == 3,
        "value" => count >= 5,
        "variable" | "client" => count == 4,
        "shortcut" => count == 10,
        "product" => count >= 5,
        _ => false,
    }
}

fn entry_of_kind(alloc: Global, kind: &str, fields: &[Vec<u8>]) -> Result<Entry, Ill> {
    match kind {
        "file" => file_entry(alloc, path_at(alloc, fields, 1)?, fields),
        "folder" => Ok(Entry::Folder(path_at(alloc, fields, 1)?)),
        "value" => value_entry(alloc, fields),
        "key" => key_entry(alloc, fields),
        "shortcut" => shortcut_entry(alloc, path_at(alloc, fields, 1)?, fields),
        "variable" => variable_entry(alloc, fields),
        "client" => client_entry(alloc, fields),
        "product" => product_entry(alloc, fields),
        "property" => property_entry(alloc, fields),
        _ => Err(Ill::Bad),
    }
}

/// The entry that is printed as these fields.
pub fn entry_of(alloc: Global, fields: &[Vec<u8>]) -> Result<Entry, Ill> {
    let kind = text_at(fields, 0)?;
    if !is_whole(kind, fields.len()) {
        return Err(Ill::Bad);
    }
    entry_of_kind(alloc, kind, fields)
}
