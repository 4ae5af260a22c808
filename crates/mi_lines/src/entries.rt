//! Paths, codes, values and entries of a machine, as they are written in scripts.

use crate::call::Call;
use crate::heads::{languages, version};
use crate::volumes::name_of;
use mi_base::{
    Bytes, Client, Entry, FileEntry, Guid, Name, NoMemory, PathText, Product, RegValue, Shortcut,
    Text, Texts, ValueKey, Variable, Version,
};

/// The canonical path that an argument is; where it is none, the call can't be made.
pub fn path(place: usize, call: &mut Call<'_>) -> Option<PathText> {
    let path = PathText::of(call.owned(place));
    if path.is_none() {
        call.bad_line();
    }
    path
}

/// The name of the volume that an argument is; where it is none, the call can't be made.
pub fn name(place: usize, call: &mut Call<'_>) -> Option<Name> {
    let text = call.text(place);
    match name_of(call.alloc(), text) {
        Ok(name) => Some(name),
        Err(stop) => {
            call.stop(stop);
            None
        }
    }
}

/// The code that an argument spells.
pub fn code(place: usize, call: &mut Call<'_>) -> Guid {
    match Guid::read(call.text(place)) {
        Ok(code) => code,
        Err(_) => {
            call.bad_line();
            Guid { number: 0 }
        }
    }
}

/// The root that an argument spells.
pub fn root(place: usize, call: &mut Call<'_>) -> u8 {
    match u8::try_from(call.number(place)) {
        Ok(root) => root,
        Err(_) => {
            call.bad_line();
            0
        }
    }
}

/// Whether an argument is `system`; else it is `user`.
pub fn is_system(place: usize, call: &mut Call<'_>) -> bool {
    match call.text(place) {
        "system" => true,
        "user" => false,
        _ => {
            call.bad_line();
            false
        }
    }
}

/// The bytes of an argument; none where memory ran out.
pub fn bytes(place: usize, call: &mut Call<'_>) -> Bytes {
    let bytes = call.bytes(place);
    match Bytes::copy_of(call.alloc(), bytes) {
        Ok(bytes) => bytes,
        Err(NoMemory) => {
            call.no_memory();
            Bytes::new(call.alloc())
        }
    }
}

fn push_item(items: &mut Texts, place: usize, call: &mut Call<'_>) {
    if items.push(call.owned(place)).is_err() {
        call.no_memory();
    }
}

/// The arguments from a place on, as a list.
fn list(from: usize, call: &mut Call<'_>) -> Texts {
    let mut items = Texts::new(call.alloc());
    for place in from..call.len() {
        push_item(&mut items, place, call);
    }
    items
}

/// The bytes that an argument spells by two digits of sixteen each.
fn binary(place: usize, call: &mut Call<'_>) -> Bytes {
    match hex::decode(call.alloc(), call.bytes(place)) {
        Ok(bytes) => Bytes::from_vec(bytes),
        Err(_) => {
            call.bad_line();
            Bytes::new(call.alloc())
        }
    }
}

/// The value that a kind and what it holds spell: `text T`, `expand T`, `int N`, `bytes BYTES`, `binary HEX` or
/// `list ITEMS..`.
pub fn value(call: &mut Call<'_>) -> Option<RegValue> {
    match call.text(0) {
        "text" => Some(RegValue::Text(call.owned(1))),
        "expand" => Some(RegValue::Expand(call.owned(1))),
        "int" => Some(RegValue::Int(call.small(1))),
        "bytes" => Some(RegValue::Binary(bytes(1, call))),
        "binary" => Some(RegValue::Binary(binary(1, call))),
        "list" => Some(RegValue::List(list(1, call))),
        _ => None,
    }
}

/// The value of this key: `value ROOT KEY NAME VALUE..`.
pub fn value_entry(key: Text, call: &mut Call<'_>) -> Option<Entry> {
    let key = ValueKey {
        root: root(1, call),
        key,
        shown: call.owned(3),
    };
    call.skip(4);
    match value(call) {
        Some(value) => Some(Entry::Value(key, value)),
        None => None,
    }
}

/// The number below 65536 that an argument spells.
fn half(place: usize, call: &mut Call<'_>) -> u16 {
    match u16::try_from(call.number(place)) {
        Ok(number) => number,
        Err(_) => {
            call.bad_line();
            0
        }
    }
}

fn index(place: usize, call: &mut Call<'_>) -> i16 {
    match call.text(place).parse::<i16>() {
        Ok(number) => number,
        Err(_) => {
            call.bad_line();
            0
        }
    }
}

fn file_entry(shown: PathText, call: &mut Call<'_>) -> Entry {
    Entry::File(FileEntry {
        shown,
        version: version(2, call),
        languages: languages(3, call),
        created: call.number(4),
        modified: call.number(5),
        attributes: call.small(6),
        bytes: bytes(7, call),
    })
}

fn shortcut_entry(shown: PathText, call: &mut Call<'_>) -> Entry {
    Entry::Shortcut(Shortcut {
        shown,
        target: call.owned(2),
        arguments: call.owned(3),
        description: call.owned(4),
        hotkey: half(5, call),
        icon: call.owned(6),
        icon_index: index(7, call),
        show: half(8, call),
        folder: call.owned(9),
    })
}

fn product_of(version: Version, call: &mut Call<'_>) -> Entry {
    Entry::Product(Product {
        code: code(1, call),
        name: call.owned(2),
        version,
        language: half(4, call),
        features: list(5, call),
    })
}

fn product_entry(call: &mut Call<'_>) -> Option<Entry> {
    match version(3, call) {
        Some(version) => Some(product_of(version, call)),
        None => None,
    }
}

fn variable_entry(call: &mut Call<'_>) -> Entry {
    Entry::Variable(Variable {
        system: is_system(1, call),
        name: call.owned(2),
        value: call.owned(3),
    })
}

fn client_entry(call: &mut Call<'_>) -> Entry {
    Entry::Client(Client {
        component: code(1, call),
        product: code(2, call),
        key_path: call.owned(3),
    })
}

/// The entry that begins with a path.
fn path_entry(kind: &str, shown: PathText, call: &mut Call<'_>) -> Option<Entry> {
    match kind {
        "file" => Some(file_entry(shown, call)),
        "folder" => Some(Entry::Folder(shown)),
        "shortcut" => Some(shortcut_entry(shown, call)),
        _ => None,
    }
}

fn with_path(kind: &str, call: &mut Call<'_>) -> Option<Entry> {
    match path(1, call) {
        Some(shown) => path_entry(kind, shown, call),
        None => None,
    }
}

/// The entry of a kind: `folder PATH`, `key ROOT KEY`, `value ROOT KEY NAME VALUE..`, `variable system NAME VALUE` or
/// `variable user ..`, `client COMPONENT PRODUCT KEYPATH`, `property NAME VALUE`,
/// `file PATH VERSION LANGUAGES CREATED MODIFIED ATTRIBUTES BYTES`, `product CODE NAME VERSION LANGUAGE FEATURES..`,
/// `shortcut PATH TARGET ARGUMENTS DESCRIPTION HOTKEY ICON ICONINDEX SHOW FOLDER`.
pub fn entry(call: &mut Call<'_>) -> Option<Entry> {
    match call.text(0) {
        "key" => Some(Entry::Key(root(1, call), call.owned(2))),
        "value" => value_entry(call.owned(2), call),
        "variable" => Some(variable_entry(call)),
        "client" => Some(client_entry(call)),
        "product" => product_entry(call),
        "property" => Some(Entry::System(call.owned(1), call.owned(2))),
        kind => with_path(kind, call),
    }
}
