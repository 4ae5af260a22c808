//! The entry that a name and a record spell.

ghost use Rattle.std.specs.Int.{w16, cast_signed};
ghost use Rattle.std.specs.Prelude.{◌≡◌, ◌≤◌, ◌<◌, ◌+◌, ◌++◌, OnOk, true, ◌^◌, ◌&&◌, ℕ, List, None, Some, IfOk, length, take, drop, min, nat_le, IsTrue, option_map, not, ◌==◌, if◌then◌else◌};
ghost use Rattle.std.specs.Option.{option_copied};
ghost use Rattle.mi_text.specs.Path.{is_file_path, is_path};
ghost use Rattle.mi_base.specs.declared.entry.Entry.TheVariants.{Shortcut as ShortcutEntry};
ghost use Rattle.mi_base.specs.Limits.{is_folded};
ghost use Rattle.mi_base.specs.Reading.{Gives};
ghost use Rattle.mi_base.specs.Started.{shortcut_started};
ghost use Rattle.mi_base.specs.Records.{drive_shown, is_inner_folder, names_file, names_folder, code_in, is_root, names_key, names_value, names_variable, shown_file_at, head_at, with_bytes, file_of, folder_of, key_of, value_in, value_of, number_of, are_digits, shortcut_behind, client_in, shortcut_of, variable_of, client_of, product_in, product_of, system_of, kind_of, entry_in, entry_of, path_in, head_in, file_head_of};

use crate::entry::{Client, Entry, FileEntry, FileHead, Product, Shortcut, ValueKey, Variable};
use crate::limits::{is_folded, is_key, is_system_name, is_value_name, is_variable_name, utf8};
use crate::reading::{
    Order, folds_to, four_numbers_at, rising_numbers_at, shown_at, str_at, texts_at, u16_at,
    u32_at, u64_at, value_at, version_at,
};
use crate::rec_error::{RecError, RecFault};
use mi_text::{Bytes, Guid, NoMemory, PathText, Text, is_file_path, is_folder_path};
use std::alloc::Global;

const FIELD: RecError = RecError::Fault(RecFault::Field);

const EXTRA: RecError = RecError::Fault(RecFault::Extra);

// ---- names

// A folded path with its drive as paths show it.
fn drive_shown(alloc: Global, path: &str) -> Result<Text, NoMemory>
    ensures { IfOk result (λ t. t ≡ drive_shown path.now) }
{
    match path.strip_prefix("c") {
        Some(rest) => {
            let mut shown = Text::copy_of(alloc, "C")?;
            shown.push_str(rest)?;
            Ok(shown)
        }
        None => Ok(Text::new(alloc)),
    }
}

fn is_inner_folder(path: &str) -> bool
    ensures { result ≡ is_inner_folder path.now }
{
    is_folder_path(path) && path.len() != 3
}

// The path that a text spells.
fn path_of(alloc: Global, text: &str) -> Result<PathText, NoMemory>
    requires { is_path text.now ≡ true }
    ensures { IfOk result (λ p. p ≡ text.now) }
{
    match PathText::of(Text::copy_of(alloc, text)?) {
        Some(path) => Ok(path),
        None => unreachable!(),
    }
}

#[tactic(auto, unfolding(crate::specs::Records::names_file))]
fn names_file(alloc: Global, path: &[u8]) -> Result<bool, NoMemory>
    ensures { IfOk result (λ b. b ≡ names_file path.now) }
{
    let Some(path) = utf8(path) else {
        return Ok(false);
    };
    if !is_folded(path.as_bytes()) {
        return Ok(false);
    }
    let shown = drive_shown(alloc, path)?;
    Ok(is_file_path(shown.as_str()))
}

#[tactic(auto, unfolding(crate::specs::Records::names_folder))]
fn names_folder(alloc: Global, path: &[u8]) -> Result<bool, NoMemory>
    ensures { IfOk result (λ b. b ≡ names_folder path.now) }
{
    let Some(path) = utf8(path) else {
        return Ok(false);
    };
    if !is_folded(path.as_bytes()) {
        return Ok(false);
    }
    let shown = drive_shown(alloc, path)?;
    Ok(is_inner_folder(shown.as_str()))
}

// The code that a text is, as it is printed.
#[tactic(auto, unfolding(crate::specs::Records::code_in), using(crate::proofs::CodeLemmas::no_code))]
fn code_in(alloc: Global, text: &[u8]) -> Result<Option<Guid>, NoMemory>
    ensures { IfOk result (λ g. option_map (λ c. c.number) g ≡ code_in text.now) }
{
    let Some(text) = utf8(text) else {
        return Ok(None);
    };
    let Ok(code) = Guid::read(text) else {
        return Ok(None);
    };
    if code.print(alloc)?.as_str() != text {
        return Ok(None);
    }
    Ok(Some(code))
}

const fn is_root(root: u8) -> bool
    ensures { result ≡ is_root root }
{
    48 <= root && root <= 51
}

fn names_key(root: u8, key: &[u8]) -> bool
    ensures { result ≡ names_key root key.now }
{
    is_root(root) && utf8(key).is_some() && is_folded(key) && is_key(key)
}

fn names_value(root: u8, key: &[u8], name: &[u8]) -> bool
    ensures { result ≡ names_value root key.now name.now }
{
    names_key(root, key) && utf8(name).is_some() && is_folded(name) && is_value_name(name)
}

fn names_variable(owner: u8, name: &[u8]) -> bool
    ensures { result ≡ names_variable owner name.now }
{
    (owner == b'0' || owner == b'1')
        && utf8(name).is_some()
        && is_folded(name)
        && is_variable_name(name)
}

// ---- records

// At most so many bytes, and what stands behind them.
fn front_of(bytes: &[u8], len: usize) -> (&[u8], &[u8])
    ensures front { result.0.now ≡ take len bytes.now }
    ensures rest { result.1.now ≡ drop len bytes.now }
{
    bytes.split_at(bytes.len().min(len))
}

// The shown path of a file, where the record goes on for so many bytes behind these.
#[tactic(auto, unfolding(crate::specs::Records::shown_file_at))]
fn shown_file_at<'a>(
    more: u64,
    path: &[u8],
    bytes: &'a [u8],
) -> Result<(&'a str, &'a [u8]), RecError>
    requires { length bytes.now + more < 2 ^ 64 }
    ensures gives { Gives (λ x. (x.0.now, x.1.now)) result (shown_file_at more path.now bytes.now) }
    ensures file { IfOk result (λ x. is_file_path x.0.now ≡ true) }
{
    let (len, rest) = u32_at(bytes)?;
    if rest.len() as u64 + more < u64::from(len) {
        return Err(RecError::Fault(RecFault::Short));
    }
    let (text, rest) = front_of(rest, len as usize);
    let Some(text) = utf8(text) else {
        return Err(FIELD);
    };
    if !folds_to(text.as_bytes(), path) || !is_file_path(text) {
        return Err(FIELD);
    }
    Ok((text, rest))
}

// The head of a file, and what stands behind it of these bytes.
#[tactic(auto, unfolding(crate::specs::Records::head_at, mi_text::specs::Path::is_path))]
fn head_at<'a>(
    alloc: Global,
    more: u64,
    path: &[u8],
    bytes: &'a [u8],
) -> Result<(FileHead, &'a [u8]), RecError>
    requires { length bytes.now + more < 2 ^ 64 }
    ensures { Gives (λ x. (x.0, x.1.now)) result (head_at more path.now bytes.now) }
{
    let (shown, rest) = shown_file_at(more, path, bytes)?;
    let (version, rest) = version_at(rest)?;
    let (languages, rest) = rising_numbers_at(alloc, rest)?;
    let (created, rest) = u64_at(rest)?;
    let (modified, rest) = u64_at(rest)?;
    let (attributes, rest) = u32_at(rest)?;
    if attributes >= 8 {
        return Err(FIELD);
    }
    let length = rest.len() as u64 + more;
    let head = FileHead {
        shown: path_of(alloc, shown)?,
        version,
        languages,
        created,
        modified,
        attributes,
        length,
    };
    Ok((head, rest))
}

fn with_bytes(head: FileHead, bytes: Bytes) -> FileEntry
    ensures { result ≡ with_bytes head bytes }
{
    FileEntry {
        shown: head.shown,
        version: head.version,
        languages: head.languages,
        created: head.created,
        modified: head.modified,
        attributes: head.attributes,
        bytes,
    }
}

#[tactic(auto, unfolding(crate::specs::Records::file_of))]
fn file_of(alloc: Global, path: &[u8], bytes: &[u8]) -> Result<Entry, RecError>
    ensures { Gives (λ e. e) result (file_of path.now bytes.now) }
{
    if !names_file(alloc, path)? {
        return Err(FIELD);
    }
    let (head, rest) = head_at(alloc, 0, path, bytes)?;
    match Bytes::copy_of(alloc, rest) {
        Ok(bytes) => Ok(Entry::File(with_bytes(head, bytes))),
        Err(_) => {
            drop(head);
            Err(RecError::NoMemory)
        }
    }
}

#[tactic(auto, unfolding(crate::specs::Records::folder_of, mi_text::specs::Path::is_path))]
fn folder_of(alloc: Global, path: &[u8], bytes: &[u8]) -> Result<Entry, RecError>
    ensures { Gives (λ e. e) result (folder_of path.now bytes.now) }
{
    if !names_folder(alloc, path)? {
        return Err(FIELD);
    }
    let (shown, rest) = shown_at(path, bytes)?;
    if !is_inner_folder(shown) {
        return Err(FIELD);
    }
    if !rest.is_empty() {
        return Err(EXTRA);
    }
    Ok(Entry::Folder(path_of(alloc, shown)?))
}

#[tactic(auto, unfolding(crate::specs::Records::key_of))]
fn key_of(alloc: Global, name: &[u8], bytes: &[u8]) -> Result<Entry, RecError>
    ensures { Gives (λ e. e) result (key_of name.now bytes.now) }
{
    match name {
        [] => Err(FIELD),
        [root, key @ ..] => {
            if !names_key(*root, key) {
                return Err(FIELD);
            }
            let (shown, rest) = shown_at(key, bytes)?;
            if !rest.is_empty() {
                return Err(EXTRA);
            }
            Ok(Entry::Key(*root - b'0', Text::copy_of(alloc, shown)?))
        }
    }
}

// Copies of two texts.
fn two_copies(alloc: Global, one: &str, other: &str) -> Result<(Text, Text), NoMemory>
    ensures { IfOk result (λ x. (x.0 ≡ one.now) × (x.1 ≡ other.now)) }
{
    let copy = Text::copy_of(alloc, one)?;
    match Text::copy_of(alloc, other) {
        Ok(second) => Ok((copy, second)),
        Err(error) => {
            drop(copy);
            Err(error)
        }
    }
}

fn value_in(
    alloc: Global,
    root: u8,
    key: &[u8],
    name: &[u8],
    bytes: &[u8],
) -> Result<Entry, RecError>
    ensures { Gives (λ e. e) result (value_in root key.now name.now bytes.now) }
{
    let Some(key_text) = utf8(key) else {
        return Err(FIELD);
    };
    if !names_value(root, key, name) {
        return Err(FIELD);
    }
    let (shown, rest) = shown_at(name, bytes)?;
    let (value, rest) = value_at(alloc, rest)?;
    if !rest.is_empty() {
        drop(value);
        return Err(EXTRA);
    }
    let root = root - b'0';
    match two_copies(alloc, key_text, shown) {
        Ok((key, shown)) => Ok(Entry::Value(ValueKey { root, key, shown }, value)),
        Err(_) => {
            drop(value);
            Err(RecError::NoMemory)
        }
    }
}

const fn are_digits(a: u8, b: u8, c: u8, d: u8) -> bool
    ensures { result ≡ are_digits a b c d }
{
    a.is_ascii_digit() && b.is_ascii_digit() && c.is_ascii_digit() && d.is_ascii_digit()
}

const fn number_of(a: u8, b: u8, c: u8, d: u8) -> usize
    requires { IsTrue (are_digits a b c d) }
    ensures { result ≡ number_of a b c d }
{
    (a - b'0') as usize * 1000
        + (b - b'0') as usize * 100
        + (c - b'0') as usize * 10
        + (d - b'0') as usize
}

#[tactic(auto, unfolding(crate::specs::Records::value_of))]
fn value_of(alloc: Global, name: &[u8], bytes: &[u8]) -> Result<Entry, RecError>
    ensures { Gives (λ e. e) result (value_of name.now bytes.now) }
{
    match name {
        [root, a, b, c, d, rest @ ..] => {
            if !are_digits(*a, *b, *c, *d) {
                return Err(FIELD);
            }
            let len = number_of(*a, *b, *c, *d);
            if rest.len() < len {
                return Err(FIELD);
            }
            let (key, shown) = rest.split_at(len);
            value_in(alloc, *root, key, shown, bytes)
        }
        _ => Err(FIELD),
    }
}

// What a shortcut starts, as it stands in the bytes, and what follows.
#[derive(Drop)]
struct Started<'a> {
    target: &'a str,
    arguments: &'a str,
    description: &'a str,
    hotkey: u16,
    icon: &'a str,
    icon_index: i16,
    show: u16,
    folder: &'a str,
}

fn started_at(bytes: &[u8]) -> Result<Started<'_>, RecError>
    ensures { (shown : List ℕ) → Gives (λ s. ShortcutEntry (shortcut_started shown s)) result (shortcut_behind (shown, bytes.now)) }
{
    let (target, rest) = str_at(bytes)?;
    let (arguments, rest) = str_at(rest)?;
    let (description, rest) = str_at(rest)?;
    let (hotkey, rest) = u16_at(rest)?;
    let (icon, rest) = str_at(rest)?;
    let (icon_index, rest) = u16_at(rest)?;
    let (show, rest) = u16_at(rest)?;
    let (folder, rest) = str_at(rest)?;
    if !rest.is_empty() {
        return Err(EXTRA);
    }
    Ok(Started {
        target,
        arguments,
        description,
        hotkey,
        icon,
        icon_index: icon_index.cast_signed(),
        show,
        folder,
    })
}

fn push_started(shortcut: &mut Shortcut, started: &Started) -> Result<(), NoMemory>
    ensures { OnOk result (shortcut.new ≡ record shortcut.old { target = shortcut.old.target ++ started.now.target.now; arguments = shortcut.old.arguments ++ started.now.arguments.now; description = shortcut.old.description ++ started.now.description.now; icon = shortcut.old.icon ++ started.now.icon.now; folder = shortcut.old.folder ++ started.now.folder.now }) }
{
    shortcut.target.push_str(started.target)?;
    shortcut.arguments.push_str(started.arguments)?;
    shortcut.description.push_str(started.description)?;
    shortcut.icon.push_str(started.icon)?;
    shortcut.folder.push_str(started.folder)
}

fn shortcut_from(alloc: Global, shown: &str, started: &Started) -> Result<Shortcut, NoMemory>
    requires { is_path shown.now ≡ true }
    ensures { IfOk result (λ s. s ≡ shortcut_started shown.now started.now) }
{
    let mut shortcut = Shortcut {
        shown: path_of(alloc, shown)?,
        target: Text::new(alloc),
        arguments: Text::new(alloc),
        description: Text::new(alloc),
        hotkey: started.hotkey,
        icon: Text::new(alloc),
        icon_index: started.icon_index,
        show: started.show,
        folder: Text::new(alloc),
    };
    match push_started(&mut shortcut, started) {
        Ok(()) => Ok(shortcut),
        Err(error) => {
            drop(shortcut);
            Err(error)
        }
    }
}

#[tactic(auto, unfolding(crate::specs::Records::shortcut_of, mi_text::specs::Path::is_path))]
fn shortcut_of(alloc: Global, path: &[u8], bytes: &[u8]) -> Result<Entry, RecError>
    ensures { Gives (λ e. e) result (shortcut_of path.now bytes.now) }
{
    if !names_file(alloc, path)? {
        return Err(FIELD);
    }
    let (shown, rest) = shown_at(path, bytes)?;
    if !is_file_path(shown) {
        return Err(FIELD);
    }
    let started = started_at(rest)?;
    Ok(Entry::Shortcut(shortcut_from(alloc, shown, &started)?))
}

#[tactic(auto, unfolding(crate::specs::Records::variable_of))]
fn variable_of(alloc: Global, name: &[u8], bytes: &[u8]) -> Result<Entry, RecError>
    ensures { Gives (λ e. e) result (variable_of name.now bytes.now) }
{
    match name {
        [] => Err(FIELD),
        [owner, name @ ..] => {
            if !names_variable(*owner, name) {
                return Err(FIELD);
            }
            let (shown, rest) = shown_at(name, bytes)?;
            let (value, rest) = str_at(rest)?;
            if !rest.is_empty() {
                return Err(EXTRA);
            }
            let system = *owner == b'1';
            let (name, value) = two_copies(alloc, shown, value)?;
            Ok(Entry::Variable(Variable {
                system,
                name,
                value,
            }))
        }
    }
}

fn client_in(alloc: Global, component: Guid, product: Guid, bytes: &[u8]) -> Result<Entry, RecError>
    ensures { Gives (λ e. e) result (client_in (Some component.number) (Some product.number) bytes.now) }
{
    let (key_path, rest) = str_at(bytes)?;
    if !rest.is_empty() {
        return Err(EXTRA);
    }
    Ok(Entry::Client(Client {
        component,
        product,
        key_path: Text::copy_of(alloc, key_path)?,
    }))
}

#[tactic(auto, unfolding(crate::specs::Records::client_of))]
fn client_of(alloc: Global, codes: &[u8], bytes: &[u8]) -> Result<Entry, RecError>
    ensures { Gives (λ e. e) result (client_of codes.now bytes.now) }
{
    let (component, product) = front_of(codes, 38);
    let Some(component) = code_in(alloc, component)? else {
        return Err(FIELD);
    };
    let Some(product) = code_in(alloc, product)? else {
        return Err(FIELD);
    };
    client_in(alloc, component, product, bytes)
}

fn product_in(alloc: Global, code: Guid, bytes: &[u8]) -> Result<Entry, RecError>
    ensures { Gives (λ e. e) result (product_in (Some code.number) bytes.now) }
{
    let (name, rest) = str_at(bytes)?;
    let (version, rest) = four_numbers_at(rest)?;
    let (language, rest) = u16_at(rest)?;
    let (features, rest) = texts_at(alloc, Order::Rising, rest)?;
    if !rest.is_empty() {
        drop(features);
        return Err(EXTRA);
    }
    match Text::copy_of(alloc, name) {
        Ok(name) => Ok(Entry::Product(Product {
            code,
            name,
            version,
            language,
            features,
        })),
        Err(_) => {
            drop(features);
            Err(RecError::NoMemory)
        }
    }
}

#[tactic(auto, unfolding(crate::specs::Records::product_of))]
fn product_of(alloc: Global, code: &[u8], bytes: &[u8]) -> Result<Entry, RecError>
    ensures { Gives (λ e. e) result (product_of code.now bytes.now) }
{
    match code_in(alloc, code)? {
        Some(code) => product_in(alloc, code, bytes),
        None => Err(FIELD),
    }
}

#[tactic(auto, unfolding(crate::specs::Records::system_of), using(crate::proofs::NameLemmas::no_property))]
fn system_of(alloc: Global, property: &[u8], bytes: &[u8]) -> Result<Entry, RecError>
    ensures { Gives (λ e. e) result (system_of property.now bytes.now) }
{
    let Some(property) = utf8(property) else {
        return Err(FIELD);
    };
    if !is_system_name(property) {
        return Err(FIELD);
    }
    let (text, rest) = str_at(bytes)?;
    if !rest.is_empty() {
        return Err(EXTRA);
    }
    let (property, text) = two_copies(alloc, property, text)?;
    Ok(Entry::System(property, text))
}

fn kind_of(alloc: Global, kind: u8, rest: &[u8], bytes: &[u8]) -> Result<Entry, RecError>
    ensures { Gives (λ e. e) result (kind_of kind rest.now bytes.now) }
{
    match kind {
        b'f' => file_of(alloc, rest, bytes),
        b'd' => folder_of(alloc, rest, bytes),
        b'k' => key_of(alloc, rest, bytes),
        b'v' => value_of(alloc, rest, bytes),
        b's' => shortcut_of(alloc, rest, bytes),
        b'n' => variable_of(alloc, rest, bytes),
        b'c' => client_of(alloc, rest, bytes),
        b'p' => product_of(alloc, rest, bytes),
        b'y' => system_of(alloc, rest, bytes),
        _ => Err(FIELD),
    }
}

fn entry_in(alloc: Global, kind: u8, rest: &[u8], bytes: &[u8]) -> Result<Entry, RecError>
    ensures { Gives (λ e. e) result (entry_in kind rest.now bytes.now) }
{
    kind_of(alloc, kind, rest, bytes)
}

/// The entry that a name and a record spell. `Field` comes for a name that isn't spelled; else the
/// first field that can't be read decides between `Short` and `Field`; `Extra` where bytes follow.
/// The spelling is this project's own.
#[tactic(auto, unfolding(crate::specs::Records::entry_of))]
pub fn dec_entry(alloc: Global, name: &str, bytes: &[u8]) -> Result<Entry, RecError>
    ensures { Gives (λ e. e) result (entry_of name.now bytes.now) }
{
    match name.as_bytes() {
        [kind, b'/', rest @ ..] => entry_in(alloc, *kind, rest, bytes),
        _ => Err(FIELD),
    }
}

// The folded path in a file's name.
fn path_in(name: &str) -> Option<&[u8]>
    ensures { option_copied result ≡ path_in name.now }
{
    match name.as_bytes() {
        [b'f', b'/', path @ ..] => Some(path),
        _ => None,
    }
}

fn head_in(alloc: Global, more: u64, path: &[u8], bytes: &[u8]) -> Result<FileHead, RecError>
    requires { length bytes.now + more < 2 ^ 64 }
    ensures { Gives (λ h. h) result (head_in more path.now bytes.now) }
{
    if !names_file(alloc, path)? {
        return Err(FIELD);
    }
    let (head, _rest) = head_at(alloc, more, path, bytes)?;
    Ok(head)
}

/// The head of a file's record, read from a front of the record, which is `record_len` bytes long. The
/// front has all of it, or at least 131,364 bytes, the length of the longest head. `Field` comes for a
/// name that isn't a file's; else the first field that can't be read decides between `Short` and
/// `Field`. The spelling is this project's own.
pub fn dec_file_head(
    alloc: Global,
    name: &str,
    front: &[u8],
    record_len: u64,
) -> Result<FileHead, RecError>
    requires within { length front.now ≤ record_len }
    requires enough { min record_len 131364 ≤ length front.now }
    ensures { (whole : List ℕ) → length whole ≡ record_len → take (length front.now) whole ≡ front.now
        → Gives (λ h. h) result (file_head_of name.now whole) }
{
    match path_in(name) {
        Some(path) => head_in(alloc, record_len - front.len() as u64, path, front),
        None => Err(FIELD),
    }
}
