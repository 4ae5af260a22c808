//! The names of entries, composed without memory.

ghost use Rattle.std.specs.Prelude.{◌≡◌, ◌<◌, ◌+◌, ◌++◌, ◌∷◌, [], codes, length, IfOk, MatchOption, string_bytes};
ghost use Rattle.std.specs.Str.{IsAscii};
ghost use Rattle.mi_text.specs.Fold.{folded};
ghost use Rattle.mi_base.specs.Names.{four_digits, file_name, folder_name, key_name, value_name, shortcut_name, variable_name, client_name, product_name, system_name};
ghost use Rattle.mi_image.specs.Fronts.{key_front, value_front};
ghost use Rattle.mi_image.specs.Lookups.{IsComposed};

use crate::buffer::NameBuffer;
use mi_base::{Guid, NoMemory, PathText};
use std::alloc::Global;
use std::str;

// The text that ASCII bytes are.
fn ascii(bytes: &[u8]) -> &str
    requires { IsAscii bytes.now }
    ensures { result.now ≡ bytes.now }
{
    match str::from_utf8(bytes) {
        Ok(text) => text,
        Err(_) => unreachable!(),
    }
}

// A text, and another that is folded.
fn folded_behind(front: &str, text: &str) -> Option<NameBuffer>
    ensures { MatchOption result (1024 < length front.now + length text.now) (λ n. n ≡ front.now ++ folded text.now) }
{
    let mut name = NameBuffer::new();
    if name.push_str(front) && name.push_folded(text) {
        Some(name)
    } else {
        None
    }
}

#[tactic(auto, unfolding(mi_base::specs::Names::file_name))]
pub fn file_name(path: &PathText) -> Option<NameBuffer>
    ensures { IsComposed (file_name path.now) result }
{
    folded_behind("f/", path.as_str())
}

#[tactic(auto, unfolding(mi_base::specs::Names::folder_name))]
pub fn folder_name(path: &PathText) -> Option<NameBuffer>
    ensures { IsComposed (folder_name path.now) result }
{
    folded_behind("d/", path.as_str())
}

#[tactic(auto, unfolding(mi_base::specs::Names::shortcut_name))]
pub fn shortcut_name(path: &PathText) -> Option<NameBuffer>
    ensures { IsComposed (shortcut_name path.now) result }
{
    folded_behind("s/", path.as_str())
}

#[tactic(auto, unfolding(mi_base::specs::Names::key_name))]
pub fn key_name(root: u8, key: &str) -> Option<NameBuffer>
    ensures { IsComposed (key_name root key.now) result }
{
    if root > 3 {
        return None;
    }
    let kind = key_kind(root);
    folded_behind(ascii(&kind), key)
}

/// How the names of the keys begin that begin so.
pub fn key_front(alloc: Global, root: u8, front: &str) -> Result<String, NoMemory>
    requires { root < 10 }
    ensures { IfOk result (λ name. string_bytes name ≡ key_front root front.now) }
{
    let kind = key_kind(root);
    let mut name = String::from_str(alloc, ascii(&kind))?;
    name.push_str(front)?;
    Ok(name)
}

#[tactic(auto, unfolding(mi_base::specs::Names::variable_name))]
pub fn variable_name(system: bool, name: &str) -> Option<NameBuffer>
    ensures { IsComposed (variable_name system name.now) result }
{
    folded_behind(if system { "n/1" } else { "n/0" }, name)
}

fn digit(number: usize) -> u8
    requires { number < 10 }
    ensures { result ≡ 48 + number }
{
    b'0' + number as u8
}

// How the names of keys begin, up to the keys.
fn key_kind(root: u8) -> [u8; 3]
    requires { root < 10 }
    ensures kind { result ≡ codes "k/" ++ (48 + root) ∷ [] }
    ensures ascii { IsAscii result }
{
    [b'k', b'/', b'0' + root]
}

// How the names of values begin, up to their keys, which have `size` bytes.
fn value_kind(root: u8, size: usize) -> [u8; 7]
    requires { root < 10 }
    ensures kind { result ≡ codes "v/" ++ (48 + root) ∷ four_digits size }
    ensures ascii { IsAscii result }
{
    [
        b'v',
        b'/',
        b'0' + root,
        digit(size / 1000 % 10),
        digit(size / 100 % 10),
        digit(size / 10 % 10),
        digit(size % 10),
    ]
}

/// How the names of values begin whose key has `size` bytes and begins so.
pub fn value_front(alloc: Global, root: u8, size: usize, front: &str) -> Result<String, NoMemory>
    requires { root < 10 }
    ensures { IfOk result (λ name. string_bytes name ≡ value_front root size front.now) }
{
    let kind = value_kind(root, size);
    let mut name = String::from_str(alloc, ascii(&kind))?;
    name.push_str(front)?;
    Ok(name)
}

#[tactic(auto, unfolding(mi_base::specs::Names::value_name))]
pub fn value_name(root: u8, key: &str, name: &str) -> Option<NameBuffer>
    ensures { IsComposed (value_name root key.now name.now) result }
{
    if root > 3 {
        return None;
    }
    let kind = value_kind(root, key.len());
    let mut buffer = folded_behind(ascii(&kind), key)?;
    if buffer.push_folded(name) {
        Some(buffer)
    } else {
        None
    }
}

#[tactic(auto, unfolding(mi_base::specs::Names::client_name))]
pub fn client_name(component: Guid, product: Guid) -> Option<NameBuffer>
    ensures { IsComposed (client_name component.number product.number) result }
{
    let mut name = NameBuffer::new();
    if name.push_str("c/") && name.push_code(component) && name.push_code(product) {
        Some(name)
    } else {
        None
    }
}

#[tactic(auto, unfolding(mi_base::specs::Names::product_name))]
pub fn product_name(code: Guid) -> Option<NameBuffer>
    ensures { IsComposed (product_name code.number) result }
{
    let mut name = NameBuffer::new();
    if name.push_str("p/") && name.push_code(code) {
        Some(name)
    } else {
        None
    }
}

#[tactic(auto, unfolding(mi_base::specs::Names::system_name))]
pub fn system_name(property: &str) -> Option<NameBuffer>
    ensures { IsComposed (system_name property.now) result }
{
    let mut name = NameBuffer::new();
    if name.push_str("y/") && name.push_str(property) {
        Some(name)
    } else {
        None
    }
}
