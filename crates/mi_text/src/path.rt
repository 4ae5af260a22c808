//! Paths of folders and files.

ghost use Rattle.std.specs.Prelude.{◌≡◌, ◌==◌, ◌++◌, ◌↔◌, not, IfOk, OnOk, IsTrue, length, map, string_bytes, MatchResult};
ghost use Rattle.std.specs.List.{slice_split, list_all};
ghost use Rattle.std.specs.Option.{option_copied};
ghost use Rattle.mi_text.specs.declared.path.PathError.TheVariants.{NoMemory as no_memory};
ghost use Rattle.mi_text.specs.PathReads.{PathReads};
ghost use Rattle.mi_text.specs.Path.{good_byte, good_part, drive_rest, path_on, path_text, folder_in, is_backslash, is_part, up_to_last, last_part, parent_of, is_folder_path, is_file_path, is_path, AreJoinedParts};

use crate::text::{NoMemory, Text};
use std::alloc::{AllocError, Global};
use std::marker::Model;

/// Why a text names no path.
#[derive(Clone, Copy)]
pub enum PathFault {
    /// It doesn't begin at the drive.
    NotAbsolute,
    /// A part is `.` or `..`, or has a byte that no name has.
    BadPart,
    /// The path has more than 259 bytes.
    Length,
}

/// Why there is no path: want of memory, or the text.
#[derive(Clone, Copy)]
pub enum PathError {
    NoMemory,
    Fault(PathFault),
}

impl From<NoMemory> for PathError {
    ghost from_gives = { λ _ e. e ≡ no_memory };

    fn from(_e: NoMemory) -> PathError {
        PathError::NoMemory
    }
}

impl From<AllocError> for PathError {
    ghost from_gives = { λ _ e. e ≡ no_memory };

    fn from(_e: AllocError) -> PathError {
        PathError::NoMemory
    }
}

/// The canonical path of a folder or a file on the drive `C:`, of at most 259 bytes: a folder's ends with `\`, as `C:\`
/// does, and a file's doesn't. Contracts see its bytes.
#[derive(Drop)]
pub struct PathText {
    text: Text,
}

impl Model for PathText {
    ghost use Rattle.std.specs.Prelude.{List, ℕ, IsTrue};
    ghost use Rattle.mi_text.specs.Path.{is_path};

    ghost Value = { List ℕ };

    ghost view = { λ p. p.text };

    ghost invariant = { λ p. IsTrue (is_path p.text) };
}

pub const fn good_byte(byte: u8) -> bool
    ensures { result ≡ good_byte byte }
{
    byte >= 32 && !matches!(byte, b'/' | b':' | b'*' | b'?' | b'"' | b'<' | b'>' | b'|')
}

fn good_bytes(bytes: &[u8]) -> bool
    ensures { result ≡ list_all good_byte bytes.now }
{
    bytes.iter().all(|byte| good_byte(*byte))
}

fn good_part(part: &str) -> bool
    ensures { result ≡ good_part part.now }
{
    match part {
        "." | ".." => false,
        _ => good_bytes(part.as_bytes()),
    }
}

// The text behind the drive, where the text is absolute.
fn drive_rest(text: &str) -> Option<&str>
    ensures { option_copied result ≡ drive_rest text.now }
{
    match text {
        "C:" | "c:" => Some(""),
        _ => match text.strip_prefix("C:\\") {
            Some(rest) => Some(rest),
            None => text.strip_prefix("c:\\"),
        },
    }
}

fn parts_of(alloc: Global, text: &str) -> Result<Vec<&str>, AllocError>
    ensures { IfOk result (λ v. map (λ b. b.now) v.items ≡ slice_split (λ b. b == 92) text.now) }
{
    text.split('\\').collect(alloc)
}

fn all_good(parts: &[&str]) -> bool
    ensures { result ≡ list_all good_part (map (λ b. b.now) parts.now) }
{
    for part in parts {
        if !good_part(part) {
            return false;
        }
    }
    true
}

fn push_parts(out: &mut String, parts: &[&str]) -> Result<(), NoMemory>
    ensures { OnOk result (string_bytes out.new ≡ path_on (string_bytes out.old) (map (λ b. b.now) parts.now)) }
{
    for part in parts {
        if !part.is_empty() {
            out.push_str(part)?;
            out.push('\\')?;
        }
    }
    Ok(())
}

fn is_plain(bytes: &[u8]) -> bool
    ensures { result ≡ list_all (λ b. not (is_backslash b)) bytes.now }
{
    bytes.iter().all(|byte| *byte != b'\\')
}

// Whether the text can name one folder or file.
pub fn is_part(part: &str) -> bool
    ensures { result ≡ is_part part.now }
{
    !part.is_empty() && is_plain(part.as_bytes()) && good_part(part)
}

// The text up to and with its last backslash, and what stands behind that.
fn split_last(text: &str) -> (&str, &str)
    ensures { (result.0.now ≡ up_to_last text.now) × (result.1.now ≡ last_part text.now) }
{
    match text.rfind('\\') {
        Some(place) => text.split_at(place + 1),
        None => ("", text),
    }
}

fn all_parts(text: &str) -> bool
    ensures { result ≡ list_all is_part (slice_split is_backslash text.now) }
{
    text.split('\\').all(|part| is_part(part))
}

// Whether these are names, each with a backslash behind it.
fn are_joined_parts(rest: &str) -> bool
    ensures { IsTrue result ↔ AreJoinedParts rest.now }
{
    if rest.is_empty() {
        return true;
    }
    match rest.strip_suffix('\\') {
        Some(front) => all_parts(front),
        None => false,
    }
}

/// Whether a text is the canonical path of a folder: it begins with `C:\`, and each name in it ends with `\`. No memory.
pub fn is_folder_path(text: &str) -> bool
    ensures { result ≡ is_folder_path text.now }
{
    match text.strip_prefix("C:\\") {
        Some(rest) => text.len() <= 259 && are_joined_parts(rest),
        None => false,
    }
}

/// Whether a text is the canonical path of a file: a folder's, and a name behind it. No memory.
#[tactic(auto, unfolding(crate::specs::Path::is_file_path))]
pub fn is_file_path(text: &str) -> bool
    ensures { result ≡ is_file_path text.now }
{
    let (folder, part) = split_last(text);
    is_folder_path(folder) && is_part(part) && text.len() <= 259
}

#[tactic(auto, unfolding(crate::specs::Path::is_path))]
fn is_path(text: &str) -> bool
    ensures { result ≡ is_path text.now }
{
    is_folder_path(text) || is_file_path(text)
}

// These parts behind the drive, each with a backslash behind it.
fn joined_parts(alloc: Global, parts: &[&str]) -> Result<Text, NoMemory>
    ensures { IfOk result (λ t. t ≡ path_text (map (λ b. b.now) parts.now)) }
{
    let mut path = String::from_str(alloc, "C:\\")?;
    match push_parts(&mut path, parts) {
        Ok(()) => Text::from_string(alloc, path),
        Err(error) => {
            drop(path);
            Err(error)
        }
    }
}

// The canonical text of the folder of these parts.
fn folder_in(alloc: Global, parts: &[&str]) -> Result<Text, PathError>
    ensures { PathReads result (folder_in (map (λ b. b.now) parts.now)) }
{
    if !all_good(parts) {
        return Err(PathError::Fault(PathFault::BadPart));
    }
    let path = joined_parts(alloc, parts)?;
    if path.len() > 259 {
        drop(path);
        return Err(PathError::Fault(PathFault::Length));
    }
    Ok(path)
}

// The canonical text of the folder whose parts stand behind the drive.
fn folder_text(alloc: Global, rest: &str) -> Result<Text, PathError>
    ensures { PathReads result (folder_in (slice_split is_backslash rest.now)) }
{
    let parts = parts_of(alloc, rest)?;
    let folder = folder_in(alloc, &parts);
    drop(parts);
    folder
}

// The text of the folder that holds a path.
fn parent_text(path: &str) -> &str
    requires { IsTrue (is_path path.now) }
    ensures { result.now ≡ parent_of path.now }
{
    if path == "C:\\" {
        return path;
    }
    match path.strip_suffix('\\') {
        Some(front) => split_last(front).0,
        None => split_last(path).0,
    }
}

fn joined(alloc: Global, folder: &str, part: &str, end: &str) -> Result<Text, NoMemory>
    ensures { IfOk result (λ t. t ≡ folder.now ++ part.now ++ end.now) }
{
    let mut path = String::from_str(alloc, folder)?;
    path.push_str(part)?;
    path.push_str(end)?;
    Text::from_string(alloc, path)
}

impl PathText {
    ghost use Rattle.std.specs.Prelude.{Some, None, if◌then◌else◌};
    ghost use Rattle.mi_text.specs.Path.{folder_of, below_of, file_of, parent_of, is_folder_path, is_file_path, is_path};
    ghost use Rattle.mi_text.specs.PathReads.{PathReads};

    /// The folder that an absolute text names: it begins with `C:\` or `c:\`, or is `C:` or `c:`, and its empty parts are
    /// dropped. Refusals in this order: NotAbsolute, BadPart, Length.
    pub fn folder(alloc: Global, text: &str) -> Result<PathText, PathError>
        ensures reads { PathReads result (folder_of text.now) }
        ensures folder { IfOk result (λ p. IsTrue (is_folder_path p)) }
    {
        let Some(rest) = drive_rest(text) else {
            return Err(PathError::Fault(PathFault::NotAbsolute));
        };
        match folder_text(alloc, rest) {
            Ok(text) => Ok(PathText { text }),
            Err(error) => Err(error),
        }
    }

    /// The folder of this name in this folder. Refusals in this order: BadPart, also where the name is empty or has `\`;
    /// Length.
    pub fn below(&self, alloc: Global, part: &str) -> Result<PathText, PathError>
        requires { IsTrue (is_folder_path self.now) }
        ensures reads { PathReads result (below_of self.now part.now) }
        ensures folder { IfOk result (λ p. IsTrue (is_folder_path p)) }
    {
        if !is_part(part) {
            return Err(PathError::Fault(PathFault::BadPart));
        }
        let text = joined(alloc, self.text.as_str(), part, "\\")?;
        if text.len() > 259 {
            return Err(PathError::Fault(PathFault::Length));
        }
        Ok(PathText { text })
    }

    /// The file of this name in this folder. Refusals as those of `below`.
    pub fn file(&self, alloc: Global, part: &str) -> Result<PathText, PathError>
        requires { IsTrue (is_folder_path self.now) }
        ensures reads { PathReads result (file_of self.now part.now) }
        ensures file { IfOk result (λ p. IsTrue (is_file_path p)) }
    {
        if !is_part(part) {
            return Err(PathError::Fault(PathFault::BadPart));
        }
        let text = joined(alloc, self.text.as_str(), part, "")?;
        if text.len() > 259 {
            return Err(PathError::Fault(PathFault::Length));
        }
        Ok(PathText { text })
    }

    /// The folder that holds this folder or file; `C:\` for itself.
    pub fn parent(&self, alloc: Global) -> Result<PathText, NoMemory>
        ensures parent { IfOk result (λ p. p ≡ parent_of self.now) }
        ensures folder { IfOk result (λ p. IsTrue (is_folder_path p)) }
    {
        let text = Text::copy_of(alloc, parent_text(self.as_str()))?;
        Ok(PathText { text })
    }

    /// The path of a text that spells one in its canonical form, and None for any other. No memory.
    pub fn of(text: Text) -> Option<PathText>
        ensures { result ≡ (if is_path text then Some text else None) }
    {
        if is_path(text.as_str()) {
            Some(PathText { text })
        } else {
            None
        }
    }

    /// Whether the path is a folder's: it ends with `\`.
    pub fn is_folder(&self) -> bool
        ensures folder { result ≡ is_folder_path self.now }
        ensures file { result ≡ not (is_file_path self.now) }
    {
        self.text.as_str().ends_with('\\')
    }

    /// The path as a text.
    pub fn as_str(&self) -> &str
        ensures text { result.now ≡ self.now }
        ensures path { IsTrue (is_path self.now) }
    {
        self.text.as_str()
    }

    /// A copy of the path.
    pub fn copy(&self, alloc: Global) -> Result<PathText, NoMemory>
        ensures { IfOk result (λ p. p ≡ self.now) }
    {
        let text = Text::copy_of(alloc, self.text.as_str())?;
        Ok(PathText { text })
    }
}
