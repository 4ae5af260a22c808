//! Names of files and folders in the fields of a package.

ghost use Rattle.std.specs.Prelude.{◌≡◌, ◌<◌, ◌==◌, IfSome, IfNone};
ghost use Rattle.std.specs.List.{list_all, before_first};
ghost use Rattle.mi_text.specs.FileNames.{behind_first, short_name, long_name, target_part, source_part, may_stand, is_pattern_part, is_folder_name, is_file_name, is_file_pattern, is_default_dir};

use crate::path::{good_byte, is_part};

// What stands before and behind the first such byte; nothing where there is none, and all of the text is both.
fn cut(text: &str, mark: char) -> Option<(&str, &str)>
    requires { mark < 128 }
    ensures front { IfSome result (λ halves. halves.0.now ≡ before_first (λ b. b == mark) text.now) }
    ensures behind { IfSome result (λ halves. halves.1.now ≡ behind_first (λ b. b == mark) text.now) }
    ensures all_front { IfNone result (text.now ≡ before_first (λ b. b == mark) text.now) }
    ensures all_behind { IfNone result (text.now ≡ behind_first (λ b. b == mark) text.now) }
{
    match text.split_once(mark) {
        Some((front, behind)) => Some((front, behind)),
        None => None,
    }
}

// What stands before and behind the first such byte; all of the text is both where it has none.
fn halves(text: &str, mark: char) -> (&str, &str)
    requires { mark < 128 }
    ensures front { result.0.now ≡ before_first (λ b. b == mark) text.now }
    ensures behind { result.1.now ≡ behind_first (λ b. b == mark) text.now }
{
    match cut(text, mark) {
        Some((front, behind)) => (front, behind),
        None => (text, text),
    }
}

/// The short name of a field `short|long`: what stands before its first `|`, and all of it where it has none
/// (Filename). No memory.
pub fn short_name(text: &str) -> &str
    ensures { result.now ≡ short_name text.now }
{
    halves(text, '|').0
}

/// The long name of a field `short|long`: what stands behind its first `|`, and all of it where it has none
/// (Filename). No memory.
pub fn long_name(text: &str) -> &str
    ensures { result.now ≡ long_name text.now }
{
    halves(text, '|').1
}

/// The target of a field `target:source`: what stands before its first `:`, and all of it where it has none
/// (Directory table, DefaultDir). No memory.
pub fn target_part(text: &str) -> &str
    ensures { result.now ≡ target_part text.now }
{
    halves(text, ':').0
}

/// The source of a field `target:source`: what stands behind its first `:`, and all of it where it has none
/// (Directory table, DefaultDir). No memory.
pub fn source_part(text: &str) -> &str
    ensures { result.now ≡ source_part text.now }
{
    halves(text, ':').1
}

/// Whether a field holds a name, `long` or `short|long`: both can name one file (Filename). No memory.
pub fn is_file_name(text: &str) -> bool
    ensures { result ≡ is_file_name text.now }
{
    match cut(text, '|') {
        Some((short, long)) => is_part(short) && is_part(long),
        None => is_part(text),
    }
}

const fn may_stand(byte: u8) -> bool
    ensures { result ≡ may_stand byte }
{
    (good_byte(byte) && byte != b'\\') || byte == b'*' || byte == b'?'
}

fn all_may_stand(bytes: &[u8]) -> bool
    ensures { result ≡ list_all may_stand bytes.now }
{
    bytes.iter().all(|byte| may_stand(*byte))
}

fn is_pattern_part(part: &str) -> bool
    ensures { result ≡ is_pattern_part part.now }
{
    let dots = part == "." || part == "..";
    !part.is_empty() && !dots && all_may_stand(part.as_bytes())
}

/// Whether a field holds a pattern of names: a name as `is_file_name` has it, but that `*` and `?` may stand
/// in it (WildCardFilename). No memory.
pub fn is_file_pattern(text: &str) -> bool
    ensures { result ≡ is_file_pattern text.now }
{
    match cut(text, '|') {
        Some((short, long)) => is_pattern_part(short) && is_pattern_part(long),
        None => is_pattern_part(text),
    }
}

fn is_folder_name(text: &str) -> bool
    ensures { result ≡ is_folder_name text.now }
{
    text == "." || is_file_name(text)
}

/// Whether a field is a folder's `target:source`, or one for both, each a name or `.` (Directory table,
/// DefaultDir). No memory.
pub fn is_default_dir(text: &str) -> bool
    ensures { result ≡ is_default_dir text.now }
{
    is_folder_name(target_part(text)) && is_folder_name(source_part(text))
}
