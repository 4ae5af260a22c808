//! Versions of files and products.

ghost use Rattle.std.specs.Prelude.{◌≡◌, ◌∷◌, IfNone, IfSome, MatchResult};
ghost use Rattle.std.specs.Char.{is_ascii_digit};
ghost use Rattle.std.specs.List.{list_all};
ghost use Rattle.std.specs.Option.{option_copied};
ghost use Rattle.mi_text.specs.Version.{part_number, numbers_of, version_parts, version_of, version_cmp};
ghost use Rattle.mi_text.specs.VersionParts.{parts_left, IsNextNumber};

use std::cmp::Ordering;

/// A version of four numbers (File Versioning Rules; ProductVersion property). Its order is that of `compare`.
#[derive(Clone, Copy, PartialEq, Eq, PartialOrd, Ord)]
pub struct Version {
    pub major: u16,
    pub minor: u16,
    pub build: u16,
    pub revision: u16,
}

/// The text is no version.
#[derive(Clone, Copy)]
pub struct NotVersion;

// The text before the first point, and what stands behind that point.
fn first_part(text: &str) -> (&str, Option<&str>)
    ensures { version_parts text.now ≡ result.0.now ∷ parts_left (option_copied result.1) }
{
    match text.split_once('.') {
        Some((first, rest)) => (first, Some(rest)),
        None => (text, None),
    }
}

fn is_digits(bytes: &[u8]) -> bool
    ensures { result ≡ list_all is_ascii_digit bytes.now }
{
    bytes.iter().all(|byte| byte.is_ascii_digit())
}

fn number(part: &str) -> Option<u16>
    ensures { result ≡ part_number part.now }
{
    if !is_digits(part.as_bytes()) {
        return None;
    }
    part.parse::<u16>().ok()
}

// The next number, 0 where nothing is left.
fn next_number(left: Option<&str>) -> Option<(u16, Option<&str>)>
    ensures none { IfNone result (numbers_of (parts_left (option_copied left.entry)) ≡ None) }
    ensures some { IfSome result (λ x. IsNextNumber (option_copied left.entry) x.0 (option_copied x.1)) }
{
    let Some(text) = left else {
        return Some((0, None));
    };
    let (first, rest) = first_part(text);
    let found = number(first)?;
    Some((found, rest))
}

fn version_in(text: &str) -> Option<Version>
    ensures { result ≡ version_of text.now }
{
    let Some((major, left)) = next_number(Some(text)) else {
        return None;
    };
    let Some((minor, left)) = next_number(left) else {
        return None;
    };
    let Some((build, left)) = next_number(left) else {
        return None;
    };
    let Some((revision, left)) = next_number(left) else {
        return None;
    };
    match left {
        Some(_) => None,
        None => Some(Version {
            major,
            minor,
            build,
            revision,
        }),
    }
}

impl Version {
    /// Reads one to four decimal numbers that are joined by `.`, each at most 65535 by its value, so that any
    /// number of zeros may lead; missing numbers are 0. An empty part, a sign or a blank is refused. No memory.
    pub fn read(text: &str) -> Result<Version, NotVersion>
        ensures { MatchResult result (λ v. version_of text.now ≡ Some v) (λ _. version_of text.now ≡ None) }
    {
        version_in(text).ok_or(NotVersion)
    }

    /// Compares two versions by their four numbers in order. No memory.
    pub fn compare(self, other: Version) -> Ordering
        ensures { result ≡ version_cmp self other }
    {
        self.cmp(&other)
    }
}
