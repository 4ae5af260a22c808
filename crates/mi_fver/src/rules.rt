//! The rules on versions of files.

ghost use Rattle.std.specs.Prelude.{◌≡◌};
ghost use Rattle.std.specs.Option.{option_copied};
ghost use Rattle.mi_fver.specs.Rules.{has, has_all, by_languages, comparison_of, answers_of, says, replaces_of};

use crate::languages::{has, has_all};
use crate::mode::Mode;
use crate::new_file::NewFile;
use mi_base::FileHead;
use std::cmp::Ordering;

/// How a new file stands to the old one.
#[derive(Clone, Copy)]
pub enum Comparison {
    NewHigher,
    SameVersion,
    NewLower,
    OnlyNewVersioned,
    OnlyOldVersioned,
    /// Neither has a version, and the old one was modified later than created.
    ChangedByUser,
    /// Neither has a version.
    Unversioned,
}

/// What the letters o, e and d say.
#[derive(Clone, Copy)]
pub struct Answers {
    pub o: bool,
    pub e: bool,
    pub d: bool,
}

fn by_languages(old: &[u16], new: &[u16], product_language: u16) -> bool
    ensures { result ≡ by_languages old.now new.now product_language }
{
    if has_all(old, new) {
        return false;
    }
    if has_all(new, old) {
        return true;
    }
    has(new, product_language) && !has(old, product_language)
}

fn compared(old: &FileHead, new: &NewFile) -> Comparison
    ensures { result ≡ comparison_of old.now new.now }
{
    match (old.version, new.version) {
        (Some(before), Some(after)) => match after.compare(before) {
            Ordering::Greater => Comparison::NewHigher,
            Ordering::Equal => Comparison::SameVersion,
            Ordering::Less => Comparison::NewLower,
        },
        (None, Some(_)) => Comparison::OnlyNewVersioned,
        (Some(_), None) => Comparison::OnlyOldVersioned,
        (None, None) if old.modified > old.created => Comparison::ChangedByUser,
        (None, None) => Comparison::Unversioned,
    }
}

const fn says(o: bool, e: bool, d: bool) -> Answers
    ensures { result ≡ says o e d }
{
    Answers { o, e, d }
}

fn table(comparison: Comparison, languages: bool, same_hash: bool) -> Answers
    ensures { result ≡ answers_of comparison languages same_hash }
{
    match comparison {
        Comparison::NewHigher | Comparison::OnlyNewVersioned => says(true, true, true),
        Comparison::SameVersion => says(languages, true, false),
        Comparison::NewLower | Comparison::OnlyOldVersioned => says(false, false, true),
        Comparison::ChangedByUser => says(false, false, false),
        Comparison::Unversioned => says(!same_hash, true, !same_hash),
    }
}

/// Whether a new file is written over an old one, None where it is absent (File Versioning Rules; an unversioned file
/// that was modified later than created stays under o, e and d, which is this project's own). `same_hash` says that the
/// old file's hash is the one that the package states for the new one (MsiFileHash table). No memory.
pub fn replaces(
    mode: Mode,
    old: Option<&FileHead>,
    new: &NewFile,
    product_language: u16,
    same_hash: bool,
) -> bool
    ensures { result ≡ replaces_of mode (option_copied old.entry) new.now product_language same_hash }
{
    let Some(old) = old else {
        return mode.p || mode.o || mode.e || mode.d || mode.a;
    };
    let languages = by_languages(
        old.languages.as_slice(),
        new.languages.as_slice(),
        product_language,
    );
    let answers = table(compared(old, new), languages, same_hash);
    mode.a || (mode.o && answers.o) || (mode.e && answers.e) || (mode.d && answers.d)
}
