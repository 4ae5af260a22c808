//! The command of the words.

ghost use Rattle.std.specs.Prelude.{◌≡◌, ◌<◌, ◌≤◌, ◌+◌, length, get_or, [], Ok, Err, MatchResult};
ghost use Rattle.mi_text.specs.Fold.{folded};
ghost use Rattle.mi_model.specs.Assignments.{texts_of};
ghost use Rattle.mi_model.specs.Words.{command_of, command_in, package_in, selftest_in, alone};
ghost use Rattle.mi_words.specs.Asked.{asked, set_by};
ghost use Rattle.mi_words.specs.Places.{kept_behind};

use crate::command::{Command, PackageWords, Sets, TestWords};
use crate::digits::test_size;
use crate::places::first_kept;
use crate::rest::assignments_in;
use crate::word::{is_word, repair_letters};

/// What the words ask for, or the place of the first word that is refused, counted from 0 and with the dropped ones;
/// where a word is missing, the number of all words (Windows Installer command-line options). No memory.
pub fn read_words(words: &[String]) -> Result<Command<'_>, u64>
    ensures { MatchResult result (λ command. command_of (texts_of words.now) ≡ Ok (asked command)) (λ place. command_of (texts_of words.now) ≡ Err place) }
{
    match first_kept(words, 0) {
        Some(place) => command_at(words, place),
        None => Err(words.len() as u64),
    }
}

/// The command that stands at a place, with what stands behind it.
fn command_at(words: &[String], place: usize) -> Result<Command<'_>, u64>
    requires { place < length words.now }
    ensures { MatchResult result (λ command. command_in (length words.now) place (folded (get_or (texts_of words.now) place [])) (kept_behind (place + 1) (texts_of words.now)) ≡ Ok (asked command)) (λ refused. command_in (length words.now) place (folded (get_or (texts_of words.now) place [])) (kept_behind (place + 1) (texts_of words.now)) ≡ Err refused) }
{
    let word = words[place].as_str();
    let behind = place + 1;
    if is_word(word, "/i") {
        package_in(words, behind, false, Sets::Nothing)
    } else if is_word(word, "/x") {
        package_in(words, behind, true, Sets::Removal)
    } else if let Some(letters) = repair_letters(word) {
        package_in(words, behind, true, Sets::Repair(letters))
    } else if is_word(word, "/selftest") {
        selftest_in(words, behind)
    } else if is_word(word, "/clients") {
        nothing_in(words, behind, Command::Clients)
    } else if is_word(word, "/products") {
        nothing_in(words, behind, Command::Products)
    } else if is_word(word, "/recover") {
        nothing_in(words, behind, Command::Recover)
    } else {
        Err(place as u64)
    }
}

/// A folder, which isn't empty, and properties.
fn package_in<'a>(
    words: &'a [String],
    from: usize,
    recorded: bool,
    sets: Sets<'a>,
) -> Result<Command<'a>, u64>
    requires { from ≤ length words.now }
    ensures { MatchResult result (λ command. package_in (length words.now) recorded (set_by sets.entry) (kept_behind from (texts_of words.now)) ≡ Ok (asked command)) (λ place. package_in (length words.now) recorded (set_by sets.entry) (kept_behind from (texts_of words.now)) ≡ Err place) }
{
    let Some(place) = first_kept(words, from) else {
        return Err(words.len() as u64);
    };
    let folder = words[place].as_str();
    if folder.is_empty() {
        return Err(place as u64);
    }
    match assignments_in(words, place + 1) {
        Ok(words) => Ok(Command::Package(PackageWords {
            recorded,
            folder,
            words,
            sets,
        })),
        Err(place) => Err(place),
    }
}

/// A number of files, and properties.
fn selftest_in(words: &[String], from: usize) -> Result<Command<'_>, u64>
    requires { from ≤ length words.now }
    ensures { MatchResult result (λ command. selftest_in (length words.now) (kept_behind from (texts_of words.now)) ≡ Ok (asked command)) (λ place. selftest_in (length words.now) (kept_behind from (texts_of words.now)) ≡ Err place) }
{
    let Some(place) = first_kept(words, from) else {
        return Err(words.len() as u64);
    };
    let Some(files) = test_size(words[place].as_str()) else {
        return Err(place as u64);
    };
    match assignments_in(words, place + 1) {
        Ok(words) => Ok(Command::Selftest(TestWords { files, words })),
        Err(place) => Err(place),
    }
}

/// A command behind which nothing stands.
fn nothing_in<'a>(
    words: &'a [String],
    from: usize,
    command: Command<'a>,
) -> Result<Command<'a>, u64>
    requires { from ≤ length words.now }
    ensures { MatchResult result (λ found. alone (asked command.entry) (kept_behind from (texts_of words.now)) ≡ Ok (asked found)) (λ place. alone (asked command.entry) (kept_behind from (texts_of words.now)) ≡ Err place) }
{
    match first_kept(words, from) {
        Some(place) => Err(place as u64),
        None => Ok(command),
    }
}
