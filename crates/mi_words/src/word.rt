//! One word of the command line.

ghost use Rattle.std.specs.Prelude.{◌≡◌, ◌||◌, MatchOption, drop, false, true, codes, nat_eq};
ghost use Rattle.std.specs.Char.{to_ascii_lowercase};
ghost use Rattle.std.specs.List.{list_all, starts_with};
ghost use Rattle.std.specs.Str.{bytes_eq};
ghost use Rattle.mi_text.specs.Fold.{folded};
ghost use Rattle.mi_fver.specs.LetterTests.{is_letter};
ghost use Rattle.mi_model.specs.Assignments.{is_dropped, is_assignment};
ghost use Rattle.mi_model.specs.Words.{is_repair};

use mi_text::is_public_name;

/// Whether a word is this command, in either case.
pub fn is_word(word: &str, command: &str) -> bool
    ensures { result ≡ bytes_eq (folded word.now) (folded command.now) }
{
    word.eq_ignore_ascii_case(command)
}

/// Whether a word has no meaning here.
pub fn is_dropped(word: &str) -> bool
    ensures { result ≡ is_dropped word.now }
{
    word == "/qn" || word == "/quiet" || word == "/norestart"
}

/// Whether a word is the name of a public property, `=`, and any value (Public Properties).
pub fn is_assignment(word: &str) -> bool
    ensures { result ≡ is_assignment word.now }
{
    match word.split_once('=') {
        Some((name, _)) => is_public_name(name),
        None => false,
    }
}

/// Whether a word may stand among properties: it sets one, or is dropped.
pub fn is_property(word: &str) -> bool
    ensures { result ≡ (is_dropped word.now || is_assignment word.now) }
{
    is_dropped(word) || is_assignment(word)
}

/// The letters behind `/f`, where a word is that and letters of a REINSTALLMODE, in either case (REINSTALLMODE
/// Property).
pub fn repair_letters(word: &str) -> Option<&str>
    ensures { MatchOption result (is_repair (folded word.now) ≡ false) (λ letters. (is_repair (folded word.now) ≡ true) × (folded letters.now ≡ drop 2 (folded word.now))) }
{
    let letters = behind_repair(word)?;
    if are_mode_letters(letters) {
        Some(letters)
    } else {
        None
    }
}

/// What stands behind `/f`, in either case.
fn behind_repair(word: &str) -> Option<&str>
    ensures { MatchOption result (starts_with nat_eq (folded word.now) (codes "/f") ≡ false) (λ rest. (starts_with nat_eq (folded word.now) (codes "/f") ≡ true) × (rest.now ≡ drop 2 word.now)) }
{
    match word.strip_prefix("/f") {
        Some(rest) => Some(rest),
        None => word.strip_prefix("/F"),
    }
}

/// Whether these are letters of a REINSTALLMODE, in either case.
fn are_mode_letters(letters: &str) -> bool
    ensures { result ≡ list_all (λ b. is_letter (to_ascii_lowercase b)) letters.now }
{
    letters
        .as_bytes()
        .iter()
        .all(|letter| is_mode_letter(*letter))
}

fn is_mode_letter(letter: u8) -> bool
    ensures { result ≡ is_letter (to_ascii_lowercase letter) }
{
    matches!(
        letter.to_ascii_lowercase(),
        b'p' | b'o' | b'e' | b'd' | b'a' | b'u' | b'm' | b's' | b'v'
    )
}
