//! The letters of REINSTALLMODE.

ghost use Rattle.std.specs.Prelude.{◌≡◌, MatchResult, Some, None};
ghost use Rattle.std.specs.List.{list_all};
ghost use Rattle.mi_fver.specs.LetterTests.{is_letter, has_letter};

/// Which letters stand in a REINSTALLMODE (REINSTALLMODE property).
#[derive(Clone, Copy)]
pub struct Mode {
    /// Where the file is absent.
    pub p: bool,
    /// Where it is absent or older.
    pub o: bool,
    /// Where it is absent, older or of the same version.
    pub e: bool,
    /// Where it is absent or of another version.
    pub d: bool,
    /// Always.
    pub a: bool,
    /// Registry values of the user.
    pub u: bool,
    /// Registry values of the machine.
    pub m: bool,
    /// Shortcuts; without effect here.
    pub s: bool,
    /// The cached package; without effect here.
    pub v: bool,
}

/// A letter isn't one of `p o e d a u m s v`.
#[derive(Clone, Copy)]
pub struct BadMode;

const fn is_letter(letter: u8) -> bool
    ensures { result ≡ is_letter letter }
{
    matches!(
        letter,
        b'p' | b'o' | b'e' | b'd' | b'a' | b'u' | b'm' | b's' | b'v'
    )
}

fn are_letters(letters: &[u8]) -> bool
    ensures { result ≡ list_all is_letter letters.now }
{
    letters.iter().all(|letter| is_letter(*letter))
}

fn has_letter(letters: &[u8], letter: u8) -> bool
    ensures { result ≡ has_letter letters.now letter }
{
    letters.contains(&letter)
}

impl Mode {
    ghost use Rattle.mi_fver.specs.Letters.{mode_of};

    /// Reads letters, in any order and however often each stands. No memory.
    pub fn read(letters: &str) -> Result<Mode, BadMode>
        ensures { MatchResult result (λ m. mode_of letters.now ≡ Some m) (λ _. mode_of letters.now ≡ None) }
    {
        let letters = letters.as_bytes();
        if !are_letters(letters) {
            return Err(BadMode);
        }
        Ok(Mode {
            p: has_letter(letters, b'p'),
            o: has_letter(letters, b'o'),
            e: has_letter(letters, b'e'),
            d: has_letter(letters, b'd'),
            a: has_letter(letters, b'a'),
            u: has_letter(letters, b'u'),
            m: has_letter(letters, b'm'),
            s: has_letter(letters, b's'),
            v: has_letter(letters, b'v'),
        })
    }
}
