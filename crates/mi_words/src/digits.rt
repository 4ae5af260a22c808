//! The number of a test package's files.

ghost use Rattle.std.specs.Prelude.{◌≡◌, ◌≤◌};
ghost use Rattle.mi_idt.specs.Fields.{number_within};
ghost use Rattle.mi_model.specs.Words.{test_size};

/// The greatest number of files of the package that is made for tests.
const MOST_FILES: u32 = 5000;

/// The number of files that a word asks for: decimal digits of 1 to 5,000, without a zero in front.
pub fn test_size(word: &str) -> Option<u32>
    ensures { result ≡ test_size word.now }
{
    match word.as_bytes() {
        [b'0', ..] => None,
        digits => number_of(digits),
    }
}

/// The number that digits spell, up to 5,000.
fn number_of(digits: &[u8]) -> Option<u32>
    ensures { result ≡ number_within 5000 digits.now }
{
    if digits.is_empty() {
        return None;
    }
    let mut number = 0u32;
    for digit in digits {
        if !digit.is_ascii_digit() {
            return None;
        }
        number = number * 10 + u32::from(*digit - b'0');
        if number > MOST_FILES {
            return None;
        }
    }
    Some(number)
}
