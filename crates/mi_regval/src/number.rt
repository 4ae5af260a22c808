//! Integers of 32 bits.

ghost use Rattle.std.specs.Prelude.{◌≡◌};
ghost use Rattle.std.specs.Char.{is_ascii_digit};
ghost use Rattle.std.specs.List.{list_all};
ghost use Rattle.mi_regval.specs.Numbers.{number_of, negative, int_of};

fn are_digits(bytes: &[u8]) -> bool
    ensures { result ≡ list_all is_ascii_digit bytes.now }
{
    bytes.iter().all(|byte| byte.is_ascii_digit())
}

fn number(digits: &str, most: u32) -> Option<u32>
    ensures { result ≡ number_of most digits.now }
{
    if !are_digits(digits.as_bytes()) {
        return None;
    }
    let Ok(found) = digits.parse::<u32>() else {
        return None;
    };
    if found > most { None } else { Some(found) }
}

const fn negative(found: u32) -> u32
    ensures { result ≡ negative found }
{
    if found == 0 { 0 } else { u32::MAX - found + 1 }
}

/// The 32 bits that an optional sign and digits write, from -2147483648 to 4294967295.
pub fn read_int(text: &str) -> Option<u32>
    ensures { result ≡ int_of text.now }
{
    if let Some(digits) = text.strip_prefix('-') {
        return number(digits, 2_147_483_648).map(negative);
    }
    match text.strip_prefix('+') {
        Some(digits) => number(digits, u32::MAX),
        None => number(text, u32::MAX),
    }
}
