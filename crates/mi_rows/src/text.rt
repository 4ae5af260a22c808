//! Which texts are values of their kind, or meet the rule of their column.

ghost use Rattle.std.specs.Prelude.{◌≡◌, is_some, length, count_by, ◌==◌};
ghost use Rattle.std.specs.List.{slice_split, list_all};
ghost use Rattle.mi_idt.specs.Fields.{is_digit, number_within};
ghost use Rattle.mi_text.specs.Version.{version_of};
ghost use Rattle.mi_rows.specs.Texts.{is_decimal, is_language, are_languages, is_product_code, is_value_of};

use mi_base::{Guid, Version};

/// How many parts there are between the bytes that equal `mark`.
fn count_parts(text: &str, mark: u8) -> usize
    ensures { result ≡ length (slice_split (λ b. b == mark) text.now) }
{
    text.as_bytes().iter().filter(|byte| **byte == mark).count() + 1
}

fn all_digits(bytes: &[u8]) -> bool
    ensures { result ≡ list_all is_digit bytes.now }
{
    bytes.iter().all(|byte| byte.is_ascii_digit())
}

/// Whether a text is decimal digits.
pub fn is_decimal(text: &str) -> bool
    ensures { result ≡ is_decimal text.now }
{
    !text.is_empty() && all_digits(text.as_bytes())
}

/// Whether a text is a number up to 65535.
fn is_language(text: &str) -> bool
    ensures { result ≡ is_language text.now }
{
    let mut number = 0u32;
    for digit in text.as_bytes() {
        if !digit.is_ascii_digit() {
            return false;
        }
        number = number * 10 + u32::from(*digit - b'0');
        if number > 65535 {
            return false;
        }
    }
    !text.is_empty()
}

fn all_languages(text: &str) -> bool
    ensures { result ≡ list_all is_language (slice_split (λ b. b == 44) text.now) }
{
    text.split(',').all(|part| is_language(part))
}

/// Whether a text is at most 65,535 numbers up to 65535, joined by `,`.
pub fn are_languages(text: &str) -> bool
    ensures { result ≡ are_languages text.now }
{
    count_parts(text, b',') <= 65535 && all_languages(text)
}

/// Whether a text is a code that isn't all zeros.
fn is_product_code(text: &str) -> bool
    ensures { result ≡ is_product_code text.now }
{
    Guid::read(text).is_ok_and(|code| code.number != 0)
}

/// Whether a text is a version.
pub fn is_version(text: &str) -> bool
    ensures { result ≡ is_some (version_of text.now) }
{
    Version::read(text).is_ok()
}

/// Whether a property may have this value.
pub fn is_value_of(name: &str, text: &str) -> bool
    ensures { result ≡ is_value_of name.now text.now }
{
    match name {
        "ProductCode" => is_product_code(text),
        "ProductVersion" => is_version(text),
        "ProductLanguage" => is_language(text),
        _ => true,
    }
}
