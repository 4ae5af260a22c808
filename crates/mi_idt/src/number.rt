//! Numbers in fields.

ghost use Rattle.std.specs.Prelude.{◌≡◌, ◌≤◌, IfSome, min, if◌then◌else◌, Some, None};
ghost use Rattle.mi_idt.specs.Fields.{number_within, integer_within, number_on};
ghost use Rattle.mi_idt.specs.Head.{is_numeral};

/// Digits, at least one, that spell a number up to a limit.
pub fn number_within(digits: &[u8], limit: u32) -> Option<u32>
    ensures value { result ≡ number_within limit digits.now }
    ensures bound { IfSome result (λ n. n ≤ limit) }
{
    if digits.is_empty() {
        return None;
    }
    let mut number = 0u64;
    for digit in digits {
        if !digit.is_ascii_digit() {
            return None;
        }
        number = number * 10 + u64::from(*digit - b'0');
        if number > u64::from(limit) {
            return None;
        }
    }
    Some(number as u32)
}

/// The same behind an optional minus sign, up to a limit either way.
pub fn integer_within(text: &[u8], limit: u32) -> Option<i64>
    ensures { result ≡ integer_within limit text.now }
{
    match text {
        [b'-', digits @ ..] => match number_within(digits, limit) {
            Some(number) => Some(-i64::from(number)),
            None => None,
        },
        _ => match number_within(text, limit) {
            Some(number) => Some(i64::from(number)),
            None => None,
        },
    }
}

/// Digits, at least one; the greatest u32 stands for any larger number.
pub fn numeral(field: &[u8]) -> Option<u32>
    ensures { result ≡ (if is_numeral field.now then Some (min (number_on 0 field.now) 4294967295) else None) }
{
    if field.is_empty() {
        return None;
    }
    let greatest = u64::from(u32::MAX);
    let mut number = 0u64;
    for digit in field {
        if !digit.is_ascii_digit() {
            return None;
        }
        number = (number * 10 + u64::from(*digit - b'0')).min(greatest);
    }
    Some(number as u32)
}
