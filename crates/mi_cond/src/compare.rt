//! Comparisons of integers and of texts, without memory.

ghost use Rattle.std.specs.Prelude.{◌≡◌, if◌then◌else◌, nat_eq, Some, None, option_and_then};
ghost use Rattle.std.specs.Char.{to_ascii_lowercase};
ghost use Rattle.mi_text.specs.Fold.{folded};
ghost use Rattle.std.specs.Ordering.{nat_cmp};
ghost use Rattle.std.specs.Cmp.Lexicographic.{slice_cmp, pointwise};
ghost use Rattle.std.specs.List.{starts_with, ends_with};
ghost use Rattle.mi_cond.specs.Integer.{digits_of, is_small, spelled_integer};
ghost use Rattle.mi_cond.specs.Value.{cased, contains, bits_of, high_half, low_half, is_not_equal};
ghost use Rattle.mi_cond.specs.Value as spec;

use crate::operand::Relation;
use crate::token::is_digit;
use memchr::memmem;
use std::cmp::Ordering;

// The largest integer.
const LARGEST: u64 = 2_147_483_647;

/// The integer that a text spells: an optional `-`, and digits within 2147483647.
pub fn spelled_integer(text: &[u8]) -> Option<i32>
    ensures { result ≡ spelled_integer text.now }
{
    match text {
        [] => None,
        [first, digits @ ..] => {
            if *first == b'-' {
                small_integer(true, digits)
            } else {
                small_integer(false, text)
            }
        }
    }
}

fn small_integer(negative: bool, digits: &[u8]) -> Option<i32>
    ensures { result ≡ option_and_then (λ z. if is_small z then Some z else None) (digits_of negative digits.now) }
{
    if digits.is_empty() {
        return None;
    }
    let mut size: u64 = 0;
    for digit in digits {
        if !is_digit(*digit) {
            return None;
        }
        size = 10 * size + (*digit - b'0') as u64;
        if size > LARGEST {
            return None;
        }
    }
    let size = size as i32;
    Some(if negative { -size } else { size })
}

/// Whether two integers compare so (Conditional Statement Syntax, "Comparison Operators" and "Bitwise
/// Numeric Operators").
pub fn compare_integers(relation: Relation, left: i32, right: i32) -> bool
    ensures { result ≡ spec.compare_integers relation left right }
{
    match relation {
        Relation::Equal => left == right,
        Relation::NotEqual => left != right,
        Relation::Greater => left > right,
        Relation::GreaterOrEqual => left >= right,
        Relation::Less => left < right,
        Relation::LessOrEqual => left <= right,
        Relation::Contains => left.cast_unsigned() & right.cast_unsigned() != 0,
        Relation::BeginsWith => (left.cast_unsigned() / 65536) as i32 == right,
        Relation::EndsWith => (left.cast_unsigned() % 65536) as i32 == right,
    }
}

fn letter(folds: bool, byte: u8) -> u8
    ensures { result ≡ (if folds then to_ascii_lowercase byte else byte) }
{
    if folds {
        byte.to_ascii_lowercase()
    } else {
        byte
    }
}

// Which text comes first by its code points.
fn order(folds: bool, left: &[u8], right: &[u8]) -> Ordering
    ensures { result ≡ slice_cmp nat_cmp (cased folds left.now) (cased folds right.now) }
{
    let shorter = left.len().min(right.len());
    for i in 0..shorter {
        let order = letter(folds, left[i]).cmp(&letter(folds, right[i]));
        if order.is_ne() {
            return order;
        }
    }
    left.len().cmp(&right.len())
}

fn is_same(folds: bool, left: &[u8], right: &[u8]) -> bool
    ensures { result ≡ pointwise nat_eq (cased folds left.now) (cased folds right.now) }
{
    if folds {
        left.eq_ignore_ascii_case(right)
    } else {
        left == right
    }
}

fn begins_with(folds: bool, text: &[u8], part: &[u8]) -> bool
    ensures { result ≡ starts_with nat_eq (cased folds text.now) (cased folds part.now) }
{
    part.len() <= text.len() && is_same(folds, part, &text[..part.len()])
}

fn ends_with(folds: bool, text: &[u8], part: &[u8]) -> bool
    ensures { result ≡ ends_with nat_eq (cased folds text.now) (cased folds part.now) }
{
    part.len() <= text.len() && is_same(folds, part, &text[text.len() - part.len()..])
}

// Whether the part begins somewhere in the text, where ASCII letters are alike. It tries each place in turn, since
// no memory may be taken for folded texts.
fn contains_folded(text: &[u8], part: &[u8]) -> bool
    ensures { result ≡ contains (folded text.now) (folded part.now) }
{
    for i in 0..text.len() {
        if begins_with(true, &text[i..], part) {
            return true;
        }
    }
    part.is_empty()
}

fn contains(folds: bool, text: &[u8], part: &[u8]) -> bool
    ensures { result ≡ contains (cased folds text.now) (cased folds part.now) }
{
    if folds {
        contains_folded(text, part)
    } else {
        memmem::find(text, part).is_some()
    }
}

/// Whether two texts compare so, where `folds` makes ASCII letters alike (Conditional Statement Syntax,
/// "Comparison Operators" and "Substring Operators").
pub fn compare_texts(relation: Relation, folds: bool, left: &[u8], right: &[u8]) -> bool
    ensures { result ≡ spec.compare_texts relation (cased folds left.now) (cased folds right.now) }
{
    match relation {
        Relation::Equal => order(folds, left, right).is_eq(),
        Relation::NotEqual => order(folds, left, right).is_ne(),
        Relation::Greater => order(folds, left, right).is_gt(),
        Relation::GreaterOrEqual => order(folds, left, right).is_ge(),
        Relation::Less => order(folds, left, right).is_lt(),
        Relation::LessOrEqual => order(folds, left, right).is_le(),
        Relation::Contains => contains(folds, left, right),
        Relation::BeginsWith => begins_with(folds, left, right),
        Relation::EndsWith => ends_with(folds, left, right),
    }
}

/// Whether two sides compare so where one is an integer or a state: false where the other spells no
/// integer, and true for `<>`.
pub fn compare_numbers(relation: Relation, left: Option<i32>, right: Option<i32>) -> bool
    ensures { result ≡ spec.compare_numbers relation left right }
{
    match (left, right) {
        (Some(left), Some(right)) => compare_integers(relation, left, right),
        _ => relation == Relation::NotEqual,
    }
}
