//! Reading the fields of records from left to right.

ghost use Rattle.std.specs.Prelude.{◌≡◌, None};
ghost use Rattle.std.specs.Option.{option_copied};
ghost use Rattle.std.specs.Int.{w16, w32, w64};
ghost use Rattle.mi_text.specs.Fold.{folded};
ghost use Rattle.std.specs.Str.{bytes_eq};
ghost use Rattle.mi_base.specs.Limits.{is_above};
ghost use Rattle.std.specs.Prelude.{nat_lt};
ghost use Rattle.mi_base.specs.Reading.{Gives, number_at, bytes_at, text_at, shown_at, items_at, texts_at, text_follows, rising_numbers_at, four_numbers_at, version_at, payload_at, value_at};

use crate::collections::{Languages, Texts};
use crate::entry::RegValue;
use crate::limits::is_text_above;
use crate::rec_error::{RecError, RecFault};
use mi_text::{Bytes, Text, Version};
use std::alloc::Global;
use std::str;

/// Which text may follow another.
#[derive(Clone, Copy)]
pub enum Order {
    /// Any.
    Any,
    /// One that is above it, by bytes.
    Rising,
}

/// A u16, and what stands behind it.
pub fn u16_at(bytes: &[u8]) -> Result<(u16, &[u8]), RecError>
    ensures { Gives (λ x. (x.0, x.1.now)) result (number_at w16 bytes.now) }
{
    if bytes.len() < 2 {
        return Err(RecError::Fault(RecFault::Short));
    }
    let (front, rest) = bytes.split_at(2);
    Ok((u16::from_be_bytes([front[0], front[1]]), rest))
}

/// A u32, and what stands behind it.
pub fn u32_at(bytes: &[u8]) -> Result<(u32, &[u8]), RecError>
    ensures { Gives (λ x. (x.0, x.1.now)) result (number_at w32 bytes.now) }
{
    if bytes.len() < 4 {
        return Err(RecError::Fault(RecFault::Short));
    }
    let (front, rest) = bytes.split_at(4);
    Ok((
        u32::from_be_bytes([front[0], front[1], front[2], front[3]]),
        rest,
    ))
}

/// A u64, and what stands behind it.
pub fn u64_at(bytes: &[u8]) -> Result<(u64, &[u8]), RecError>
    ensures { Gives (λ x. (x.0, x.1.now)) result (number_at w64 bytes.now) }
{
    if bytes.len() < 8 {
        return Err(RecError::Fault(RecFault::Short));
    }
    let (front, rest) = bytes.split_at(8);
    let number = u64::from_be_bytes([
        front[0], front[1], front[2], front[3], front[4], front[5], front[6], front[7],
    ]);
    Ok((number, rest))
}

// A length, and as many bytes.
#[tactic(auto, unfolding(crate::specs::Reading::bytes_at))]
fn slice_at(bytes: &[u8]) -> Result<(&[u8], &[u8]), RecError>
    ensures { Gives (λ x. (x.0.now, x.1.now)) result (bytes_at bytes.now) }
{
    let (len, rest) = u32_at(bytes)?;
    let len = len as usize;
    if rest.len() < len {
        return Err(RecError::Fault(RecFault::Short));
    }
    Ok(rest.split_at(len))
}

// A length, and as many bytes, which are copied.
fn bytes_at(alloc: Global, bytes: &[u8]) -> Result<(Bytes, &[u8]), RecError>
    ensures { Gives (λ x. (x.0, x.1.now)) result (bytes_at bytes.now) }
{
    let (items, rest) = slice_at(bytes)?;
    Ok((Bytes::copy_of(alloc, items)?, rest))
}

/// A text as it stands in the bytes, and what stands behind it. No memory.
#[tactic(auto, unfolding(crate::specs::Reading::text_at))]
pub fn str_at(bytes: &[u8]) -> Result<(&str, &[u8]), RecError>
    ensures { Gives (λ x. (x.0.now, x.1.now)) result (text_at bytes.now) }
{
    let (text, rest) = slice_at(bytes)?;
    match str::from_utf8(text) {
        Ok(text) => Ok((text, rest)),
        Err(_) => Err(RecError::Fault(RecFault::Field)),
    }
}

/// A text, and what stands behind it.
pub fn text_at(alloc: Global, bytes: &[u8]) -> Result<(Text, &[u8]), RecError>
    ensures { Gives (λ x. (x.0, x.1.now)) result (text_at bytes.now) }
{
    let (text, rest) = str_at(bytes)?;
    Ok((Text::copy_of(alloc, text)?, rest))
}

/// Whether a text folds to what a name says.
pub fn folds_to(text: &[u8], named: &[u8]) -> bool
    ensures { result ≡ bytes_eq (folded text.now) named.now }
{
    if text.len() != named.len() {
        return false;
    }
    for (i, byte) in text.iter().enumerate() {
        if byte.to_ascii_lowercase() != named[i] {
            return false;
        }
    }
    true
}

/// A text that folds to what a name says, as it stands in the bytes, and what stands behind it. No memory.
#[tactic(auto, unfolding(crate::specs::Reading::shown_at))]
pub fn shown_at<'a>(named: &[u8], bytes: &'a [u8]) -> Result<(&'a str, &'a [u8]), RecError>
    ensures { Gives (λ x. (x.0.now, x.1.now)) result (shown_at named.now bytes.now) }
{
    let (text, rest) = str_at(bytes)?;
    if !folds_to(text.as_bytes(), named) {
        return Err(RecError::Fault(RecFault::Field));
    }
    Ok((text, rest))
}

fn text_follows(order: Order, last: Option<&Text>, text: &Text) -> bool
    ensures { result ≡ text_follows order (option_copied last.entry) text.now }
{
    match order {
        Order::Any => true,
        Order::Rising => is_text_above(last, text),
    }
}

fn many_texts_at(
    alloc: Global,
    order: Order,
    count: u16,
    bytes: &[u8],
) -> Result<(Texts, &[u8]), RecError>
    ensures { Gives (λ x. (x.0, x.1.now)) result (items_at text_at (text_follows order) None count bytes.now) }
{
    let mut items = Vec::new(alloc);
    let mut rest = bytes;
    for _ in 0..count {
        let (text, after) = text_at(alloc, rest)?;
        if !text_follows(order, items.last(), &text) {
            return Err(RecError::Fault(RecFault::Field));
        }
        items.push(text)?;
        rest = after;
    }
    Ok((Texts::from_vec(items), rest))
}

/// A count and as many texts, and what stands behind them.
#[tactic(auto, unfolding(crate::specs::Reading::texts_at))]
pub fn texts_at(alloc: Global, order: Order, bytes: &[u8]) -> Result<(Texts, &[u8]), RecError>
    ensures { Gives (λ x. (x.0, x.1.now)) result (texts_at order bytes.now) }
{
    let (count, rest) = u16_at(bytes)?;
    many_texts_at(alloc, order, count, rest)
}

/// Whether a number is above the one before, if there is one.
pub fn is_above(last: Option<&u16>, number: u16) -> bool
    ensures { result ≡ is_above nat_lt (option_copied last.entry) number }
{
    match last {
        None => true,
        Some(last) => *last < number,
    }
}

fn many_numbers_at(alloc: Global, count: u16, bytes: &[u8]) -> Result<(Languages, &[u8]), RecError>
    ensures { Gives (λ x. (x.0, x.1.now)) result (items_at (number_at w16) (is_above nat_lt) None count bytes.now) }
{
    let mut items = Vec::new(alloc);
    let mut rest = bytes;
    for _ in 0..count {
        let (number, after) = u16_at(rest)?;
        if !is_above(items.last(), number) {
            return Err(RecError::Fault(RecFault::Field));
        }
        items.push(number)?;
        rest = after;
    }
    Ok((Languages::from_vec(items), rest))
}

/// A count and as many numbers, each above the one before, and what stands behind them.
#[tactic(auto, unfolding(crate::specs::Reading::rising_numbers_at))]
pub fn rising_numbers_at(alloc: Global, bytes: &[u8]) -> Result<(Languages, &[u8]), RecError>
    ensures { Gives (λ x. (x.0, x.1.now)) result (rising_numbers_at bytes.now) }
{
    let (count, rest) = u16_at(bytes)?;
    many_numbers_at(alloc, count, rest)
}

/// Four numbers of a version, and what stands behind them.
#[tactic(auto, unfolding(crate::specs::Reading::four_numbers_at))]
pub fn four_numbers_at(bytes: &[u8]) -> Result<(Version, &[u8]), RecError>
    ensures { Gives (λ x. (x.0, x.1.now)) result (four_numbers_at bytes.now) }
{
    let (major, rest) = u16_at(bytes)?;
    let (minor, rest) = u16_at(rest)?;
    let (build, rest) = u16_at(rest)?;
    let (revision, rest) = u16_at(rest)?;
    let version = Version {
        major,
        minor,
        build,
        revision,
    };
    Ok((version, rest))
}

/// A version or none, and what stands behind it.
#[tactic(auto, unfolding(crate::specs::Reading::version_at))]
pub fn version_at(bytes: &[u8]) -> Result<(Option<Version>, &[u8]), RecError>
    ensures { Gives (λ x. (x.0, x.1.now)) result (version_at bytes.now) }
{
    match bytes {
        [] => Err(RecError::Fault(RecFault::Short)),
        [0, rest @ ..] => Ok((None, rest)),
        [1, rest @ ..] => {
            let (version, rest) = four_numbers_at(rest)?;
            Ok((Some(version), rest))
        }
        [_, ..] => Err(RecError::Fault(RecFault::Field)),
    }
}

// What a registry value of this kind holds, and what stands behind it.
fn payload_at(alloc: Global, kind: u8, bytes: &[u8]) -> Result<(RegValue, &[u8]), RecError>
    ensures { Gives (λ x. (x.0, x.1.now)) result (payload_at kind bytes.now) }
{
    match kind {
        1 => match text_at(alloc, bytes) {
            Ok((text, rest)) => Ok((RegValue::Text(text), rest)),
            Err(error) => Err(error),
        },
        2 => match text_at(alloc, bytes) {
            Ok((text, rest)) => Ok((RegValue::Expand(text), rest)),
            Err(error) => Err(error),
        },
        3 => match u32_at(bytes) {
            Ok((number, rest)) => Ok((RegValue::Int(number), rest)),
            Err(error) => Err(error),
        },
        4 => match bytes_at(alloc, bytes) {
            Ok((bytes, rest)) => Ok((RegValue::Binary(bytes), rest)),
            Err(error) => Err(error),
        },
        5 => match texts_at(alloc, Order::Any, bytes) {
            Ok((texts, rest)) => Ok((RegValue::List(texts), rest)),
            Err(error) => Err(error),
        },
        _ => Err(RecError::Fault(RecFault::Field)),
    }
}

/// A registry value, and what stands behind it.
#[tactic(auto, unfolding(crate::specs::Reading::value_at))]
pub fn value_at(alloc: Global, bytes: &[u8]) -> Result<(RegValue, &[u8]), RecError>
    ensures { Gives (λ x. (x.0, x.1.now)) result (value_at bytes.now) }
{
    match bytes {
        [] => Err(RecError::Fault(RecFault::Short)),
        [kind, rest @ ..] => payload_at(alloc, *kind, rest),
    }
}
