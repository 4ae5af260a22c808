//! Expanding formatted text in one scan.
//!
//! `expand_within` keeps of each text in the making (one for each open mark, and the one after
//! them) no more bytes than the limit and the formatted text together, or than the longest name of
//! the look-ups (`BoundedEnv`). Of a longer one it keeps that it is longer, what its brackets name,
//! its first byte, and whether all its bytes may be in the name of a property: no look-up has a
//! name of that length, so a bracket around it is empty where it is looked up, and text where it
//! isn't. It isn't refused yet, since in a brace or as a name it may still vanish. A value that
//! makes a text longer than is kept is read where it is named, up to the first byte that no
//! property name has, so the time is at worst the product of the brackets and the values that they
//! name. `expand` asks for no bound and keeps every text.

ghost use Rattle.std.specs.Prelude.{◌≡◌, ◌≤◌, ℕ, List, Ok, IfOk, OnOk, IsErrOf};
ghost use Rattle.mi_text.specs.Lookups.{Lookups};
ghost use Rattle.mi_format.specs.Bounds.{AreShort};
ghost use Rattle.mi_format.specs.Kept.{kept, in_limit, IsRoom};
ghost use Rattle.mi_format.specs.Expansion.{IsExpansion, IsTooDeep, expand_of, expanded, within, expanded_within};
ghost use Rattle.mi_format.specs.Answers.{Expands, ExpandsWithin};

use crate::bounded::BoundedEnv;
use crate::depth::is_too_deep;
use crate::error::{FormatError, FormatFault, LimitError, LimitFault};
use crate::open_marks::has_open_mark;
use crate::part::{Held, Room};
use crate::scan::Scan;
use crate::tokens::next_token;
use mi_text::{Env, NoMemory, Text};
use std::alloc::Global;

// The text, where it has no more bytes than the limit.
fn within(limit: usize, text: Held) -> Option<Text>
    ensures { (most : ℕ) (value : List ℕ) → limit ≤ most → text ≡ kept most value → result ≡ in_limit limit value }
{
    match text {
        Held::Whole(text) if text.len() <= limit => Some(text),
        Held::Whole(_) | Held::Longer(_) => None,
    }
}

// The value of a text by its whole groups, and None where it has more bytes than the limit. A text that is longer than is
// kept may still vanish, in a brace or as a name that isn't held.
fn value_within<E: Env>(
    alloc: Global,
    text: &str,
    env: &E,
    limit: usize,
    room: Room,
) -> Result<Option<Text>, NoMemory>
    requires limit { limit ≤ room.most }
    requires room { IsRoom (E.lookups env.now) room }
    ensures { IfOk result (λ v. v ≡ in_limit limit (expand_of (E.lookups env.now) text.now)) }
{
    let mut scan = Scan::new(alloc);
    let mut rest = text;
    while let Some((token, behind)) = next_token(rest) {
        rest = behind;
        scan = scan.step(alloc, room, env, token)?;
        if scan.is_past(limit) {
            return Ok(None);
        }
    }
    let value = scan.end(room.most)?;
    Ok(within(limit, value))
}

// What is kept for a limit: texts as long as the limit and the formatted text together, and each name that is held.
fn room_within(text: &str, limit: usize, bound: usize) -> Room
    ensures limit { limit ≤ result.most }
    ensures names { (L : Lookups) → AreShort L bound → IsRoom L result }
{
    let most = limit.saturating_add(text.len()).max(bound).max(1);
    Room { most, names: true }
}

// The text itself, where it has at most `limit` bytes.
fn copied_within(alloc: Global, text: &str, limit: usize) -> Result<Text, LimitError>
    ensures { ExpandsWithin result (within limit (Ok text.now)) }
{
    if text.len() > limit {
        return Err(LimitError::Fault(LimitFault::TooLong));
    }
    Ok(Text::copy_of(alloc, text)?)
}

/// The expansion of a formatted text (Formatted).
///
/// A group is an open mark, an inside and the close of its kind. A bracket whose expanded inside names something
/// is that value: `~` a byte 0, `%` and a name an environment variable, `#` or `!` and a File key a path, `$` and
/// a Component key a folder, a property name its value. A brace with no bracket directly in it that names something
/// stays; it vanishes where one of them is empty; else it loses its braces. `[\` and a character up to the next `]`
/// is that character. Marks without a partner are text, and a value isn't scanned again.
///
/// Refused with `TooDeep` where some prefix of the text's tokens has more than 64 open marks whose groups don't end in it.
pub fn expand<E: Env>(alloc: Global, text: &str, env: &E) -> Result<Text, FormatError>
    ensures value { Expands result (expanded (E.lookups env.now) text.now) }
    ensures groups { IfOk result (λ t. IsExpansion (E.lookups env.now) text.now t) }
    ensures only { IfOk result (λ t. (x : List ℕ) → IsExpansion (E.lookups env.now) text.now x → x ≡ t) }
    ensures shallow { OnOk result (IsTooDeep text.now → ⊥) }
    ensures deep { IsErrOf result (FormatError.Fault FormatFault.TooDeep) → IsTooDeep text.now }
{
    if !has_open_mark(text) {
        return Ok(Text::copy_of(alloc, text)?);
    }
    let deep = is_too_deep(alloc, text)?;
    if deep {
        return Err(FormatError::Fault(FormatFault::TooDeep));
    }
    // No text in memory has more bytes than a usize counts, so each is kept.
    let room = Room {
        most: usize::MAX,
        names: false,
    };
    let kept = value_within(alloc, text, env, usize::MAX, room)?;
    match kept {
        Some(value) => Ok(value),
        None => Err(FormatError::NoMemory),
    }
}

/// The expansion of a formatted text (Formatted) where it has at most `limit` bytes.
///
/// Refused with `TooDeep` as by `expand`, else with `TooLong` exactly where the expansion has more bytes than the limit. It
/// ends as soon as the text outside of all groups does. Its memory is bounded by the text, the limit and the longest name
/// that is held, however long the values are.
pub fn expand_within<E: BoundedEnv>(
    alloc: Global,
    text: &str,
    env: &E,
    limit: usize,
) -> Result<Text, LimitError>
    ensures { ExpandsWithin result (expanded_within limit (E.lookups env.now) text.now) }
{
    if !has_open_mark(text) {
        return copied_within(alloc, text, limit);
    }
    let deep = is_too_deep(alloc, text)?;
    if deep {
        return Err(LimitError::Fault(LimitFault::TooDeep));
    }
    let room = room_within(text, limit, env.name_bound());
    let kept = value_within(alloc, text, env, limit, room)?;
    match kept {
        Some(value) => Ok(value),
        None => Err(LimitError::Fault(LimitFault::TooLong)),
    }
}
