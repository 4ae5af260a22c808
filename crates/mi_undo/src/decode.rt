//! Reading a note of an entry.

ghost use Rattle.std.specs.Prelude.{◌≡◌, ◌+◌, ◌<◌, ◌≤◌, ◌^◌, ℕ, drop, length, IfOk, IfSome, IsErrOf};
ghost use Rattle.std.specs.Option.{option_map};
ghost use Rattle.std.specs.Int.{w64, from_be_bytes};
ghost use Rattle.std.specs.FinMap.{get};
ghost use Rattle.mi_volume.specs.Maps.{bytes_or_none};
ghost use Rattle.mi_volume.specs.State.{Passes, Rose};
ghost use Rattle.mi_undo.specs.Names.{entry_name};
ghost use Rattle.mi_undo.specs.Notes.{split_at, blob_at};
ghost use Rattle.mi_undo.specs.Reading.{Looks, head_at, good_name, good_note, note_placed, span_placed};

use crate::kept::{Place, Span};
use crate::names::is_within;
use mi_text::Name;
use mi_volume::{VolFault, Volume};
use std::alloc::Global;
use std::str;

/// The most bytes of a note before its old bytes: the tag, two lengths and the name.
const LONGEST_HEAD: u64 = 1_037;

/// A note's tag and the length of its name.
fn read_head<V: Volume>(
    alloc: Global,
    vol: &mut V,
    entry: &Name,
    at: u64,
) -> Result<Option<(u8, u32)>, VolFault>
    ensures value { V.told → IfOk result (λ o. o ≡ head_at (drop at (bytes_or_none (get (V.state vol.old).held entry.now)))) }
    ensures looks { V.told → Looks (V.state vol.old) (V.state vol.new) }
    ensures passes { Passes (V.state vol.old) (V.state vol.new) }
    ensures fault { IsErrOf result VolFault.Failed → Rose (V.state vol.old) (V.state vol.new) }
{
    let bytes = vol.read(alloc, entry, at, 5)?;
    match *bytes.as_slice() {
        [tag, a, b, c, d] => Ok(Some((tag, u32::from_be_bytes([a, b, c, d])))),
        _ => Ok(None),
    }
}

/// The name of this length that stands at `at`, if it can be a noted one.
fn read_name<V: Volume>(
    alloc: Global,
    vol: &mut V,
    entry: &Name,
    at: u64,
    len: u32,
) -> Result<Option<Name>, VolFault>
    ensures value { V.told → IfOk result (λ o. o ≡ good_name len (drop at (bytes_or_none (get (V.state vol.old).held entry.now)))) }
    ensures short { IfOk result (λ o. IfSome o (λ n. len ≤ 1024)) }
    ensures looks { V.told → Looks (V.state vol.old) (V.state vol.new) }
    ensures passes { Passes (V.state vol.old) (V.state vol.new) }
    ensures fault { IsErrOf result VolFault.Failed → Rose (V.state vol.old) (V.state vol.new) }
{
    if len == 0 || len > 1_024 {
        return Ok(None);
    }
    let bytes = vol.read(alloc, entry, at, len as usize)?;
    let bytes = bytes.as_slice();
    if bytes.len() != len as usize {
        return Ok(None);
    }
    let Ok(text) = str::from_utf8(bytes) else {
        return Ok(None);
    };
    match Name::of(alloc, text) {
        Ok(name) if is_within(&name) => Ok(None),
        Ok(name) => Ok(Some(name)),
        Err(_) => Err(VolFault::NoMemory),
    }
}

/// The eight bytes at `at` as a length.
fn read_length<V: Volume>(
    alloc: Global,
    vol: &mut V,
    entry: &Name,
    at: u64,
) -> Result<Option<u64>, VolFault>
    ensures value { V.told → IfOk result (λ o. o ≡ option_map (λ p. from_be_bytes w64 p.0) (split_at 8 (drop at (bytes_or_none (get (V.state vol.old).held entry.now))))) }
    ensures looks { V.told → Looks (V.state vol.old) (V.state vol.new) }
    ensures passes { Passes (V.state vol.old) (V.state vol.new) }
    ensures fault { IsErrOf result VolFault.Failed → Rose (V.state vol.old) (V.state vol.new) }
{
    let bytes = vol.read(alloc, entry, at, 8)?;
    match *bytes.as_slice() {
        [a, b, c, d, e, f, g, h] => Ok(Some(u64::from_be_bytes([a, b, c, d, e, f, g, h]))),
        _ => Ok(None),
    }
}

/// The run of the old bytes whose length stands at `at`, in an entry of so many bytes.
fn read_span<V: Volume>(
    alloc: Global,
    vol: &mut V,
    entry: &Name,
    at: u64,
    total: u64,
) -> Result<Option<Span>, VolFault>
    requires { at + 8 < 2 ^ 64 }
    ensures value { V.told → total ≡ length (bytes_or_none (get (V.state vol.old).held entry.now))
        → IfOk result (λ o. blob_at (drop at (bytes_or_none (get (V.state vol.old).held entry.now))) ≡ span_placed (bytes_or_none (get (V.state vol.old).held entry.now)) o) }
    ensures later { IfOk result (λ o. IfSome o (λ s. at < s.end)) }
    ensures looks { V.told → Looks (V.state vol.old) (V.state vol.new) }
    ensures passes { Passes (V.state vol.old) (V.state vol.new) }
    ensures fault { IsErrOf result VolFault.Failed → Rose (V.state vol.old) (V.state vol.new) }
{
    let Some(len) = read_length(alloc, vol, entry, at)? else {
        return Ok(None);
    };
    let at = at + 8;
    if len > total.saturating_sub(at) {
        return Ok(None);
    }
    Ok(Some(Span { at, end: at + len }))
}

/// The place of the note that stands at `at`, and where the next one begins; or None where no note
/// is spelled there.
pub(crate) fn read_note<V: Volume>(
    alloc: Global,
    vol: &mut V,
    entry: &Name,
    number: u32,
    at: u64,
    total: u64,
) -> Result<Option<(Place, u64)>, VolFault>
    ensures value { V.told → entry.now ≡ entry_name number → total ≡ length (bytes_or_none (get (V.state vol.old).held entry.now))
        → IfOk result (λ o. good_note (drop at (bytes_or_none (get (V.state vol.old).held entry.now))) ≡ note_placed (V.state vol.old).held (bytes_or_none (get (V.state vol.old).held entry.now)) o) }
    ensures number { IfOk result (λ o. IfSome o (λ p. p.0.entry ≡ number)) }
    ensures later { IfOk result (λ o. IfSome o (λ p. at < p.1)) }
    ensures looks { V.told → Looks (V.state vol.old) (V.state vol.new) }
    ensures passes { Passes (V.state vol.old) (V.state vol.new) }
    ensures fault { IsErrOf result VolFault.Failed → Rose (V.state vol.old) (V.state vol.new) }
{
    if at > u64::MAX - LONGEST_HEAD {
        return Err(VolFault::NoMemory);
    }
    let Some((tag, len)) = read_head(alloc, vol, entry, at)? else {
        return Ok(None);
    };
    let Some(name) = read_name(alloc, vol, entry, at + 5, len)? else {
        return Ok(None);
    };
    if tag > 1 {
        return Ok(None);
    }
    let at = at + 5 + u64::from(len);
    if tag == 0 {
        return Ok(Some((
            Place {
                name,
                entry: number,
                old: None,
            },
            at,
        )));
    }
    let Some(span) = read_span(alloc, vol, entry, at, total)? else {
        return Ok(None);
    };
    Ok(Some((
        Place {
            name,
            entry: number,
            old: Some(span),
        },
        span.end,
    )))
}
