//! The length that a record states, by a walk over the lengths in it, wherever they stand.

ghost use Rattle.std.specs.Prelude.{◌≡◌, ◌≤◌, ◌-◌, List, ℕ, OnOk, IfOk, IsErrOf, length, take, drop};
ghost use Rattle.std.specs.Int.{w16, w32};
ghost use Rattle.std.specs.FinMap.{get};
ghost use Rattle.mi_volume.specs.Maps.{bytes_or_none};
ghost use Rattle.mi_volume.specs.State.{Passes, Rose};
ghost use Rattle.mi_image.specs.Looks.{OnlyLooks};
ghost use Rattle.mi_image.specs.Stated.{byte_of, number_of, further, text_end, texts_end, list_end, kind_payload_end, payload_end, value_end, shortcut_end, product_end, kind_end, stated_length, Shows};

use crate::window::Window;
use mi_base::Name;
use mi_volume::{PIECE, VolFault, Volume};
use std::alloc::Global;

/// A window on a record of `size` bytes from this place on.
fn window_at<V: Volume>(
    alloc: Global,
    vol: &mut V,
    name: &Name,
    size: u64,
    at: u64,
) -> Result<Window, VolFault>
    ensures shows { V.told → let whole = bytes_or_none (get (V.state vol.old).held name.now) in length whole ≡ size → IfOk result (λ window. Shows (V.state vol.new) name.now window whole) }
    ensures place { IfOk result (λ window. window.at ≡ at) }
    ensures looks { V.told → OnlyLooks (V.state vol.old) (V.state vol.new) }
    ensures passes { Passes (V.state vol.old) (V.state vol.new) }
    ensures failed { IsErrOf result VolFault.Failed → Rose (V.state vol.old) (V.state vol.new) }
{
    let bytes = vol.read(alloc, name, at, PIECE)?;
    Ok(Window { size, at, bytes })
}

/// Reads the window anew where the bytes at this place, as many as are wanted, aren't all in it.
fn turn<V: Volume>(
    alloc: Global,
    vol: &mut V,
    name: &Name,
    window: &mut Window,
    at: u64,
    want: usize,
) -> Result<(), VolFault>
    requires { want ≤ PIECE }
    ensures shows { V.told → (whole : List ℕ) → Shows (V.state vol.old) name.now window.old whole → Shows (V.state vol.new) name.now window.new whole }
    ensures front { V.told → (whole : List ℕ) → Shows (V.state vol.old) name.now window.old whole → OnOk result (take want (drop (at - window.new.at) window.new.bytes) ≡ take want (drop at whole)) }
    ensures looks { V.told → OnlyLooks (V.state vol.old) (V.state vol.new) }
    ensures passes { Passes (V.state vol.old) (V.state vol.new) }
    ensures failed { IsErrOf result VolFault.Failed → Rose (V.state vol.old) (V.state vol.new) }
{
    if window.at <= at && at - window.at <= (PIECE - want) as u64 {
        return Ok(());
    }
    let size = window.size;
    *window = window_at(alloc, vol, name, size, at)?;
    Ok(())
}

/// The first byte.
fn byte_of(bytes: &[u8]) -> Option<u8>
    ensures { result ≡ byte_of bytes.now }
{
    match *bytes {
        [byte, ..] => Some(byte),
        [] => None,
    }
}

/// The number that two bytes are.
fn u16_of(bytes: &[u8]) -> Option<u16>
    ensures { result ≡ number_of w16 bytes.now }
{
    if bytes.len() == 2 {
        Some(u16::from_be_bytes([bytes[0], bytes[1]]))
    } else {
        None
    }
}

/// The number that four bytes are.
fn u32_of(bytes: &[u8]) -> Option<u32>
    ensures { result ≡ number_of w32 bytes.now }
{
    if bytes.len() == 4 {
        Some(u32::from_be_bytes([bytes[0], bytes[1], bytes[2], bytes[3]]))
    } else {
        None
    }
}

/// So many bytes behind a place, where a record of `size` bytes has them.
fn further(size: u64, at: u64, count: u64) -> Option<u64>
    ensures { result ≡ further size at count }
{
    if at > size || count > size - at {
        None
    } else {
        Some(at + count)
    }
}

/// Where the text ends that begins at this place.
fn text_end<V: Volume>(
    alloc: Global,
    vol: &mut V,
    name: &Name,
    window: &mut Window,
    at: u64,
) -> Result<Option<u64>, VolFault>
    ensures shows { V.told → (whole : List ℕ) → Shows (V.state vol.old) name.now window.old whole → Shows (V.state vol.new) name.now window.new whole }
    ensures value { V.told → (whole : List ℕ) → Shows (V.state vol.old) name.now window.old whole → IfOk result (λ end. end ≡ text_end whole at) }
    ensures looks { V.told → OnlyLooks (V.state vol.old) (V.state vol.new) }
    ensures passes { Passes (V.state vol.old) (V.state vol.new) }
    ensures failed { IsErrOf result VolFault.Failed → Rose (V.state vol.old) (V.state vol.new) }
{
    turn(alloc, vol, name, window, at, 4)?;
    match u32_of(window.front(at, 4)) {
        Some(length) => Ok(further(window.size, at, 4 + u64::from(length))),
        None => Ok(None),
    }
}

/// Where so many texts end, of which the first begins at this place.
fn texts_end<V: Volume>(
    alloc: Global,
    vol: &mut V,
    name: &Name,
    window: &mut Window,
    at: u64,
    count: u16,
) -> Result<Option<u64>, VolFault>
    ensures shows { V.told → (whole : List ℕ) → Shows (V.state vol.old) name.now window.old whole → Shows (V.state vol.new) name.now window.new whole }
    ensures value { V.told → (whole : List ℕ) → Shows (V.state vol.old) name.now window.old whole → IfOk result (λ end. end ≡ texts_end whole at count) }
    ensures looks { V.told → OnlyLooks (V.state vol.old) (V.state vol.new) }
    ensures passes { Passes (V.state vol.old) (V.state vol.new) }
    ensures failed { IsErrOf result VolFault.Failed → Rose (V.state vol.old) (V.state vol.new) }
{
    let mut end = at;
    for _ in 0..count {
        let Some(next) = text_end(alloc, vol, name, window, end)? else {
            return Ok(None);
        };
        end = next;
    }
    Ok(Some(end))
}

/// Where a count and as many texts end that begin at this place.
fn list_end<V: Volume>(
    alloc: Global,
    vol: &mut V,
    name: &Name,
    window: &mut Window,
    at: u64,
) -> Result<Option<u64>, VolFault>
    ensures shows { V.told → (whole : List ℕ) → Shows (V.state vol.old) name.now window.old whole → Shows (V.state vol.new) name.now window.new whole }
    ensures value { V.told → (whole : List ℕ) → Shows (V.state vol.old) name.now window.old whole → IfOk result (λ end. end ≡ list_end whole at) }
    ensures looks { V.told → OnlyLooks (V.state vol.old) (V.state vol.new) }
    ensures passes { Passes (V.state vol.old) (V.state vol.new) }
    ensures failed { IsErrOf result VolFault.Failed → Rose (V.state vol.old) (V.state vol.new) }
{
    turn(alloc, vol, name, window, at, 2)?;
    let Some(count) = u16_of(window.front(at, 2)) else {
        return Ok(None);
    };
    let Some(first) = further(window.size, at, 2) else {
        return Ok(None);
    };
    texts_end(alloc, vol, name, window, first, count)
}

/// Where what a value of this kind holds ends, which begins at this place.
fn kind_payload_end<V: Volume>(
    alloc: Global,
    vol: &mut V,
    name: &Name,
    window: &mut Window,
    at: u64,
    kind: u8,
) -> Result<Option<u64>, VolFault>
    ensures shows { V.told → (whole : List ℕ) → Shows (V.state vol.old) name.now window.old whole → Shows (V.state vol.new) name.now window.new whole }
    ensures value { V.told → (whole : List ℕ) → Shows (V.state vol.old) name.now window.old whole → IfOk result (λ end. end ≡ kind_payload_end whole at kind) }
    ensures looks { V.told → OnlyLooks (V.state vol.old) (V.state vol.new) }
    ensures passes { Passes (V.state vol.old) (V.state vol.new) }
    ensures failed { IsErrOf result VolFault.Failed → Rose (V.state vol.old) (V.state vol.new) }
{
    match kind {
        1 | 2 | 4 => text_end(alloc, vol, name, window, at),
        3 => Ok(further(window.size, at, 4)),
        5 => list_end(alloc, vol, name, window, at),
        _ => Ok(None),
    }
}

/// Where the kind of a value and what it holds end.
fn payload_end<V: Volume>(
    alloc: Global,
    vol: &mut V,
    name: &Name,
    window: &mut Window,
    at: u64,
) -> Result<Option<u64>, VolFault>
    ensures shows { V.told → (whole : List ℕ) → Shows (V.state vol.old) name.now window.old whole → Shows (V.state vol.new) name.now window.new whole }
    ensures value { V.told → (whole : List ℕ) → Shows (V.state vol.old) name.now window.old whole → IfOk result (λ end. end ≡ payload_end whole at) }
    ensures looks { V.told → OnlyLooks (V.state vol.old) (V.state vol.new) }
    ensures passes { Passes (V.state vol.old) (V.state vol.new) }
    ensures failed { IsErrOf result VolFault.Failed → Rose (V.state vol.old) (V.state vol.new) }
{
    turn(alloc, vol, name, window, at, 1)?;
    let Some(kind) = byte_of(window.front(at, 1)) else {
        return Ok(None);
    };
    let Some(first) = further(window.size, at, 1) else {
        return Ok(None);
    };
    kind_payload_end(alloc, vol, name, window, first, kind)
}

/// Where a value ends.
fn value_end<V: Volume>(
    alloc: Global,
    vol: &mut V,
    name: &Name,
    window: &mut Window,
) -> Result<Option<u64>, VolFault>
    ensures shows { V.told → (whole : List ℕ) → Shows (V.state vol.old) name.now window.old whole → Shows (V.state vol.new) name.now window.new whole }
    ensures value { V.told → (whole : List ℕ) → Shows (V.state vol.old) name.now window.old whole → IfOk result (λ end. end ≡ value_end whole) }
    ensures looks { V.told → OnlyLooks (V.state vol.old) (V.state vol.new) }
    ensures passes { Passes (V.state vol.old) (V.state vol.new) }
    ensures failed { IsErrOf result VolFault.Failed → Rose (V.state vol.old) (V.state vol.new) }
{
    let Some(shown) = text_end(alloc, vol, name, window, 0)? else {
        return Ok(None);
    };
    payload_end(alloc, vol, name, window, shown)
}

/// Where a product ends.
fn product_end<V: Volume>(
    alloc: Global,
    vol: &mut V,
    name: &Name,
    window: &mut Window,
) -> Result<Option<u64>, VolFault>
    ensures shows { V.told → (whole : List ℕ) → Shows (V.state vol.old) name.now window.old whole → Shows (V.state vol.new) name.now window.new whole }
    ensures value { V.told → (whole : List ℕ) → Shows (V.state vol.old) name.now window.old whole → IfOk result (λ end. end ≡ product_end whole) }
    ensures looks { V.told → OnlyLooks (V.state vol.old) (V.state vol.new) }
    ensures passes { Passes (V.state vol.old) (V.state vol.new) }
    ensures failed { IsErrOf result VolFault.Failed → Rose (V.state vol.old) (V.state vol.new) }
{
    let Some(shown) = text_end(alloc, vol, name, window, 0)? else {
        return Ok(None);
    };
    let Some(language) = further(window.size, shown, 10) else {
        return Ok(None);
    };
    list_end(alloc, vol, name, window, language)
}

/// Where a shortcut ends.
fn shortcut_end<V: Volume>(
    alloc: Global,
    vol: &mut V,
    name: &Name,
    window: &mut Window,
) -> Result<Option<u64>, VolFault>
    ensures shows { V.told → (whole : List ℕ) → Shows (V.state vol.old) name.now window.old whole → Shows (V.state vol.new) name.now window.new whole }
    ensures value { V.told → (whole : List ℕ) → Shows (V.state vol.old) name.now window.old whole → IfOk result (λ end. end ≡ shortcut_end whole) }
    ensures looks { V.told → OnlyLooks (V.state vol.old) (V.state vol.new) }
    ensures passes { Passes (V.state vol.old) (V.state vol.new) }
    ensures failed { IsErrOf result VolFault.Failed → Rose (V.state vol.old) (V.state vol.new) }
{
    let Some(description) = texts_end(alloc, vol, name, window, 0, 4)? else {
        return Ok(None);
    };
    let Some(hot_key) = further(window.size, description, 2) else {
        return Ok(None);
    };
    let Some(icon) = text_end(alloc, vol, name, window, hot_key)? else {
        return Ok(None);
    };
    let Some(show) = further(window.size, icon, 4) else {
        return Ok(None);
    };
    text_end(alloc, vol, name, window, show)
}

/// Where the record of an entry of this kind ends.
#[tactic(auto, unfolding(crate::specs::Stated::kind_end))]
fn kind_end<V: Volume>(
    alloc: Global,
    vol: &mut V,
    name: &Name,
    window: &mut Window,
    kind: u8,
) -> Result<Option<u64>, VolFault>
    ensures shows { V.told → (whole : List ℕ) → Shows (V.state vol.old) name.now window.old whole → Shows (V.state vol.new) name.now window.new whole }
    ensures value { V.told → (whole : List ℕ) → Shows (V.state vol.old) name.now window.old whole → IfOk result (λ end. end ≡ kind_end kind whole) }
    ensures looks { V.told → OnlyLooks (V.state vol.old) (V.state vol.new) }
    ensures passes { Passes (V.state vol.old) (V.state vol.new) }
    ensures failed { IsErrOf result VolFault.Failed → Rose (V.state vol.old) (V.state vol.new) }
{
    match kind {
        b'c' | b'd' | b'k' | b'y' => text_end(alloc, vol, name, window, 0),
        b'n' => texts_end(alloc, vol, name, window, 0, 2),
        b'p' => product_end(alloc, vol, name, window),
        b's' => shortcut_end(alloc, vol, name, window),
        b'v' => value_end(alloc, vol, name, window),
        _ => Ok(None),
    }
}

/// The length that a record of `size` bytes states, where it goes on for as long. A window is read anew where the next
/// length lies outside it, so what stands between is passed over.
pub fn stated_length<V: Volume>(
    alloc: Global,
    vol: &mut V,
    name: &Name,
    size: u64,
) -> Result<Option<u64>, VolFault>
    ensures value { V.told → let whole = bytes_or_none (get (V.state vol.old).held name.now) in length whole ≡ size → IfOk result (λ end. end ≡ stated_length name.now whole) }
    ensures looks { V.told → OnlyLooks (V.state vol.old) (V.state vol.new) }
    ensures passes { Passes (V.state vol.old) (V.state vol.new) }
    ensures failed { IsErrOf result VolFault.Failed → Rose (V.state vol.old) (V.state vol.new) }
{
    let mut window = window_at(alloc, vol, name, size, 0)?;
    match name.as_bytes() {
        [kind, ..] => kind_end(alloc, vol, name, &mut window, *kind),
        [] => Ok(None),
    }
}
