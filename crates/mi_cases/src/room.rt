//! A step's run once more: on copies of its volume that have just the room that the run needs, and one byte less.

use crate::held::{Held, key_of};
use crate::ill::Ill;
use crate::orders::{Order, recovery};
use crate::printed::size_of;
use crate::runs::Setting;
use crate::told::{Full, Told};
use crate::trial::{Try, has_area, sound};
use mi_lines::push_escaped;
use std::alloc::Global;

/// What came of a run: what it told, and what is held then, as a key.
#[derive(Drop)]
pub struct Came {
    pub told: Told,
    pub key: Vec<u8>,
}

/// What came of a run, by what it told and what is held then.
pub fn came_by(alloc: Global, told: Told, held: &[Held]) -> Result<Came, Ill> {
    let key = key_of(alloc, held, true)?;
    Ok(Came { told, key })
}

fn outcome_of(alloc: Global, tried: Try<'_>) -> Result<Came, Ill> {
    let (told, held) = sound(alloc, tried.order, tried.setting)?;
    came_by(alloc, told, held.as_slice())
}

/// The same run on a volume of another capacity.
fn at_capacity(alloc: Global, tried: Try<'_>, capacity: u64) -> Result<Came, Ill> {
    let setting = Setting {
        files: tried.setting.files,
        held: tried.setting.held,
        capacity: Some(capacity),
    };
    let order = tried.order;
    outcome_of(alloc, Try { order, setting })
}

/// Adds a line that says what is wrong with a run at a capacity.
fn push_wrong(
    alloc: Global,
    out: &mut Vec<u8>,
    capacity: u64,
    told: &Told,
    what: &str,
) -> Result<(), Ill> {
    let start = format!(in alloc; "with capacity {capacity}: ")?;
    out.extend_from_slice(start.as_bytes())?;
    push_escaped(out, told.text.as_slice())?;
    out.extend_from_slice(what.as_bytes())?;
    out.push(b'\n')?;
    Ok(())
}

fn is_told_alike(one: &Told, other: &Told) -> bool {
    one.marks.status == other.marks.status
        && one.marks.reached == other.marks.reached
        && one.text.as_slice() == other.text.as_slice()
        && one.log.as_slice() == other.log.as_slice()
}

/// Adds a line for what differs from the run without a capacity.
fn push_same(
    alloc: Global,
    out: &mut Vec<u8>,
    capacity: u64,
    came: &Came,
    plain: &Came,
) -> Result<(), Ill> {
    if !is_told_alike(&came.told, &plain.told) {
        push_wrong(alloc, out, capacity, &came.told, ", another answer")?;
    }
    if came.key.as_slice() != plain.key.as_slice() {
        push_wrong(alloc, out, capacity, &came.told, ", another machine")?;
    }
    Ok(())
}

/// A log without its last line.
fn begun(log: &[u8]) -> &[u8] {
    let lines = log.strip_suffix(b"\n").unwrap_or(log);
    match lines.iter().rposition(|byte| *byte == b'\n') {
        Some(place) => log.get(..place).unwrap_or(&[]),
        None => &[],
    }
}

/// Adds a line for what is wrong with a refusal for want of room.
fn push_refused(
    alloc: Global,
    out: &mut Vec<u8>,
    capacity: u64,
    full: Full,
    came: &Came,
    plain: &Came,
    former: &[u8],
) -> Result<(), Ill> {
    if came.told.marks.full != Some(full) {
        push_wrong(alloc, out, capacity, &came.told, ", not the refusal")?;
    }
    if came.key.as_slice() != former {
        push_wrong(alloc, out, capacity, &came.told, ", a changed machine")?;
    }
    if !plain
        .told
        .log
        .as_slice()
        .starts_with(begun(came.told.log.as_slice()))
    {
        push_wrong(alloc, out, capacity, &came.told, ", another log")?;
    }
    Ok(())
}

/// Tries a run that needs so much beyond what is held with that and with one byte less.
fn push_at_need(
    alloc: Global,
    out: &mut Vec<u8>,
    tried: Try<'_>,
    size: u64,
    need: u64,
    plain: &Came,
    former: &[u8],
) -> Result<(), Ill> {
    let fits = size.saturating_add(need);
    let exact = at_capacity(alloc, tried, fits)?;
    push_same(alloc, out, fits, &exact, plain)?;
    let free = need.saturating_sub(1);
    let below = at_capacity(alloc, tried, size.saturating_add(free))?;
    let full = Full { need, free };
    push_refused(
        alloc,
        out,
        size.saturating_add(free),
        full,
        &below,
        plain,
        former,
    )
}

/// Tries a run on a volume that is full, and where it needs room with just that.
fn push_tried(alloc: Global, out: &mut Vec<u8>, tried: Try<'_>, plain: &Came) -> Result<(), Ill> {
    let size = size_of(tried.setting.held);
    let tight = at_capacity(alloc, tried, size)?;
    let Some(full) = tight.told.marks.full else {
        return push_same(alloc, out, size, &tight, plain);
    };
    let former = key_of(alloc, tried.setting.held, true)?;
    let none = Full {
        need: full.need,
        free: 0,
    };
    push_refused(alloc, out, size, none, &tight, plain, former.as_slice())?;
    push_at_need(alloc, out, tried, size, full.need, plain, former.as_slice())
}

/// What the volume stands for, where a recovery says so.
fn settled(alloc: Global, setting: Setting<'_>) -> Result<Option<Vec<Held>>, Ill> {
    let recover = recovery(alloc)?;
    let (told, held) = sound(alloc, &recover, setting)?;
    if told.marks.is_recovered && !has_area(held.as_slice()) {
        Ok(Some(held))
    } else {
        Ok(None)
    }
}

fn push_settled(
    alloc: Global,
    out: &mut Vec<u8>,
    order: &Order,
    setting: Setting<'_>,
) -> Result<(), Ill> {
    let tried = Try { order, setting };
    let plain = outcome_of(alloc, tried)?;
    push_tried(alloc, out, tried, &plain)
}

/// Adds a line for each thing that is wrong with a run at the capacity at which it just fits, or one below. `plain` is what
/// came of it without a capacity. Where names of the rollback area are held, it is the run over what the volume stands for.
pub fn push_room(
    alloc: Global,
    out: &mut Vec<u8>,
    tried: Try<'_>,
    plain: &Came,
) -> Result<(), Ill> {
    if !has_area(tried.setting.held) {
        return push_tried(alloc, out, tried, plain);
    }
    let Some(held) = settled(alloc, tried.setting)? else {
        return Ok(());
    };
    let setting = Setting {
        files: tried.setting.files,
        held: held.as_slice(),
        capacity: None,
    };
    push_settled(alloc, out, tried.order, setting)
}
