//! What a crash makes of the dirty names.

ghost use Rattle.std.specs.Prelude.{◌≡◌, None, Some, IfOk};
ghost use Rattle.std.specs.Option.{option_copied, option_map};
ghost use Rattle.mi_volume.specs.Kept.{chosen, first_half};
ghost use Rattle.mi_volume.specs.Slots.{left_by, now_of};
ghost use Rattle.mi_volume.specs.declared.choice.Choice.TheVariants.{Old};

use crate::before::{Before, Slot};
use mi_text::{Bytes, NoMemory};
use std::alloc::Global;

/// What a crash leaves at every dirty name (this project's own).
#[derive(Clone, Copy)]
pub enum Choice {
    /// What it held at the last good sync.
    Old,
    /// What it holds.
    New,
    /// The first half of what it holds.
    Torn,
    /// Nothing: the name is absent.
    Gone,
}

/// The first half of the bytes, rounded down.
pub fn first_half(bytes: &[u8]) -> &[u8]
    ensures { result.now ≡ first_half bytes.now }
{
    &bytes[..bytes.len() / 2]
}

/// What a crash leaves at a name that holds this, by its slot once so many good syncs were made.
pub fn left(
    alloc: Global,
    choice: Choice,
    now: Option<&Bytes>,
    slot: &Slot,
    syncs: u64,
) -> Result<Option<Bytes>, NoMemory>
    ensures { IfOk result (λ left. left ≡ left_by choice (option_copied now.entry) (now_of syncs slot.now)) }
{
    if slot.syncs == syncs {
        left_noted(alloc, choice, now, &slot.note)
    } else {
        copied(alloc, now)
    }
}

fn left_noted(
    alloc: Global,
    choice: Choice,
    now: Option<&Bytes>,
    note: &Before,
) -> Result<Option<Bytes>, NoMemory>
    ensures { IfOk result (λ left. left ≡ left_by choice (option_copied now.entry) note.now) }
{
    if let Before::Clean = note {
        return copied(alloc, now);
    }
    match choice {
        Choice::Old => held_before(alloc, now, note),
        Choice::New => copied(alloc, now),
        Choice::Torn => torn(alloc, now),
        Choice::Gone => Ok(None),
    }
}

fn held_before(alloc: Global, now: Option<&Bytes>, note: &Before) -> Result<Option<Bytes>, NoMemory>
    ensures { IfOk result (λ left. left ≡ left_by Old (option_copied now.entry) note.now) }
{
    match note {
        Before::Clean | Before::Same => copied(alloc, now),
        Before::Absent => Ok(None),
        Before::OneByte(byte) => Ok(Some(Bytes::copy_of(alloc, &[*byte])?)),
        Before::Held(bytes) => copied(alloc, Some(bytes)),
    }
}

fn copied(alloc: Global, now: Option<&Bytes>) -> Result<Option<Bytes>, NoMemory>
    ensures { IfOk result (λ left. left ≡ option_copied now.entry) }
{
    match now {
        None => Ok(None),
        Some(bytes) => Ok(Some(Bytes::copy_of(alloc, bytes.as_slice())?)),
    }
}

fn torn(alloc: Global, now: Option<&Bytes>) -> Result<Option<Bytes>, NoMemory>
    ensures { IfOk result (λ left. left ≡ option_map first_half (option_copied now.entry)) }
{
    match now {
        None => Ok(None),
        Some(bytes) => Ok(Some(Bytes::copy_of(alloc, first_half(bytes.as_slice()))?)),
    }
}
