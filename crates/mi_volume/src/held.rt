//! What the names of a volume in memory hold.

ghost use Rattle.std.specs.Prelude.{◌≡◌, ◌∷◌, [], ◌++◌, List, ℕ, Some, None, OnOk, OnErr, length, is_some, min, ◌^◌, ◌-◌};
ghost use Rattle.std.specs.FinMap.{get};
ghost use Rattle.std.specs.Option.{option_copied, option_map};
ghost use Rattle.mi_text.specs.Next.{next_name};
ghost use Rattle.mi_volume.specs.Maps.{size};
ghost use Rattle.mi_volume.specs.Slots.{Sets, map_of, at_name};

use crate::room::slot_size;
use mi_text::{Bytes, Name, NoMemory};
use std::alloc::Global;
use std::collections::BTreeMap;
use std::mem;
use std::ops::Bound;

/// The least name above `after`.
pub fn first_above<'a>(held: &'a BTreeMap<Name, Bytes>, after: Option<&Name>) -> Option<&'a Name>
    ensures { option_copied result ≡ next_name (map_of held.now.entries) (option_copied after.entry) }
{
    match after {
        Some(name) => name_above(held, name),
        None => first_name(held),
    }
}

fn name_above<'a>(held: &'a BTreeMap<Name, Bytes>, after: &Name) -> Option<&'a Name>
    ensures { option_copied result ≡ next_name (map_of held.now.entries) (Some after.now) }
{
    match held
        .range((Bound::Excluded(after), Bound::Unbounded))
        .next()
    {
        Some((name, _)) => Some(name),
        None => None,
    }
}

fn first_name(held: &BTreeMap<Name, Bytes>) -> Option<&Name>
    ensures { option_copied result ≡ next_name (map_of held.now.entries) None }
{
    match held.keys().next() {
        Some(name) => Some(name),
        None => None,
    }
}

/// The size of what the names hold; at the greatest u64 it stands still.
pub fn size_of_all(held: &BTreeMap<Name, Bytes>) -> u64
    ensures { result ≡ min (size (map_of held.now.entries)) (2 ^ 64 - 1) }
{
    let mut size = 0u64;
    for (name, bytes) in held {
        size = size.saturating_add(slot_size(name, Some(bytes.len() as u64)));
    }
    size
}

/// Adds bytes at the end of what a name holds.
pub fn extend_held(
    held: &mut BTreeMap<Name, Bytes>,
    name: &Name,
    bytes: &[u8],
) -> Result<(), NoMemory>
    ensures ok { OnOk result (Sets name.now (option_map (λ b. b ++ bytes.now) (at_name held.old.entries name.now)) held.old.entries held.new.entries) }
    ensures err { OnErr result (Sets name.now (at_name held.old.entries name.now) held.old.entries held.new.entries) }
    ensures names { (q : List ℕ) → is_some (at_name held.new.entries q) ≡ is_some (at_name held.old.entries q) }
{
    match held.get_mut(name) {
        Some(held) => held.extend(bytes),
        None => Ok(()),
    }
}

/// Replaces the one byte that a name holds, and tells the old one. It takes no memory.
pub fn mark_held(held: &mut BTreeMap<Name, Bytes>, alloc: Global, name: &Name, byte: u8) -> u8
    requires { (b : ℕ) × (at_name held.old.entries name.now ≡ Some (b ∷ [])) }
    ensures was { at_name held.old.entries name.now ≡ Some (result ∷ []) }
    ensures sets { Sets name.now (Some (byte ∷ [])) held.old.entries held.new.entries }
{
    let Some(bytes) = held.get_mut(name) else {
        unreachable!();
    };
    set_byte(bytes, alloc, byte)
}

fn set_byte(bytes: &mut Bytes, alloc: Global, byte: u8) -> u8
    requires { length bytes.old ≡ 1 }
    ensures was { bytes.old ≡ result ∷ [] }
    ensures set { bytes.new ≡ byte ∷ [] }
{
    let mut items = mem::replace(bytes, Bytes::new(alloc)).into_vec();
    let was = items[0];
    items[0] = byte;
    *bytes = Bytes::from_vec(items);
    was
}
