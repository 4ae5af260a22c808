//! The room of a volume in memory.

ghost use Rattle.std.specs.Prelude.{◌≡◌, ◌+◌, ◌-◌, ◌^◌, ◌≤◌, ◌<◌, ℕ, Some, length, min, IfSome, IfNone, IfOk, IfErr, IsErr, IfNone, OnErr};
ghost use Rattle.std.specs.Option.{option_map_or};
ghost use Rattle.mi_volume.specs.Memory.{length_after};

use crate::call::CallKind;
use mi_text::Name;

/// What a name counts in a size, if it holds so many bytes; at the greatest u64 it stands still.
pub fn slot_size(name: &Name, len: Option<u64>) -> u64
    ensures { result ≡ option_map_or (λ n. min (length name.now + n) (2 ^ 64 - 1)) len 0 }
{
    match len {
        None => 0,
        Some(len) => (name.as_bytes().len() as u64).saturating_add(len),
    }
}

/// How many bytes a name holds once so many are put or appended; at the greatest u64 it stands still.
pub fn length_after(kind: CallKind, old: Option<u64>, len: u64) -> u64
    ensures { result ≡ min (length_after kind old len) (2 ^ 64 - 1) }
{
    match kind {
        CallKind::Put => len,
        CallKind::Append => old.unwrap_or(0).saturating_add(len),
    }
}

/// The size after a name that counts `old` counts `new` instead, or None where that passes the capacity.
pub fn size_after(capacity: u64, used: u64, old: u64, new: u64) -> Option<u64>
    requires held { old ≤ used }
    requires small { capacity < 2 ^ 64 - 1 }
    ensures within { IfSome result (λ n. (n + old ≡ used + new) × (n ≤ capacity)) }
    ensures passes { IfNone result (capacity + old < used + new) }
{
    let size = (used - old).saturating_add(new);
    if size > capacity { None } else { Some(size) }
}

/// The size once a name that holds `old` bytes, if any, holds `new`, of which `part` are left out, or None where that
/// passes the capacity. Where there is no capacity no size is kept.
pub fn room_for(capacity: Option<u64>, used: u64, old: u64, new: u64, left_out: u64) -> Option<u64>
    requires held { (c : ℕ) → capacity ≡ Some c → old ≤ used }
    requires small { (c : ℕ) → capacity ≡ Some c → c < 2 ^ 64 - 1 }
    requires part { left_out ≤ new }
    ensures within { IfSome result (λ n. (c : ℕ) → capacity ≡ Some c → (n + old + left_out ≡ used + new) × (n + left_out ≤ c)) }
    ensures passes { IfNone result ((c : ℕ) × (capacity ≡ Some c) × (c + old < used + new)) }
{
    let Some(capacity) = capacity else {
        return Some(used);
    };
    let size = size_after(capacity, used, old, new)?;
    Some(size - left_out)
}
