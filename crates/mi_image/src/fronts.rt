//! Judging a long record by its front, before the rest of it is read.

ghost use Rattle.std.specs.Prelude.{◌≡◌, ◌<◌, List, ℕ, None, IfOk, length, take, codes, false, nat_eq};
ghost use Rattle.std.specs.List.{starts_with};
ghost use Rattle.mi_image.specs.Scan.{item_read};

use mi_base::{Name, NoMemory, RecError, RecFault, dec_entry};
use std::alloc::Global;

/// Whether a longer record that begins so may be right, as far as this front of it tells.
pub fn may_go_on(alloc: Global, name: &Name, front: &[u8]) -> Result<bool, NoMemory>
    requires other { starts_with nat_eq name.now (codes "f/") ≡ false }
    ensures refused { IfOk result (λ may. may ≡ false → (whole : List ℕ) → length front.now < length whole → take (length front.now) whole ≡ front.now → item_read name.now whole ≡ None) }
{
    match dec_entry(alloc, name.as_str(), front) {
        Ok(entry) => {
            drop(entry);
            Ok(false)
        }
        Err(RecError::NoMemory) => Err(NoMemory),
        Err(RecError::Fault(fault)) => Ok(fault == RecFault::Short),
    }
}
