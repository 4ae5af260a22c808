//! Whether a run has room.

ghost use Rattle.std.specs.Prelude.{◌≡◌};
ghost use Rattle.mi_model.specs.PackageOutcome.{is_room};

/// Whether the free room, in bytes, is enough for what a run needs; without a capacity there is always room (this project's own). No
/// memory.
pub fn fits(need: u64, free: Option<u64>) -> bool
    ensures { result ≡ is_room free need }
{
    match free {
        Some(free) => need <= free,
        None => true,
    }
}
