//! A sink as the crates above see it.

ghost use Rattle.std.specs.Prelude.{◌≡◌, ◌≤◌, ◌++◌, ℕ, List, take, OnOk, OnErr};
ghost use Rattle.mi_source.specs.Counts.{Rose};

use crate::fault::Failed;

/// What takes bytes one piece after the other, as the log (this project's own).
pub trait Sink {
    /// Whether the sinks of this type tell what was written. That is claimed only then.
    ghost told: { Type 0 };

    /// All bytes that were written.
    ghost written: { Self → List ℕ };

    /// How often the sink has failed.
    ghost faults: { Self → ℕ };

    /// Writes the whole piece, or fails with some front of it written. It takes no memory.
    fn write(&mut self, piece: &[u8]) -> Result<(), Failed>
        ensures whole { told → OnOk result (written self.new ≡ written self.old ++ piece.now) }
        ensures front { told → OnErr result ((n : ℕ) × (written self.new ≡ written self.old ++ take n piece.now)) }
        ensures counts { faults self.old ≤ faults self.new }
        ensures failed { OnErr result (Rose (faults self.old) (faults self.new)) };
}
