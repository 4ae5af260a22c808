//! A source as the crates above see it.

ghost use Rattle.std.specs.Prelude.{◌≡◌, ◌≤◌, ℕ, length, take, drop, IfOk, OnErr, IsErrOf};
ghost use Rattle.std.specs.Option.{option_map};
ghost use Rattle.std.specs.FinMap.{get};
ghost use Rattle.mi_source.specs.Paths.{Files, bytes_or_none, names_in};
ghost use Rattle.mi_source.specs.Counts.{Rose};

use crate::fault::{Failed, SrcFault};
use mi_text::{Bytes, Text};
use std::alloc::Global;

/// The longest piece that is read at once, in bytes.
pub const PIECE: usize = 65_536;

/// A map from paths to bytes that no call changes (this project's own). Paths use `/` and compare by
/// bytes. A call may fail, and then counts it.
pub trait Source {
    /// Whether the sources of this type tell what they hold. What is held is claimed only then.
    ghost told: { Type 0 };

    /// The files, each with its bytes.
    ghost files: { Self → Files };

    /// How often the source has failed.
    ghost faults: { Self → ℕ };

    /// The names of the files directly in the folder, in byte order; none where the folder isn't there.
    fn names(&mut self, alloc: Global, folder: &str) -> Result<Vec<Text>, SrcFault>
        ensures value { told → IfOk result (λ names. names.items ≡ names_in (files self.old) folder.now) }
        ensures stays { files self.new ≡ files self.old }
        ensures counts { faults self.old ≤ faults self.new }
        ensures failed { IsErrOf result SrcFault.Failed → Rose (faults self.old) (faults self.new) };

    /// The length of the file's bytes, or None where it isn't there. It takes no memory.
    fn size(&mut self, path: &str) -> Result<Option<u64>, Failed>
        ensures value { told → IfOk result (λ n. n ≡ option_map length (get (files self.old) path.now)) }
        ensures stays { files self.new ≡ files self.old }
        ensures counts { faults self.old ≤ faults self.new }
        ensures failed { OnErr result (Rose (faults self.old) (faults self.new)) };

    /// The file's bytes from `at`, at most `want`, and fewer only at the end; none where it isn't there.
    fn read(&mut self, alloc: Global, path: &str, at: u64, want: usize) -> Result<Bytes, SrcFault>
        requires { want ≤ PIECE }
        ensures value { told → IfOk result (λ bytes. bytes ≡ take want (drop at (bytes_or_none (get (files self.old) path.now)))) }
        ensures short { IfOk result (λ bytes. length bytes ≤ want) }
        ensures stays { files self.new ≡ files self.old }
        ensures counts { faults self.old ≤ faults self.new }
        ensures failed { IsErrOf result SrcFault.Failed → Rose (faults self.old) (faults self.new) };
}
