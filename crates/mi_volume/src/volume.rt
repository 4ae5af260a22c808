// A volume as the crates above see it.
ghost use Rattle.std.specs.Prelude.{◌≡◌, ◌-◌, ◌^◌, ◌<◌, ◌≤◌, ◌++◌, List, ℕ, length, take, drop, IfOk, OnErr, IfSome, IsSome, IsErrOf};
ghost use Rattle.std.specs.Option.{option_copied, option_map};
ghost use Rattle.std.specs.FinMap.{get};
ghost use Rattle.mi_text.specs.Bytes.{AreBytes};
ghost use Rattle.mi_text.specs.Next.{next_name};
ghost use Rattle.mi_volume.specs.Maps.{Map, size, bytes_or_none, IsAbove, Fits, HoldsByte};
ghost use Rattle.mi_volume.specs.State.{State, Images, ImagesOf, GoesOn, Stays, StaysDirty, Rose};
ghost use Rattle.mi_volume.specs.Calls.{Writes, Removes, Marks, Syncs};

use mi_text::{Bytes, Name, NoMemory};
use std::alloc::Global;
use thiserror::Error;

/// The volume has failed, and counts it (this project's own, as all of the volume).
#[derive(Clone, Copy, PartialEq, Eq)]
pub struct Failed;

/// Why a name or its bytes can't be told.
#[derive(Clone, Copy, Debug, Error)]
pub enum VolFault {
    /// No memory for the answer.
    #[error("out of memory")]
    NoMemory,
    /// The volume has failed, and counts it.
    #[error("the volume has failed")]
    Failed,
}

/// Why bytes can't be written.
#[derive(Clone, Copy, Debug, Error)]
pub enum PutFault {
    /// No memory for the bytes, and nothing is changed.
    #[error("out of memory")]
    NoMemory,
    /// The volume has failed, and counts it.
    #[error("the volume has failed")]
    Failed,
    /// The size would pass the capacity, and nothing is changed.
    #[error("the volume is full")]
    Full,
}

impl From<NoMemory> for VolFault {
    ghost use Rattle.std.specs.Prelude.{◌≡◌};
    ghost use Rattle.mi_volume.specs.declared.volume.VolFault.TheVariants.{NoMemory as no_memory};

    ghost from_gives = { λ _ e. e ≡ no_memory };

    fn from(_e: NoMemory) -> VolFault {
        VolFault::NoMemory
    }
}

impl From<NoMemory> for PutFault {
    ghost use Rattle.std.specs.Prelude.{◌≡◌};
    ghost use Rattle.mi_volume.specs.declared.volume.PutFault.TheVariants.{NoMemory as no_memory};

    ghost from_gives = { λ _ e. e ≡ no_memory };

    fn from(_e: NoMemory) -> PutFault {
        PutFault::NoMemory
    }
}

/// The longest piece that is read or written at once, in bytes.
pub const PIECE: usize = 65_536;

/// A map from names to bytes, kept on a device that may fail at any call and crash at any moment (this project's own).
/// Names are in byte order. A call that fails has changed at most its own name.
pub trait Volume {
    /// Whether the volumes of this type tell what they hold. What is held is claimed only then.
    ghost told: { Type 0 };

    /// The volume at this moment.
    ghost state: { Self → State };

    /// The least held name above `after`, in byte order.
    fn next(&mut self, alloc: Global, after: Option<&Name>) -> Result<Option<Name>, VolFault>
        ensures value { told → IfOk result (λ name. name ≡ next_name (state self.old).held (option_copied after.entry)) }
        ensures above { IfOk result (λ name. IfSome name (IsAbove (option_copied after.entry))) }
        ensures stays { told → Stays (state self.old) (state self.new) }
        ensures still { told → StaysDirty (state self.old) (state self.new) }
        ensures moments { GoesOn (state self.old) (state self.new) (Images (state self.old)) }
        ensures failed { IsErrOf result VolFault.Failed → Rose (state self.old) (state self.new) };

    /// The length of the name's bytes, or None where it isn't held. What a name holds are bytes.
    fn size(&mut self, name: &Name) -> Result<Option<u64>, Failed>
        ensures value { told → IfOk result (λ n. n ≡ option_map length (get (state self.old).held name.now)) }
        ensures bytes { told → IfOk result (λ n. AreBytes (bytes_or_none (get (state self.old).held name.now))) }
        ensures stays { told → Stays (state self.old) (state self.new) }
        ensures still { told → StaysDirty (state self.old) (state self.new) }
        ensures moments { GoesOn (state self.old) (state self.new) (Images (state self.old)) }
        ensures failed { OnErr result (Rose (state self.old) (state self.new)) };

    /// The bytes from `at`, at most `want`, and fewer only at the end.
    fn read(&mut self, alloc: Global, name: &Name, at: u64, want: usize) -> Result<Bytes, VolFault>
        requires { want ≤ PIECE }
        ensures value { told → IfOk result (λ bytes. bytes ≡ take want (drop at (bytes_or_none (get (state self.old).held name.now)))) }
        ensures short { IfOk result (λ bytes. length bytes ≤ want) }
        ensures stays { told → Stays (state self.old) (state self.new) }
        ensures still { told → StaysDirty (state self.old) (state self.new) }
        ensures moments { GoesOn (state self.old) (state self.new) (Images (state self.old)) }
        ensures failed { IsErrOf result VolFault.Failed → Rose (state self.old) (state self.new) };

    /// Gives the name exactly these bytes.
    fn put(&mut self, alloc: Global, name: &Name, bytes: &[u8]) -> Result<(), PutFault>
        requires { length bytes.now ≤ PIECE }
        ensures writes { told → Writes name.now bytes.now (state self.old) (state self.new) result }
        ensures moments { GoesOn (state self.old) (state self.new) (ImagesOf name.now (state self.old)) }
        ensures failed { IsErrOf result PutFault.Failed → Rose (state self.old) (state self.new) }
        ensures full { IsErrOf result PutFault.Full → told × IsSome (state self.old).capacity };

    /// Adds the bytes at the end, and makes the name where it isn't held.
    fn append(&mut self, alloc: Global, name: &Name, bytes: &[u8]) -> Result<(), PutFault>
        requires { length bytes.now ≤ PIECE }
        ensures writes { told → Writes name.now (bytes_or_none (get (state self.old).held name.now) ++ bytes.now) (state self.old) (state self.new) result }
        ensures moments { GoesOn (state self.old) (state self.new) (ImagesOf name.now (state self.old)) }
        ensures failed { IsErrOf result PutFault.Failed → Rose (state self.old) (state self.new) }
        ensures full { IsErrOf result PutFault.Full → told × IsSome (state self.old).capacity };

    /// Replaces the one byte of the name.
    fn mark(&mut self, name: &Name, byte: u8) -> Result<(), Failed>
        requires { told → HoldsByte (state self.old).held name.now }
        ensures marks { told → Marks name.now byte (state self.old) (state self.new) result }
        ensures moments { GoesOn (state self.old) (state self.new) (ImagesOf name.now (state self.old)) }
        ensures failed { OnErr result (Rose (state self.old) (state self.new)) };

    /// Takes the name away, if it is held.
    fn remove(&mut self, name: &Name) -> Result<(), Failed>
        ensures removes { told → Removes name.now (state self.old) (state self.new) result }
        ensures moments { GoesOn (state self.old) (state self.new) (ImagesOf name.now (state self.old)) }
        ensures failed { OnErr result (Rose (state self.old) (state self.new)) };

    /// After it, a crash leaves what reads give, and that fits the capacity.
    fn sync(&mut self) -> Result<(), Failed>
        ensures syncs { told → Syncs (state self.old) (state self.new) result }
        ensures moments { GoesOn (state self.old) (state self.new) (Images (state self.old)) }
        ensures failed { OnErr result (Rose (state self.old) (state self.new)) };

    /// The capacity less the size of what is held, or None where no capacity is told. A told capacity is below the
    /// greatest u64, and what is held doesn't pass it.
    fn free(&mut self) -> Result<Option<u64>, Failed>
        ensures value { told → IfOk result (λ n. n ≡ option_map (λ c. c - size (state self.old).held) (state self.old).capacity) }
        ensures small { IfSome (state self.old).capacity (λ c. c < 2 ^ 64 - 1) }
        ensures fits { told → Fits (state self.old).capacity (size (state self.old).held) }
        ensures stays { told → Stays (state self.old) (state self.new) }
        ensures still { told → StaysDirty (state self.old) (state self.new) }
        ensures moments { GoesOn (state self.old) (state self.new) (Images (state self.old)) }
        ensures failed { OnErr result (Rose (state self.old) (state self.new)) };

    /// How often the volume has failed.
    fn faults(&self) -> u64
        ensures { result ≡ (state self.now).faults };

    /// This moment is one of those since an earlier one.
    ghost counts_now: { told → (v : Self) (t : ℕ) (d : Map) → t ≤ (state v).moment → Images (state v) d → (state v).left_since t d };
}
