//! What may go wrong in a rollback area.

ghost use Rattle.std.specs.Prelude.{◌≡◌};
ghost use Rattle.mi_undo.specs.declared.fault.OpFault.TheVariants as op;
ghost use Rattle.mi_undo.specs.declared.fault.UndoError.TheVariants as undo;
ghost use Rattle.mi_undo.specs.Faults.{put_fault_of, vol_fault_of, back_fault_of, undo_error_of};

use mi_text::{Name, NoMemory};
use mi_volume::{Failed, PutFault, VolFault};
use std::alloc::{AllocError, AllocFailed};

/// Why a call of an area failed.
#[derive(Clone, Copy)]
pub enum OpFault {
    NoMemory,
    /// The volume has failed.
    Fault,
    /// The volume's capacity would be passed.
    Full,
}

/// Why an area wasn't gone back over.
#[derive(Clone, Copy)]
pub enum BackFault {
    NoMemory,
    /// The volume has failed before the old bytes were on the disk.
    Fault,
    /// The former bytes and the area pass the capacity.
    Full,
}

/// How a commit failed.
#[derive(Clone, Copy)]
pub enum CommitFault {
    /// The changes couldn't be put on the disk. Going back is possible.
    Before,
    /// The commit write failed, and the marker was opened again. Going back is possible.
    Undoable,
    /// That failed too, so which of the two stands isn't known: the volume's counts of faults before
    /// the commit write and before the marker was opened again.
    Unknown(u64, u64),
}

/// Why a volume wasn't settled.
#[derive(Drop)]
pub enum UndoError {
    NoMemory,
    /// The volume has failed.
    Fault,
    /// This entry is read, and is absent or not spelled.
    BadRollback(Name),
    /// There is no room for the old bytes of this name.
    Full(Name),
}

impl From<NoMemory> for OpFault {
    ghost from_gives = { λ _ e. e ≡ op.NoMemory };

    fn from(_e: NoMemory) -> OpFault {
        OpFault::NoMemory
    }
}

impl From<AllocError> for OpFault {
    ghost from_gives = { λ _ e. e ≡ op.NoMemory };

    fn from(_e: AllocError) -> OpFault {
        OpFault::NoMemory
    }
}

impl<T: Drop> From<AllocFailed<T>> for OpFault {
    ghost from_gives = { λ _ e. e ≡ op.NoMemory };

    fn from(_e: AllocFailed<T>) -> OpFault {
        OpFault::NoMemory
    }
}

impl From<Failed> for OpFault {
    ghost from_gives = { λ _ e. e ≡ op.Fault };

    fn from(_e: Failed) -> OpFault {
        OpFault::Fault
    }
}

impl From<VolFault> for OpFault {
    ghost from_gives = { λ fault e. e ≡ vol_fault_of fault };

    fn from(fault: VolFault) -> OpFault {
        match fault {
            VolFault::NoMemory => OpFault::NoMemory,
            VolFault::Failed => OpFault::Fault,
        }
    }
}

impl From<PutFault> for OpFault {
    ghost from_gives = { λ fault e. e ≡ put_fault_of fault };

    fn from(fault: PutFault) -> OpFault {
        match fault {
            PutFault::NoMemory => OpFault::NoMemory,
            PutFault::Failed => OpFault::Fault,
            PutFault::Full => OpFault::Full,
        }
    }
}

impl From<OpFault> for BackFault {
    ghost from_gives = { λ fault e. e ≡ back_fault_of fault };

    fn from(fault: OpFault) -> BackFault {
        match fault {
            OpFault::NoMemory => BackFault::NoMemory,
            OpFault::Fault => BackFault::Fault,
            OpFault::Full => BackFault::Full,
        }
    }
}

impl From<NoMemory> for UndoError {
    ghost from_gives = { λ _ e. e ≡ undo.NoMemory };

    fn from(_e: NoMemory) -> UndoError {
        UndoError::NoMemory
    }
}

impl From<Failed> for UndoError {
    ghost from_gives = { λ _ e. e ≡ undo.Fault };

    fn from(_e: Failed) -> UndoError {
        UndoError::Fault
    }
}

impl From<VolFault> for UndoError {
    ghost from_gives = { λ fault e. e ≡ undo_error_of fault };

    fn from(fault: VolFault) -> UndoError {
        match fault {
            VolFault::NoMemory => UndoError::NoMemory,
            VolFault::Failed => UndoError::Fault,
        }
    }
}
