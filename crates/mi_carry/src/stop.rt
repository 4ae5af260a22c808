//! Why a walk stops before its end.

ghost use Rattle.std.specs.Prelude.{◌≡◌};
ghost use Rattle.mi_carry.specs.declared.stop.Stop.TheVariants.{NoMemory as no_memory};

use mi_base::{Cause, Fault, NoMemory};
use mi_runner::RunFault;
use mi_undo::{CommitFault, OpFault};

/// Why a part of a walk isn't carried out.
#[derive(Drop)]
pub enum Stop {
    NoMemory,
    Refuse(Cause),
}

/// Why a walk stops, and how many actions are begun at the end of the part at hand.
#[derive(Drop)]
pub struct Stopped {
    pub why: Stop,
    pub reached: u64,
}

/// How a walk over an open rollback area ends that isn't carried out.
#[derive(Drop)]
pub enum Halt {
    /// The area has to be gone back over.
    Back(Stopped),
    /// It isn't known whether the commit holds: the volume's counts of faults before the commit write and before the
    /// area was opened anew, and how many actions are begun.
    Unknown(u64, u64, u64),
}

impl From<NoMemory> for Stop {
    ghost from_gives = { λ _ e. e ≡ no_memory };

    fn from(_e: NoMemory) -> Stop {
        Stop::NoMemory
    }
}

impl From<OpFault> for Stop {
    ghost use Rattle.std.specs.Prelude.{◌≡◌};
    ghost use Rattle.mi_carry.specs.Stops.{stop_of_op};

    ghost from_gives = { λ fault e. e ≡ stop_of_op fault };

    fn from(fault: OpFault) -> Stop {
        match fault {
            OpFault::NoMemory => Stop::NoMemory,
            OpFault::Fault => Stop::Refuse(Cause::VolumeFault),
            OpFault::Full => Stop::Refuse(Cause::VolumeFault),
        }
    }
}

impl From<RunFault> for Stop {
    ghost use Rattle.std.specs.Prelude.{◌≡◌};
    ghost use Rattle.mi_carry.specs.Stops.{stop_of_run};

    ghost from_gives = { λ fault e. e ≡ stop_of_run fault };

    fn from(fault: RunFault) -> Stop {
        match fault {
            RunFault::NoMemory => Stop::NoMemory,
            RunFault::Source => Stop::Refuse(Cause::SourceFault),
            RunFault::Volume => Stop::Refuse(Cause::VolumeFault),
            RunFault::Full => Stop::Refuse(Cause::VolumeFault),
            RunFault::SizeDiffers {
                file,
                stated,
                found,
            } => Stop::Refuse(Cause::Table(Fault::SizeDiffers(file, stated, found))),
        }
    }
}

impl From<Stopped> for Halt {
    ghost use Rattle.std.specs.Prelude.{◌≡◌};
    ghost use Rattle.mi_carry.specs.declared.stop.Halt.TheVariants.{Back};

    ghost from_gives = { λ stopped e. e ≡ Back stopped };

    fn from(stopped: Stopped) -> Halt {
        Halt::Back(stopped)
    }
}

impl Halt {
    ghost use Rattle.std.specs.Prelude.{◌≡◌};
    ghost use Rattle.mi_carry.specs.Halts.{halt_of};

    /// The halt that a failed commit gives.
    pub fn of(fault: CommitFault, reached: u64) -> Halt
        ensures { result ≡ halt_of fault reached }
    {
        match fault {
            CommitFault::Before => Halt::back(reached),
            CommitFault::Undoable => Halt::back(reached),
            CommitFault::Unknown(first, second) => Halt::Unknown(first, second, reached),
        }
    }

    // A fault of the volume, after which the area has to be gone back over.
    fn back(reached: u64) -> Halt
        ensures { result ≡ halt_of CommitFault.Before reached }
    {
        Halt::Back(Stopped {
            why: Stop::Refuse(Cause::VolumeFault),
            reached,
        })
    }
}
