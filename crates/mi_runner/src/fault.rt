//! Why a segment isn't carried out.

ghost use Rattle.std.specs.Prelude.{◌≡◌};
ghost use Rattle.mi_runner.specs.declared.fault.RunFault.TheVariants as run;
ghost use Rattle.mi_runner.specs.Faults.{run_fault_of, read_fault_of};

use mi_base::{NoMemory, Text};
use mi_source::SrcFault;
use mi_undo::OpFault;

/// Why a segment wasn't carried out (this project's own).
#[derive(Drop)]
pub enum RunFault {
    NoMemory,
    /// The source has failed.
    Source,
    /// The volume has failed.
    Volume,
    /// The volume's capacity would be passed.
    Full,
    /// The source's file of this key (File table) has another length in bytes than its record states.
    SizeDiffers { file: Text, stated: u64, found: u64 },
}

impl From<NoMemory> for RunFault {
    ghost from_gives = { λ _ e. e ≡ run.NoMemory };

    fn from(_e: NoMemory) -> RunFault {
        RunFault::NoMemory
    }
}

impl From<mi_source::Failed> for RunFault {
    ghost from_gives = { λ _ e. e ≡ run.Source };

    fn from(_e: mi_source::Failed) -> RunFault {
        RunFault::Source
    }
}

impl From<SrcFault> for RunFault {
    ghost from_gives = { λ fault e. e ≡ read_fault_of fault };

    fn from(fault: SrcFault) -> RunFault {
        match fault {
            SrcFault::NoMemory => RunFault::NoMemory,
            SrcFault::Failed => RunFault::Source,
        }
    }
}

impl From<OpFault> for RunFault {
    ghost from_gives = { λ fault e. e ≡ run_fault_of fault };

    fn from(fault: OpFault) -> RunFault {
        match fault {
            OpFault::NoMemory => RunFault::NoMemory,
            OpFault::Fault => RunFault::Volume,
            OpFault::Full => RunFault::Full,
        }
    }
}
