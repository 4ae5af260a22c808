//! Why a step can't be carried out.

use mi_base::EncError;
use mi_lines::Stop;
use mi_text::{NameError, NoMemory};
use mi_volume::{Failed, PutFault, VolFault};
use std::alloc::{AllocError, AllocFailed};
use std::io;

/// Why a step can't be carried out.
#[derive(Clone, Copy)]
pub enum Ill {
    /// Memory ran out.
    NoMemory,
    /// The step isn't one, or names what isn't there.
    Bad,
}

impl From<Ill> for Stop {
    fn from(ill: Ill) -> Stop {
        match ill {
            Ill::NoMemory => Stop::NoMemory,
            Ill::Bad => Stop::BadLine,
        }
    }
}

impl From<AllocError> for Ill {
    fn from(_e: AllocError) -> Ill {
        Ill::NoMemory
    }
}

impl<T: Drop> From<AllocFailed<T>> for Ill {
    fn from(_e: AllocFailed<T>) -> Ill {
        Ill::NoMemory
    }
}

impl From<NoMemory> for Ill {
    fn from(_e: NoMemory) -> Ill {
        Ill::NoMemory
    }
}

impl From<io::Error> for Ill {
    fn from(_e: io::Error) -> Ill {
        Ill::Bad
    }
}

impl From<NameError> for Ill {
    fn from(e: NameError) -> Ill {
        match e {
            NameError::NoMemory => Ill::NoMemory,
            NameError::Length => Ill::Bad,
        }
    }
}

impl From<EncError> for Ill {
    fn from(e: EncError) -> Ill {
        match e {
            EncError::NoMemory => Ill::NoMemory,
            EncError::Field => Ill::Bad,
        }
    }
}

impl From<PutFault> for Ill {
    fn from(e: PutFault) -> Ill {
        match e {
            PutFault::NoMemory => Ill::NoMemory,
            PutFault::Failed | PutFault::Full => Ill::Bad,
        }
    }
}

impl From<VolFault> for Ill {
    fn from(e: VolFault) -> Ill {
        match e {
            VolFault::NoMemory => Ill::NoMemory,
            VolFault::Failed => Ill::Bad,
        }
    }
}

impl From<Failed> for Ill {
    fn from(_e: Failed) -> Ill {
        Ill::Bad
    }
}
