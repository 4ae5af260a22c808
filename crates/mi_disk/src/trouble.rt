//! Why a call of the system has failed, as plain data.

use mi_text::NoMemory;
use std::alloc::{AllocError, AllocFailed};
use std::io;
use std::io::ErrorKind;

/// Why a call of the system has failed.
#[derive(Clone, Copy)]
pub enum Trouble {
    /// There is no such file or folder, or there can't be, since the path or a name in it is too long for the system.
    Absent,
    /// The system or this process has no memory for it.
    NoMemory,
    /// What is there isn't a plain file or a plain folder, whichever is wanted.
    Strange,
    /// Any other failure.
    Failed,
}

impl From<io::Error> for Trouble {
    fn from(error: io::Error) -> Trouble {
        match error.kind() {
            // The last is ENAMETOOLONG.
            ErrorKind::NotFound | ErrorKind::NotADirectory | ErrorKind::InvalidFilename => {
                Trouble::Absent
            }
            ErrorKind::OutOfMemory => Trouble::NoMemory,
            _ => Trouble::Failed,
        }
    }
}

impl From<AllocError> for Trouble {
    fn from(_error: AllocError) -> Trouble {
        Trouble::NoMemory
    }
}

impl From<NoMemory> for Trouble {
    fn from(_error: NoMemory) -> Trouble {
        Trouble::NoMemory
    }
}

impl<T: Drop> From<AllocFailed<T>> for Trouble {
    fn from(_failed: AllocFailed<T>) -> Trouble {
        Trouble::NoMemory
    }
}
