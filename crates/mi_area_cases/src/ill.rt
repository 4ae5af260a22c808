//! Why a step can't be carried out.

use mi_lines::Stop;
use mi_text::NoMemory;
use std::alloc::{AllocError, AllocFailed};
use std::num::ParseIntError;
use std::str::Utf8Error;

/// Why a step can't be carried out.
#[derive(Clone, Copy)]
pub enum Ill {
    /// Memory ran out.
    NoMemory,
    /// The step isn't as it has to be, or names what isn't there.
    BadLine,
}

impl From<AllocError> for Ill {
    fn from(_e: AllocError) -> Ill {
        Ill::NoMemory
    }
}

impl<T: Drop> From<AllocFailed<T>> for Ill {
    fn from(_e: AllocFailed<T>) -> Ill {
        Ill::NoMemory
    }
}

impl From<NoMemory> for Ill {
    fn from(_e: NoMemory) -> Ill {
        Ill::NoMemory
    }
}

impl From<Utf8Error> for Ill {
    fn from(_e: Utf8Error) -> Ill {
        Ill::BadLine
    }
}

impl From<ParseIntError> for Ill {
    fn from(_e: ParseIntError) -> Ill {
        Ill::BadLine
    }
}

impl From<Ill> for Stop {
    fn from(ill: Ill) -> Stop {
        match ill {
            Ill::NoMemory => Stop::NoMemory,
            Ill::BadLine => Stop::BadLine,
        }
    }
}
