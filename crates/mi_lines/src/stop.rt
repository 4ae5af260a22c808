//! Why a script can't go on.

use mi_text::NoMemory;
use std::alloc::{AllocError, AllocFailed};
use std::num::ParseIntError;
use std::str::Utf8Error;

/// Why a script can't go on.
#[derive(Clone, Copy)]
pub enum Stop {
    /// Memory ran out.
    NoMemory,
    /// The line isn't a step, or names what isn't there.
    BadLine,
}

impl From<AllocError> for Stop {
    fn from(_e: AllocError) -> Stop {
        Stop::NoMemory
    }
}

impl<T: Drop> From<AllocFailed<T>> for Stop {
    fn from(_e: AllocFailed<T>) -> Stop {
        Stop::NoMemory
    }
}

impl From<NoMemory> for Stop {
    fn from(_e: NoMemory) -> Stop {
        Stop::NoMemory
    }
}

impl From<Utf8Error> for Stop {
    fn from(_e: Utf8Error) -> Stop {
        Stop::BadLine
    }
}

impl From<ParseIntError> for Stop {
    fn from(_e: ParseIntError) -> Stop {
        Stop::BadLine
    }
}
