//! Why a text isn't expanded.

ghost use Rattle.std.specs.Prelude.{◌≡◌};
ghost use Rattle.mi_format.specs.declared.error.FormatError.TheVariants.{NoMemory as no_memory};
ghost use Rattle.mi_format.specs.declared.error.LimitError.TheVariants.{NoMemory as no_memory_within};

use mi_text::NoMemory;

/// Why a text has no expansion.
#[derive(Clone, Copy)]
pub enum FormatFault {
    /// Some prefix of its tokens has more than 64 open marks whose groups don't end in it.
    TooDeep,
}

/// Why a text isn't expanded: want of memory, or the text.
#[derive(Clone, Copy)]
pub enum FormatError {
    NoMemory,
    Fault(FormatFault),
}

impl From<NoMemory> for FormatError {
    ghost from_gives = { λ _ e. e ≡ no_memory };

    fn from(_e: NoMemory) -> FormatError {
        FormatError::NoMemory
    }
}

/// Why a text has no expansion within a limit.
#[derive(Clone, Copy)]
pub enum LimitFault {
    /// Some prefix of its tokens has more than 64 open marks whose groups don't end in it.
    TooDeep,
    /// Its expansion has more bytes than the limit.
    TooLong,
}

/// Why a text isn't expanded within a limit: want of memory, or the text.
#[derive(Clone, Copy)]
pub enum LimitError {
    NoMemory,
    Fault(LimitFault),
}

impl From<NoMemory> for LimitError {
    ghost from_gives = { λ _ e. e ≡ no_memory_within };

    fn from(_e: NoMemory) -> LimitError {
        LimitError::NoMemory
    }
}
