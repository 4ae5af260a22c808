//! Why a text is no condition.

ghost use Rattle.std.specs.Prelude.{◌≡◌};
ghost use Rattle.mi_cond.specs.declared.error.CondError.TheVariants as error;

use mi_text::NoMemory;

/// Why a text is no condition, with the length in bytes of its longest front that begins a condition
/// (Conditional Statement Syntax; the limit of 64 is this project's own).
#[derive(Clone, Copy)]
pub enum CondFault {
    /// No condition goes on with the next byte, or the text ends before the condition does.
    Syntax(u64),
    /// With the next byte, brackets and NOT nest to more than 64.
    TooDeep(u64),
}

/// Why `Cond::read` gives no condition.
#[derive(Clone, Copy)]
pub enum CondError {
    NoMemory,
    Fault(CondFault),
}

impl From<NoMemory> for CondError {
    ghost from_gives = { λ _ e. e ≡ error.NoMemory };

    fn from(_e: NoMemory) -> CondError {
        CondError::NoMemory
    }
}
