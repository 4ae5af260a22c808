//! Why a text is no value.

ghost use Rattle.std.specs.Prelude.{◌≡◌};
ghost use Rattle.mi_regval.specs.declared.error.ValueError.TheVariants.{NoMemory as no_memory};

use mi_base::NoMemory;

/// What is wrong with a text.
#[derive(Clone, Copy)]
pub enum ValueFault {
    /// What stands behind `#` is no integer, or none of 32 bits.
    BadInt,
    /// What stands behind `#x` isn't an even number of hexadecimal digits.
    BadHex,
}

/// Why there is no value: want of memory, or the text.
#[derive(Clone, Copy)]
pub enum ValueError {
    NoMemory,
    Fault(ValueFault),
}

impl From<NoMemory> for ValueError {
    ghost from_gives = { λ _ e. e ≡ no_memory };

    fn from(_e: NoMemory) -> ValueError {
        ValueError::NoMemory
    }
}
