//! Why the walk has no next step.

ghost use Rattle.std.specs.Prelude.{◌≡◌};
ghost use Rattle.mi_seq.specs.declared.error.SeqError.TheVariants.{NoMemory as no_memory};

use mi_base::{Fault, NoMemory, Text};

/// Why the walk has no next step.
#[derive(Drop)]
pub enum SeqError {
    NoMemory,
    /// The action that was begun and is refused, which is None where the rows end too early; and its fault.
    Refused(Option<Text>, Fault),
}

impl From<NoMemory> for SeqError {
    ghost from_gives = { λ _ e. e ≡ no_memory };

    fn from(_e: NoMemory) -> SeqError {
        SeqError::NoMemory
    }
}
