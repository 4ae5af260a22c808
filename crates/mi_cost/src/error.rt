//! Why a cost isn't told.

use mi_base::NoMemory;

/// Why the cost of scripts isn't told (this project's own).
#[derive(Clone, Copy)]
pub enum CostError {
    NoMemory,
    /// It is more than 64 bits count.
    TooBig,
}

impl From<NoMemory> for CostError {
    ghost use Rattle.std.specs.Prelude.{◌≡◌};
    ghost use Rattle.mi_cost.specs.declared.error.CostError.TheVariants.{NoMemory as no_memory};

    ghost from_gives = { λ _ e. e ≡ no_memory };

    fn from(_e: NoMemory) -> CostError {
        CostError::NoMemory
    }
}
