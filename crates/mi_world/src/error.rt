//! Why directories are refused.

ghost use Rattle.std.specs.Prelude.{◌≡◌, IfOk};
ghost use Rattle.mi_model.specs.Properties.{as_fault};
ghost use Rattle.mi_world.specs.Refusals.{from_select};
ghost use Rattle.mi_world.specs.declared.error.WorldError.TheVariants.{NoMemory as no_memory};

use mi_base::{Fault, NoMemory, Text};
use mi_dirs::DirFault;
use mi_features::SelectError;
use std::alloc::Global;

/// Want of memory, or why CostFinalize or an action of type 35 is refused.
#[derive(Drop)]
pub enum WorldError {
    NoMemory,
    Fault(Fault),
}

impl From<NoMemory> for WorldError {
    ghost from_gives = { λ _ e. e ≡ no_memory };

    fn from(_e: NoMemory) -> WorldError {
        WorldError::NoMemory
    }
}

impl From<SelectError> for WorldError {
    ghost from_gives = { λ refused e. e ≡ from_select refused };

    fn from(refused: SelectError) -> WorldError {
        match refused {
            SelectError::NoMemory => WorldError::NoMemory,
            SelectError::Fault(fault) => WorldError::Fault(fault),
        }
    }
}

/// A refusal of directories as one of the Directory table (Directory Table).
pub(crate) fn directory_fault(alloc: Global, fault: DirFault) -> Result<Fault, NoMemory>
    ensures { IfOk result (λ f. f ≡ as_fault fault) }
{
    let table = Text::copy_of(alloc, "Directory")?;
    match fault {
        DirFault::Cycle(row) => Ok(Fault::Cycle(table, row)),
        DirFault::BadPath(row) => Ok(Fault::BadPath(table, row)),
    }
}
