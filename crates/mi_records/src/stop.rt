//! Why a row is refused, as it is kept.

ghost use Rattle.std.specs.Prelude.{◌≡◌};
ghost use Rattle.mi_records.specs.Stops.{IsRefusal};
ghost use Rattle.mi_records.specs.declared.stop.Stop.TheVariants.{NoMemory as no_memory};

use crate::error::PlanError;
use mi_base::{Fault, NoMemory, Text};
use std::alloc::Global;

/// What is wrong with a row.
#[derive(Clone, Copy)]
pub enum Why {
    /// A formatted text of it is nested too deep.
    TooDeep,
    /// Its key or its name is none, or is past the limits.
    BadKey,
    /// Its value isn't of its form, or is past the limits.
    BadValue,
}

/// Why nothing is made of a row.
#[derive(Clone, Copy)]
pub enum Stop {
    NoMemory,
    Refused(Why),
}

impl From<NoMemory> for Stop {
    ghost from_gives = { λ _ e. e ≡ no_memory };

    fn from(_e: NoMemory) -> Stop {
        Stop::NoMemory
    }
}

impl Stop {
    /// The error of the row with this number, from 1, of a table.
    pub fn error(self, alloc: Global, table: &str, row: u32) -> PlanError
        ensures { IsRefusal table.now row self result }
    {
        let Stop::Refused(why) = self else {
            return PlanError::NoMemory;
        };
        match Text::copy_of(alloc, table) {
            Ok(table) => PlanError::Fault(why.fault(table, row)),
            Err(_) => PlanError::NoMemory,
        }
    }
}

impl Why {
    ghost use Rattle.mi_records.specs.Stops.{fault_of};

    // The fault of the row with this number of a table.
    fn fault(self, table: Text, row: u32) -> Fault
        ensures { result ≡ fault_of table row self }
    {
        match self {
            Why::TooDeep => Fault::TooDeep(table, row),
            Why::BadKey => Fault::BadKey(table, row),
            Why::BadValue => Fault::BadValue(table, row),
        }
    }
}
