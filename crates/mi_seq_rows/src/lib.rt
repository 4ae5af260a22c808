//! What one row of InstallExecuteSequence or of CustomAction says, and where the walk over the sequence stands
//! (InstallExecuteSequence table; Summary List of All Custom Action Types; Suggested InstallExecuteSequence).
#![tactic(auto)]

mod custom;
mod row;
mod stage;

pub use custom::{Custom, kind_of, may_stand};
pub use row::{if_holds, seat_of};
pub use stage::Stage;
