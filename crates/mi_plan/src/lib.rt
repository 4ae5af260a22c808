//! The walk over InstallExecuteSequence, planned: what each segment changes, which actions are begun, and what refuses the run. Nothing is
//! written (InstallExecuteSequence table; InstallExecute and InstallFinalize actions).
#![tactic(auto)]

mod arms;
mod copies;
mod error;
mod phases;
mod planned;
mod planning;
mod segment;
mod segments;
mod steps;
mod turn;
mod work;

pub use error::WalkError;
pub use planned::WalkPlan;
pub use planning::plan_walk;
pub use segment::Segment;
