//! Carrying out a planned walk: its segments one after the other over a rollback area and a source, all or nothing
//! (this project's own).
#![tactic(auto)]

mod carried;
mod fall;
mod known;
mod laws;
mod parts;
mod segment;
mod stop;
mod walk;

pub use carried::{Carried, carry_out};
pub use laws::{a_carried_walk_is_answered_as_its_outcome, a_carried_walk_makes_its_last_machine};
pub use segment::Segment;
