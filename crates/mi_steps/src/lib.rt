//! Single steps of a plan: each changes the machine as it will be, and adds the record that carries the change out.
#![tactic(auto)]

mod files;
mod heads;
mod laws;
mod outside;
mod places;
mod plan;
mod prune;
mod records;
mod script;
mod seats;
mod steps;

pub use laws::{
    a_refused_row_refuses, a_row_joins, rows_are_planned, steps_join, steps_make_the_machine,
};
pub use places::Places;
pub use plan::Plan;
pub use script::Records;
pub use seats::{Place, Tree, key_place, place_in};
