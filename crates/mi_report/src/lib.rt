//! The texts that a command writes: its log and its listings.
#![tactic(auto)]

mod listings;
mod log;
mod outcome;
mod walk;
mod words;

pub use listings::{clients_text, products_text};
pub use log::report;
pub use outcome::Outcome;
pub use walk::{Log, ResultLine, WalkLog};
