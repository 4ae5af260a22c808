//! What a text of the Registry table stands for (Registry table, column Value).
#![tactic(auto)]

mod beside;
mod change;
mod error;
mod items;
mod laws;
mod lists;
mod marks;
mod number;
mod read;

pub use change::Change;
pub use error::{ValueError, ValueFault};
pub use laws::change_gives_the_value;
pub use lists::{ListText, Side, list_text};
pub use read::read_value;
