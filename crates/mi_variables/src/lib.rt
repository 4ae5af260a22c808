//! What a row of Environment says of its variable: the prefixes and the name, the form of the value, items between `;`, the text and
//! the entry that is written, and when a row takes nothing (Environment table; WriteEnvironmentStrings and RemoveEnvironmentStrings
//! actions).
#![tactic(auto)]

mod column;
mod form;
mod items;
mod parts;
mod stays;
mod written;

pub use column::{clears, is_bad_name, is_of_system, removes, variable_in};
pub use form::{Form, form_of, form_told, is_bad_form};
pub use items::without_part;
pub use stays::{has_another_value, is_held_back};
pub use written::{variable_entry, written_text};
