//! Formatted text: groups in brackets and braces, expanded by look-ups (Windows Installer reference:
//! Formatted; how braces, nested marks, lone marks and unknown names count is this project's own).
#![tactic(auto)]

mod bounded;
mod depth;
mod error;
mod escape;
mod expansion;
mod kept;
mod laws;
mod look;
mod naming;
mod open_marks;
mod part;
mod scan;
mod steps;
mod token;
mod tokens;

pub use bounded::BoundedEnv;
pub use error::{FormatError, FormatFault, LimitError, LimitFault};
pub use expansion::{expand, expand_within};
pub use laws::expansion_is_by_whole_groups;
