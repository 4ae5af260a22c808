//! What the command, the levels and the product's record say of each feature of a package: the lists that properties hold, the
//! levels that conditions give, the features that lists bring, and the lines from the root down (Feature Table; Condition Table;
//! ADDLOCAL, REMOVE, ADDDEFAULT and REINSTALL Properties; INSTALLLEVEL Property).
#![tactic(auto)]

mod adding;
mod choice;
mod error;
mod levels;
mod lines;
mod list;
mod marks;
mod own;
mod wishes;

pub use adding::brought;
pub use choice::{FeatureChoice, Request};
pub use error::SelectError;
pub use levels::{holds, levels_of};
pub use lines::{Brought, lines_of, row_at};
pub use list::{FeatureList, Lists, set_of};
pub use own::{Line, has_attribute};
pub use wishes::Wishes;
