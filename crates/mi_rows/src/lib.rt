//! The rows of a table as structs, by a description of its columns (Database Tables).
#![tactic(auto)]

mod column;
mod error;
mod field;
mod read;
mod row;
mod rule;
mod table;
mod table_row;
mod take;
mod text;

pub use column::{Column, Kind, Layout, Rule};
pub use error::{Checked, LoadError};
pub use field::{Field, number_at, some_code_at, some_number_at};
pub use rule::lacks;
pub use table::{misspelled, read_shared, refuse_bytes};
pub use table_row::{Key, TableRow, UpgradeKey};
pub use take::Take;
pub use text::is_version;
