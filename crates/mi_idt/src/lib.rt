//! Text archive tables, read and written exactly.
#![tactic(auto)]

mod columns;
mod escape;
mod fronts;
mod head;
mod keys;
mod laws;
mod line;
mod lines;
mod names;
mod number;
mod read;
mod rows;
mod stands;
mod table;
mod write;

pub use escape::unescaped_text;
pub use laws::spells_one;
pub use number::integer_within;
pub use read::read_table;
pub use table::{Column, IdtError, Row, Table};
pub use write::write_table;
