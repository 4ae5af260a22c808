//! The package that `/selftest` runs over: a product with one feature, and for each file a value of the
//! registry; ten files have one component. (This project's own.)
#![tactic(auto)]

mod cells;
mod digits;
mod fixed;
mod generated;
mod numbered;
mod package;
mod pieces;
mod rows;

pub use generated::Generated;
pub use package::package_of;
