//! What becomes of the components of a package, over what is asked of its features; their clients and shared counts
//! (Component Table; FeatureComponents Table).
#![tactic(auto)]

mod acting;
mod component;
mod counts;
mod file_rows;
mod holders;

pub use acting::components;
pub use component::{Action, ComponentChoice, is_absent, is_local};
pub use counts::has_other_count;
pub use file_rows::file_row;
