//! What CostFinalize makes of the components of a package, over what is asked of its features, and the whole selection
//! (CostFinalize Action; Component Table).
#![tactic(auto)]

mod key_path;
mod selecting;
mod selection;

pub use key_path::KeyPath;
pub use mi_components::{Action, ComponentChoice, components};
pub use selecting::select;
pub use selection::Selection;
