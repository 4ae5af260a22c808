//! What a run needs of room besides the map that it changes: its rollback area, and what its names hold more on the way.
#![tactic(auto)]

mod error;
mod known;
mod laws;
mod room;
mod scripts;
mod sizes;
mod total;

pub use error::CostError;
pub use laws::{a_walk_that_touches_nothing_has_no_records, scripts_cost_what_the_walk_needs};
pub use room::fits;
pub use scripts::need;
