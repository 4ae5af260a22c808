//! What an action of the walk sees, and the world in which it is carried out: properties, directories, files' paths and the
//! selection beside the machine so far and the open script (InstallExecuteSequence table; CostFinalize Action).
#![tactic(auto)]

mod cost;
mod costing;
mod directories;
mod error;
mod first;
mod flags;
mod known;
mod placed;
mod properties;
mod recall;
mod rows;
mod seen;
mod sees;
mod system;
mod table;
mod variables;
mod world;

pub use error::WorldError;
pub use first::first_props;
pub use properties::Properties;
pub use rows::product_code;
pub use seen::Seen;
pub use sees::phases_ask;
pub use world::World;
