//! Scripts: the records that a segment of a run carries out, and what they change.
#![tactic(auto)]

mod laws;
mod names;
mod reading;
mod rec;
mod script;
mod written;

pub use laws::{
    a_written_file_is_spelled, a_written_script_is_read_again, spelled_changes_make_the_machine,
};
pub use names::touched;
pub use reading::read_script;
pub use rec::Rec;
pub use script::Script;
pub use written::write_script;
