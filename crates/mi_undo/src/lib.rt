//! The rollback area: a journal on the volume that makes a run of changes all or nothing, whatever
//! moment it is stopped at (this project's own).
#![tactic(auto)]

mod area;
mod back;
mod clear;
mod close;
mod decode;
mod entry;
mod fault;
mod gather;
mod kept;
mod laws;
mod names;
mod note;
mod read;
mod settling;
mod steps;
mod sweep;
mod unread;

pub use area::{Open, Refused, begin};
pub use fault::{BackFault, CommitFault, OpFault, UndoError};
pub use kept::{Kept, Place, Progress, Span};
pub use laws::{
    a_shut_area_changes_nothing, an_unread_entry_changes_nothing,
    entries_behind_open_gates_are_read, exactly_the_first_bad_entry_is_refused,
    exactly_the_open_entries_are_read, noted_names_are_restored, spelled_notes_are_read,
    the_first_old_bytes_stay, what_is_read_is_spelled_so,
};
pub use settling::settle;
