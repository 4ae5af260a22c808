//! The machine's entries: their names and records on the volume, both ways, and the answers that
//! the calls above give.
#![tactic(auto)]

mod answers;
mod collections;
mod decode;
mod encode;
mod entry;
mod laws;
mod limits;
mod reading;
mod rec_error;
mod writing;

pub use answers::{Cause, Fault, Kind, Pause, Place};
pub use collections::{Languages, Texts};
pub use decode::{dec_entry, dec_file_head};
pub use encode::enc_entry;
pub use entry::{
    Client, Entry, FileEntry, FileHead, Product, RegValue, Shortcut, ValueKey, Variable,
};
pub use laws::{
    a_head_is_that_of_its_entry, a_machine_is_spelled_by_its_volume, a_record_is_read_as_its_entry,
    a_volume_spells_a_machine, machines_that_agree_are_the_same, what_is_read_is_spelled_so,
};
pub use mi_text::{
    Bytes, Env, Guid, IdtFault, Name, NameError, NoMemory, NotGuid, NotVersion, PathError,
    PathFault, PathText, PlainEnv, Settled, Sign, Text, Version, compare_folded, find_folded, fold,
    is_default_dir, is_file_name, is_file_path, is_file_pattern, is_folder_path, is_property_name,
    is_public_name, long_name, short_name, source_part, target_part,
};
pub use reading::{u16_at, u32_at, u64_at, version_at};
pub use rec_error::{EncError, RecError, RecFault};
pub use writing::{put_u16, put_u32, put_u64, put_version};
