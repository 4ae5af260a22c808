//! What a row of File says of its file, and under which letters it is brought (File table; File Versioning Rules; REINSTALLMODE
//! property).
#![tactic(auto)]

mod versions;

pub use versions::{attributes_of_row, languages_of_row, mode_where, new_file, version_of_row};
