//! Texts and what is made of them: names of the volume and maps from names, paths, codes, versions
//! and the look-ups that formatted text and conditions ask for.
#![tactic(auto)]

mod answers;
mod bytes;
mod env;
mod file_name;
mod folded;
mod guid;
mod laws;
mod name;
mod path;
mod plain_env;
mod property_name;
mod text;
mod version;

pub use answers::{IdtFault, Settled};
pub use bytes::Bytes;
pub use env::{Env, Sign};
pub use file_name::{
    is_default_dir, is_file_name, is_file_pattern, long_name, short_name, source_part, target_part,
};
pub use folded::{compare_folded, find_folded};
pub use guid::{Guid, NotGuid};
pub use laws::{
    folder_is_read_again, parent_is_a_folder, parent_is_the_folder, printed_code_is_read,
};
pub use name::{Name, NameError};
pub use path::{PathError, PathFault, PathText, is_file_path, is_folder_path};
pub use plain_env::PlainEnv;
pub use property_name::{is_property_name, is_public_name};
pub use text::{NoMemory, Text, fold};
pub use version::{NotVersion, Version};
