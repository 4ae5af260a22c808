//! The file that an installation brings.

use mi_base::{Languages, Version};

/// What a File row says of its file (File table, columns Version and Language).
#[derive(Drop)]
pub struct NewFile {
    /// The version, and None where the file has none.
    pub version: Option<Version>,
    /// The languages in any order.
    pub languages: Languages,
}
