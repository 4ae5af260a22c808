//! Rows of the Directory table.

use mi_text::Text;

/// A row of the Directory table: its key, its parent's key, and the names of its DefaultDir.
#[derive(Drop)]
pub struct DirRow {
    pub key: Text,
    /// None, or the row's own key, for a root row.
    pub parent: Option<Text>,
    /// The name on the machine; `.` is the parent's folder.
    pub target: Text,
    /// The short name in the source; `.` is the parent's folder.
    pub short_source: Text,
    /// The long name in the source; `.` is the parent's folder.
    pub long_source: Text,
}
