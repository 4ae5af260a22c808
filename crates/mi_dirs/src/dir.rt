//! What is kept of a directory.

use mi_text::{PathText, Text};

/// What stands for the target of a directory whatever its parent's is.
#[derive(Drop)]
pub(crate) enum Own {
    /// Nothing: the target is made from the parent's.
    Inherited,
    /// A text that names no folder.
    Refused,
    /// A folder: the one that was set, the remembered one, or that of the property.
    Folder(PathText),
}

/// A row of the Directory table.
#[derive(Drop)]
pub(crate) struct Dir {
    pub key: Text,
    /// The row of its parent, from 0; None for a root row.
    pub parent: Option<usize>,
    /// Its target name.
    pub name: Text,
    /// Its name in the source.
    pub source: Text,
    pub own: Own,
}
