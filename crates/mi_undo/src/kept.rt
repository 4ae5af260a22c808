//! What an open area keeps in memory.

use mi_text::Name;
use std::collections::BTreeSet;

/// A run of an entry's bytes, from `at` up to `end`.
#[derive(Clone, Copy)]
pub struct Span {
    pub at: u64,
    pub end: u64,
}

/// A noted name, and where its old bytes stand.
#[derive(Drop)]
pub struct Place {
    pub name: Name,
    /// The number of the entry.
    pub entry: u32,
    /// The old bytes in that entry, or None where the name was absent.
    pub old: Option<Span>,
}

/// How far an area has come.
#[derive(Clone, Copy)]
pub enum Progress {
    /// No call has failed.
    Working,
    /// A call has failed: the area may only be gone back over.
    Failed,
    /// It was committed, or it isn't known whether it was.
    Over,
}

/// What an open area keeps: the names that it writes inside the area, so that its end needs no
/// memory, and the noted names with the places of their old bytes.
#[derive(Drop)]
pub struct Kept {
    pub marker: Name,
    /// The names of entries and gates, of a failed entry too.
    pub area: Vec<Name>,
    /// How many entries stand.
    pub entries: u32,
    /// The notes, in order.
    pub places: Vec<Place>,
    /// The noted names.
    pub seen: BTreeSet<Name>,
}
