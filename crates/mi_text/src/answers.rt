//! Plain data that lower crates answer with.

use crate::text::Text;

/// What settling the rollback area found.
#[derive(Clone, Copy)]
pub enum Settled {
    /// The marker wasn't open: nothing was undone.
    Clean,
    /// The marker was open: so many noted names were put back.
    Undone(u64),
}

/// The first fault of a text archive file (Importing and exporting tables; the order is this project's own).
/// Lines, columns and rows count from 1; rows count from the fourth line on.
#[derive(Drop)]
pub enum IdtFault {
    /// More than 16,777,216 bytes, 65,535 rows or 32 columns.
    TooLarge,
    /// Fewer than three lines.
    TooFewLines,
    /// This line isn't UTF-8, or has a byte past 127 in code page 1252.
    NotUtf8(u32),
    /// The name of this column is empty or repeats an earlier one.
    ColumnName(u32),
    /// This line has another number of fields than there are columns.
    ColumnCount(u32),
    /// The definition of this column isn't a type and a width.
    Definition(u32),
    /// This code page isn't read; the greatest u32 stands for any larger number.
    CodePage(u32),
    /// This key column is unknown or repeated; the empty text where there is none.
    KeyColumn(Text),
    /// The field of this row and column is empty, and the column allows no null.
    Null(u32, u32),
    /// The field of this row and column is no integer within the bounds.
    Integer(u32, u32),
    /// This row is the first that has an earlier row's key.
    TwoKeys(u32),
}
