//! Owned values of the fields of a row that is judged.

ghost use Rattle.std.specs.Prelude.{◌≡◌, None, Some, is_some, true, false};
ghost use Rattle.mi_rows.specs.Fields.{values_of, Takes};
ghost use Rattle.mi_rows.specs.Rows.{◌or_else◌};
ghost use Rattle.mi_rows.specs.Values.{cell_at, text_in, text_at};

use crate::field::{Field, text_field_at};
use mi_base::Text;
use mi_cond::Cond;
use std::alloc::Global;
use std::rc::Rc;

/// Where the fourth line begins, in bytes: that of the first row (Importing and exporting tables).
pub fn fourth_line(bytes: &[u8]) -> usize {
    let mut before = 3usize;
    for (i, byte) in bytes.iter().enumerate() {
        if *byte == b'\n' {
            before = before.saturating_sub(1);
            if before == 0 {
                return i + 1;
            }
        }
    }
    bytes.len()
}

/// Makes values of the fields of a row. A text is a part of that of the table, where it stands there. Where memory runs
/// out it gives empty texts from then on, and keeps that it did, so that a struct is made of it without a way out.
#[derive(Drop)]
pub struct Take {
    /// What takes the memory of the values.
    pub alloc: Global,
    /// The text of the table.
    pub whole: Rc<String>,
    /// Where the line of the next row begins in it, in bytes.
    line: usize,
    /// Where the next field of the row begins in it, in bytes.
    pub field: usize,
    /// The condition of the row, until it is taken.
    pub condition: Option<Cond>,
    /// Whether memory ran out.
    pub failed: bool,
}

impl Take {
    /// Before the first row of a table of this text, whose line begins at this place, in bytes.
    pub fn new(alloc: Global, whole: Rc<String>, line: usize) -> Take
        ensures condition { result.condition ≡ None }
        ensures failed { result.failed ≡ false }
    {
        Take {
            alloc,
            whole,
            line,
            field: 0,
            condition: None,
            failed: false,
        }
    }

    /// Begins a row, whose line has this length, without a condition.
    pub fn begin(&mut self, length: usize)
        ensures condition { self.new.condition ≡ None }
        ensures failed { self.new.failed ≡ self.old.failed }
    {
        self.field = self.line;
        let end = self.line.saturating_add(length);
        let returns = self.whole.as_bytes().get(end) == Some(&b'\r');
        self.line = end.saturating_add(1 + usize::from(returns));
        self.condition = None;
    }

    /// Passes a field of this length, and keeps the condition that it is, where it is one.
    pub fn keep(&mut self, condition: Option<Cond>, length: usize)
        ensures condition { self.new.condition ≡ (condition or_else self.old.condition) }
        ensures failed { self.new.failed ≡ self.old.failed }
    {
        self.field = self.field.saturating_add(length).saturating_add(1);
        match condition {
            Some(condition) => self.condition = Some(condition),
            None => (),
        }
    }

    // A text that begins at this place of the table's text, in bytes, where it stands there.
    fn part(&mut self, start: usize, text: &str) -> Text
        ensures text { Takes self.old.failed self.new.failed (result ≡ text.now) }
        ensures condition { self.new.condition ≡ self.old.condition }
    {
        match Text::part_of(self.alloc, &self.whole, start, text) {
            Ok(text) => text,
            Err(_) => {
                self.failed = true;
                Text::new(self.alloc)
            }
        }
    }

    /// The text of a column of a row, from 0, where it has one.
    pub fn some_text(&mut self, row: &[Field], column: usize) -> Option<Text>
        ensures text { Takes self.old.failed self.new.failed (result ≡ text_in (cell_at (values_of row.now) column)) }
        ensures condition { self.new.condition ≡ self.old.condition }
    {
        match text_field_at(row, column) {
            Some(field) => Some(self.part(field.start, field.text)),
            None => None,
        }
    }

    /// The text of a column of a row, from 0; empty where there is none.
    pub fn text(&mut self, row: &[Field], column: usize) -> Text
        ensures text { Takes self.old.failed self.new.failed (result ≡ text_at (values_of row.now) column) }
        ensures condition { self.new.condition ≡ self.old.condition }
    {
        match self.some_text(row, column) {
            Some(text) => text,
            None => Text::new(self.alloc),
        }
    }

    /// The condition of the row.
    pub fn some_condition(&mut self) -> Option<Cond>
        ensures condition { result ≡ self.old.condition }
        ensures failed { self.new.failed ≡ self.old.failed }
    {
        self.condition.take()
    }

    /// The condition of the row, which has one.
    pub fn condition(&mut self) -> Cond
        requires { is_some self.old.condition ≡ true }
        ensures condition { Some result ≡ self.old.condition }
        ensures failed { self.new.failed ≡ self.old.failed }
    {
        match self.condition.take() {
            Some(condition) => condition,
            None => unreachable!(),
        }
    }
}
