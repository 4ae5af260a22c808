//! Rows as structs of their tables, by their keys, and the types of keys.

ghost use Rattle.std.specs.Prelude.{◌≡◌, true};
ghost use Rattle.mi_rows.specs.Columns.{Table};
ghost use Rattle.mi_rows.specs.Fields.{values_of, last_condition, Takes};
ghost use Rattle.mi_rows.specs.Rows.{IsReadable};
ghost use Rattle.mi_rows.specs.Typed.{text_key, number_key, texts_key, text_number_key, upgrade_key};
ghost use Rattle.mi_rows.specs.Values.{all_suit, Row as Values};

use crate::field::{Field, number_at};
use crate::take::Take;
use mi_base::Text;
use std::hash::Hash;

/// The key of a row of Upgrade: UpgradeCode, VersionMin, VersionMax, Language and Attributes (Upgrade table).
pub type UpgradeKey = (Text, Option<Text>, Option<Text>, Option<Text>, i32);

/// A key of a table: the values of its key columns.
pub trait Key: Eq + Hash + Drop {
    /// The key of a row.
    ghost key: { Values → Self };

    /// The key of a row that is judged.
    fn of_row(take: &mut Take, row: &[Field]) -> Self
        ensures key { Takes take.old.failed take.new.failed (result ≡ key (values_of row.now)) }
        ensures condition { take.new.condition ≡ take.old.condition };
}

/// A row of a table as a struct.
pub trait TableRow<K: Key>: Drop {
    /// The table.
    ghost layout: { Table };

    /// Its rows are read, and the values of its key columns tell the fields.
    ghost readable: { IsReadable layout };

    /// The row as a struct.
    ghost value: { Values → Self };

    /// The struct of a row that is judged.
    fn read(take: &mut Take, row: &[Field]) -> Self
        requires suits { all_suit layout.columns (values_of row.now) ≡ true }
        requires condition { take.old.condition ≡ last_condition (values_of row.now) }
        ensures { Takes take.old.failed take.new.failed (result ≡ value (values_of row.now)) };
}

impl Key for Text {
    ghost key = { text_key };

    fn of_row(take: &mut Take, row: &[Field]) -> Text {
        take.text(row, 0)
    }
}

impl Key for i32 {
    ghost key = { number_key };

    fn of_row(_take: &mut Take, row: &[Field]) -> i32 {
        number_at(row, 0)
    }
}

impl Key for (Text, Text) {
    ghost key = { texts_key };

    fn of_row(take: &mut Take, row: &[Field]) -> (Text, Text) {
        (take.text(row, 0), take.text(row, 1))
    }
}

impl Key for (Text, i32) {
    ghost key = { text_number_key };

    fn of_row(take: &mut Take, row: &[Field]) -> (Text, i32) {
        (take.text(row, 0), number_at(row, 1))
    }
}

impl Key for UpgradeKey {
    ghost key = { upgrade_key };

    fn of_row(take: &mut Take, row: &[Field]) -> UpgradeKey {
        let upgrade_code = take.text(row, 0);
        let version_min = take.some_text(row, 1);
        let version_max = take.some_text(row, 2);
        let language = take.some_text(row, 3);
        (
            upgrade_code,
            version_min,
            version_max,
            language,
            number_at(row, 4),
        )
    }
}
