//! Fields that stand as they are written.

ghost use Rattle.std.specs.Prelude.{◌≡◌, IsTrue};
ghost use Rattle.mi_idt.specs.Cells.{Cell};
ghost use Rattle.mi_idt.specs.Means.{column_value};
ghost use Rattle.mi_idt.specs.Rows.{cell_of};
ghost use Rattle.mi_idt.specs.Spells.{SpellsField};
ghost use Rattle.mi_idt.specs.Stands.{begins_with_zero, integer_stands, text_stands};
ghost use Rattle.mi_idt.specs.Written.{written_cell};

use crate::table::Column;

fn begins_with_zero(digits: &[u8]) -> bool
    ensures { result ≡ begins_with_zero digits.now }
{
    match digits {
        [first, ..] => *first == b'0',
        [] => false,
    }
}

fn integer_stands(field: &[u8]) -> bool
    ensures { result ≡ integer_stands field.now }
{
    match field {
        [b'-', digits @ ..] => !begins_with_zero(digits),
        _ => !begins_with_zero(field) || field.len() == 1,
    }
}

fn text_stands(field: &[u8]) -> bool
    ensures { result ≡ text_stands field.now }
{
    field.iter().all(|byte| *byte > 13)
}

/// Whether a field of a column stands as it is written; of some texts that do it says no.
pub fn stands(column: &Column<'_>, field: &[u8]) -> bool
    ensures { IsTrue result → (x : Cell) → SpellsField (column_value column.now) field.now x → written_cell (cell_of (column_value column.now) field.now) ≡ field.now }
{
    if column.is_int() {
        integer_stands(field)
    } else {
        text_stands(field)
    }
}
