//! Laws of the table spelling, which the crates above may use.

ghost use Rattle.std.specs.Prelude.{◌≡◌, ℕ, List};
ghost use Rattle.mi_idt.specs.Cells.{TableValue};
ghost use Rattle.mi_idt.specs.Spells.{Spells};

/// No bytes spell two tables (Importing and exporting tables).
pub fn spells_one()
    ensures { (bytes : List ℕ) (table other : TableValue) → Spells bytes table → Spells bytes other → table ≡ other }
{}
