//! Laws of lawful packages, which the crates above may use.

ghost use Rattle.std.specs.Prelude.{◌≡◌, ◌↔◌, ℕ, List, Some, Ok, Err};
ghost use Rattle.mi_text.specs.Maps.{Name};
ghost use Rattle.mi_base.specs.declared.answers.Fault.TheVariants as faults;
ghost use Rattle.mi_cond.specs.Place.{IsRead, IsPlace};
ghost use Rattle.mi_cond.specs.Tree.{Tree};
ghost use Rattle.mi_rows.specs.Texts.{condition_of};
ghost use Rattle.mi_schema.specs.Lawful.{IsLawful};
ghost use Rattle.mi_schema.specs.Laws.{KeysStand, KeysApart, ReferencesStand, ParentsEnd, PropertiesStand, ValuesStand, SourceStands, TablesSmall, TextsShort, ConditionsStand, StopsAt, NamesStand};
ghost use Rattle.mi_rows.specs.Rows.{table_fault};
ghost use Rattle.mi_rows.specs.Columns.{Table};

use crate::package::Package;

/// The key of each row is what the row has in its key columns.
pub fn keys_stand(loaded: &Package)
    requires lawful { IsLawful loaded.now }
    ensures { KeysStand loaded.now }
{}

/// Each row that a row names is there.
pub fn references_stand(loaded: &Package)
    requires lawful { IsLawful loaded.now }
    ensures { ReferencesStand loaded.now }
{}

/// From each row of Directory, Feature and File its parents lead to a row without one.
pub fn parents_end(loaded: &Package)
    requires lawful { IsLawful loaded.now }
    ensures { ParentsEnd loaded.now }
{}

/// Each value meets the rules of its column.
pub fn values_stand(loaded: &Package)
    requires lawful { IsLawful loaded.now }
    ensures { ValuesStand loaded.now }
{}

/// No two rows of a table have one key.
pub fn keys_apart(loaded: &Package)
    requires lawful { IsLawful loaded.now }
    ensures { KeysApart loaded.now }
{}

/// No table has more than 65,535 rows.
pub fn tables_small(loaded: &Package)
    requires lawful { IsLawful loaded.now }
    ensures { TablesSmall loaded.now }
{}

/// What else holds of every lawful package: its properties, the form of its source files, its texts, its conditions and its
/// names.
pub fn rows_stand(loaded: &Package)
    requires lawful { IsLawful loaded.now }
    ensures properties { PropertiesStand loaded.now }
    ensures source { SourceStands loaded.now }
    ensures texts { TextsShort loaded.now }
    ensures conditions { ConditionsStand loaded.now }
    ensures names { NamesStand loaded.now }
{}

/// A text is read as the condition that it is by the grammar, or refused at the place where by the grammar it stops being
/// one (Conditional Statement Syntax).
pub fn conditions_read()
    ensures tree { (text : List ℕ) (tree : Tree) → (condition_of text ≡ Ok tree) ↔ IsRead text tree }
    ensures place { (text : List ℕ) (place : ℕ) → (condition_of text ≡ Err place) ↔ IsPlace text place }
{}

/// A condition is refused at the place where by the grammar its text stops being one (Conditional Statement Syntax).
pub fn conditions_refused()
    ensures { (t : Table) (bytes : List ℕ) (table : Name) (row place : ℕ) → table_fault t (Some bytes) ≡ Some (faults.Condition table row place) → StopsAt t bytes row place }
{}
