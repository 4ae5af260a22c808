//! Loading the tables of a package.

ghost use Rattle.std.specs.Prelude.{◌≡◌, ◌≤◌, IfErr, IfOk, OnOk, None};
ghost use Rattle.mi_source.specs.Counts.{Rose};
ghost use Rattle.mi_rows.specs.Reads.{Answers, Fails, IsCounted};
ghost use Rattle.mi_schema.specs.Lawful.{IsLawful};
ghost use Rattle.mi_schema.specs.Tables.{table_of, tables, listed_as, layout_of};
ghost use Rattle.mi_schema.specs.Loaded.{IsPut, IsLate, IsOther, AreLoaded};
ghost use Rattle.mi_schema.specs.RowsOf.{IsPackage, HoldsAll, folder_rows, rows_in};
ghost use Rattle.mi_rows.specs.Rows.{table_fault};
ghost use Rattle.mi_schema.specs.Checks.{Content, content_of, tables_fault, missing_table, missing_fault, load_fault};

use crate::check::{check_rows, has_short_names};
use crate::known::{Known, Listed, each_table, tables};
use crate::package::Package;
use crate::table::{is_there, load_table, path_of, refuse_table};
use crate::typed_rows as rows;
use mi_base::{Fault, Text};
use mi_rows::{Checked, LoadError};
use mi_source::Source;
use std::alloc::Global;

// A match over all tables is two functions, since the proof of one would take more than a minute.
macro_rules! early_tables {
    ($alloc:ident, $src:ident, $folder:ident, $known:ident, $loaded:ident:
        $($table:ident $layout:ident $rows:ident),*; $($late:ident $of:ident $more:ident),*) => {
        match $known {
            $(Known::$table => load_table($alloc, $src, $folder, &rows::$layout, &mut $loaded.$rows),)*
            $(Known::$late)|* => load_late($alloc, $src, $folder, $known, $loaded),
        }
    };
}

macro_rules! late_tables {
    ($alloc:ident, $src:ident, $folder:ident, $known:ident, $loaded:ident:
        $($table:ident $layout:ident $rows:ident),*; $($late:ident $of:ident $more:ident),*) => {
        match $known {
            $(Known::$late => load_table($alloc, $src, $folder, &rows::$of, &mut $loaded.$more),)*
            $(Known::$table)|* => unreachable!(),
        }
    };
}

/// Reads the rows of a known table of the second list in a folder into a package.
fn load_late<S: Source>(
    alloc: Global,
    src: &mut S,
    folder: &str,
    known: Known,
    loaded: &mut Package,
) -> Checked
    requires { IsLate known }
    ensures put { OnOk result (IsPut S.told (content_of (S.files src.old) folder.now) (layout_of known) loaded.old loaded.new) }
    ensures fault { S.told → IfErr result (Fails (Rose (S.faults src.old) (S.faults src.new)) (table_fault (layout_of known) (content_of (S.files src.old) folder.now (layout_of known).name))) }
    ensures counted { IsCounted (Rose (S.faults src.old) (S.faults src.new)) result }
    ensures stays { S.files src.new ≡ S.files src.old }
    ensures counts { S.faults src.old ≤ S.faults src.new }
{
    each_table!(late_tables: alloc, src, folder, known, loaded)
}

/// Reads the rows of a known table in a folder into a package.
fn load_known<S: Source>(
    alloc: Global,
    src: &mut S,
    folder: &str,
    known: Known,
    loaded: &mut Package,
) -> Checked
    ensures put { OnOk result (IsPut S.told (content_of (S.files src.old) folder.now) (layout_of known) loaded.old loaded.new) }
    ensures fault { S.told → IfErr result (Fails (Rose (S.faults src.old) (S.faults src.new)) (table_fault (layout_of known) (content_of (S.files src.old) folder.now (layout_of known).name))) }
    ensures counted { IsCounted (Rose (S.faults src.old) (S.faults src.new)) result }
    ensures stays { S.files src.new ≡ S.files src.old }
    ensures counts { S.faults src.old ≤ S.faults src.new }
{
    each_table!(early_tables: alloc, src, folder, known, loaded)
}

/// Reads a table of the list in a folder into a package.
fn load_listed<S: Source>(
    alloc: Global,
    src: &mut S,
    folder: &str,
    table: Listed,
    loaded: &mut Package,
) -> Checked
    requires { IsOther (listed_as table) }
    ensures put { OnOk result (IsPut S.told (content_of (S.files src.old) folder.now) (table_of (listed_as table)) loaded.old loaded.new) }
    ensures fault { S.told → IfErr result (Fails (Rose (S.faults src.old) (S.faults src.new)) (table_fault (table_of (listed_as table)) (content_of (S.files src.old) folder.now (table_of (listed_as table)).name))) }
    ensures counted { IsCounted (Rose (S.faults src.old) (S.faults src.new)) result }
    ensures stays { S.files src.new ≡ S.files src.old }
    ensures counts { S.faults src.old ≤ S.faults src.new }
{
    match table {
        Listed::Known(known) => load_known(alloc, src, folder, known, loaded),
        Listed::Refused(name) => refuse_table(alloc, src, folder, name),
    }
}

/// Reads all tables of a folder into a package without rows, or refuses with the first fault of a table.
fn load_tables<S: Source>(alloc: Global, src: &mut S, folder: &str, loaded: &mut Package) -> Checked
    requires { HoldsAll loaded.old (λ _. None) }
    ensures loaded { OnOk result (AreLoaded S.told (content_of (S.files src.old) folder.now) loaded.new) }
    ensures fault { S.told → IfErr result (Fails (Rose (S.faults src.old) (S.faults src.new)) (tables_fault (content_of (S.files src.old) folder.now) tables)) }
    ensures counted { IsCounted (Rose (S.faults src.old) (S.faults src.new)) result }
    ensures stays { S.files src.new ≡ S.files src.old }
    ensures counts { S.faults src.old ≤ S.faults src.new }
{
    for table in tables() {
        load_listed(alloc, src, folder, *table, loaded)?;
    }
    Ok(())
}

/// Refuses where a table has no file.
fn require<S: Source>(alloc: Global, src: &mut S, folder: &str, table: &str) -> Checked
    ensures value { S.told → Answers (Rose (S.faults src.old) (S.faults src.new)) (missing_table (content_of (S.files src.old) folder.now) table.now) (λ _. Unit {0}) result }
    ensures counted { IsCounted (Rose (S.faults src.old) (S.faults src.new)) result }
    ensures stays { S.files src.new ≡ S.files src.old }
    ensures counts { S.faults src.old ≤ S.faults src.new }
{
    let path = path_of(alloc, folder, table)?;
    if is_there(src, path.as_str())? {
        return Ok(());
    }
    let name = Text::copy_of(alloc, table)?;
    Err(LoadError::Table(Fault::MissingTable(name)))
}

/// Refuses where a table that each package has has no file.
fn require_tables<S: Source>(alloc: Global, src: &mut S, folder: &str) -> Checked
    ensures value { S.told → Answers (Rose (S.faults src.old) (S.faults src.new)) (missing_fault (content_of (S.files src.old) folder.now)) (λ _. Unit {0}) result }
    ensures counted { IsCounted (Rose (S.faults src.old) (S.faults src.new)) result }
    ensures stays { S.files src.new ≡ S.files src.old }
    ensures counts { S.faults src.old ≤ S.faults src.new }
{
    require(alloc, src, folder, "Property")?;
    require(alloc, src, folder, "InstallExecuteSequence")
}

/// Says which names the source has.
fn name_source(loaded: &mut Package)
    ensures { (content : Content) → HoldsAll loaded.old content → IsPackage loaded.new content }
{
    loaded.short_names = has_short_names(loaded);
}

/// Loads the package of a folder into one without rows, or refuses with the first fault.
fn fill<S: Source>(alloc: Global, src: &mut S, folder: &str, loaded: &mut Package) -> Checked
    requires { HoldsAll loaded.old (λ _. None) }
    ensures value { S.told → Answers (Rose (S.faults src.old) (S.faults src.new)) (load_fault (S.files src.old) folder.now)
        (λ _. IsPackage loaded.new (content_of (S.files src.old) folder.now)) result }
    ensures lawful { OnOk result (IsLawful loaded.new) }
    ensures counted { IsCounted (Rose (S.faults src.old) (S.faults src.new)) result }
    ensures stays { S.files src.new ≡ S.files src.old }
    ensures counts { S.faults src.old ≤ S.faults src.new }
{
    require_tables(alloc, src, folder)?;
    load_tables(alloc, src, folder, loaded)?;
    name_source(loaded);
    check_rows(alloc, loaded)?;
    Ok(())
}

impl Package {
    /// Loads the package of a folder: exactly the rows of every known table in their files, or exactly the first fault
    /// (Database Tables). Memory or the source may fail.
    pub fn load<S: Source>(alloc: Global, src: &mut S, folder: &str) -> Result<Package, LoadError>
        ensures value { S.told → Answers (Rose (S.faults src.old) (S.faults src.new)) (load_fault (S.files src.old) folder.now)
            (λ p. IsPackage p (content_of (S.files src.old) folder.now)) result }
        ensures rows { S.told → Answers (Rose (S.faults src.old) (S.faults src.new)) (load_fault (S.files src.old) folder.now)
            (λ p. rows_in p ≡ folder_rows (S.files src.old) folder.now) result }
        ensures lawful { IfOk result IsLawful }
        ensures counted { IsCounted (Rose (S.faults src.old) (S.faults src.new)) result }
        ensures stays { S.files src.new ≡ S.files src.old }
        ensures counts { S.faults src.old ≤ S.faults src.new }
    {
        let mut loaded = Package::empty(alloc);
        match fill(alloc, src, folder, &mut loaded) {
            Ok(()) => Ok(loaded),
            Err(error) => {
                drop(loaded);
                Err(error)
            }
        }
    }
}
