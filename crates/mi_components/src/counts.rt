//! Counts of shared files (Component Table, Attributes; the rules of the counts are this project's own).

ghost use Rattle.std.specs.Prelude.{◌≡◌, ℕ, List, Ok};
ghost use Rattle.std.specs.FinMap.{get};
ghost use Rattle.mi_text.specs.Maps.{Map};
ghost use Rattle.mi_image.specs.Items.{machine_over};
ghost use Rattle.mi_schema.specs.Lawful.{IsLawful};
ghost use Rattle.mi_schema.specs.RowsOf.{rows_in};
ghost use Rattle.mi_model.specs.KeyPaths.{KeyPath, key_path_text};
ghost use Rattle.mi_model.specs.SharedCounts.{count_name, count_in, is_counted, has_other_count};
ghost use Rattle.mi_components.specs.Counts.{number_of};

use crate::file_rows::file_row;
use mi_base::RegValue;
use mi_features::has_attribute;
use mi_image::Image;
use mi_schema::{ComponentRow, Package};

/// The root of the counts, HKEY_LOCAL_MACHINE.
const SHARED_ROOT: u8 = 2;

/// The key of the counts.
const SHARED_KEY: &str = "Software\\Microsoft\\Windows\\CurrentVersion\\SharedDLLs";

/// The number of a value; 0 where it is no integer.
fn number_of(value: &RegValue) -> u32
    ensures { result ≡ number_of value.now }
{
    match value {
        RegValue::Text(_) => 0,
        RegValue::Expand(_) => 0,
        RegValue::Int(number) => *number,
        RegValue::Binary(_) => 0,
        RegValue::List(_) => 0,
    }
}

/// The count of a path; 0 where there is none, or the value is no integer. No memory, and one search.
fn count_at(former: &Image, path: &str) -> u32
    ensures { (held files : Map (List ℕ)) → result ≡ count_in (get (machine_over held files former.now) (count_name path.now)) }
{
    match former.value(SHARED_ROOT, SHARED_KEY, path) {
        Some(value) => number_of(value),
        None => 0,
    }
}

/// Whether a component is counted: it has attribute 8, an id, and a file as its key path.
fn is_counted(loaded: &Package, row: &ComponentRow) -> bool
    requires { IsLawful loaded.now }
    ensures { result ≡ is_counted (rows_in loaded.now) row.now }
{
    has_attribute(8, row.attributes)
        && row.component_id.is_some()
        && file_row(loaded, row).is_some()
}

/// Whether others than the component hold its file, by the count of its key path in the machine before the run. No memory, and
/// one search. The package is lawful.
pub fn has_other_count(loaded: &Package, former: &Image, row: &ComponentRow, path: &str) -> bool
    requires { IsLawful loaded.now }
    ensures { (held files : Map (List ℕ)) (p : KeyPath) → path.now ≡ key_path_text p → result ≡ has_other_count (rows_in loaded.now) (machine_over held files former.now) row.now (Ok p) }
{
    is_counted(loaded, row) && count_at(former, path) > 1
}
