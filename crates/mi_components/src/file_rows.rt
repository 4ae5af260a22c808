//! Rows of File that are key paths.

ghost use Rattle.std.specs.Prelude.{◌≡◌, option_map};
ghost use Rattle.mi_schema.specs.Lawful.{IsLawful};
ghost use Rattle.mi_schema.specs.RowsOf.{rows_in};
ghost use Rattle.mi_model.specs.KeyPaths.{file_row};
ghost use Rattle.mi_records.specs.Order.{as_numbered};
ghost use Rattle.mi_components.specs.FileRows.{file_row_of};

use mi_base::Text;
use mi_features::has_attribute;
use mi_records::Row;
use mi_schema::{ComponentRow, FileRow, Package, keys_stand, tables_small};

/// The row of File with this key, behind its number in the file.
fn file_row_of<'a>(loaded: &'a Package, key: &Text) -> Option<Row<'a, FileRow>>
    requires { IsLawful loaded.now }
    ensures { option_map as_numbered result ≡ file_row_of (rows_in loaded.now) key.now }
{
    keys_stand(loaded);
    tables_small(loaded);
    match loaded.file.get_full(key) {
        Some((place, _, row)) => Some((place as u32 + 1, row)),
        None => None,
    }
}

/// The row of File that KeyPath names, where attribute 4 isn't set.
pub fn file_row<'a>(loaded: &'a Package, row: &ComponentRow) -> Option<Row<'a, FileRow>>
    requires { IsLawful loaded.now }
    ensures { option_map as_numbered result ≡ file_row (rows_in loaded.now) row.now }
{
    if has_attribute(4, row.attributes) {
        return None;
    }
    match &row.key_path {
        Some(key) => file_row_of(loaded, key),
        None => None,
    }
}
