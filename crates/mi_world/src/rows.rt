//! Rows at their places in file order, and values of the Property table.

ghost use Rattle.std.specs.Prelude.{◌≡◌, slice_get};
ghost use Rattle.std.specs.Option.{option_copied};
ghost use Rattle.mi_schema.specs.RowsOf.{rows_in};
ghost use Rattle.mi_schema.specs.TableRows.{table_value, product_code};
ghost use Rattle.mi_world.specs.Rows.{named_row};

use mi_base::Guid;
use mi_schema::{
    ComponentRow, DirectoryRow, FeatureComponentsRow, FeatureRow, FileRow, Package, PropertyRow,
};

/// The row of Property at a place, from 0.
pub fn property_at(loaded: &Package, place: usize) -> Option<&PropertyRow>
    ensures { option_copied result ≡ slice_get (rows_in loaded.now).property place }
{
    match loaded.property.get_index(place) {
        Some((_, row)) => Some(row),
        None => None,
    }
}

/// The row of Directory at a place, from 0.
pub fn directory_at(loaded: &Package, place: usize) -> Option<&DirectoryRow>
    ensures { option_copied result ≡ slice_get (rows_in loaded.now).directory place }
{
    match loaded.directory.get_index(place) {
        Some((_, row)) => Some(row),
        None => None,
    }
}

/// The row of Component at a place, from 0.
pub fn component_at(loaded: &Package, place: usize) -> Option<&ComponentRow>
    ensures { option_copied result ≡ slice_get (rows_in loaded.now).component place }
{
    match loaded.component.get_index(place) {
        Some((_, row)) => Some(row),
        None => None,
    }
}

/// The row of Feature at a place, from 0.
pub fn feature_at(loaded: &Package, place: usize) -> Option<&FeatureRow>
    ensures { option_copied result ≡ slice_get (rows_in loaded.now).feature place }
{
    match loaded.feature.get_index(place) {
        Some((_, row)) => Some(row),
        None => None,
    }
}

/// The row of FeatureComponents at a place, from 0.
pub fn feature_component_at(loaded: &Package, place: usize) -> Option<&FeatureComponentsRow>
    ensures { option_copied result ≡ slice_get (rows_in loaded.now).feature_components place }
{
    match loaded.feature_components.get_index(place) {
        Some((_, row)) => Some(row),
        None => None,
    }
}

/// The row of File at a place, from 0.
pub fn file_at(loaded: &Package, place: usize) -> Option<&FileRow>
    ensures { option_copied result ≡ slice_get (rows_in loaded.now).file place }
{
    match loaded.file.get_index(place) {
        Some((_, row)) => Some(row),
        None => None,
    }
}

// The row of Property at a place, if it has this name.
fn named_at<'a>(loaded: &'a Package, place: usize, name: &str) -> Option<&'a PropertyRow>
    ensures { option_copied result ≡ named_row name.now (slice_get (rows_in loaded.now).property place) }
{
    match property_at(loaded, place) {
        Some(row) if name == row.property.as_str() => Some(row),
        Some(_) | None => None,
    }
}

/// The value that the Property table gives a name, and the empty text where it has no such row.
fn table_value<'a>(loaded: &'a Package, name: &str) -> &'a str
    ensures { result.now ≡ table_value (rows_in loaded.now) name.now }
{
    for place in 0..loaded.property.len() {
        match named_at(loaded, place, name) {
            Some(row) => return row.value.as_str(),
            None => {}
        }
    }
    ""
}

/// The product's code (ProductCode property).
pub fn product_code(loaded: &Package) -> Guid
    ensures { result.number ≡ product_code (rows_in loaded.now) }
{
    match Guid::read(table_value(loaded, "ProductCode")) {
        Ok(code) => code,
        Err(_) => Guid { number: 0 },
    }
}
