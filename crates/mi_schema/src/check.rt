//! What the rows of all tables have to meet together, and the form of the source files.

ghost use Rattle.mi_rows.specs.Reads.{Answers};
ghost use Rattle.mi_schema.specs.Checks.{package_fault, first_fault, missing_property, required_fault, compressed_fault};
ghost use Rattle.mi_schema.specs.Laws.{TablesSmall};
ghost use Rattle.mi_schema.specs.RowsOf.{rows_in, behind, AreNamed};
ghost use Rattle.std.specs.Prelude.{◌≡◌, map, ◌%◌};
ghost use Rattle.std.specs.Map.{keys_of};
ghost use Rattle.mi_idt.specs.Fields.{number_on};
ghost use Rattle.mi_schema.specs.Source.{word_count, number_or_zero, has_attributes, is_compressed, file_fault, has_short_names, is_source_compressed};

use crate::chain::check_cycles;
use crate::package::Package;
use crate::reference::check_references;
use crate::typed_rows::{FileRow, PropertyRow, SummaryInformationRow};
use indexmap::IndexMap;
use mi_base::{Fault, Text};
use mi_rows::{Checked, LoadError, lacks};
use std::alloc::Global;

const REQUIRED: [&str; 5] = [
    "Manufacturer",
    "ProductCode",
    "ProductLanguage",
    "ProductName",
    "ProductVersion",
];

fn check_names(alloc: Global, properties: &IndexMap<Text, PropertyRow>, names: &[&str]) -> Checked
    requires { keys_of properties.now.entries ≡ map (λ r. r.property) (behind properties.now.entries) }
    ensures { Answers ⊥ (first_fault (missing_property (behind properties.now.entries)) (map (λ n. n.now) names.now)) (λ _. Unit {0}) result }
{
    for name in names {
        let key = Text::copy_of(alloc, name)?;
        if !properties.contains_key(&key) {
            return Err(LoadError::Table(Fault::MissingProperty(key)));
        }
    }
    Ok(())
}

/// Refuses with the first property that each package has and that isn't there.
#[tactic(auto, unfolding(crate::specs::RowsOf::rows_in))]
fn check_properties(alloc: Global, loaded: &Package) -> Checked
    requires { AreNamed loaded.now }
    ensures { Answers ⊥ (required_fault (rows_in loaded.now)) (λ _. Unit {0}) result }
{
    check_names(alloc, &loaded.property, &REQUIRED)
}

/// The two low bits of a decimal number.
fn low_bits(digits: &str) -> u32
    ensures { result ≡ number_on 0 digits.now % 4 }
{
    let mut bits = 0u32;
    for digit in digits.as_bytes() {
        bits = (bits * 10 + u32::from(digit.saturating_sub(b'0'))) % 4;
    }
    bits
}

/// The two low bits of the word count (Word Count Summary property).
fn word_count(summary: &IndexMap<i32, SummaryInformationRow>) -> u32
    ensures { result ≡ word_count (behind summary.now.entries) % 4 }
{
    for row in summary.values() {
        if row.property_id == 15 {
            return match &row.value {
                Some(value) => low_bits(value.as_str()),
                None => 0,
            };
        }
    }
    0
}

/// Whether the source has short names.
pub fn has_short_names(loaded: &Package) -> bool
    ensures { result ≡ has_short_names (behind loaded.now.summary_information.entries) }
{
    word_count(&loaded.summary_information) % 2 == 1
}

/// Whether the source is compressed, where a file doesn't say otherwise.
fn is_source_compressed(loaded: &Package) -> bool
    ensures { result ≡ is_source_compressed (behind loaded.now.summary_information.entries) }
{
    word_count(&loaded.summary_information) / 2 == 1
}

/// Whether a file has one of these attributes (File table, Attributes).
fn has_attributes(row: &FileRow, bits: u32) -> bool
    ensures { result ≡ has_attributes row.now bits }
{
    !lacks(bits, row.attributes.unwrap_or(0))
}

/// Whether a file is compressed.
fn is_compressed(source: bool, row: &FileRow) -> bool
    ensures { result ≡ is_compressed source row.now }
{
    has_attributes(row, 16384) || (source && !has_attributes(row, 8192))
}

/// Refuses with the first compressed file of a package.
#[tactic(auto, unfolding(crate::specs::RowsOf::rows_in))]
fn check_compressed(alloc: Global, loaded: &Package) -> Checked
    ensures { Answers ⊥ (compressed_fault (rows_in loaded.now)) (λ _. Unit {0}) result }
{
    let source = is_source_compressed(loaded);
    for row in loaded.file.values() {
        if is_compressed(source, row) {
            let file = Text::copy_of(alloc, row.file.as_str())?;
            return Err(LoadError::Table(Fault::Compressed(file)));
        }
    }
    Ok(())
}

/// Refuses with the first fault of the rows of all tables.
pub fn check_rows(alloc: Global, loaded: &Package) -> Checked
    requires named { AreNamed loaded.now }
    requires few { TablesSmall loaded.now }
    ensures { Answers ⊥ (package_fault (rows_in loaded.now)) (λ _. Unit {0}) result }
{
    check_properties(alloc, loaded)?;
    check_references(alloc, loaded)?;
    check_cycles(alloc, loaded)?;
    check_compressed(alloc, loaded)
}
