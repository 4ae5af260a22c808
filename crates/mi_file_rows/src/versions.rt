//! What a row of File says of the file that an installation brings, and under which letters it is brought (File table, columns
//! Version, Language and Attributes; REINSTALLMODE property).

ghost use Rattle.std.specs.Prelude.{◌≡◌, ◌==◌, IfOk, OnOk, map};
ghost use Rattle.std.specs.List.{slice_split, filter_map};
ghost use Rattle.mi_idt.specs.Fields.{number_within};
ghost use Rattle.mi_model.specs.FileVersions.{version_of_row, rising, languages_of_row, new_file, writes_some};
ghost use Rattle.mi_model.specs.InstallFiles.{attributes_of_row};
ghost use Rattle.mi_file_rows.specs.Languages.{with_number};
ghost use Rattle.mi_file_rows.specs.Modes.{mode_where};

use mi_base::{Languages, NoMemory, Version};
use mi_fver::{Mode, NewFile};
use mi_records::language_of;
use mi_schema::FileRow;
use std::alloc::{AllocError, Global};
use std::collections::BTreeSet;

/// The version of a row's file, and None where it has none; a companion has none of its own (File table, Version).
pub fn version_of_row(row: &FileRow) -> Option<Version>
    ensures { result ≡ version_of_row row.now }
{
    match &row.version {
        Some(version) => Version::read(version.as_str()).ok(),
        None => None,
    }
}

fn parts_of(alloc: Global, text: &str) -> Result<Vec<&str>, AllocError>
    ensures { IfOk result (λ v. map (λ b. b.now) v.items ≡ slice_split (λ b. b == 44) text.now) }
{
    text.split(',').collect(alloc)
}

// Adds the number that a text spells, where it spells one.
fn add_number(numbers: &mut BTreeSet<u16>, text: &str) -> Result<(), NoMemory>
    ensures { OnOk result (numbers.new.keys ≡ with_number numbers.old.keys (number_within 65535 text.now)) }
{
    if let Some(number) = language_of(text.as_bytes()) {
        numbers.insert(number as u16)?;
    }
    Ok(())
}

// The numbers among some texts, each once and in order.
fn numbers_in(alloc: Global, parts: &[&str]) -> Result<BTreeSet<u16>, NoMemory>
    ensures { IfOk result (λ numbers. numbers.keys ≡ rising (filter_map (number_within 65535) (map (λ b. b.now) parts.now))) }
{
    let mut numbers = BTreeSet::new(alloc);
    for part in parts {
        add_number(&mut numbers, part)?;
    }
    Ok(numbers)
}

fn in_order(alloc: Global, numbers: &BTreeSet<u16>) -> Result<Vec<u16>, AllocError>
    ensures { IfOk result (λ all. all.items ≡ numbers.now.keys) }
{
    numbers.iter().copied().collect(alloc)
}

// The languages that a text states, rising, each once.
fn languages_in(alloc: Global, text: &str) -> Result<Languages, NoMemory>
    ensures { IfOk result (λ languages. languages ≡ rising (filter_map (number_within 65535) (slice_split (λ b. b == 44) text.now))) }
{
    let parts = parts_of(alloc, text)?;
    let numbers = numbers_in(alloc, &parts)?;
    let languages = in_order(alloc, &numbers)?;
    Ok(Languages::from_vec(languages))
}

/// The languages of a row's file, as numbers up to 65,535, rising, each once; what spells no such number is none, and a null is none.
/// It takes memory (File table, Language).
pub fn languages_of_row(alloc: Global, row: &FileRow) -> Result<Languages, NoMemory>
    ensures { IfOk result (λ languages. languages ≡ languages_of_row row.now) }
{
    match &row.language {
        Some(text) => languages_in(alloc, text.as_str()),
        None => languages_in(alloc, ""),
    }
}

/// The attributes of a row's file: 1 read-only, 2 hidden, 4 system; a null has none, and other bits are left out (File table,
/// Attributes).
pub fn attributes_of_row(row: &FileRow) -> u32
    ensures { result ≡ attributes_of_row row.now }
{
    match row.attributes {
        Some(attributes) => attributes.cast_unsigned() & 7,
        None => 0,
    }
}

/// What the rules on versions read of a row: its version and its languages. It takes memory (File Versioning Rules).
pub fn new_file(alloc: Global, row: &FileRow) -> Result<NewFile, NoMemory>
    ensures { IfOk result (λ new. new ≡ new_file row.now) }
{
    let languages = languages_of_row(alloc, row)?;
    Ok(NewFile {
        version: version_of_row(row),
        languages,
    })
}

// Whether one of the letters asks for files.
fn writes_some(mode: Mode) -> bool
    ensures { result ≡ writes_some mode }
{
    mode.p || mode.o || mode.e || mode.d || mode.a
}

/// The letters under which a row's file is brought, by those of the run and whether the row's component was present before it: those
/// of the run, and `o` where it wasn't and none of them asks for files (REINSTALLMODE property).
pub fn mode_where(was_present: bool, mode: Mode) -> Mode
    ensures { result ≡ mode_where was_present mode }
{
    if was_present || writes_some(mode) {
        mode
    } else {
        Mode { o: true, ..mode }
    }
}
