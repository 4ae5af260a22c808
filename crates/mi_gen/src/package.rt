//! The whole package.

ghost use Rattle.std.specs.Prelude.{◌≡◌, ◌++◌, map, IfOk, OnOk};
ghost use Rattle.std.specs.FinMap.{empty, from_entries};
ghost use Rattle.std.specs.List.{range_with_len};
ghost use Rattle.mi_idt.specs.Written.{written_row, with_ends};
ghost use Rattle.mi_model.specs.Selftest.{content, selftest_files};
ghost use Rattle.mi_source.specs.MemSource.{files_in, meter_of};
ghost use Rattle.mi_gen.specs.Tables.{fixed_file, rows_for, file_for, with_file, with_numbered, with_fixed};
ghost use Rattle.mi_gen.specs.Generated.{held};

use crate::digits::numbered;
use crate::fixed::FixedTable;
use crate::generated::Generated;
use crate::numbered::NumberedTable;
use crate::pieces::push_all;
use crate::rows::name_of_file;
use mi_source::MemSource;
use mi_text::{NoMemory, Text};
use std::alloc::Global;

fn push_rows(
    alloc: Global,
    out: &mut Vec<u8>,
    table: NumberedTable,
    files: u32,
) -> Result<(), NoMemory>
    ensures { OnOk result (out.new.items ≡ out.old.items ++ with_ends (map written_row (rows_for table files))) }
{
    for file in 0..files {
        if table.has_row(file) {
            table.push_row(alloc, out, file)?;
        }
    }
    Ok(())
}

fn text_of(alloc: Global, table: NumberedTable, files: u32) -> Result<Vec<u8>, NoMemory>
    ensures { IfOk result (λ text. text.items ≡ (file_for table files).1) }
{
    let mut text = Vec::new(alloc);
    push_all(&mut text, table.head())?;
    push_rows(alloc, &mut text, table, files)?;
    Ok(text)
}

fn add_numbered(
    alloc: Global,
    source: &mut MemSource,
    table: NumberedTable,
    files: u32,
) -> Result<(), NoMemory>
    ensures files { OnOk result (files_in source.new ≡ with_file (files_in source.old) (file_for table files)) }
    ensures meter { meter_of source.new ≡ meter_of source.old }
{
    let text = text_of(alloc, table, files)?;
    source.add(alloc, table.path(), &text)?;
    Ok(())
}

fn add_fixed(alloc: Global, source: &mut MemSource, table: FixedTable) -> Result<(), NoMemory>
    ensures files { OnOk result (files_in source.new ≡ with_file (files_in source.old) (fixed_file table)) }
    ensures meter { meter_of source.new ≡ meter_of source.old }
{
    let mut text = Vec::new(alloc);
    push_all(&mut text, table.text())?;
    source.add(alloc, table.path(), &text)?;
    Ok(())
}

fn path_of_content(alloc: Global, file: u32) -> Result<Text, NoMemory>
    ensures { IfOk result (λ path. path ≡ (content file).0) }
{
    let mut path = Text::copy_of(alloc, "self/App/")?;
    let name = name_of_file(alloc, file)?;
    path.push_str(name.as_str())?;
    Ok(path)
}

fn add_content(alloc: Global, source: &mut MemSource, file: u32) -> Result<(), NoMemory>
    ensures files { OnOk result (files_in source.new ≡ with_file (files_in source.old) (content file)) }
    ensures meter { meter_of source.new ≡ meter_of source.old }
{
    let path = path_of_content(alloc, file)?;
    let bytes = numbered(alloc, "", file)?;
    source.add(alloc, path.as_str(), bytes.as_bytes())?;
    Ok(())
}

fn add_contents(alloc: Global, source: &mut MemSource, files: u32) -> Result<(), NoMemory>
    requires { files_in source.old ≡ empty }
    ensures files { OnOk result (files_in source.new ≡ from_entries (map content (range_with_len 0 files))) }
    ensures meter { meter_of source.new ≡ meter_of source.old }
{
    for file in (0..files).rev() {
        add_content(alloc, source, file)?;
    }
    Ok(())
}

fn add_numbered_tables(alloc: Global, source: &mut MemSource, files: u32) -> Result<(), NoMemory>
    ensures files { OnOk result (files_in source.new ≡ with_numbered (files_in source.old) files) }
    ensures meter { meter_of source.new ≡ meter_of source.old }
{
    add_numbered(alloc, source, NumberedTable::Registry, files)?;
    add_numbered(alloc, source, NumberedTable::File, files)?;
    add_numbered(alloc, source, NumberedTable::FeatureComponents, files)?;
    add_numbered(alloc, source, NumberedTable::Component, files)?;
    Ok(())
}

fn add_fixed_tables(alloc: Global, source: &mut MemSource) -> Result<(), NoMemory>
    ensures files { OnOk result (files_in source.new ≡ with_fixed (files_in source.old)) }
    ensures meter { meter_of source.new ≡ meter_of source.old }
{
    add_fixed(alloc, source, FixedTable::Directory)?;
    add_fixed(alloc, source, FixedTable::InstallExecuteSequence)?;
    add_fixed(alloc, source, FixedTable::Feature)?;
    add_fixed(alloc, source, FixedTable::Property)?;
    Ok(())
}

fn fill(alloc: Global, source: &mut MemSource, files: u32) -> Result<(), NoMemory>
    requires { files_in source.old ≡ empty }
    ensures files { OnOk result (files_in source.new ≡ selftest_files files) }
    ensures meter { meter_of source.new ≡ meter_of source.old }
{
    add_contents(alloc, source, files)?;
    add_numbered_tables(alloc, source, files)?;
    add_fixed_tables(alloc, source)?;
    Ok(())
}

/// The package with so many files, of which the first 10,000 have names of their own.
pub fn package_of(alloc: Global, files: u32) -> Result<Generated, NoMemory>
    ensures { IfOk result (λ made. held made ≡ selftest_files files) }
{
    let mut source = MemSource::new(alloc, Vec::new(alloc))?;
    match fill(alloc, &mut source, files) {
        Ok(()) => Ok(Generated::of(source)),
        Err(error) => Err(error),
    }
}
