//! Calls of text archive tables.

ghost use Rattle.std.specs.Prelude.{◌<◌, length};
ghost use Rattle.mi_idt.specs.Means.{IsSpelled};

use mi_idt::{IdtError, Table, read_table, write_table};
use mi_lines::Call;
use mi_text::{IdtFault, NoMemory};
use std::alloc::AllocError;

/// The arguments as lines, with a line feed between.
fn lines(call: &mut Call<'_>) -> Result<Vec<u8>, AllocError> {
    let mut bytes = Vec::new(call.alloc());
    for place in 0..call.len() {
        if place > 0 {
            bytes.push(b'\n')?;
        }
        bytes.extend_from_slice(call.bytes(place))?;
    }
    Ok(bytes)
}

fn say_place(word: &str, row: u32, column: u32, call: &mut Call<'_>) {
    let alloc = call.alloc();
    call.say_string(&format!(in alloc; "{word} {row} {column}"));
}

fn say_line(word: &str, line: u32, call: &mut Call<'_>) {
    call.say_number(word, u64::from(line));
}

fn say_fault(fault: &IdtFault, call: &mut Call<'_>) {
    match fault {
        IdtFault::TooLarge => call.say_word("TooLarge"),
        IdtFault::TooFewLines => call.say_word("TooFewLines"),
        IdtFault::NotUtf8(line) => say_line("NotUtf8", *line, call),
        IdtFault::ColumnName(column) => say_line("ColumnName", *column, call),
        IdtFault::ColumnCount(line) => say_line("ColumnCount", *line, call),
        IdtFault::Definition(column) => say_line("Definition", *column, call),
        IdtFault::CodePage(page) => say_line("CodePage", *page, call),
        IdtFault::KeyColumn(name) => call.say_two(b"KeyColumn", name.as_bytes()),
        IdtFault::Null(row, column) => say_place("Null", *row, *column, call),
        IdtFault::Integer(row, column) => say_place("Integer", *row, *column, call),
        IdtFault::TwoKeys(row) => say_line("TwoKeys", *row, call),
    }
}

fn say_error(error: &IdtError, call: &mut Call<'_>) {
    match error {
        IdtError::NoMemory => call.no_memory(),
        IdtError::Fault(fault) => say_fault(fault, call),
    }
}

fn say_form(table: &Table<'_>, call: &mut Call<'_>)
    requires { IsSpelled table.now }
{
    match &write_table(call.alloc(), table) {
        Ok(form) => call.say(form.as_slice()),
        Err(NoMemory) => call.no_memory(),
    }
}

fn say_written(bytes: &[u8], call: &mut Call<'_>) {
    match &read_table(call.alloc(), bytes) {
        Ok(table) => say_form(table, call),
        Err(error) => say_error(error, call),
    }
}

/// Reads the table and writes it back.
pub fn say_table(call: &mut Call<'_>) {
    match &lines(call) {
        Ok(lines) => say_written(lines.as_slice(), call),
        Err(AllocError) => call.no_memory(),
    }
}

/// Adds a field, where null is the empty one.
fn say_field(table: &Table<'_>, row: usize, column: usize, call: &mut Call<'_>)
    requires spelled { IsSpelled table.now }
    requires row_in_range { row < length table.now.rows.items }
    requires column_in_range { column < length table.now.columns.items }
{
    match &table.field(call.alloc(), row, column) {
        Ok(Some(text)) => call.field(text.as_str().as_bytes()),
        Ok(None) => call.field(b""),
        Err(NoMemory) => call.no_memory(),
    }
}

fn say_row(table: &Table<'_>, row: usize, call: &mut Call<'_>)
    requires spelled { IsSpelled table.now }
    requires row_in_range { row < length table.now.rows.items }
{
    for column in 0..table.columns.len() {
        if column > 0 {
            call.push(b"\t");
        }
        say_field(table, row, column, call);
    }
    call.push(b"\n");
}

fn say_all_rows(table: &Table<'_>, call: &mut Call<'_>)
    requires spelled { IsSpelled table.now }
{
    for row in 0..table.rows.len() {
        say_row(table, row, call);
    }
}

fn say_fields(bytes: &[u8], call: &mut Call<'_>) {
    match &read_table(call.alloc(), bytes) {
        Ok(table) => say_all_rows(table, call),
        Err(error) => say_error(error, call),
    }
}

/// Reads the table and its fields.
pub fn say_rows(call: &mut Call<'_>) {
    match &lines(call) {
        Ok(lines) => say_fields(lines.as_slice(), call),
        Err(AllocError) => call.no_memory(),
    }
}
