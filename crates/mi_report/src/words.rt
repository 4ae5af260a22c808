//! The words of a result line.

ghost use Rattle.std.specs.Prelude.{◌≡◌, ◌++◌, ◌∷◌, [], OnOk, codes};
ghost use Rattle.std.specs.Fmt.{decimal};
ghost use Rattle.mi_text.specs.Guid.{guid_text};
ghost use Rattle.mi_report.specs.Fields.{field_words};
ghost use Rattle.mi_model.specs.Lines.{shown, spaced, idt_words, fault_words, cause_words, settled_words, place_words, result_words, result_line};

use mi_base::{Cause, Fault, Guid, IdtFault, Kind, NoMemory, Place, Settled, Text};
use std::alloc::Global;

/// Adds a text; bytes below 32 are written as `?`.
pub fn push_shown(out: &mut Vec<u8>, text: &str) -> Result<(), NoMemory>
    ensures { OnOk result (out.new.items ≡ out.old.items ++ shown text.now) }
{
    for byte in text.as_bytes() {
        out.push(if *byte < 32 { b'?' } else { *byte })?;
    }
    Ok(())
}

/// Adds a number in decimal.
pub fn push_number(alloc: Global, out: &mut Vec<u8>, number: u64) -> Result<(), NoMemory>
    ensures { OnOk result (out.new.items ≡ out.old.items ++ decimal number) }
{
    let text = number.to_string(alloc)?;
    out.extend_from_slice(text.as_bytes())?;
    Ok(())
}

// A blank and a name.
fn push_word(out: &mut Vec<u8>, name: &str) -> Result<(), NoMemory>
    ensures { OnOk result (out.new.items ≡ out.old.items ++ spaced (name.now ∷ [])) }
{
    out.push(b' ')?;
    out.extend_from_slice(name.as_bytes())?;
    Ok(())
}

/// Adds a blank and a text.
pub fn push_text(out: &mut Vec<u8>, text: &str) -> Result<(), NoMemory>
    ensures { OnOk result (out.new.items ≡ out.old.items ++ spaced (shown text.now ∷ [])) }
{
    out.push(b' ')?;
    push_shown(out, text)
}

/// Adds a blank and a number.
pub fn push_field(alloc: Global, out: &mut Vec<u8>, number: u64) -> Result<(), NoMemory>
    ensures { OnOk result (out.new.items ≡ out.old.items ++ spaced (decimal number ∷ [])) }
{
    out.push(b' ')?;
    push_number(alloc, out, number)
}

// A name and a number.
fn push_numbered(alloc: Global, out: &mut Vec<u8>, name: &str, number: u64) -> Result<(), NoMemory>
    ensures { OnOk result (out.new.items ≡ out.old.items ++ spaced (name.now ∷ decimal number ∷ [])) }
{
    push_word(out, name)?;
    push_field(alloc, out, number)
}

// A name and two numbers.
fn push_numbers(
    alloc: Global,
    out: &mut Vec<u8>,
    name: &str,
    first: u64,
    second: u64,
) -> Result<(), NoMemory>
    ensures { OnOk result (out.new.items ≡ out.old.items ++ spaced (name.now ∷ decimal first ∷ decimal second ∷ [])) }
{
    push_numbered(alloc, out, name, first)?;
    push_field(alloc, out, second)
}

// A name and a text.
fn push_named(out: &mut Vec<u8>, name: &str, text: &str) -> Result<(), NoMemory>
    ensures { OnOk result (out.new.items ≡ out.old.items ++ spaced (name.now ∷ shown text.now ∷ [])) }
{
    push_word(out, name)?;
    push_text(out, text)
}

// A name and two texts.
fn push_pair(out: &mut Vec<u8>, name: &str, first: &str, second: &str) -> Result<(), NoMemory>
    ensures { OnOk result (out.new.items ≡ out.old.items ++ spaced (name.now ∷ shown first.now ∷ shown second.now ∷ [])) }
{
    push_named(out, name, first)?;
    push_text(out, second)
}

// A name, a text and a number.
fn push_row(
    alloc: Global,
    out: &mut Vec<u8>,
    name: &str,
    text: &str,
    number: u64,
) -> Result<(), NoMemory>
    ensures { OnOk result (out.new.items ≡ out.old.items ++ spaced (name.now ∷ shown text.now ∷ decimal number ∷ [])) }
{
    push_named(out, name, text)?;
    push_field(alloc, out, number)
}

// A name, a text and two numbers.
fn push_cell(
    alloc: Global,
    out: &mut Vec<u8>,
    name: &str,
    text: &str,
    first: u64,
    second: u64,
) -> Result<(), NoMemory>
    ensures { OnOk result (out.new.items ≡ out.old.items ++ spaced (name.now ∷ shown text.now ∷ decimal first ∷ decimal second ∷ [])) }
{
    push_row(alloc, out, name, text, first)?;
    push_field(alloc, out, second)
}

// A name and a code.
fn push_coded(alloc: Global, out: &mut Vec<u8>, name: &str, code: Guid) -> Result<(), NoMemory>
    ensures { OnOk result (out.new.items ≡ out.old.items ++ spaced (name.now ∷ guid_text code.number ∷ [])) }
{
    let text = code.print(alloc)?;
    push_word(out, name)?;
    push_word(out, text.as_str())
}

fn push_idt(alloc: Global, out: &mut Vec<u8>, fault: &IdtFault) -> Result<(), NoMemory>
    ensures { OnOk result (out.new.items ≡ out.old.items ++ spaced (idt_words fault.now)) }
{
    match fault {
        IdtFault::TooLarge => push_word(out, "TooLarge"),
        IdtFault::TooFewLines => push_word(out, "TooFewLines"),
        IdtFault::NotUtf8(line) => push_numbered(alloc, out, "NotUtf8", u64::from(*line)),
        IdtFault::ColumnName(column) => push_numbered(alloc, out, "ColumnName", u64::from(*column)),
        IdtFault::ColumnCount(line) => push_numbered(alloc, out, "ColumnCount", u64::from(*line)),
        IdtFault::Definition(column) => push_numbered(alloc, out, "Definition", u64::from(*column)),
        IdtFault::CodePage(page) => push_numbered(alloc, out, "CodePage", u64::from(*page)),
        IdtFault::KeyColumn(name) => push_named(out, "KeyColumn", name.as_str()),
        IdtFault::Null(row, column) => push_numbers(
            alloc,
            out,
            "Null",
            u64::from(*row),
            u64::from(*column),
        ),
        IdtFault::Integer(row, column) => push_numbers(
            alloc,
            out,
            "Integer",
            u64::from(*row),
            u64::from(*column),
        ),
        IdtFault::TwoKeys(row) => push_numbered(alloc, out, "TwoKeys", u64::from(*row)),
    }
}

/// What stands behind the name of a fault.
#[derive(Clone, Copy)]
enum Fields<'a> {
    None,
    Text(&'a Text),
    Texts(&'a Text, &'a Text),
    Number(u32),
    Row(&'a Text, u32),
    Cell(&'a Text, u64, u64),
    Nested(&'a Text, &'a IdtFault),
}

/// The name of a fault, and what stands behind it.
fn fault_fields(fault: &Fault) -> (&'static str, Fields<'_>)
    ensures { result.0.now ∷ field_words result.1 ≡ fault_words fault.now }
{
    match fault {
        Fault::MissingTable(table) => ("MissingTable", Fields::Text(table)),
        Fault::Idt(table, nested) => ("Idt", Fields::Nested(table, nested)),
        Fault::Columns(table) => ("Columns", Fields::Text(table)),
        Fault::Unsupported(table) => ("Unsupported", Fields::Text(table)),
        Fault::Value(table, row, column) => (
            "Value",
            Fields::Cell(table, u64::from(*row), u64::from(*column)),
        ),
        Fault::Condition(table, row, place) => (
            "Condition",
            Fields::Cell(table, u64::from(*row), *place),
        ),
        Fault::MissingProperty(name) => ("MissingProperty", Fields::Text(name)),
        Fault::Reference(table, row, column) => (
            "Reference",
            Fields::Cell(table, u64::from(*row), u64::from(*column)),
        ),
        Fault::Cycle(table, row) => ("Cycle", Fields::Row(table, *row)),
        Fault::Compressed(file) => ("Compressed", Fields::Text(file)),
        Fault::UnknownFeature(item) => ("UnknownFeature", Fields::Text(item)),
        Fault::AddSource => ("AddSource", Fields::None),
        Fault::BadProperty(name) => ("BadProperty", Fields::Text(name)),
        Fault::BadPath(table, row) => ("BadPath", Fields::Row(table, *row)),
        Fault::TooDeep(table, row) => ("TooDeep", Fields::Row(table, *row)),
        Fault::BadKey(table, row) => ("BadKey", Fields::Row(table, *row)),
        Fault::BadValue(table, row) => ("BadValue", Fields::Row(table, *row)),
        Fault::BadEnvironment(row) => ("BadEnvironment", Fields::Number(*row)),
        Fault::SameTarget(former, later) => ("SameTarget", Fields::Texts(former, later)),
        Fault::Missing(file) => ("Missing", Fields::Text(file)),
        Fault::SizeDiffers(file, stated, found) => (
            "SizeDiffers",
            Fields::Cell(file, *stated, *found),
        ),
        Fault::UnknownAction(action) => ("UnknownAction", Fields::Text(action)),
        Fault::Executable(action) => ("Executable", Fields::Text(action)),
        Fault::SequenceOrder(action) => ("SequenceOrder", Fields::Text(action)),
        Fault::NoFinalize => ("NoFinalize", Fields::None),
        Fault::BadName(action) => ("BadName", Fields::Text(action)),
    }
}

// The fault of a table's text behind a name and the table.
fn push_nested(
    alloc: Global,
    out: &mut Vec<u8>,
    name: &str,
    table: &str,
    fault: &IdtFault,
) -> Result<(), NoMemory>
    ensures { OnOk result (out.new.items ≡ out.old.items ++ spaced (name.now ∷ shown table.now ∷ idt_words fault.now)) }
{
    push_named(out, name, table)?;
    push_idt(alloc, out, fault)
}

fn push_fields(
    alloc: Global,
    out: &mut Vec<u8>,
    name: &str,
    fields: Fields<'_>,
) -> Result<(), NoMemory>
    ensures { OnOk result (out.new.items ≡ out.old.items ++ spaced (name.now ∷ field_words fields.entry)) }
{
    match fields {
        Fields::None => push_word(out, name),
        Fields::Text(text) => push_named(out, name, text.as_str()),
        Fields::Texts(first, second) => push_pair(out, name, first.as_str(), second.as_str()),
        Fields::Number(number) => push_numbered(alloc, out, name, u64::from(number)),
        Fields::Row(table, row) => push_row(alloc, out, name, table.as_str(), u64::from(row)),
        Fields::Cell(table, first, second) => push_cell(
            alloc,
            out,
            name,
            table.as_str(),
            first,
            second,
        ),
        Fields::Nested(table, fault) => push_nested(alloc, out, name, table.as_str(), fault),
    }
}

// The words of a fault of the package behind the name of the cause.
fn push_fault(alloc: Global, out: &mut Vec<u8>, fault: &Fault) -> Result<(), NoMemory>
    ensures { OnOk result (out.new.items ≡ out.old.items ++ spaced (codes "Table" ∷ fault_words fault.now)) }
{
    push_word(out, "Table")?;
    let (name, fields) = fault_fields(fault);
    push_fields(alloc, out, name, fields)
}

fn push_cause(alloc: Global, out: &mut Vec<u8>, cause: &Cause) -> Result<(), NoMemory>
    ensures { OnOk result (out.new.items ≡ out.old.items ++ spaced (cause_words cause.now)) }
{
    match cause {
        Cause::BadWords(place) => push_numbered(alloc, out, "BadWords", *place),
        Cause::VolumeFault => push_word(out, "VolumeFault"),
        Cause::BadRollback(name) => push_named(out, "BadRollback", name.as_str()),
        Cause::RecoveryFull(name) => push_named(out, "RecoveryFull", name.as_str()),
        Cause::BadImage(name) => push_named(out, "BadImage", name.as_str()),
        Cause::SourceFault => push_word(out, "SourceFault"),
        Cause::Table(fault) => push_fault(alloc, out, fault),
        Cause::UnknownProduct(code) => push_coded(alloc, out, "UnknownProduct", *code),
        Cause::Launch(text) => push_named(out, "Launch", text.as_str()),
        Cause::ErrorAction(action, text) => push_pair(
            out,
            "ErrorAction",
            action.as_str(),
            text.as_str(),
        ),
        Cause::Full(need, room) => push_numbers(alloc, out, "Full", *need, *room),
    }
}

fn push_settled(alloc: Global, out: &mut Vec<u8>, settled: Settled) -> Result<(), NoMemory>
    ensures { OnOk result (out.new.items ≡ out.old.items ++ spaced (settled_words settled)) }
{
    match settled {
        Settled::Clean => push_word(out, "Clean"),
        Settled::Undone(count) => push_numbered(alloc, out, "Undone", count),
    }
}

fn push_place(out: &mut Vec<u8>, place: Place) -> Result<(), NoMemory>
    ensures { OnOk result (out.new.items ≡ out.old.items ++ spaced (place_words place)) }
{
    match place {
        Place::InRollback => push_word(out, "InRollback"),
        Place::InCommit => push_word(out, "InCommit"),
    }
}

fn push_result(alloc: Global, out: &mut Vec<u8>, kind: &Kind) -> Result<(), NoMemory>
    ensures { OnOk result (out.new.items ≡ out.old.items ++ spaced (result_words kind.now)) }
{
    match kind {
        Kind::Done => push_word(out, "Done"),
        Kind::Listed => push_word(out, "Listed"),
        Kind::Recovered(settled) => push_settled(alloc, out, *settled),
        Kind::Refused(cause) => {
            push_word(out, "Refused")?;
            push_cause(alloc, out, cause)
        }
        Kind::Suspended(pause) => {
            push_word(out, "Suspended")?;
            push_place(out, pause.place)
        }
        Kind::NoMemory => push_word(out, "NoMemory"),
    }
}

/// Adds the result line of an answer.
pub fn push_result_line(alloc: Global, out: &mut Vec<u8>, kind: &Kind) -> Result<(), NoMemory>
    ensures { OnOk result (out.new.items ≡ out.old.items ++ result_line kind.now) }
{
    out.extend_from_slice(b"Result:")?;
    push_result(alloc, out, kind)?;
    out.push(b'\n')?;
    Ok(())
}

/// Adds the result line of a refusal.
pub fn push_refused_line(alloc: Global, out: &mut Vec<u8>, cause: &Cause) -> Result<(), NoMemory>
    ensures { OnOk result (out.new.items ≡ out.old.items ++ result_line (Kind.Refused cause.now)) }
{
    out.extend_from_slice(b"Result: Refused")?;
    push_cause(alloc, out, cause)?;
    out.push(b'\n')?;
    Ok(())
}
