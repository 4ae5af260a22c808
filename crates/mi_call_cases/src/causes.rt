//! The causes and faults that the fields of a step spell: the name, then the fields, as in a result line.

use mi_base::{Cause, Fault, IdtFault, Name};
use mi_lines::{Call, code, name};
use mi_text::Text;

// A fault of a table's text that has one number.
fn numbered_idt_fault(name: &str, number: u32) -> Option<IdtFault> {
    match name {
        "NotUtf8" => Some(IdtFault::NotUtf8(number)),
        "ColumnName" => Some(IdtFault::ColumnName(number)),
        "ColumnCount" => Some(IdtFault::ColumnCount(number)),
        "Definition" => Some(IdtFault::Definition(number)),
        "CodePage" => Some(IdtFault::CodePage(number)),
        "TwoKeys" => Some(IdtFault::TwoKeys(number)),
        _ => None,
    }
}

fn idt_fault(call: &mut Call<'_>) -> Option<IdtFault> {
    match call.text(0) {
        "TooLarge" => Some(IdtFault::TooLarge),
        "TooFewLines" => Some(IdtFault::TooFewLines),
        "KeyColumn" => Some(IdtFault::KeyColumn(call.owned(1))),
        "Null" => Some(IdtFault::Null(call.small(1), call.small(2))),
        "Integer" => Some(IdtFault::Integer(call.small(1), call.small(2))),
        name => numbered_idt_fault(name, call.small(1)),
    }
}

// A fault of an action.
fn action_fault(name: &str, action: Text) -> Option<Fault> {
    match name {
        "UnknownAction" => Some(Fault::UnknownAction(action)),
        "Executable" => Some(Fault::Executable(action)),
        "SequenceOrder" => Some(Fault::SequenceOrder(action)),
        "BadName" => Some(Fault::BadName(action)),
        _ => None,
    }
}

// A fault of a property, a file or a feature.
fn named_fault(name: &str, named: Text) -> Option<Fault> {
    match name {
        "MissingProperty" => Some(Fault::MissingProperty(named)),
        "BadProperty" => Some(Fault::BadProperty(named)),
        "Compressed" => Some(Fault::Compressed(named)),
        "Missing" => Some(Fault::Missing(named)),
        "UnknownFeature" => Some(Fault::UnknownFeature(named)),
        _ => action_fault(name, named),
    }
}

// A fault with one field.
fn one_field(name: &str, call: &mut Call<'_>) -> Option<Fault> {
    match name {
        "BadEnvironment" => Some(Fault::BadEnvironment(call.small(1))),
        "MissingTable" => Some(Fault::MissingTable(call.owned(1))),
        "Columns" => Some(Fault::Columns(call.owned(1))),
        "Unsupported" => Some(Fault::Unsupported(call.owned(1))),
        name => named_fault(name, call.owned(1)),
    }
}

// A fault of a row of a table.
fn row_fault(name: &str, table: Text, row: u32) -> Option<Fault> {
    match name {
        "Cycle" => Some(Fault::Cycle(table, row)),
        "BadPath" => Some(Fault::BadPath(table, row)),
        "TooDeep" => Some(Fault::TooDeep(table, row)),
        "BadKey" => Some(Fault::BadKey(table, row)),
        "BadValue" => Some(Fault::BadValue(table, row)),
        _ => None,
    }
}

// A fault with two fields.
fn two_fields(name: &str, call: &mut Call<'_>) -> Option<Fault> {
    match name {
        "SameTarget" => Some(Fault::SameTarget(call.owned(1), call.owned(2))),
        name => row_fault(name, call.owned(1), call.small(2)),
    }
}

// A fault with three fields.
fn three_fields(name: &str, call: &mut Call<'_>) -> Option<Fault> {
    let named = call.owned(1);
    match name {
        "Condition" => Some(Fault::Condition(named, call.small(2), call.number(3))),
        "SizeDiffers" => Some(Fault::SizeDiffers(named, call.number(2), call.number(3))),
        "Value" => Some(Fault::Value(named, call.small(2), call.small(3))),
        "Reference" => Some(Fault::Reference(named, call.small(2), call.small(3))),
        _ => None,
    }
}

fn bare_fault(name: &str) -> Option<Fault> {
    match name {
        "AddSource" => Some(Fault::AddSource),
        "NoFinalize" => Some(Fault::NoFinalize),
        _ => None,
    }
}

fn fault_of_text(call: &mut Call<'_>) -> Option<Fault> {
    let table = call.owned(1);
    call.skip(2);
    match idt_fault(call) {
        Some(fault) => Some(Fault::Idt(table, fault)),
        None => None,
    }
}

/// The fault that the arguments spell.
fn fault(call: &mut Call<'_>) -> Option<Fault> {
    let name = call.text(0);
    if name == "Idt" {
        return fault_of_text(call);
    }
    match call.len() {
        1 => bare_fault(name),
        2 => one_field(name, call),
        3 => two_fields(name, call),
        4 => three_fields(name, call),
        _ => None,
    }
}

fn table_cause(call: &mut Call<'_>) -> Option<Cause> {
    call.skip(1);
    match fault(call) {
        Some(fault) => Some(Cause::Table(fault)),
        None => None,
    }
}

// A cause that names what the rollback area or the image can't read.
fn named_cause(kind: &str, name: Name) -> Option<Cause> {
    match kind {
        "BadRollback" => Some(Cause::BadRollback(name)),
        "RecoveryFull" => Some(Cause::RecoveryFull(name)),
        "BadImage" => Some(Cause::BadImage(name)),
        _ => None,
    }
}

// A cause that comes of a run's own steps, and of the rollback area.
fn device_cause(kind: &str, call: &mut Call<'_>) -> Option<Cause> {
    match kind {
        "VolumeFault" => Some(Cause::VolumeFault),
        "SourceFault" => Some(Cause::SourceFault),
        "Full" => Some(Cause::Full(call.number(1), call.number(2))),
        _ => match name(1, call) {
            Some(name) => named_cause(kind, name),
            None => None,
        },
    }
}

/// The cause that the arguments spell.
pub fn cause(call: &mut Call<'_>) -> Option<Cause> {
    match call.text(0) {
        "BadWords" => Some(Cause::BadWords(call.number(1))),
        "Table" => table_cause(call),
        "UnknownProduct" => Some(Cause::UnknownProduct(code(1, call))),
        "Launch" => Some(Cause::Launch(call.owned(1))),
        "ErrorAction" => Some(Cause::ErrorAction(call.owned(1), call.owned(2))),
        kind => device_cause(kind, call),
    }
}
