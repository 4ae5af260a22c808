//! Calls of registry texts.

use mi_base::{NoMemory, RegValue, Text};
use mi_lines::{Call, value};
use mi_regval::{Change, ListText, Side, ValueError, ValueFault, list_text, read_value};
use std::alloc::AllocError;

fn say_items(items: &[Text], call: &mut Call<'_>) {
    call.push(b"list");
    for item in items {
        call.next(item.as_bytes());
    }
    call.push(b"\n");
}

fn say_binary(bytes: &[u8], call: &mut Call<'_>) {
    match &hex::encode(call.alloc(), bytes) {
        Ok(digits) => call.say_two(b"binary", digits.as_bytes()),
        Err(AllocError) => call.no_memory(),
    }
}

fn say_int(number: u32, call: &mut Call<'_>) {
    match &number.to_string(call.alloc()) {
        Ok(digits) => call.say_two(b"int", digits.as_bytes()),
        Err(AllocError) => call.no_memory(),
    }
}

/// Adds the kind of a value and what it holds.
pub fn say_value(value: &RegValue, call: &mut Call<'_>) {
    match value {
        RegValue::Text(text) => call.say_two(b"text", text.as_bytes()),
        RegValue::Expand(text) => call.say_two(b"expand", text.as_bytes()),
        RegValue::Int(number) => say_int(*number, call),
        RegValue::Binary(bytes) => say_binary(bytes.as_slice(), call),
        RegValue::List(items) => say_items(items.as_slice(), call),
    }
}

fn say_old(old: Option<&RegValue>, call: &mut Call<'_>) {
    match old {
        Some(old) => say_value(old, call),
        None => call.say_word("none"),
    }
}

/// Adds the value that stands after a change, which is the old one where it stays.
fn say_changed(read: &Result<Change, ValueError>, old: Option<&RegValue>, call: &mut Call<'_>) {
    match read {
        Ok(Change::Value(value)) => say_value(value, call),
        Ok(Change::Unchanged) => say_old(old, call),
        Err(ValueError::NoMemory) => call.no_memory(),
        Err(ValueError::Fault(ValueFault::BadInt)) => call.say_word("BadInt"),
        Err(ValueError::Fault(ValueFault::BadHex)) => call.say_word("BadHex"),
    }
}

/// Adds the value that stands after a text beside an old one.
fn say_read(text: &str, old: Option<&RegValue>, call: &mut Call<'_>) {
    let read = read_value(call.alloc(), text, old);
    say_changed(&read, old, call);
    drop(read);
}

fn say_beside(text: &str, call: &mut Call<'_>) {
    match &value(call) {
        Some(old) => say_read(text, Some(old), call),
        None => call.bad_line(),
    }
}

/// Adds the value that stands after a text, alone or beside an old one.
pub fn say_change(call: &mut Call<'_>) {
    let text = call.text(0);
    if call.len() == 1 {
        say_read(text, None, call);
    } else {
        call.skip(1);
        say_beside(text, call);
    }
}

/// Adds where the items of a list text go, and these.
fn say_found(text: &ListText, call: &mut Call<'_>) {
    call.push(match text.side {
        Side::Instead => b"Instead\t",
        Side::Behind => b"Behind\t",
        Side::Before => b"Before\t",
    });
    say_items(text.items.as_slice(), call);
}

/// Adds the list that a text is.
pub fn say_list_text(call: &mut Call<'_>) {
    let text = call.text(0);
    match &list_text(call.alloc(), text) {
        Ok(Some(found)) => say_found(found, call),
        Ok(None) => call.say_word("none"),
        Err(NoMemory) => call.no_memory(),
    }
}
