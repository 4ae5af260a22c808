//! Calls of texts, codes, versions and names.

use crate::paths;
use mi_lines::{Call, numbers};
use mi_text::{
    Bytes, Guid, Name, NameError, NoMemory, Text, Version, fold, is_property_name, is_public_name,
};
use std::cmp::Ordering;

fn say_folded(call: &mut Call<'_>) {
    let text = call.text(0);
    call.say_text(&fold(call.alloc(), text));
}

fn say_code(call: &mut Call<'_>) {
    match Guid::read(call.text(0)) {
        Ok(code) => call.say_text(&code.print(call.alloc())),
        Err(_) => call.say_word("NotGuid"),
    }
}

fn say_version(call: &mut Call<'_>) {
    match Version::read(call.text(0)) {
        Ok(version) => call.say_string(&numbers(call.alloc(), version)),
        Err(_) => call.say_word("NotVersion"),
    }
}

/// Adds how one thing stands to another.
pub fn say_order(order: Ordering, call: &mut Call<'_>) {
    call.say_word(match order {
        Ordering::Less => "Less",
        Ordering::Equal => "Equal",
        Ordering::Greater => "Greater",
    });
}

fn say_comparison(call: &mut Call<'_>) {
    let first = Version::read(call.text(0));
    let second = Version::read(call.text(1));
    match (first, second) {
        (Ok(first), Ok(second)) => say_order(first.compare(second), call),
        _ => call.bad_line(),
    }
}

fn say_copy(name: &Name, call: &mut Call<'_>) {
    match &name.copy(call.alloc()) {
        Ok(copy) => call.say(copy.as_bytes()),
        Err(NoMemory) => call.no_memory(),
    }
}

fn say_name(call: &mut Call<'_>) {
    let text = call.text(0);
    match &Name::of(call.alloc(), text) {
        Ok(name) => say_copy(name, call),
        Err(NameError::Length) => call.say_word("Length"),
        Err(NameError::NoMemory) => call.no_memory(),
    }
}

fn joined(call: &mut Call<'_>) -> Result<Text, NoMemory> {
    let mut text = Text::new(call.alloc());
    for place in 0..call.len() {
        text.push_str(call.text(place))?;
    }
    Ok(text)
}

fn say_joined(call: &mut Call<'_>) {
    let text = joined(call);
    call.say_text(&text);
}

fn joined_bytes(call: &mut Call<'_>) -> Result<Bytes, NoMemory> {
    let mut bytes = Bytes::new(call.alloc());
    for place in 0..call.len() {
        bytes.extend(call.bytes(place))?;
    }
    Ok(bytes)
}

fn say_joined_bytes(call: &mut Call<'_>) {
    match &joined_bytes(call) {
        Ok(bytes) => call.say(bytes.as_slice()),
        Err(NoMemory) => call.no_memory(),
    }
}

fn say_property_name(call: &mut Call<'_>) {
    let name = call.text(0);
    call.say_word(if is_public_name(name) {
        "public"
    } else if is_property_name(name) {
        "private"
    } else {
        "none"
    });
}

/// Makes the call of this name.
pub fn call(name: &str, call: &mut Call<'_>) {
    match name {
        "fold" => say_folded(call),
        "code" => say_code(call),
        "version" => say_version(call),
        "compare" => say_comparison(call),
        "name" => say_name(call),
        "join" => say_joined(call),
        "join-bytes" => say_joined_bytes(call),
        "property-name" => say_property_name(call),
        _ => paths::call(name, call),
    }
}
