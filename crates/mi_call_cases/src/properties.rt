//! Calls of properties.

use crate::given::Given;
use mi_lines::{Call, Stop};
use mi_props::{PropError, PropFault, Props};
use mi_text::Text;
use std::alloc::Global;

/// Texts of these strings.
fn texts(alloc: Global, pairs: &[(String, String)]) -> Result<Vec<(Text, Text)>, Stop> {
    let mut texts = Vec::new(alloc);
    for (name, value) in pairs {
        let name = Text::copy_of(alloc, name.as_str())?;
        let value = Text::copy_of(alloc, value.as_str())?;
        texts.push((name, value))?;
    }
    Ok(texts)
}

/// The properties at the start of a run, from the system's, the words' and, as the table's, the look-ups'.
pub fn start(alloc: Global, given: &Given) -> Result<Props, PropError> {
    match texts(alloc, given.lookups.properties.as_slice()) {
        Ok(table) => Props::start(
            alloc,
            given.system.as_slice(),
            given.words.as_slice(),
            table.as_slice(),
        ),
        Err(_) => Err(PropError::NoMemory),
    }
}

fn say_error(error: PropError, call: &mut Call<'_>) {
    match error {
        PropError::NoMemory => call.no_memory(),
        PropError::Fault(PropFault::PrivateName) => call.say_word("PrivateName"),
        PropError::Fault(PropFault::BadName) => call.say_word("BadName"),
    }
}

fn say_set(props: &mut Props, name: &str, value: &str, call: &mut Call<'_>) {
    match props.set(call.alloc(), name, value) {
        Ok(()) => call.say_word("Ok"),
        Err(error) => say_error(error, call),
    }
}

/// Sets or gets a property.
fn ask(props: &mut Props, text: &str, call: &mut Call<'_>) {
    match text.split_once('=') {
        Some((name, value)) => say_set(props, name, value, call),
        None => call.say(props.get(text).as_bytes()),
    }
}

fn ask_all(props: &mut Props, call: &mut Call<'_>) {
    for place in 0..call.len() {
        ask(props, call.text(place), call);
    }
}

/// Starts the properties, and sets and gets those that the arguments name.
pub fn say_properties(given: &Given, call: &mut Call<'_>) {
    match &mut start(call.alloc(), given) {
        Ok(props) => ask_all(props, call),
        Err(error) => say_error(*error, call),
    }
}
