//! What the calls of a case are given beside their arguments.

use mi_dirs::DirRow;
use mi_lines::{Call, Given as Volume, Stop, push_bytes};
use mi_text::{PlainEnv, Sign, Text};
use std::alloc::Global;

/// What the calls of a case are given.
#[derive(Drop)]
pub struct Given {
    /// Properties, environment variables, paths, folders and states.
    pub lookups: PlainEnv,
    /// The properties of the system.
    pub system: Vec<(Text, Text)>,
    /// The properties of the command line.
    pub words: Vec<(Text, Text)>,
    /// The rows of Directory.
    pub rows: Vec<DirRow>,
    /// Keys of Directory and their remembered folders.
    pub remembered: Vec<(Text, Text)>,
    /// The files of the source.
    pub files: Vec<(Text, Vec<u8>)>,
    /// What the volume holds, its capacity, and the numbers of the calls that fail.
    pub volume: Volume,
}

fn string(place: usize, call: &mut Call<'_>) -> Result<String, Stop> {
    let text = call.text(place);
    Ok(String::from_str(call.alloc(), text)?)
}

fn push_strings(list: &mut Vec<(String, String)>, call: &mut Call<'_>) -> Result<(), Stop> {
    let name = string(0, call)?;
    let value = string(1, call)?;
    list.push((name, value))?;
    Ok(())
}

fn push_texts(list: &mut Vec<(Text, Text)>, call: &mut Call<'_>) -> Result<(), Stop> {
    list.push((call.owned(0), call.owned(1)))?;
    Ok(())
}

/// The sign at the front of a state's key, and the key.
fn sign_of(text: &str) -> Result<(Sign, &str), Stop> {
    let sign = match text.as_bytes() {
        [b'$', ..] => Sign::Action,
        [b'?', ..] => Sign::Installed,
        [b'&', ..] => Sign::FeatureAction,
        [b'!', ..] => Sign::FeatureInstalled,
        _ => return Err(Stop::BadLine),
    };
    match text.split_at_checked(1) {
        Some((_, key)) => Ok((sign, key)),
        None => Err(Stop::BadLine),
    }
}

fn push_state(list: &mut Vec<(Sign, String, i32)>, call: &mut Call<'_>) -> Result<(), Stop> {
    let (sign, key) = sign_of(call.text(0))?;
    let state = call.text(1).parse::<i32>()?;
    list.push((sign, String::from_str(call.alloc(), key)?, state))?;
    Ok(())
}

/// The text of a row's parent; the empty one stands for none.
fn parent(text: &str, call: &mut Call<'_>) -> Option<Text> {
    if text.is_empty() {
        None
    } else {
        Some(call.copy(text))
    }
}

fn push_row(rows: &mut Vec<DirRow>, call: &mut Call<'_>) -> Result<(), Stop> {
    let parent = parent(call.text(1), call);
    rows.push(DirRow {
        key: call.owned(0),
        parent,
        target: call.owned(2),
        short_source: call.owned(3),
        long_source: call.owned(4),
    })?;
    Ok(())
}

/// Adds a row of this key whose names are all the third argument.
fn push_link(
    rows: &mut Vec<DirRow>,
    key: String,
    parent: Text,
    call: &mut Call<'_>,
) -> Result<(), Stop> {
    let key = Text::from_string(call.alloc(), key)?;
    rows.push(DirRow {
        key,
        parent: Some(parent),
        target: call.owned(2),
        short_source: call.owned(2),
        long_source: call.owned(2),
    })?;
    Ok(())
}

/// Adds row `D` and its number, whose parent is the next row.
fn push_middle(rows: &mut Vec<DirRow>, number: u32, call: &mut Call<'_>) -> Result<(), Stop> {
    let alloc = call.alloc();
    let before = number.saturating_sub(1);
    let key = format!(in alloc; "D{before}")?;
    let parent = format!(in alloc; "D{number}")?;
    let parent = Text::from_string(alloc, parent)?;
    push_link(rows, key, parent, call)
}

/// Adds so many rows of one name, each below the next, and the last below this parent.
fn push_chain(rows: &mut Vec<DirRow>, call: &mut Call<'_>) -> Result<(), Stop> {
    let count = call.small(0);
    for number in 1..count {
        push_middle(rows, number, call)?;
    }
    let last = count.saturating_sub(1);
    let alloc = call.alloc();
    let key = format!(in alloc; "D{last}")?;
    let parent = call.owned(1);
    push_link(rows, key, parent, call)
}

fn give_lookup(lookups: &mut PlainEnv, kind: &str, call: &mut Call<'_>) -> Result<(), Stop> {
    match kind {
        "property" => push_strings(&mut lookups.properties, call),
        "variable" => push_strings(&mut lookups.variables, call),
        "file" => push_strings(&mut lookups.files, call),
        "folder" => push_strings(&mut lookups.folders, call),
        "state" => push_state(&mut lookups.states, call),
        _ => Err(Stop::BadLine),
    }
}

fn is_lookup(kind: &str) -> bool {
    matches!(kind, "property" | "variable" | "file" | "folder" | "state")
}

fn no_lookups(alloc: Global) -> PlainEnv {
    PlainEnv {
        properties: Vec::new(alloc),
        variables: Vec::new(alloc),
        files: Vec::new(alloc),
        folders: Vec::new(alloc),
        states: Vec::new(alloc),
    }
}

fn clear_lookups(lookups: &mut PlainEnv) {
    lookups.properties.clear();
    lookups.variables.clear();
    lookups.files.clear();
    lookups.folders.clear();
    lookups.states.clear();
}

impl Given {
    /// Nothing.
    pub fn new(alloc: Global) -> Given {
        Given {
            lookups: no_lookups(alloc),
            system: Vec::new(alloc),
            words: Vec::new(alloc),
            rows: Vec::new(alloc),
            remembered: Vec::new(alloc),
            files: Vec::new(alloc),
            volume: Volume::new(alloc),
        }
    }

    /// Takes away all that was given.
    pub fn clear_all(&mut self) {
        clear_lookups(&mut self.lookups);
        self.system.clear();
        self.words.clear();
        self.rows.clear();
        self.remembered.clear();
        self.files.clear();
        self.volume.clear();
    }

    /// Gives what the arguments say of this kind.
    pub fn give_kind(&mut self, kind: &str, call: &mut Call<'_>) -> Result<(), Stop> {
        if is_lookup(kind) {
            return give_lookup(&mut self.lookups, kind, call);
        }
        match kind {
            "system" => push_texts(&mut self.system, call),
            "word" => push_texts(&mut self.words, call),
            "row" => push_row(&mut self.rows, call),
            "chain" => push_chain(&mut self.rows, call),
            "remembered" => push_texts(&mut self.remembered, call),
            "source" => push_bytes(&mut self.files, call),
            _ => self.volume.give(kind, call),
        }
    }
}
