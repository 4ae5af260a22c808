//! Calls of the next run that fail or come through by name.

use crate::device::{CallKind, Recorder, Seen};
use crate::held::{Faulty, SOUND};
use crate::ill::Ill;
use crate::orders::Order;
use crate::runs::{Faults, Setting, carried, opened};
use std::alloc::Global;

/// A call that is waited for: whether it fails, its kind, and its name where one is given.
#[derive(Drop)]
pub struct Wait {
    pub fails: bool,
    pub kind: CallKind,
    pub name: Option<Vec<u8>>,
}

/// What fails in the next run.
#[derive(Drop)]
pub struct Waiting {
    pub waits: Vec<Wait>,
    pub source: Vec<u64>,
    pub sink: Vec<u64>,
}

impl Waiting {
    pub fn new(alloc: Global) -> Waiting {
        Waiting {
            waits: Vec::new(alloc),
            source: Vec::new(alloc),
            sink: Vec::new(alloc),
        }
    }

    /// Whether no device fails.
    pub fn is_empty(&self) -> bool {
        self.waits.is_empty() && self.source.is_empty() && self.sink.is_empty()
    }
}

/// The kind of call that a word names.
pub fn kind_of(word: &str) -> Result<CallKind, Ill> {
    match word {
        "put" => Ok(CallKind::Put),
        "append" => Ok(CallKind::Append),
        "mark" => Ok(CallKind::Mark),
        "remove" => Ok(CallKind::Remove),
        "sync" => Ok(CallKind::Sync),
        _ => Err(Ill::Bad),
    }
}

fn has_name(seen: &Seen, name: &[u8]) -> bool {
    match &seen.name {
        Some(seen) => seen.as_bytes() == name,
        None => false,
    }
}

fn is_met(wait: &Wait, seen: &Seen) -> bool {
    let named = match &wait.name {
        Some(name) => has_name(seen, name.as_slice()),
        None => true,
    };
    named && wait.kind == seen.kind
}

/// The number of the first call from one on that is waited for.
fn met(wait: &Wait, seen: &[Seen], from: u64) -> Option<u64> {
    for call in seen {
        if call.number >= from && is_met(wait, call) {
            return Some(call.number);
        }
    }
    None
}

/// Makes the run on a copy whose calls of these numbers fail, and finds the call that is waited for.
fn found_on(
    alloc: Global,
    order: &Order,
    setting: Setting<'_>,
    waiting: &Waiting,
    wait: &Wait,
    from: u64,
    copy: &mut Recorder,
) -> Result<Option<u64>, Ill> {
    let faults = Faults {
        volume: SOUND,
        source: waiting.source.as_slice(),
        sink: waiting.sink.as_slice(),
    };
    carried(alloc, order, setting.files, faults, copy)?;
    Ok(met(wait, copy.seen.as_slice(), from))
}

fn found(
    alloc: Global,
    order: &Order,
    setting: Setting<'_>,
    waiting: &Waiting,
    wait: &Wait,
    from: u64,
    list: &[u64],
) -> Result<Option<u64>, Ill> {
    let mut copy = opened(alloc, setting, Faulty { list, from: None })?;
    let found = found_on(alloc, order, setting, waiting, wait, from, &mut copy);
    drop(copy);
    found
}

/// The numbers of the volume's calls that fail in a run: each wait is met behind the one before it.
pub fn failing(
    alloc: Global,
    order: &Order,
    setting: Setting<'_>,
    waiting: &Waiting,
) -> Result<Vec<u64>, Ill> {
    let mut list = Vec::new(alloc);
    let mut from = 0u64;
    for wait in waiting.waits.iter() {
        let Some(number) = found(alloc, order, setting, waiting, wait, from, list.as_slice())?
        else {
            break;
        };
        if wait.fails {
            list.push(number)?;
        }
        from = number.saturating_add(1);
    }
    Ok(list)
}
