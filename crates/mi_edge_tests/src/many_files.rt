//! Of a machine of many files, a process writes anew only those that an earlier one had changed.

use crate::device::Device;
use crate::fake::Fake;
use crate::known::{FakeVolume, Wrong, read_held};
use crate::step::{Act, piece_of};
use mi_edges::FolderVolume;
use mi_text::Name;
use mi_volume::Volume;
use std::alloc::Global;
use std::test::Fail;

/// How many files the machine has.
const FILES: usize = 10_000;

const FOLDER: &str = "m";

/// What a process changes without a sync: the name of a number is written as long as it was, one is added to, and one is
/// taken away.
const CHANGES: [(usize, Act); 3] = [
    (17, Act::Put("n")),
    (5_000, Act::Append("ew")),
    (9_999, Act::Remove),
];

/// What the next process opens to be written, and what it renames these files over.
const WRITTEN: [&str; 4] = [
    "m/renewed",
    "m/762f3030303137",
    "m/renewed",
    "m/762f3035303030",
];

fn named(alloc: Global, number: usize) -> Result<Name, Wrong> {
    let text = format!(in alloc; "v/{number:05}")?;
    match Name::of(alloc, text.as_str()) {
        Ok(name) => Ok(name),
        Err(_) => Err(Wrong::NoMemory),
    }
}

fn act(alloc: Global, volume: &mut FakeVolume, number: usize, act: Act) -> Result<(), Wrong> {
    let name = named(alloc, number)?;
    let is_done = match act {
        Act::Put(text) => volume.put(alloc, &name, piece_of(text)).is_ok(),
        Act::Append(text) => volume.append(alloc, &name, piece_of(text)).is_ok(),
        Act::Remove => volume.remove(&name).is_ok(),
        _ => false,
    };
    if is_done { Ok(()) } else { Err(Wrong::Unread) }
}

/// Gives each of the first so many names the text `o`.
fn fill(alloc: Global, volume: &mut FakeVolume, files: usize) -> Result<(), Wrong> {
    for number in 0..files {
        act(alloc, volume, number, Act::Put("o"))?;
    }
    Ok(())
}

fn change(alloc: Global, volume: &mut FakeVolume, changes: &[(usize, Act)]) -> Result<(), Wrong> {
    for change in changes {
        act(alloc, volume, change.0, change.1)?;
    }
    Ok(())
}

/// A process that opens the folder, fills so many names, changes some, and ends; it syncs and closes where that is asked
/// for.
fn process(
    alloc: Global,
    device: Device,
    files: usize,
    changes: &[(usize, Act)],
    is_synced: bool,
) -> Result<Device, Wrong> {
    let fake = Fake::new(alloc, device)?;
    let Ok(mut volume) = FolderVolume::at(fake.clone()?, alloc, FOLDER) else {
        return Err(Wrong::Unread);
    };
    fill(alloc, &mut volume, files)?;
    change(alloc, &mut volume, changes)?;
    if is_synced && volume.sync().is_err() {
        return Err(Wrong::Unread);
    }
    if is_synced {
        volume.close();
    }
    drop(volume);
    Ok(fake.device()?)
}

/// Whether a name holds this in the volume.
fn holds(
    alloc: Global,
    volume: &mut FakeVolume,
    number: usize,
    text: Option<&str>,
) -> Result<bool, Wrong> {
    let held = read_held(alloc, volume, &named(alloc, number)?)?;
    Ok(match (&held, text) {
        (Some(bytes), Some(text)) => bytes.as_slice() == text.as_bytes(),
        (None, None) => true,
        _ => false,
    })
}

/// Whether the changes are found on a disk, and the name beside one as it was.
fn are_found(alloc: Global, device: Device) -> Result<bool, Wrong> {
    let Ok(mut volume) = FolderVolume::at(Fake::new(alloc, device)?, alloc, FOLDER) else {
        return Err(Wrong::Unread);
    };
    Ok(
        holds(alloc, &mut volume, 17, Some("n"))?
            && holds(alloc, &mut volume, 18, Some("o"))?
            && holds(alloc, &mut volume, 5_000, Some("oew"))?
            && holds(alloc, &mut volume, 9_999, None)?,
    )
}

/// Whether the process behind one that has ended without a sync writes anew what that had changed, and nothing else.
fn is_renewed(alloc: Global) -> Result<bool, Wrong> {
    let made = process(alloc, Device::new(alloc)?, FILES, &[], true)?;
    let left = process(alloc, made.again(None)?, 0, &CHANGES, false)?;
    let renewed = process(alloc, left.again(None)?, 0, &[], false)?;
    let is_written = renewed
        .written()
        .iter()
        .map(String::as_str)
        .eq(WRITTEN.into_iter());
    Ok(is_written && are_found(alloc, renewed.cut(crate::device::Choice::Old)?)?)
}

#[test]
fn what_a_process_had_changed_alone_is_written_anew(rt: HostRuntime) -> Result<(), Fail> {
    assert_eq!(rt; is_renewed(rt.alloc()), Ok(true));
    Ok(())
}
