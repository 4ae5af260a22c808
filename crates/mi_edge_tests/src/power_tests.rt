//! What was synced outlives each stop, each cut of the power and each failure of the system.

use crate::device::{Above, Choice, Device, Failure, Trip};
use crate::fake::Fake;
use crate::known::{FakeVolume, Held, Known, Wrong};
use crate::step::{Act, piece_of};
use mi_edges::FolderVolume;
use mi_text::Name;
use mi_volume::Volume;
use std::alloc::Global;
use std::test::Fail;

/// The folder, in a folder that isn't there either.
const FOLDER: &str = "a/m";

/// The list of what may not be synced.
const LIST: &str = "a/m/unsynced";

/// What a process does at the name of a number, or a sync, or a listing.
#[derive(Clone, Copy)]
enum Deed {
    At(usize, Act),
    Sync,
    List,
}

/// What a process does, at names of so many bytes.
struct History {
    lengths: &'static [usize],
    // What an earlier process has done, to its end.
    before: &'static [Deed],
    deeds: &'static [Deed],
    trips: &'static [Trip],
    // Behind one of how many stops the power is cut at each call of the next opening of the volume, and that call fails, too.
    cuts_opening: usize,
}

/// Names of one part and of two: each kind of change, of names that are listed and that aren't, few bytes over many, bytes
/// that are added to a file which is open, a sync behind one that may have failed, and a listing behind a put that may have.
const SHORT: History = History {
    lengths: &[6, 200],
    before: &[],
    deeds: &[
        Deed::At(0, Act::Put("many bytes")),
        Deed::At(1, Act::Put("a")),
        Deed::Sync,
        Deed::At(0, Act::Put("few")),
        Deed::At(1, Act::Mark(b'b')),
        Deed::Sync,
        Deed::At(1, Act::Mark(b'c')),
        Deed::At(0, Act::Append("er")),
        Deed::At(0, Act::Append("!")),
        Deed::At(1, Act::Remove),
        Deed::Sync,
        Deed::List,
        Deed::At(1, Act::Append("anew")),
        Deed::At(0, Act::Put("")),
        Deed::Sync,
        Deed::At(1, Act::Remove),
        Deed::At(0, Act::Append("behind")),
        Deed::Sync,
        Deed::Sync,
        Deed::At(1, Act::Put("x")),
        Deed::List,
    ],
    trips: &[
        Trip::Stop,
        Trip::Fail(Failure::Broken),
        Trip::Fail(Failure::Full),
        Trip::Fail(Failure::Interrupted),
    ],
    cuts_opening: 1,
};

/// A name of eleven parts.
const LONG: History = History {
    lengths: &[1_005],
    before: &[],
    deeds: &[
        Deed::At(0, Act::Put("long")),
        Deed::Sync,
        Deed::At(0, Act::Put("")),
        Deed::Sync,
    ],
    trips: &[Trip::Stop],
    cuts_opening: 3,
};

/// Names of two and of three parts, which share one, that are held when the process begins, which takes one away before it
/// lists them, marks one before and behind that, and ends with all synced.
const HELD: History = History {
    lengths: &[200, 300],
    before: &[
        Deed::At(0, Act::Put("a")),
        Deed::At(1, Act::Put("b")),
        Deed::Sync,
    ],
    deeds: &[
        Deed::At(1, Act::Remove),
        Deed::At(0, Act::Mark(b'c')),
        Deed::Sync,
        Deed::List,
        Deed::At(0, Act::Mark(b'd')),
        Deed::Sync,
        Deed::At(1, Act::Put("x")),
        Deed::Sync,
    ],
    trips: &[Trip::Stop, Trip::Fail(Failure::Broken)],
    cuts_opening: 1,
};

/// Two names that are held, whose files are written as long as they were, one behind the other; the first is then marked,
/// written again as it stands open, added to, and taken away.
const AS_LONG: History = History {
    lengths: &[6, 7],
    before: &[
        Deed::At(0, Act::Put("old")),
        Deed::At(1, Act::Put("low")),
        Deed::Sync,
    ],
    deeds: &[
        Deed::At(0, Act::Put("new")),
        Deed::At(1, Act::Put("now")),
        Deed::At(0, Act::Mark(b'm')),
        Deed::Sync,
        Deed::At(0, Act::Put("one")),
        Deed::At(1, Act::Put("two")),
        Deed::At(0, Act::Append("s")),
        Deed::At(1, Act::Put("six")),
        Deed::Sync,
        Deed::At(1, Act::Put("ten")),
        Deed::At(0, Act::Put("four")),
        Deed::At(1, Act::Remove),
        Deed::At(1, Act::Put("red")),
        Deed::At(0, Act::Put("blue")),
        Deed::Sync,
    ],
    trips: &[Trip::Stop, Trip::Fail(Failure::Broken)],
    cuts_opening: 1,
};

/// What the disk may have after the power was cut.
const CHOICES: [Choice; 7] = [
    Choice::Old,
    Choice::New,
    Choice::Torn,
    Choice::Zeroed,
    Choice::Gone,
    Choice::Mixed(1),
    Choice::Mixed(2),
];

/// What it may have where nothing should want a sync.
const CUTS: [Choice; 2] = [Choice::Old, Choice::Mixed(3)];

fn names_of(alloc: Global, history: &History) -> Result<Vec<Known>, Wrong> {
    let mut names = Vec::new(alloc);
    for length in history.lengths {
        let letters = "n".repeat(alloc, *length)?;
        match Name::of(alloc, letters.as_str()) {
            Ok(name) => names.push(Known::absent(name))?,
            Err(_) => return Err(Wrong::NoMemory),
        }
    }
    Ok(names)
}

fn count_listed(alloc: Global, volume: &mut FakeVolume) -> Result<usize, Wrong> {
    let mut last: Option<Name> = None;
    for count in 0..usize::MAX {
        match volume.next(alloc, last.as_ref()) {
            Ok(Some(name)) => last = Some(name),
            Ok(None) => return Ok(count),
            Err(_) => return Err(Wrong::Unread),
        }
    }
    Err(Wrong::Listed)
}

fn sync(alloc: Global, volume: &mut FakeVolume, names: &mut Vec<Known>) -> Result<(), Wrong> {
    if volume.sync().is_ok() {
        for name in names.iter_mut() {
            name.synced(alloc, volume)?;
        }
    }
    Ok(())
}

/// What the names hold. What was synced is as it was, and the names that are listed are those that are held.
fn read_listed(
    alloc: Global,
    volume: &mut FakeVolume,
    names: &Vec<Known>,
) -> Result<Vec<Held>, Wrong> {
    let listed = count_listed(alloc, volume)?;
    let mut all = Vec::new(alloc);
    for name in names.iter() {
        all.push(name.read(alloc, volume)?)?;
    }
    if all.iter().filter(|held| held.is_some()).count() == listed {
        Ok(all)
    } else {
        Err(Wrong::Listed)
    }
}

fn carry_out(
    alloc: Global,
    volume: &mut FakeVolume,
    names: &mut Vec<Known>,
    deed: Deed,
) -> Result<(), Wrong> {
    match deed {
        Deed::At(number, act) => match names.get_mut(number) {
            Some(name) => name.change(alloc, volume, act),
            None => Ok(()),
        },
        Deed::Sync => sync(alloc, volume, names),
        Deed::List => match read_listed(alloc, volume, names) {
            Ok(_) | Err(Wrong::Unread) => Ok(()),
            Err(wrong) => Err(wrong),
        },
    }
}

/// A process that makes changes, up to its stop: how often the system has failed by its count.
fn change_all(
    alloc: Global,
    fake: &Fake,
    deeds: &[Deed],
    names: &mut Vec<Known>,
) -> Result<u64, Wrong> {
    let Ok(mut volume) = FolderVolume::at(fake.clone()?, alloc, FOLDER) else {
        return Ok(1);
    };
    for deed in deeds {
        if fake.is_stopped() {
            break;
        }
        carry_out(alloc, &mut volume, names, *deed)?;
    }
    volume.close();
    Ok(volume.faults())
}

/// The disk behind a process that makes changes. Each failure of the system is counted.
fn changed(
    alloc: Global,
    device: Device,
    deeds: &[Deed],
    names: &mut Vec<Known>,
) -> Result<Device, Wrong> {
    let fake = Fake::new(alloc, device)?;
    let faults = change_all(alloc, &fake, deeds, names)?;
    let device = fake.device()?;
    if device.has_failed() && faults == 0 {
        return Err(Wrong::Uncounted);
    }
    Ok(device)
}

/// A process that reads alone: what the names hold.
fn read_all(alloc: Global, fake: Fake, names: &Vec<Known>) -> Result<Vec<Held>, Wrong> {
    match FolderVolume::at(fake, alloc, FOLDER) {
        Ok(mut volume) => read_listed(alloc, &mut volume, names),
        Err(_) => Err(Wrong::Unread),
    }
}

/// Reads, and then cuts the power: what was read stays.
fn stays_read(alloc: Global, device: Device, names: &Vec<Known>) -> Result<(), Wrong> {
    let fake = Fake::new(alloc, device)?;
    let read = read_all(alloc, fake.clone()?, names)?;
    let device = fake.device()?;
    for choice in CUTS {
        let again = read_all(alloc, Fake::new(alloc, device.cut(choice)?)?, names)?;
        if again != read {
            return Err(Wrong::Changed);
        }
    }
    Ok(())
}

/// The disk behind a process that opens the volume and does nothing more.
fn opened(alloc: Global, device: Device) -> Result<Device, Wrong> {
    let fake = Fake::new(alloc, device)?;
    drop(FolderVolume::at(fake.clone()?, alloc, FOLDER));
    Ok(fake.device()?)
}

/// What was synced outlives a stop and a cut of the power at a call of the opening of the volume.
fn outlives_cut(
    alloc: Global,
    device: &Device,
    names: &Vec<Known>,
    call: usize,
) -> Result<(), Wrong> {
    let left = opened(alloc, device.again(Some((call, Trip::Stop)))?)?;
    for choice in [Choice::Old, Choice::Torn, Choice::Mixed(call)] {
        read_all(alloc, Fake::new(alloc, left.cut(choice)?)?, names)?;
    }
    read_all(alloc, Fake::new(alloc, left.again(None)?)?, names)?;
    Ok(())
}

/// Where a call of the opening of the volume fails, so does the opening, and what the next process reads outlives a cut of
/// the power.
fn outlives_failure(
    alloc: Global,
    device: &Device,
    names: &Vec<Known>,
    call: usize,
) -> Result<(), Wrong> {
    let failing = device.again(Some((call, Trip::Fail(Failure::Broken))))?;
    let fake = Fake::new(alloc, failing)?;
    if FolderVolume::at(fake.clone()?, alloc, FOLDER).is_ok() {
        return Err(Wrong::Uncounted);
    }
    stays_read(alloc, fake.device()?.again(None)?, names)
}

/// What was synced outlives a cut of the power at each call of the opening of the volume, and each failure there.
fn outlives_opening(alloc: Global, device: &Device, names: &Vec<Known>) -> Result<(), Wrong> {
    let calls = opened(alloc, device.again(None)?)?.calls();
    for call in 0..calls {
        outlives_cut(alloc, device, names, call)?;
        outlives_failure(alloc, device, names, call)?;
    }
    Ok(())
}

/// The process behind a stopped one makes all changes, and what it synced outlives a cut of the power. Where it ends before
/// its first sync, what the next process reads outlives one.
fn goes_on(alloc: Global, device: &Device, history: &History) -> Result<(), Wrong> {
    let mut names = names_of(alloc, history)?;
    let synced = changed(alloc, device.again(None)?, history.deeds, &mut names)?;
    read_all(alloc, Fake::new(alloc, synced.cut(Choice::Old)?)?, &names)?;
    let mut names = names_of(alloc, history)?;
    let unsynced = changed(
        alloc,
        device.again(None)?,
        before_sync(history.deeds),
        &mut names,
    )?;
    stays_read(alloc, unsynced, &names)
}

/// What comes before the first sync.
fn before_sync(deeds: &'static [Deed]) -> &'static [Deed] {
    match deeds.iter().position(|deed| matches!(deed, Deed::Sync)) {
        Some(first) => deeds.get(..first).unwrap_or(deeds),
        None => deeds,
    }
}

/// What is found on the disk behind a process: where the process alone has ended, and where the power was cut.
fn outlives(
    alloc: Global,
    device: &Device,
    names: &Vec<Known>,
    choices: &[Choice],
) -> Result<(), Wrong> {
    stays_read(alloc, device.again(None)?, names)?;
    for choice in choices {
        stays_read(alloc, device.cut(*choice)?, names)?;
    }
    Ok(())
}

/// Whether the power is cut at each call of the opening behind this stop.
fn is_opening_cut(history: &History, trip: Option<(usize, Trip)>) -> bool {
    let each = history.cuts_opening;
    match trip {
        Some((call, _)) => each > 0 && call % each == 0,
        None => true,
    }
}

/// The disk on which a history begins.
fn begun(alloc: Global, history: &History, names: &mut Vec<Known>) -> Result<Device, Wrong> {
    let empty = Device::new(alloc)?;
    if history.before.is_empty() {
        return Ok(empty);
    }
    changed(alloc, empty, history.before, names)
}

/// A process whose call of this number goes wrong, and what is found on its disk. How many calls it made.
fn trial(alloc: Global, history: &History, trip: Option<(usize, Trip)>) -> Result<usize, Wrong> {
    let mut names = names_of(alloc, history)?;
    let before = begun(alloc, history, &mut names)?;
    let device = changed(alloc, before.again(trip)?, history.deeds, &mut names)?;
    match trip {
        Some((_, Trip::Fail(_))) => outlives(alloc, &device, &names, &CUTS)?,
        Some((_, Trip::Stop)) | None => {
            outlives(alloc, &device, &names, &CHOICES)?;
            if is_opening_cut(history, trip) {
                outlives_opening(alloc, &device, &names)?;
                // Where the list has no names, that of each may have changed.
                outlives_opening(alloc, &device.with_empty(LIST)?, &names)?;
            }
            goes_on(alloc, &device, history)?;
        }
    }
    Ok(device.calls())
}

/// A folder that was opened is there after the power was cut.
fn folder_stays(alloc: Global) -> Result<bool, Wrong> {
    let fake = Fake::new(alloc, Device::new(alloc)?)?;
    if FolderVolume::at(fake.clone()?, alloc, FOLDER).is_err() {
        return Ok(false);
    }
    let mut left = fake.device()?.cut(Choice::Old)?;
    Ok(left.look(FOLDER).is_ok())
}

/// There is no folder of the empty path.
fn is_empty_refused(alloc: Global) -> Result<bool, Wrong> {
    let fake = Fake::new(alloc, Device::new(alloc)?)?;
    Ok(FolderVolume::at(fake, alloc, "").is_err())
}

/// The first call at which a history isn't right, and how it goes wrong there; none of its calls and none where all is.
fn first_wrong(alloc: Global, history: &History) -> Result<(), (usize, Option<Trip>, Wrong)> {
    let calls = match trial(alloc, history, None) {
        Ok(calls) => calls,
        Err(wrong) => return Err((0, None, wrong)),
    };
    for call in 0..calls {
        for trip in history.trips {
            if let Err(wrong) = trial(alloc, history, Some((call, *trip))) {
                return Err((call, Some(*trip), wrong));
            }
        }
    }
    Ok(())
}

/// What may fail of the folder above all others, and whether a sync is good all the same.
const ABOVE: [(Above, bool); 8] = [
    (Above::Opening(Failure::Denied), true),
    (Above::Opening(Failure::ReadOnly), true),
    (Above::Opening(Failure::Broken), false),
    (Above::Syncing(Failure::Denied), true),
    (Above::Syncing(Failure::ReadOnly), true),
    (Above::Syncing(Failure::Invalid), true),
    (Above::Syncing(Failure::Broken), false),
    (Above::Syncing(Failure::Full), false),
];

/// Whether a process syncs a put.
fn is_put(alloc: Global, device: Device) -> Result<bool, Wrong> {
    let Ok(mut volume) = FolderVolume::at(Fake::new(alloc, device)?, alloc, FOLDER) else {
        return Ok(false);
    };
    let Ok(name) = Name::of(alloc, "name") else {
        return Err(Wrong::NoMemory);
    };
    Ok(volume.put(alloc, &name, piece_of("bytes")).is_ok() && volume.sync().is_ok())
}

/// Whether a sync is good where this fails: of a folder that was there before, and of one that isn't there yet.
fn are_good(alloc: Global, above: Above) -> Result<[bool; 2], Wrong> {
    let empty = Device::new(alloc)?;
    let there = opened(alloc, empty.again(None)?)?;
    Ok([
        is_put(alloc, there.below(above)?)?,
        is_put(alloc, empty.below(above)?)?,
    ])
}

#[test]
fn a_folder_above_that_cant_be_synced_is_passed_over(rt: HostRuntime) -> Result<(), Fail> {
    for (above, is_good) in ABOVE {
        assert_eq!(rt;
            are_good(rt.alloc(), above),
            Ok([is_good, false]),
            "{above:?}"
        );
    }
    Ok(())
}

#[test]
fn what_was_synced_outlives_each_stop_and_each_failure(rt: HostRuntime) -> Result<(), Fail> {
    let alloc = rt.alloc();
    assert_eq!(rt; folder_stays(alloc), Ok(true));
    assert_eq!(rt; is_empty_refused(alloc), Ok(true));
    assert_eq!(rt; first_wrong(alloc, &SHORT), Ok(()));
    assert_eq!(rt; first_wrong(alloc, &LONG), Ok(()));
    assert_eq!(rt; first_wrong(alloc, &HELD), Ok(()));
    assert_eq!(rt; first_wrong(alloc, &AS_LONG), Ok(()));
    Ok(())
}
