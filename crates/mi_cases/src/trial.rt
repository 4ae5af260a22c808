//! Runs that are made over and over, with calls of the devices failing, and what is found behind them.

use crate::device::Recorder;
use crate::found::{Findings, Found, Wrong, answer_of, note};
use crate::held::{Faulty, Held, IMAGES, SOUND, held_of, is_area, key_of};
use crate::ill::Ill;
use crate::machine::held_in;
use crate::orders::{Order, recovery};
use crate::runs::{Calls, Faults, Setting, carried, opened};
use crate::told::Told;
use mi_volume::{Choice, MemVolume, Volume};
use std::alloc::Global;
use std::collections::BTreeMap;

/// What a trial knows: the machines before and after its run, as keys, the log without faults, and what was found behind
/// recoveries of images, by their keys.
#[derive(Drop)]
pub struct Bench {
    recover: Order,
    former: Vec<u8>,
    after: Vec<u8>,
    log: Vec<u8>,
    had_area: bool,
    recovered: BTreeMap<Vec<u8>, Found>,
    stopped: BTreeMap<Vec<u8>, Found>,
}

/// A run that is tried: its order and what it runs over.
#[derive(Clone, Copy)]
pub struct Try<'a> {
    pub order: &'a Order,
    pub setting: Setting<'a>,
}

/// No call of the source or the sink fails.
fn on_volume(volume: Faulty<'_>) -> Faults<'_> {
    Faults {
        volume,
        source: &[],
        sink: &[],
    }
}

/// Whether names of the rollback area are held.
pub fn has_area(held: &[Held]) -> bool {
    held.iter().any(|held| is_area(held.name.as_str()))
}

/// Makes a run on a volume, and says what it tells and what is held then.
fn run_and_read(
    alloc: Global,
    order: &Order,
    setting: Setting<'_>,
    volume: &mut Recorder,
) -> Result<(Told, Vec<Held>), Ill> {
    let (told, _) = carried(alloc, order, setting.files, on_volume(SOUND), volume)?;
    let held = held_of(alloc, &mut volume.inner)?;
    Ok((told, held))
}

/// What a run without faults tells, and what is held then.
pub fn sound(alloc: Global, order: &Order, setting: Setting<'_>) -> Result<(Told, Vec<Held>), Ill> {
    let mut volume = opened(alloc, setting, SOUND)?;
    let done = run_and_read(alloc, order, setting, &mut volume);
    drop(volume);
    done
}

/// The same files and capacity over something else that is held.
fn over<'a>(setting: Setting<'a>, held: &'a [Held]) -> Setting<'a> {
    Setting {
        files: setting.files,
        held,
        capacity: setting.capacity,
    }
}

/// The key of what a recovery leaves, where it is answered Recovered and leaves no area.
fn recovered_key(
    alloc: Global,
    recover: &Order,
    setting: Setting<'_>,
) -> Result<Option<Vec<u8>>, Ill> {
    let (told, held) = sound(alloc, recover, setting)?;
    if !told.marks.is_recovered || has_area(held.as_slice()) {
        return Ok(None);
    }
    Ok(Some(key_of(alloc, held.as_slice(), false)?))
}

/// The key of what the volume stands for.
fn former_key(alloc: Global, recover: &Order, setting: Setting<'_>) -> Result<Vec<u8>, Ill> {
    match recovered_key(alloc, recover, setting)? {
        Some(key) => Ok(key),
        None => key_of(alloc, setting.held, false),
    }
}

/// Makes ready for the trials of a run.
pub fn bench_of(alloc: Global, tried: Try<'_>) -> Result<Bench, Ill> {
    let recover = recovery(alloc)?;
    let former = former_key(alloc, &recover, tried.setting)?;
    let (told, held) = sound(alloc, tried.order, tried.setting)?;
    let after = key_of(alloc, held.as_slice(), false)?;
    Ok(Bench {
        recover,
        former,
        after,
        log: told.log,
        had_area: has_area(tried.setting.held),
        recovered: BTreeMap::new(alloc),
        stopped: BTreeMap::new(alloc),
    })
}

/// Which of the two machines this is.
fn compared(bench: &Bench, key: &[u8]) -> Found {
    let former = key == bench.former.as_slice();
    let after = !former && key == bench.after.as_slice();
    Found {
        former,
        after,
        neither: !former && !after,
    }
}

fn recovery_found(alloc: Global, bench: &Bench, setting: Setting<'_>) -> Result<Found, Ill> {
    match recovered_key(alloc, &bench.recover, setting)? {
        Some(key) => Ok(compared(bench, key.as_slice())),
        None => Ok(Found::NEITHER),
    }
}

/// What a recovery leaves of this; what is known already isn't made again.
fn recover(alloc: Global, bench: &mut Bench, setting: Setting<'_>) -> Result<Found, Ill> {
    let key = key_of(alloc, setting.held, true)?;
    if let Some(found) = bench.recovered.get(key.as_slice()) {
        return Ok(*found);
    }
    let found = recovery_found(alloc, bench, setting)?;
    bench.recovered.insert(key, found)?;
    Ok(found)
}

/// What recoveries leave of the four images of a volume.
fn recover_images(
    alloc: Global,
    bench: &mut Bench,
    setting: Setting<'_>,
    volume: &MemVolume,
) -> Result<Found, Ill> {
    let mut found = Found::NOTHING;
    for (_, choice) in IMAGES {
        let held = held_in(alloc, volume, choice)?;
        found = found.with(recover(alloc, bench, over(setting, held.as_slice()))?);
    }
    Ok(found)
}

/// What recoveries leave of the images of a recovery on this volume, of which a call and all later ones fail; None where no
/// call is left to fail.
fn recover_behind(
    alloc: Global,
    bench: &mut Bench,
    setting: Setting<'_>,
    from: u64,
    volume: &mut Recorder,
) -> Result<Option<Found>, Ill> {
    let sound = on_volume(SOUND);
    let (_, calls) = carried(alloc, &bench.recover, setting.files, sound, volume)?;
    if from >= calls.volume {
        return Ok(None);
    }
    Ok(Some(recover_images(alloc, bench, setting, &volume.inner)?))
}

fn stopped_recovery(
    alloc: Global,
    bench: &mut Bench,
    setting: Setting<'_>,
    from: u64,
) -> Result<Option<Found>, Ill> {
    let stop = Faulty {
        list: &[],
        from: Some(from),
    };
    let mut volume = opened(alloc, setting, stop)?;
    let found = recover_behind(alloc, bench, setting, from, &mut volume);
    drop(volume);
    found
}

fn all_stopped_recoveries(
    alloc: Global,
    bench: &mut Bench,
    setting: Setting<'_>,
) -> Result<Found, Ill> {
    let mut found = Found::NOTHING;
    for from in 0..u64::MAX {
        match stopped_recovery(alloc, bench, setting, from)? {
            Some(more) => found = found.with(more),
            None => break,
        }
    }
    Ok(found)
}

/// What is left by recoveries of this that are stopped at each of their calls; what is known already isn't made again.
fn recover_stopped(alloc: Global, bench: &mut Bench, setting: Setting<'_>) -> Result<Found, Ill> {
    let key = key_of(alloc, setting.held, true)?;
    if let Some(found) = bench.stopped.get(key.as_slice()) {
        return Ok(*found);
    }
    let found = all_stopped_recoveries(alloc, bench, setting)?;
    bench.stopped.insert(key, found)?;
    Ok(found)
}

fn recover_images_stopped(
    alloc: Global,
    bench: &mut Bench,
    setting: Setting<'_>,
    volume: &MemVolume,
) -> Result<Found, Ill> {
    let mut found = Found::NOTHING;
    for (_, choice) in IMAGES {
        let held = held_in(alloc, volume, choice)?;
        found = found.with(recover_stopped(alloc, bench, over(setting, held.as_slice()))?);
    }
    Ok(found)
}

/// What the volume reads as at the end of a run, where that is asked for.
fn read_found(alloc: Global, bench: &Bench, told: &Told, volume: &MemVolume) -> Result<Found, Ill> {
    if told.marks.paused.is_some() || bench.had_area {
        return Ok(Found::NOTHING);
    }
    let held = held_in(alloc, volume, Choice::New)?;
    Ok(compared(bench, key_of(alloc, held.as_slice(), false)?.as_slice()))
}

/// What is found behind a run.
fn found_behind(
    alloc: Global,
    bench: &mut Bench,
    setting: Setting<'_>,
    told: &Told,
    deep: bool,
    volume: &MemVolume,
) -> Result<Found, Ill> {
    let found = read_found(alloc, bench, told, volume)?;
    let found = found.with(recover_images(alloc, bench, setting, volume)?);
    if deep {
        return Ok(found.with(recover_images_stopped(alloc, bench, setting, volume)?));
    }
    Ok(found)
}

/// Whether a log isn't a front of the log without faults.
fn is_wrong(bench: &Bench, told: &Told) -> bool {
    !bench.log.as_slice().starts_with(told.log.as_slice())
}

/// How many of the calls that a run made of its volume were made to fail.
fn failed_of(faulty: Faulty<'_>, made: u64) -> u64 {
    let mut failed = match faulty.from {
        Some(from) => made.saturating_sub(from),
        None => 0,
    };
    for number in faulty.list {
        if *number < made {
            failed = failed.saturating_add(1);
        }
    }
    failed
}

/// Whether a volume that had no fault before a run doesn't count those calls that failed, or a suspended run doesn't say in order
/// when it began to write, when it went back, and that a call failed after that.
fn miscounts(told: &Told, failed: u64, count: u64) -> bool {
    let is_out_of_order = match told.marks.paused {
        Some(pause) => pause.begun > pause.again || pause.again >= count,
        None => false,
    };
    count != failed || is_out_of_order
}

/// Which calls a trial is of.
#[derive(Clone, Copy)]
pub enum Device {
    Volume,
    Source,
    Sink,
}

/// How many calls a run made of a device.
fn calls_of(device: Device, calls: Calls) -> u64 {
    match device {
        Device::Volume => calls.volume,
        Device::Source => calls.source,
        Device::Sink => calls.sink,
    }
}

/// A run whose calls of a device fail: what it does it with, and the number from which on it has to have made a call for it
/// to count.
#[derive(Clone, Copy)]
pub struct Attempt<'a> {
    pub device: Device,
    pub faults: Faults<'a>,
    pub last: u64,
    pub deep: bool,
}

/// Notes what is found behind an attempt, and says how many calls of its device it made.
fn attempt_on(
    alloc: Global,
    bench: &mut Bench,
    tried: Try<'_>,
    attempt: Attempt<'_>,
    findings: &mut Findings,
    volume: &mut Recorder,
) -> Result<u64, Ill> {
    let files = tried.setting.files;
    let (told, calls) = carried(alloc, tried.order, files, attempt.faults, volume)?;
    let made = calls_of(attempt.device, calls);
    if attempt.last < made {
        let deep = attempt.deep;
        let found = found_behind(alloc, bench, tried.setting, &told, deep, &volume.inner)?;
        let failed = failed_of(attempt.faults.volume, calls.volume);
        let wrong = Wrong {
            log: attempt.device == Device::Sink && is_wrong(bench, &told),
            counts: miscounts(&told, failed, volume.inner.faults()),
        };
        note(findings, answer_of(alloc, &told, wrong)?, found)?;
    }
    Ok(made)
}

/// Makes an attempt, notes what is found behind it where its last fault was met, and says how many calls it made.
pub fn make_attempt(
    alloc: Global,
    bench: &mut Bench,
    tried: Try<'_>,
    attempt: Attempt<'_>,
    findings: &mut Findings,
) -> Result<u64, Ill> {
    let mut volume = opened(alloc, tried.setting, attempt.faults.volume)?;
    let made = attempt_on(alloc, bench, tried, attempt, findings, &mut volume);
    drop(volume);
    made
}

/// Stops the run at each of its calls.
pub fn stops(
    alloc: Global,
    bench: &mut Bench,
    tried: Try<'_>,
    findings: &mut Findings,
) -> Result<(), Ill> {
    for from in 0..u64::MAX {
        let stop = Attempt {
            device: Device::Volume,
            faults: on_volume(Faulty {
                list: &[],
                from: Some(from),
            }),
            last: from,
            deep: true,
        };
        if make_attempt(alloc, bench, tried, stop, findings)? <= from {
            break;
        }
    }
    Ok(())
}

/// The faults of one call of a device.
fn one_fault(device: Device, number: &[u64]) -> Faults<'_> {
    let volume = Faulty {
        list: number,
        from: None,
    };
    match device {
        Device::Volume => on_volume(volume),
        Device::Source => Faults {
            volume: SOUND,
            source: number,
            sink: &[],
        },
        Device::Sink => Faults {
            volume: SOUND,
            source: &[],
            sink: number,
        },
    }
}

/// Makes each call of a device fail alone.
pub fn faults(
    alloc: Global,
    bench: &mut Bench,
    tried: Try<'_>,
    device: Device,
    findings: &mut Findings,
) -> Result<(), Ill> {
    for number in 0..u64::MAX {
        let list = [number];
        let alone = Attempt {
            device,
            faults: one_fault(device, list.as_slice()),
            last: number,
            deep: false,
        };
        if make_attempt(alloc, bench, tried, alone, findings)? <= number {
            break;
        }
    }
    Ok(())
}

/// Makes a call of the volume and a later one fail, and says whether the first one was met.
fn pair(
    alloc: Global,
    bench: &mut Bench,
    tried: Try<'_>,
    first: u64,
    second: u64,
    findings: &mut Findings,
) -> Result<u64, Ill> {
    let list = [first, second];
    let both = Attempt {
        device: Device::Volume,
        faults: one_fault(Device::Volume, list.as_slice()),
        last: second,
        deep: false,
    };
    make_attempt(alloc, bench, tried, both, findings)
}

/// Makes a call of the volume and each later one fail, and says whether the first one was met.
fn pairs_of(
    alloc: Global,
    bench: &mut Bench,
    tried: Try<'_>,
    first: u64,
    findings: &mut Findings,
) -> Result<bool, Ill> {
    for second in first.saturating_add(1)..u64::MAX {
        let made = pair(alloc, bench, tried, first, second, findings)?;
        if made <= second {
            return Ok(made > first);
        }
    }
    Ok(false)
}

/// Makes each two calls of the volume fail.
pub fn pairs(
    alloc: Global,
    bench: &mut Bench,
    tried: Try<'_>,
    findings: &mut Findings,
) -> Result<(), Ill> {
    for first in 0..u64::MAX {
        if !pairs_of(alloc, bench, tried, first, findings)? {
            break;
        }
    }
    Ok(())
}
