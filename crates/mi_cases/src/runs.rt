//! One run of the engine over devices in memory.

use crate::device::{CountedSink, CountedSource, Recorder};
use crate::held::{Faulty, Held, volume_of};
use crate::ill::Ill;
use crate::orders::Order;
use crate::source::Files;
use crate::told::{Told, told_by};
use mi_engine::{Answer, run};
use mi_source::{MemSink, MemSource};
use mi_volume::{Liar, MemVolume, Volume};
use std::alloc::Global;

/// The room of the sink.
const ROOM: usize = 4_000_000;

/// What runs over, as it stands before: the files of the source, what the volume holds, and its capacity.
#[derive(Clone, Copy)]
pub struct Setting<'a> {
    pub files: &'a Files,
    pub held: &'a [Held],
    pub capacity: Option<u64>,
}

/// The calls of the devices that fail, by their numbers.
#[derive(Clone, Copy)]
pub struct Faults<'a> {
    pub volume: Faulty<'a>,
    pub source: &'a [u64],
    pub sink: &'a [u64],
}

/// How many calls a run made of its source, its sink and its volume.
#[derive(Clone, Copy)]
pub struct Calls {
    pub volume: u64,
    pub source: u64,
    pub sink: u64,
}

fn copied(alloc: Global, numbers: &[u64]) -> Result<Vec<u64>, Ill> {
    Ok(Vec::from_slice(alloc, numbers)?)
}

fn filled(alloc: Global, files: &Files, fails: Vec<u64>) -> Result<MemSource, Ill> {
    let mut source = MemSource::new(alloc, fails)?;
    files.fill(alloc, &mut source)?;
    Ok(source)
}

fn source_of(alloc: Global, files: &Files, fails: &[u64]) -> Result<CountedSource, Ill> {
    let inner = filled(alloc, files, copied(alloc, fails)?)?;
    Ok(CountedSource { inner, number: 0 })
}

fn sink_of(alloc: Global, fails: &[u64]) -> Result<CountedSink, Ill> {
    let inner = MemSink::new(alloc, ROOM, copied(alloc, fails)?)?;
    Ok(CountedSink { inner, number: 0 })
}

/// A volume whose calls are counted.
pub fn recorder(alloc: Global, inner: MemVolume) -> Recorder {
    Recorder {
        inner,
        seen: Vec::new(alloc),
        number: 0,
    }
}

/// A volume that holds what the setting says, and whose calls fail so.
pub fn opened(alloc: Global, setting: Setting<'_>, faulty: Faulty<'_>) -> Result<Recorder, Ill> {
    let inner = volume_of(alloc, setting.held, setting.capacity, faulty)?;
    Ok(recorder(alloc, inner))
}

/// The call of the engine. It is a function of its own, since what it promises makes each further step dear.
fn answer_of<V: Volume>(
    alloc: Global,
    order: &Order,
    source: &mut CountedSource,
    volume: &mut V,
    sink: &mut CountedSink,
) -> Answer {
    run(
        alloc,
        order.words.as_slice(),
        source,
        volume,
        sink,
        order.now,
    )
}

fn told_over<V: Volume>(
    alloc: Global,
    order: &Order,
    source: &mut CountedSource,
    volume: &mut V,
    sink: &mut CountedSink,
) -> Result<Told, Ill> {
    let answer = answer_of(alloc, order, source, volume, sink);
    told_by(alloc, answer, sink.inner.bytes())
}

/// Makes a run on a volume, and says what it tells and how many calls it made.
pub fn carried(
    alloc: Global,
    order: &Order,
    files: &Files,
    faults: Faults<'_>,
    volume: &mut Recorder,
) -> Result<(Told, Calls), Ill> {
    let mut source = source_of(alloc, files, faults.source)?;
    let mut sink = sink_of(alloc, faults.sink)?;
    let told = told_over(alloc, order, &mut source, volume, &mut sink)?;
    let calls = Calls {
        volume: volume.number,
        source: source.number,
        sink: sink.number,
    };
    Ok((told, calls))
}

/// Makes a run on a volume that lies, and says what it tells.
pub fn lied(alloc: Global, order: &Order, files: &Files, volume: &mut Liar) -> Result<Told, Ill> {
    let mut source = source_of(alloc, files, &[])?;
    let mut sink = sink_of(alloc, &[])?;
    told_over(alloc, order, &mut source, volume, &mut sink)
}
