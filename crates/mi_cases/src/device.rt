//! Devices in memory that count and list the calls of a run.

ghost use Rattle.mi_volume.specs.Memory.{state_of};
ghost use Rattle.mi_source.specs.MemSource.{files_in, faults_of as source_faults};
ghost use Rattle.mi_source.specs.MemSink.{bytes_of, faults_of as sink_faults};

use mi_source::{Failed as DeviceFailed, MemSink, MemSource, Sink, Source, SrcFault};
use mi_text::{Bytes, Name, Text};
use mi_volume::{Failed, MemVolume, PutFault, VolFault, Volume};
use std::alloc::Global;

/// The calls of a volume that change it.
#[derive(Clone, Copy)]
pub enum CallKind {
    Put,
    Append,
    Mark,
    Remove,
    Sync,
}

/// A call that changes the volume: its number among all calls, from 0, its kind, and the name that it changes.
#[derive(Drop)]
pub struct Seen {
    pub number: u64,
    pub kind: CallKind,
    pub name: Option<Name>,
}

/// A volume in memory whose calls are counted and listed.
#[derive(Drop)]
pub struct Recorder {
    pub inner: MemVolume,
    pub seen: Vec<Seen>,
    pub number: u64,
}

/// Lists a call; where memory is out it isn't listed.
fn see(seen: &mut Vec<Seen>, number: u64, kind: CallKind, name: Option<&Name>) {
    let alloc = *seen.allocator();
    let name = match name {
        Some(name) => name.copy(alloc).ok(),
        None => None,
    };
    let _ = seen.push(Seen { number, kind, name });
}

impl Volume for Recorder {
    ghost told = { Unit {0} };

    ghost state = { λ d. state_of d.inner };

    ghost counts_now = { λ told v t d le image. image };

    fn next(&mut self, alloc: Global, after: Option<&Name>) -> Result<Option<Name>, VolFault> {
        self.number = self.number.saturating_add(1);
        self.inner.next(alloc, after)
    }

    fn size(&mut self, name: &Name) -> Result<Option<u64>, Failed> {
        self.number = self.number.saturating_add(1);
        self.inner.size(name)
    }

    fn read(
        &mut self,
        alloc: Global,
        name: &Name,
        at: u64,
        want: usize,
    ) -> Result<Bytes, VolFault> {
        self.number = self.number.saturating_add(1);
        self.inner.read(alloc, name, at, want)
    }

    fn put(&mut self, alloc: Global, name: &Name, bytes: &[u8]) -> Result<(), PutFault> {
        see(&mut self.seen, self.number, CallKind::Put, Some(name));
        self.number = self.number.saturating_add(1);
        self.inner.put(alloc, name, bytes)
    }

    fn append(&mut self, alloc: Global, name: &Name, bytes: &[u8]) -> Result<(), PutFault> {
        see(&mut self.seen, self.number, CallKind::Append, Some(name));
        self.number = self.number.saturating_add(1);
        self.inner.append(alloc, name, bytes)
    }

    fn mark(&mut self, name: &Name, byte: u8) -> Result<(), Failed> {
        see(&mut self.seen, self.number, CallKind::Mark, Some(name));
        self.number = self.number.saturating_add(1);
        self.inner.mark(name, byte)
    }

    fn remove(&mut self, name: &Name) -> Result<(), Failed> {
        see(&mut self.seen, self.number, CallKind::Remove, Some(name));
        self.number = self.number.saturating_add(1);
        self.inner.remove(name)
    }

    fn sync(&mut self) -> Result<(), Failed> {
        see(&mut self.seen, self.number, CallKind::Sync, None);
        self.number = self.number.saturating_add(1);
        self.inner.sync()
    }

    fn free(&mut self) -> Result<Option<u64>, Failed> {
        self.number = self.number.saturating_add(1);
        self.inner.free()
    }

    fn faults(&self) -> u64 {
        self.inner.faults()
    }
}

/// A source in memory whose calls are counted.
#[derive(Drop)]
pub struct CountedSource {
    pub inner: MemSource,
    pub number: u64,
}

impl Source for CountedSource {
    ghost told = { Unit {0} };

    ghost files = { λ s. files_in s.inner };

    ghost faults = { λ s. source_faults s.inner };

    fn names(&mut self, alloc: Global, folder: &str) -> Result<Vec<Text>, SrcFault> {
        self.number = self.number.saturating_add(1);
        self.inner.names(alloc, folder)
    }

    fn size(&mut self, path: &str) -> Result<Option<u64>, DeviceFailed> {
        self.number = self.number.saturating_add(1);
        self.inner.size(path)
    }

    fn read(&mut self, alloc: Global, path: &str, at: u64, want: usize) -> Result<Bytes, SrcFault> {
        self.number = self.number.saturating_add(1);
        self.inner.read(alloc, path, at, want)
    }
}

/// A sink in memory whose writes are counted.
#[derive(Drop)]
pub struct CountedSink {
    pub inner: MemSink,
    pub number: u64,
}

impl Sink for CountedSink {
    ghost told = { Unit {0} };

    ghost written = { λ s. bytes_of s.inner };

    ghost faults = { λ s. sink_faults s.inner };

    fn write(&mut self, piece: &[u8]) -> Result<(), DeviceFailed> {
        self.number = self.number.saturating_add(1);
        self.inner.write(piece)
    }
}
