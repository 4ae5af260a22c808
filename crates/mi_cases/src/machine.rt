//! The volume of a case, and what its last run left.

use crate::held::{Faulty, Held, SOUND, held_of, hold, unhold, volume_of, writes_in};
use crate::ill::Ill;
use crate::orders::Order;
use crate::runs::{Faults, Setting, carried, opened};
use crate::source::Files;
use crate::told::Told;
use crate::waiting::{Waiting, failing};
use mi_text::Name;
use mi_volume::{Call, Choice, MemVolume};
use std::alloc::Global;

/// The volume of a case, and what its last run left.
#[derive(Drop)]
pub struct Machine {
    /// The volume, of which nothing is dirty and no call fails.
    volume: MemVolume,
    /// What the last run left, and how many puts and appends were made before it; before a run the empty volume.
    left: MemVolume,
    filled: usize,
    capacity: Option<u64>,
}

fn empty(alloc: Global) -> Result<MemVolume, Ill> {
    volume_of(alloc, &[], None, SOUND)
}

/// What a crash may leave, opened again.
fn image_of(alloc: Global, volume: &MemVolume, choice: Choice) -> Result<MemVolume, Ill> {
    Ok(volume.image(alloc, choice)?)
}

/// What a crash may leave.
pub fn held_in(alloc: Global, volume: &MemVolume, choice: Choice) -> Result<Vec<Held>, Ill> {
    let mut image = image_of(alloc, volume, choice)?;
    let held = held_of(alloc, &mut image);
    drop(image);
    held
}

fn name_of(alloc: Global, text: &str) -> Result<Name, Ill> {
    Ok(Name::of(alloc, text)?)
}

impl Machine {
    /// An empty volume without a capacity.
    pub fn new(alloc: Global) -> Result<Machine, Ill> {
        let volume = empty(alloc)?;
        let left = empty(alloc)?;
        Ok(Machine {
            volume,
            left,
            filled: 0,
            capacity: None,
        })
    }

    /// What is held, in byte order of the names.
    pub fn held(&mut self, alloc: Global) -> Result<Vec<Held>, Ill> {
        held_of(alloc, &mut self.volume)
    }

    /// The capacity.
    pub fn capacity(&self) -> Option<u64> {
        self.capacity
    }

    /// Gives a name these bytes for good.
    pub fn hold(&mut self, alloc: Global, name: &str, bytes: &[u8]) -> Result<(), Ill> {
        hold(alloc, &mut self.volume, &name_of(alloc, name)?, bytes)
    }

    /// Takes a name away for good.
    pub fn unhold(&mut self, alloc: Global, name: &str) -> Result<(), Ill> {
        unhold(&mut self.volume, &name_of(alloc, name)?)
    }

    /// Another capacity, which has room for what is held.
    pub fn set_capacity(&mut self, alloc: Global, capacity: Option<u64>) -> Result<(), Ill> {
        let held = self.held(alloc)?;
        self.volume = volume_of(alloc, held.as_slice(), capacity, SOUND)?;
        self.capacity = capacity;
        Ok(())
    }

    /// The volume becomes what a crash may leave of the last run.
    pub fn take_image(&mut self, alloc: Global, choice: Choice) -> Result<(), Ill> {
        self.volume = image_of(alloc, &self.left, choice)?;
        Ok(())
    }

    /// What a crash may leave of the last run.
    pub fn left(&self, alloc: Global, choice: Choice) -> Result<Vec<Held>, Ill> {
        held_in(alloc, &self.left, choice)
    }

    /// The puts and appends of the last run.
    pub fn calls(&self) -> &[Call] {
        self.left.calls().get(self.filled..).unwrap_or(&[])
    }

    fn keep(&mut self, left: MemVolume, filled: usize) {
        self.left = left;
        self.filled = filled;
    }

    /// Makes a run on a copy whose calls of these numbers fail, and keeps what it leaves.
    fn run_with(
        &mut self,
        alloc: Global,
        order: &Order,
        setting: Setting<'_>,
        waiting: &Waiting,
        list: &[u64],
    ) -> Result<Told, Ill> {
        let mut volume = opened(alloc, setting, Faulty { list, from: None })?;
        let faults = Faults {
            volume: SOUND,
            source: waiting.source.as_slice(),
            sink: waiting.sink.as_slice(),
        };
        let done = carried(alloc, order, setting.files, faults, &mut volume);
        self.keep(volume.inner, writes_in(setting.held));
        Ok(done?.0)
    }

    /// Makes a run, of which the calls fail that are waited for.
    pub fn run(
        &mut self,
        alloc: Global,
        order: &Order,
        files: &Files,
        waiting: &Waiting,
    ) -> Result<Told, Ill> {
        let held = self.held(alloc)?;
        let setting = Setting {
            files,
            held: held.as_slice(),
            capacity: self.capacity,
        };
        let list = failing(alloc, order, setting, waiting)?;
        let told = self.run_with(alloc, order, setting, waiting, list.as_slice())?;
        self.take_image(alloc, Choice::New)?;
        Ok(told)
    }
}
