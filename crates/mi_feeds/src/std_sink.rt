//! Standard output as a sink.

ghost use Rattle.std.specs.Prelude.{◌≡◌, []};

use crate::fault_count::FaultCount;
use mi_source::{Failed, Sink};
use std::io;
use std::io::Write;
use std::rt::Runtime;

/// Standard output as a sink (this project's own). It tells nothing of what was written.
#[derive(Drop)]
pub struct StdSink<R: Runtime> {
    rt: R,
    faults: FaultCount,
}

impl<R: Runtime> StdSink<R> {
    /// Standard output as a sink. Takes no memory.
    pub fn new(rt: R) -> StdSink<R> {
        StdSink {
            rt,
            faults: FaultCount::new(),
        }
    }
}

impl<R: Runtime> Sink for StdSink<R> {
    ghost told = { ⊥ };

    ghost written = { λ s. [] };

    ghost faults = { λ s. s.faults };

    fn write(&mut self, piece: &[u8]) -> Result<(), Failed> {
        if io::writer(&self.rt).write_all(piece).is_err() {
            self.faults.rise();
            return Err(Failed);
        }
        Ok(())
    }
}
