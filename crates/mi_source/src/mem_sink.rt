//! A sink in memory.

ghost use Rattle.std.specs.Prelude.{◌≤◌, vec_len, vec_capacity};

use crate::fault::Failed;
use crate::meter::Meter;
use crate::sink::Sink;
use mi_text::NoMemory;
use std::alloc::Global;

/// A sink in memory, which tells what was written.
#[derive(Drop)]
pub struct MemSink {
    bytes: Vec<u8>,
    room: usize,
    meter: Meter,
    ghost within: { vec_len bytes ≤ room },
    ghost room_is_there: { room ≤ vec_capacity bytes },
}

impl MemSink {
    ghost use Rattle.std.specs.Prelude.{◌≡◌, [], IfOk};
    ghost use Rattle.mi_source.specs.MemSink.{bytes_of, room_of, meter_of};

    /// A sink with room for so many bytes, which it takes here. Its writes are numbered from 0, and those of these
    /// numbers fail.
    pub fn new(alloc: Global, room: usize, fails: Vec<u64>) -> Result<MemSink, NoMemory>
        ensures bytes { IfOk result (λ s. bytes_of s ≡ []) }
        ensures room { IfOk result (λ s. room_of s ≡ room) }
        ensures meter { IfOk result (λ s. meter_of s ≡ record { fails = fails; number = 0; faults = 0 }) }
    {
        let bytes = Vec::with_capacity(alloc, room)?;
        Ok(MemSink {
            bytes,
            room,
            meter: Meter::new(fails),
        })
    }

    /// The bytes that were written.
    pub fn bytes(&self) -> &[u8]
        ensures { result.now ≡ bytes_of self.now }
    {
        self.bytes.as_slice()
    }
}

impl Sink for MemSink {
    ghost use Rattle.std.specs.Prelude.{◌≡◌, ◌≤◌, ◌++◌, ℕ, List, length, take, OnOk, OnErr, is_err};
    ghost use Rattle.mi_source.specs.Counts.{Rose};
    ghost use Rattle.mi_source.specs.Memory.{called};
    ghost use Rattle.mi_source.specs.MemSink.{bytes_of, room_of, meter_of, faults_of, refuses};

    ghost told = { Unit {0} };

    ghost written = { bytes_of };

    ghost faults = { faults_of };

    /// Writes the whole piece, or fails with nothing of it written: exactly where its number is listed or the room would
    /// be passed.
    fn write(&mut self, piece: &[u8]) -> Result<(), Failed>
        ensures whole { OnOk result (bytes_of self.new ≡ bytes_of self.old ++ piece.now) }
        ensures front { OnErr result ((n : ℕ) × (bytes_of self.new ≡ bytes_of self.old ++ take n piece.now)) }
        ensures nothing { OnErr result (bytes_of self.new ≡ bytes_of self.old) }
        ensures fails { is_err result ≡ refuses self.old (length piece.now) }
        ensures room { room_of self.new ≡ room_of self.old }
        ensures meter { meter_of self.new ≡ called (refuses self.old (length piece.now)) (meter_of self.old) }
        ensures counts { faults_of self.old ≤ faults_of self.new }
        ensures failed { OnErr result (Rose (faults_of self.old) (faults_of self.new)) }
    {
        let passes = piece.len() > self.room - self.bytes.len();
        if self.meter.fails_now(passes) {
            return Err(Failed);
        }
        match self.bytes.extend_from_slice(piece) {
            Ok(()) => Ok(()),
            Err(_) => unreachable!(),
        }
    }
}
