//! A planned segment, kept in its written form until it is carried out.

ghost use Rattle.std.specs.Prelude.{◌≡◌, ◌==◌, IfOk, length};

use crate::known::reads_again;
use mi_base::{Bytes, NoMemory, RecError};
use mi_script::{Script, read_script, write_script};
use std::alloc::Global;
use std::marker::Model;

/// A planned segment: the records of its script, and how many actions are begun at its end. The records are kept as the
/// bytes of their written form (this project's own).
#[derive(Drop)]
pub struct Segment {
    bytes: Bytes,
    /// How many records there are.
    count: usize,
    reached: u64,
}

impl Model for Segment {
    ghost use Rattle.std.specs.Prelude.{◌≡◌, Ok, length};
    ghost use Rattle.mi_script.specs.Reading.{script_of};
    ghost use Rattle.mi_model.specs.Plans.{Planned};
    ghost use Rattle.mi_carry.specs.Segments.{records_in};

    ghost Value = { Planned };

    ghost view = { λ s. record { records = records_in s.bytes; reached = s.reached } };

    ghost invariant = { λ s. (script_of s.bytes ≡ Ok (records_in s.bytes)) × (s.count ≡ length (records_in s.bytes)) };
}

impl Segment {
    /// Keeps the records of a script. It fails only for want of memory, since every script has a written form.
    pub fn keep(alloc: Global, script: &Script, reached: u64) -> Result<Segment, NoMemory>
        ensures records { IfOk result (λ s. s.records ≡ script.now) }
        ensures reached { IfOk result (λ s. s.reached ≡ reached) }
    {
        let bytes = write_script(alloc, script)?;
        reads_again(script.recs(), bytes.as_slice());
        Ok(Segment {
            bytes,
            count: script.recs().len(),
            reached,
        })
    }

    /// The script, read back from its written form.
    pub fn script(&self, alloc: Global) -> Result<Script, NoMemory>
        ensures { IfOk result (λ script. script ≡ self.now.records) }
    {
        match read_script(alloc, self.bytes.as_slice()) {
            Ok(script) => Ok(script),
            Err(RecError::NoMemory) => Err(NoMemory),
            Err(RecError::Fault(_)) => unreachable!(),
        }
    }

    /// Whether there is no record.
    pub fn is_empty(&self) -> bool
        ensures { result ≡ (length self.now.records == 0) }
    {
        self.count == 0
    }

    /// How many actions are begun at its end.
    pub fn reached(&self) -> u64
        ensures { result ≡ self.now.reached }
    {
        self.reached
    }
}
