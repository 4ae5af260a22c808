//! A volume that lies: its sizes, its bytes and its names come from lists, each used in turn.

use crate::entry_read::{field, number_at, text_at};
use crate::ill::Ill;
use crate::orders::Order;
use crate::runs::lied;
use crate::source::Files;
use crate::told::Told;
use mi_text::{Bytes, Name};
use mi_volume::Liar;
use std::alloc::Global;

/// What the volume of the next lying run answers.
#[derive(Drop)]
pub struct Lies {
    sizes: Vec<u64>,
    reads: Vec<Bytes>,
    names: Vec<Name>,
}

impl Lies {
    /// A volume that answers nothing.
    pub fn new(alloc: Global) -> Lies {
        Lies {
            sizes: Vec::new(alloc),
            reads: Vec::new(alloc),
            names: Vec::new(alloc),
        }
    }

    fn add_sizes(&mut self, times: u64, size: u64) -> Result<(), Ill> {
        for _ in 0..times {
            self.sizes.push(size)?;
        }
        Ok(())
    }

    fn add_reads(&mut self, alloc: Global, times: u64, bytes: &[u8]) -> Result<(), Ill> {
        for _ in 0..times {
            self.reads.push(Bytes::copy_of(alloc, bytes)?)?;
        }
        Ok(())
    }

    fn add_names(&mut self, alloc: Global, times: u64, name: &str) -> Result<(), Ill> {
        for _ in 0..times {
            self.names.push(Name::of(alloc, name)?)?;
        }
        Ok(())
    }

    /// A step that adds to a list: how often, and what.
    pub fn add(&mut self, alloc: Global, verb: &str, fields: &[Vec<u8>]) -> Result<(), Ill> {
        let times = number_at(fields, 1)?;
        match verb {
            "lie-size" => self.add_sizes(times, number_at(fields, 2)?),
            "lie-read" => self.add_reads(alloc, times, field(fields, 2)?),
            _ => self.add_names(alloc, times, text_at(fields, 2)?),
        }
    }

    /// Makes a run over a volume that answers so.
    pub fn run(self, alloc: Global, order: &Order, files: &Files) -> Result<Told, Ill> {
        let Lies {
            sizes,
            reads,
            names,
        } = self;
        let mut volume = Liar::new(sizes, reads, names);
        let told = lied(alloc, order, files, &mut volume);
        drop(volume);
        told
    }
}
