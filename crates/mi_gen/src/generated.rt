//! A source that holds a generated package and never fails.

ghost use Rattle.std.specs.Prelude.{◌≡◌, []};

use mi_source::{Failed, MemSource, Source, SrcFault};
use mi_text::{Bytes, Text};
use std::alloc::Global;

/// A generated package as a source: it tells what it holds, and no call of it fails.
#[derive(Drop)]
pub struct Generated {
    files: MemSource,
    // Of the calls none is listed to fail.
    ghost sound: { files.meter.fails.items ≡ [] },
}

impl Generated {
    ghost use Rattle.mi_source.specs.MemSource.{files_in};
    ghost use Rattle.mi_gen.specs.Generated.{held};

    /// A source that holds the files of another of which no call fails.
    pub(crate) fn of(files: MemSource) -> Generated
        requires { files.meter.fails.items ≡ [] }
        ensures { held result ≡ files_in files }
    {
        Generated { files }
    }
}

impl Source for Generated {
    ghost use Rattle.mi_gen.specs.Generated.{held};

    ghost told = { Unit {0} };

    ghost files = { held };

    ghost faults = { λ _. 0 };

    fn names(&mut self, alloc: Global, folder: &str) -> Result<Vec<Text>, SrcFault> {
        self.files.names(alloc, folder)
    }

    fn size(&mut self, path: &str) -> Result<Option<u64>, Failed> {
        self.files.size(path)
    }

    fn read(&mut self, alloc: Global, path: &str, at: u64, want: usize) -> Result<Bytes, SrcFault> {
        self.files.read(alloc, path, at, want)
    }
}
