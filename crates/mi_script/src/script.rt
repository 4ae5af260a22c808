//! Records in the order in which they are carried out.

ghost use Rattle.std.specs.Prelude.{◌≡◌, [], ◌∷◌, ◌++◌, OnOk, OnErr};

use crate::rec::Rec;
use mi_base::NoMemory;
use std::alloc::Global;
use std::marker::Model;

/// The records of a segment, in order (this project's own).
#[derive(Drop)]
pub struct Script {
    recs: Vec<Rec>,
}

impl Model for Script {
    ghost use Rattle.std.specs.Prelude.{List};
    ghost use Rattle.mi_script.specs.declared.rec.Rec.{Rec as Record};

    ghost Value = { List Record };

    ghost view = { λ s. s.recs.items };
}

impl Script {
    /// No records, which takes no memory.
    pub fn new(alloc: Global) -> Script
        ensures { result ≡ [] }
    {
        Script {
            recs: Vec::new(alloc),
        }
    }

    /// The records of a vector, which is moved.
    pub(crate) fn from_vec(recs: Vec<Rec>) -> Script
        ensures { result ≡ recs.items }
    {
        Script { recs }
    }

    /// Adds a record at the end.
    pub fn push(&mut self, rec: Rec) -> Result<(), NoMemory>
        ensures ok { OnOk result (self.new ≡ self.old ++ rec ∷ []) }
        ensures err { OnErr result (self.new ≡ self.old) }
    {
        self.recs.push(rec)?;
        Ok(())
    }

    /// The records, in order.
    pub fn recs(&self) -> &[Rec]
        ensures { result.now ≡ self.now }
    {
        self.recs.as_slice()
    }
}
