//! The script of a plan.

ghost use Rattle.std.specs.Prelude.{◌≡◌, [], ◌∷◌, ◌++◌, OnOk, OnErr};
ghost use Rattle.mi_steps.specs.Carried.{IsCarried, AreCarried};

use mi_base::NoMemory;
use mi_script::{Rec, Script};
use std::alloc::Global;
use std::marker::Model;

/// The records that a segment carries out for a plan, in order. Each may be carried out over a rollback area: it changes
/// a name outside of the area, and a file that it writes may stand there (this project's own).
#[derive(Drop)]
pub struct Records {
    script: Script,
}

impl Model for Records {
    ghost use Rattle.std.specs.Prelude.{List};
    ghost use Rattle.mi_script.specs.declared.rec.Rec.{Rec as Record};
    ghost use Rattle.mi_steps.specs.Carried.{AreCarried};

    ghost Value = { List Record };

    ghost view = { λ s. s.script };

    ghost invariant = { λ s. AreCarried s.script };
}

impl Records {
    /// No records, which takes no memory.
    pub fn new(alloc: Global) -> Records
        ensures { result ≡ [] }
    {
        Records {
            script: Script::new(alloc),
        }
    }

    /// Adds a record at the end.
    pub(crate) fn push(&mut self, rec: Rec) -> Result<(), NoMemory>
        requires carried { IsCarried rec }
        ensures ok { OnOk result (self.new ≡ self.old ++ rec ∷ []) }
        ensures err { OnErr result (self.new ≡ self.old) }
    {
        self.script.push(rec)?;
        Ok(())
    }

    /// The records, in order, each of which may be carried out.
    pub fn recs(&self) -> &[Rec]
        ensures same { result.now ≡ self.now }
        ensures carried { AreCarried self.now }
    {
        self.script.recs()
    }

    /// The same records as a script, each of which may be carried out.
    pub fn into_script(self) -> Script
        ensures same { result ≡ self }
        ensures carried { AreCarried result }
    {
        self.script
    }
}
