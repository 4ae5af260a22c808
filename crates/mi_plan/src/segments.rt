//! The segments of a walk that is being planned.

ghost use Rattle.std.specs.Prelude.{◌≡◌, [], ◌∷◌, ◌++◌, OnOk};
ghost use Rattle.mi_plan.specs.Carried.{SegmentsCarry};

use crate::segment::Segment;
use mi_base::NoMemory;
use mi_steps::Records;
use std::alloc::Global;
use std::marker::Model;

/// The segments that have ended, in order. Their records may be carried out over a rollback area.
#[derive(Drop)]
pub struct Segments {
    ended: Vec<Segment>,
}

impl Model for Segments {
    ghost use Rattle.std.specs.Prelude.{Vec};
    ghost use Rattle.std.specs.declared.alloc.Global.{Global};
    ghost use Rattle.mi_plan.specs.declared.segment.Segment.{Segment as Ended};
    ghost use Rattle.mi_plan.specs.Carried.{SegmentsCarry};

    ghost Value = { Vec Ended Global };

    ghost view = { λ s. s.ended };

    ghost invariant = { λ s. SegmentsCarry s.ended.items };
}

impl Segments {
    /// No segment, which takes no memory.
    pub fn new(alloc: Global) -> Segments
        ensures items { result.items ≡ [] }
    {
        Segments {
            ended: Vec::new(alloc),
        }
    }

    /// Adds a segment that has ended, with its records and how many actions are begun.
    pub fn push(&mut self, records: Records, reached: u64) -> Result<(), NoMemory>
        ensures items { OnOk result (self.new.items ≡ self.old.items ++ record { script = records; reached = reached } ∷ []) }
    {
        let script = records.into_script();
        self.ended.push(Segment { script, reached })?;
        Ok(())
    }

    /// The segments themselves, whose records may be carried out.
    pub fn into_vec(self) -> Vec<Segment>
        ensures same { result ≡ self }
        ensures carried { SegmentsCarry result.items }
    {
        self.ended
    }
}
