//! A walk that is being planned.

ghost use Rattle.std.specs.Prelude.{◌≡◌, ◌++◌, ◌∷◌, [], length, map, IfOk, OnOk};
ghost use Rattle.mi_plan.specs.Made.{as_planned};
ghost use Rattle.mi_plan.specs.declared.turn.Turn.TheVariants.{Went};

use crate::segments::Segments;
use crate::turn::Turn;
use mi_base::{NoMemory, Text};
use mi_steps::Records;
use mi_world::World;
use std::alloc::Global;
use std::mem;

/// A walk that is being planned: the world so far, the begun actions, and the segments that have ended.
#[derive(Drop)]
pub struct Work {
    pub world: World,
    pub begun: Vec<Text>,
    pub segments: Segments,
}

impl Work {
    /// Ends a segment: its script is kept, and an empty one begins.
    pub fn end_segment(&mut self, alloc: Global) -> Result<Turn, NoMemory>
        ensures went { IfOk result (λ t. t ≡ Went) }
        ensures seen { OnOk result (self.new.world.seen ≡ self.old.world.seen) }
        ensures overlay { OnOk result (self.new.world.plan.overlay ≡ self.old.world.plan.overlay) }
        ensures script { OnOk result (self.new.world.plan.script ≡ []) }
        ensures begun { OnOk result (self.new.begun ≡ self.old.begun) }
        ensures kept { OnOk result (self.new.segments.items ≡ self.old.segments.items ++ record { script = self.old.world.plan.script; reached = length self.old.begun.items } ∷ []) }
        ensures segments { OnOk result (map as_planned self.new.segments.items ≡ map as_planned self.old.segments.items ++ record { records = self.old.world.plan.script; reached = length self.old.begun.items } ∷ []) }
    {
        let records = mem::replace(&mut self.world.plan.script, Records::new(alloc));
        let reached = self.begun.len() as u64;
        self.segments.push(records, reached)?;
        Ok(Turn::Went)
    }
}
