//! What a begun action does.

ghost use Rattle.std.specs.Prelude.{◌≡◌, List, ℕ};
ghost use Rattle.mi_schema.specs.Lawful.{IsLawful};
ghost use Rattle.mi_schema.specs.RowsOf.{rows_in};
ghost use Rattle.mi_model.specs.Steps.{step_of};
ghost use Rattle.mi_seq_rows.specs.Stages.{Reaches};
ghost use Rattle.mi_seq.specs.Stops.{Answers};

use crate::custom::custom_step;
use crate::refusal::Stop;
use crate::standard::standard_of;
use crate::step::Step;
use mi_base::{Env, Text};
use mi_schema::Package;
use mi_seq_rows::Stage;
use std::alloc::Global;

/// What an action does where it stands (Standard Actions Reference; Custom Action Types).
pub fn step_of<E: Env>(
    alloc: Global,
    loaded: &Package,
    env: &E,
    stage: Stage,
    action: &Text,
) -> Result<Step, Stop>
    requires { IsLawful loaded.now }
    ensures { (begun : List (List ℕ)) → Reaches stage begun → Answers (step_of (rows_in loaded.now) (E.lookups env.now) begun action.now) action.now result }
{
    match standard_of(action.as_str()) {
        Some(standard) => standard.step(alloc, stage, action.as_str()),
        None => custom_step(alloc, loaded, env, stage, action),
    }
}
