//! RemoveEnvironmentStrings as a plan call.

ghost use Rattle.std.specs.Prelude.{◌≡◌, List, ℕ, Bool, Ok, OnOk, map, false};
ghost use Rattle.mi_text.specs.Maps.{Map};
ghost use Rattle.mi_image.specs.Items.{AreThere};
ghost use Rattle.mi_image.specs.Overlays.{former_items, present_items};
ghost use Rattle.mi_model.specs.World.{World};
ghost use Rattle.mi_model.specs.EnvironmentRows.{is_bad_name};
ghost use Rattle.mi_model.specs.RemoveEnvironmentStrings.{is_guarded_variable, remove_string, remove_environment_strings};
ghost use Rattle.mi_schema.specs.Lawful.{IsLawful};
ghost use Rattle.mi_steps.specs.Follows.{Grows};
ghost use Rattle.mi_steps.specs.Makes.{Makes, plan_machine};
ghost use Rattle.mi_records.specs.Choices.{IsAsked};
ghost use Rattle.mi_records.specs.Keeps.{Keeps};
ghost use Rattle.mi_records.specs.Order.{as_numbered};
ghost use Rattle.mi_records.specs.Removing.{Guards};
ghost use Rattle.mi_records.specs.Rows as made;
ghost use Rattle.mi_records.specs.Rows.{Phase};
ghost use Rattle.mi_variables.specs.Forms.{meant};
ghost use Rattle.mi_environment.specs.Variables.{taken_touches};

use crate::guards::guards;
use crate::rows::removing_rows;
use crate::take::take_form;
use crate::value::value_text;
use crate::variable::name_text;
use mi_base::{NoMemory, Text};
use mi_records::{PlanError, Row, Sees};
use mi_schema::EnvironmentRow;
use mi_steps::Plan;
use mi_variables::{Form, form_told, is_held_back};
use std::alloc::Global;
use std::collections::BTreeSet;

// Takes away what the form of a Value says, unless the row leaves and its variable is guarded.
fn take_unguarded(
    alloc: Global,
    guards: &BTreeSet<Text>,
    plan: &mut Plan,
    leaving: bool,
    name: &str,
    form: Form<'_>,
) -> Result<(), NoMemory>
    requires { is_bad_name name.now ≡ false }
    ensures makes { (guarded : List ℕ → Bool) (held files : Map (List ℕ)) → Guards guards.now guarded → OnOk result (Makes held files plan.old plan.new (taken_touches leaving guarded name.now (meant form.entry))) }
    ensures keeps { Keeps plan.old plan.new }
{
    let at = name_text(alloc, name)?;
    if is_held_back(guards, leaving, &at) {
        return Ok(());
    }
    take_form(alloc, plan, at.as_str(), leaving, form)
}

// The same, as a row is answered.
fn take_row(
    alloc: Global,
    guards: &BTreeSet<Text>,
    plan: &mut Plan,
    leaving: bool,
    name: &str,
    form: Form<'_>,
) -> Result<(), PlanError>
    requires { is_bad_name name.now ≡ false }
    ensures row { (guarded : List ℕ → Bool) (held files : Map (List ℕ)) → Guards guards.now guarded → made.Row held files plan.old plan.new (λ m. Ok (taken_touches leaving guarded name.now (meant form.entry))) result }
    ensures keeps { Keeps plan.old plan.new }
{
    match take_unguarded(alloc, guards, plan, leaving, name, form) {
        Ok(()) => Ok(()),
        Err(_) => Err(PlanError::NoMemory),
    }
}

// Carries out a row.
fn remove_row<S: Sees>(
    alloc: Global,
    seen: &S,
    guards: &BTreeSet<Text>,
    row: Row<'_, EnvironmentRow>,
    plan: &mut Plan,
) -> Result<(), PlanError>
    ensures row { (held files : Map (List ℕ)) (w : World) → IsAsked (S.lookups seen.now) (S.choices seen.now) (S.rows seen.now) w → Guards guards.now (is_guarded_variable w) → made.Row held files plan.old plan.new (remove_string w (as_numbered row.entry)) result }
    ensures keeps { Keeps plan.old plan.new }
{
    let (number, row) = row;
    match value_text(alloc, seen, number, row) {
        Ok(text) => {
            let leaving = seen.leaves(row.component.as_str());
            let name = row.name.as_str();
            let done = take_row(alloc, guards, plan, leaving, name, form_told(&text));
            drop(text);
            done
        }
        Err(error) => Err(error),
    }
}

// Carries out rows, one after the other.
fn remove_rows<S: Sees>(
    alloc: Global,
    seen: &S,
    guards: &BTreeSet<Text>,
    rows: &[Row<'_, EnvironmentRow>],
    plan: &mut Plan,
) -> Result<(), PlanError>
    ensures rows { (held files : Map (List ℕ)) (w : World) → IsAsked (S.lookups seen.now) (S.choices seen.now) (S.rows seen.now) w → Guards guards.now (is_guarded_variable w) → made.Rows held files plan.old plan.new (map (λ r. remove_string w (as_numbered r)) rows.now) result }
    ensures keeps { Keeps plan.old plan.new }
{
    for row in rows {
        match remove_row(alloc, seen, guards, *row, plan) {
            Ok(()) => {}
            Err(error) => return Err(error),
        }
    }
    Ok(())
}

/// RemoveEnvironmentStrings: the rows with `-` of leaving components and those with `!` of local ones, in byte order of their keys.
/// A null Value takes the variable; a whole one takes it too, but for a local component only where the variable has exactly this
/// value; a part takes its first item that equals it out, and the variable goes where no item is left. A leaving row takes nothing
/// of a variable that a row of a kept component names (RemoveEnvironmentStrings Action; Environment table).
///
/// Refused with the first of `BadEnvironment` and `TooDeep` of a row. No text of more than 67,108,864 bytes is put together: it is
/// want of memory.
pub fn plan_remove_environment<S: Sees>(
    alloc: Global,
    seen: &S,
    plan: &mut Plan,
) -> Result<(), PlanError>
    requires { IsLawful (S.rows seen.now) }
    ensures phase { (held files : Map (List ℕ)) (w : World) → IsAsked (S.lookups seen.now) (S.choices seen.now) (S.rows seen.now) w → w.machine ≡ plan_machine held files plan.old → Phase held files plan.old plan.new remove_environment_strings w result }
    ensures there { (held files : Map (List ℕ)) → AreThere held files (present_items plan.old.overlay) → AreThere held files (present_items plan.new.overlay) }
    ensures former { former_items plan.new.overlay ≡ former_items plan.old.overlay }
    ensures grows { Grows plan.old.script plan.new.script }
{
    let rows = removing_rows(alloc, seen)?;
    let guards = guards(alloc, seen)?;
    remove_rows(alloc, seen, &guards, rows.as_slice(), plan)
}
