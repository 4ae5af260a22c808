//! WriteEnvironmentStrings as a plan call.

ghost use Rattle.std.specs.Prelude.{◌≡◌, List, ℕ, IfOk, codes, map, false};
ghost use Rattle.std.specs.Option.{option_copied};
ghost use Rattle.std.specs.FinMap.{get};
ghost use Rattle.mi_text.specs.Maps.{Map};
ghost use Rattle.mi_image.specs.Items.{AreThere, machine_over};
ghost use Rattle.mi_image.specs.Overlays.{former_items, present_items};
ghost use Rattle.mi_model.specs.World.{World};
ghost use Rattle.mi_model.specs.Asked.{lookups};
ghost use Rattle.mi_model.specs.EnvironmentRows.{is_bad_name, named_variable};
ghost use Rattle.mi_model.specs.WriteEnvironmentStrings.{old_text, variable_entry, write_string, write_environment_strings};
ghost use Rattle.mi_schema.specs.Lawful.{IsLawful};
ghost use Rattle.mi_steps.specs.Follows.{Grows};
ghost use Rattle.mi_steps.specs.Makes.{plan_machine};
ghost use Rattle.mi_records.specs.Choices.{IsAsked};
ghost use Rattle.mi_records.specs.Keeps.{Keeps};
ghost use Rattle.mi_records.specs.Order.{as_numbered};
ghost use Rattle.mi_records.specs.Rows as made;
ghost use Rattle.mi_records.specs.Rows.{Phase};
ghost use Rattle.mi_variables.specs.Forms.{meant};
ghost use Rattle.mi_row_steps.specs.Sizes.{Put};
ghost use Rattle.mi_variables.specs.Written.{written_text};
ghost use Rattle.mi_environment.specs.Variables.{write_effect};

use crate::rows::coming_rows;
use crate::value::value_text;
use crate::variable::{held_variable, name_text};
use mi_base::{NoMemory, Text};
use mi_format::BoundedEnv;
use mi_image::Image;
use mi_records::{PlanError, Row, Sees};
use mi_row_steps::put_sized;
use mi_schema::EnvironmentRow;
use mi_steps::Plan;
use mi_variables::{Form, form_told, variable_entry, written_text};
use std::alloc::Global;

// ---- the text that a row writes

// The value of the variable that is held at a name.
fn old_text<'a>(image: &'a Image, at: &str) -> Option<&'a str>
    ensures { (held files : Map (List ℕ)) → option_copied result ≡ old_text (get (machine_over held files image.now) at.now) }
{
    match held_variable(image, at) {
        Some(variable) => Some(variable.value.as_str()),
        None => None,
    }
}

// The text that a row writes over an image, if any.
fn text_over(
    alloc: Global,
    image: &Image,
    name: &str,
    form: Form<'_>,
) -> Result<Option<Text>, NoMemory>
    ensures { (held files : Map (List ℕ)) → IfOk result (λ text. text ≡ written_text name.now (meant form.entry) (old_text (get (machine_over held files image.now) (named_variable name.now)))) }
{
    let at = name_text(alloc, name)?;
    written_text(alloc, name, form, old_text(image, at.as_str()))
}

// ---- rows

// Puts the variable of a Name with a text.
fn put_text(
    alloc: Global,
    number: u32,
    plan: &mut Plan,
    name: &str,
    text: Text,
) -> Result<(), PlanError>
    requires { is_bad_name name.now ≡ false }
    ensures put { (held files : Map (List ℕ)) → Put held files plan.old plan.new (codes "Environment") number (variable_entry name.now text) result }
    ensures keeps { Keeps plan.old plan.new }
{
    match variable_entry(alloc, name, text) {
        Ok(entry) => put_sized(alloc, "Environment", number, plan, entry),
        Err(_) => Err(PlanError::NoMemory),
    }
}

// Carries out a row whose Name is good and whose Value has this form.
fn write_form(
    alloc: Global,
    number: u32,
    plan: &mut Plan,
    name: &str,
    form: Form<'_>,
) -> Result<(), PlanError>
    requires { is_bad_name name.now ≡ false }
    ensures row { (held files : Map (List ℕ)) → made.Row held files plan.old plan.new (write_effect number name.now (meant form.entry)) result }
    ensures keeps { Keeps plan.old plan.new }
{
    match text_over(alloc, plan.overlay.image(), name, form) {
        Ok(Some(text)) => put_text(alloc, number, plan, name, text),
        Ok(None) => Ok(()),
        Err(_) => Err(PlanError::NoMemory),
    }
}

// Carries out a row.
fn write_row<E: BoundedEnv>(
    alloc: Global,
    env: &E,
    row: Row<'_, EnvironmentRow>,
    plan: &mut Plan,
) -> Result<(), PlanError>
    ensures row { (held files : Map (List ℕ)) (w : World) → lookups w ≡ E.lookups env.now → made.Row held files plan.old plan.new (write_string w (as_numbered row.entry)) result }
    ensures keeps { Keeps plan.old plan.new }
{
    let (number, row) = row;
    match value_text(alloc, env, number, row) {
        Ok(text) => {
            let done = write_form(alloc, number, plan, row.name.as_str(), form_told(&text));
            drop(text);
            done
        }
        Err(error) => Err(error),
    }
}

// Carries out rows, one after the other.
fn write_rows<E: BoundedEnv>(
    alloc: Global,
    env: &E,
    rows: &[Row<'_, EnvironmentRow>],
    plan: &mut Plan,
) -> Result<(), PlanError>
    ensures rows { (held files : Map (List ℕ)) (w : World) → lookups w ≡ E.lookups env.now → made.Rows held files plan.old plan.new (map (λ r. write_string w (as_numbered r)) rows.now) result }
    ensures keeps { Keeps plan.old plan.new }
{
    for row in rows {
        match write_row(alloc, env, *row, plan) {
            Ok(()) => {}
            Err(error) => return Err(error),
        }
    }
    Ok(())
}

/// WriteEnvironmentStrings: the rows of coming components in byte order of their keys, each over the value that the earlier ones
/// left. A prefix `=` sets the variable, `+` only where there is none, and a Name without any of `= + ! -` acts as `=-`; `*` is for
/// a variable of the system. A part is added beside `;` unless an item has its text in whichever case; an empty Value and a null
/// one write nothing (WriteEnvironmentStrings Action; Environment table).
///
/// Refused with the first of `BadEnvironment`, `TooDeep` and `BadValue` of a row. No text of more than 67,108,864 bytes is put
/// together: it is want of memory.
pub fn plan_write_environment<S: Sees>(
    alloc: Global,
    seen: &S,
    plan: &mut Plan,
) -> Result<(), PlanError>
    requires { IsLawful (S.rows seen.now) }
    ensures phase { (held files : Map (List ℕ)) (w : World) → IsAsked (S.lookups seen.now) (S.choices seen.now) (S.rows seen.now) w → w.machine ≡ plan_machine held files plan.old → Phase held files plan.old plan.new write_environment_strings w result }
    ensures there { (held files : Map (List ℕ)) → AreThere held files (present_items plan.old.overlay) → AreThere held files (present_items plan.new.overlay) }
    ensures former { former_items plan.new.overlay ≡ former_items plan.old.overlay }
    ensures grows { Grows plan.old.script plan.new.script }
{
    let rows = coming_rows(alloc, seen)?;
    write_rows(alloc, seen, rows.as_slice(), plan)
}
