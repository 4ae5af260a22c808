//! The expanded Value of a row of Environment.

ghost use Rattle.std.specs.Prelude.{◌≡◌, Some, IfOk, false};
ghost use Rattle.mi_model.specs.EnvironmentRows.{is_bad_name, form_of, good_form, form_in, environment_form};
ghost use Rattle.mi_records.specs.Meaning.{numbered};
ghost use Rattle.mi_records.specs.Stops.{TellsBy};
ghost use Rattle.mi_variables.specs.Forms.{form_told};

use mi_base::{Fault, Text};
use mi_format::BoundedEnv;
use mi_records::PlanError;
use mi_row_steps::expanded;
use mi_schema::EnvironmentRow;
use mi_variables::{form_of, is_bad_form, is_bad_name};
use std::alloc::Global;

// The text, where its form is good.
fn good_text(number: u32, text: Text) -> Result<Option<Text>, PlanError>
    ensures { TellsBy form_told (good_form number (form_of text)) result }
{
    if is_bad_form(form_of(text.as_str())) {
        drop(text);
        return Err(PlanError::Fault(Fault::BadEnvironment(number)));
    }
    Ok(Some(text))
}

fn some_text<E: BoundedEnv>(
    alloc: Global,
    env: &E,
    number: u32,
    value: &str,
) -> Result<Option<Text>, PlanError>
    ensures { TellsBy form_told (form_in (E.lookups env.now) number (Some value.now)) result }
{
    match expanded(alloc, env, "Environment", number, value) {
        Ok(text) => good_text(number, text),
        Err(error) => Err(error),
    }
}

/// The expanded Value of the row with this number, from 1; None where it is null. Refused with `BadEnvironment` where the Name is
/// none, with `TooDeep`, and with `BadEnvironment` where a byte 0 stands anywhere but as the mark of a part (Environment table).
pub fn value_text<E: BoundedEnv>(
    alloc: Global,
    env: &E,
    number: u32,
    row: &EnvironmentRow,
) -> Result<Option<Text>, PlanError>
    ensures form { TellsBy form_told (environment_form (E.lookups env.now) (numbered number row.now)) result }
    ensures name { IfOk result (λ text. is_bad_name row.now.name ≡ false) }
{
    if is_bad_name(row.name.as_str()) {
        return Err(PlanError::Fault(Fault::BadEnvironment(number)));
    }
    match &row.value {
        Some(value) => some_text(alloc, env, number, value.as_str()),
        None => Ok(None),
    }
}
