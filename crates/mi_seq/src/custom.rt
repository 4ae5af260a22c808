//! Custom actions (CustomAction table; Summary List of All Custom Action Types).

ghost use Rattle.std.specs.Prelude.{◌≡◌, List, ℕ, IfOk, option_map, option_copied, unwrap_or, [], MatchResult};
ghost use Rattle.mi_schema.specs.Lawful.{IsLawful};
ghost use Rattle.mi_schema.specs.RowsOf.{rows_in};
ghost use Rattle.mi_schema.specs.TableRows.{Numbered};
ghost use Rattle.mi_model.specs.Steps.{custom_action, custom_step};
ghost use Rattle.mi_model.specs.Refusals.{expanded_or_empty};
ghost use Rattle.mi_seq_rows.specs.Stages.{Reaches};
ghost use Rattle.mi_seq.specs.Customs.{numbered, step_with, IsExpanded};
ghost use Rattle.mi_seq.specs.Stops.{Answers};

use crate::refusal::{Stop, Why};
use crate::step::Step;
use mi_base::{Env, NoMemory, Text};
use mi_format::{FormatError, expand};
use mi_schema::{CustomActionRow, Package, keys_stand, tables_small};
use mi_seq_rows::{Custom, Stage, kind_of, may_stand};
use std::alloc::Global;

/// The row of a custom action, and its number in file order, from 1.
fn row_of<'a>(loaded: &'a Package, action: &Text) -> Option<(u32, &'a CustomActionRow)>
    requires { IsLawful loaded.now }
    ensures { option_map (λ p. numbered p.0 p.1.now) result ≡ custom_action (rows_in loaded.now) action.now }
{
    keys_stand(loaded);
    tables_small(loaded);
    match loaded.custom_action.get_full(action) {
        Some((place, _, row)) => Some((place as u32 + 1, row)),
        None => None,
    }
}

fn copy_or_empty(alloc: Global, text: &Option<Text>) -> Result<Text, NoMemory>
    ensures { IfOk result (λ t. t ≡ unwrap_or text.now []) }
{
    match text {
        Some(text) => Text::copy_of(alloc, text.as_str()),
        None => Ok(Text::new(alloc)),
    }
}

fn expanded<E: Env>(alloc: Global, env: &E, row: u32, text: &Option<Text>) -> Result<Text, Stop>
    ensures { IsExpanded (E.lookups env.now) row text.now result }
{
    let Some(text) = text else {
        return Ok(Text::new(alloc));
    };
    match expand(alloc, text.as_str(), env) {
        Ok(text) => Ok(text),
        Err(FormatError::NoMemory) => Err(Stop::NoMemory),
        Err(FormatError::Fault(_)) => Err(Stop::Refused(Why::TooDeep(row))),
    }
}

// What it does, by its action, its Source and its expanded Target.
fn step_with(custom: Custom, action: Text, source: Text, text: Text) -> Step
    ensures { result ≡ step_with custom action source text }
{
    match custom {
        Custom::Error => Step::Error(action, text),
        Custom::SetDir => Step::SetDir(action, source, text),
        Custom::SetProperty => Step::SetProperty(action, source, text),
    }
}

/// What the custom action of a row does where it stands.
fn row_step<E: Env>(
    alloc: Global,
    env: &E,
    stage: Stage,
    number: u32,
    row: &CustomActionRow,
    action: &str,
) -> Result<Step, Stop>
    ensures { (begun : List (List ℕ)) → Reaches stage begun → Answers (custom_step (E.lookups env.now) begun action.now (Some (numbered number row.now))) action.now result }
{
    let Some(custom) = kind_of(row.kind) else {
        return Err(Stop::Refused(Why::Executable));
    };
    if !may_stand(custom, stage) {
        return Err(Stop::Refused(Why::SequenceOrder));
    }
    let text = expanded(alloc, env, number, &row.target)?;
    let source = copy_or_empty(alloc, &row.source)?;
    let action = Text::copy_of(alloc, action)?;
    Ok(step_with(custom, action, source, text))
}

/// What a custom action does where it stands.
pub fn custom_step<E: Env>(
    alloc: Global,
    loaded: &Package,
    env: &E,
    stage: Stage,
    action: &Text,
) -> Result<Step, Stop>
    requires { IsLawful loaded.now }
    ensures { (begun : List (List ℕ)) → Reaches stage begun → Answers (custom_step (E.lookups env.now) begun action.now (custom_action (rows_in loaded.now) action.now)) action.now result }
{
    match row_of(loaded, action) {
        Some((number, row)) => row_step(alloc, env, stage, number, row, action.as_str()),
        None => Err(Stop::Refused(Why::UnknownAction)),
    }
}
