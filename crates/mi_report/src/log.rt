//! The log of a command.

ghost use Rattle.std.specs.Prelude.{◌≡◌, ◌++◌, IfOk, OnOk, take};
ghost use Rattle.std.specs.List.{flat_map};
ghost use Rattle.mi_model.specs.Lines.{recovered_line, action_line};
ghost use Rattle.mi_model.specs.Report.{report_of};

use crate::outcome::Outcome;
use crate::words::{push_number, push_result_line, push_shown};
use mi_base::{Bytes, Kind, NoMemory, Settled, Text};
use std::alloc::Global;

/// Adds what settling found.
pub fn push_recovered(alloc: Global, out: &mut Vec<u8>, settled: Settled) -> Result<(), NoMemory>
    ensures { OnOk result (out.new.items ≡ out.old.items ++ recovered_line settled) }
{
    match settled {
        Settled::Clean => Ok(()),
        Settled::Undone(count) => {
            out.extend_from_slice(b"Recovered: ")?;
            push_number(alloc, out, count)?;
            out.push(b'\n')?;
            Ok(())
        }
    }
}

/// Adds the line of an action.
pub fn push_action(out: &mut Vec<u8>, name: &str) -> Result<(), NoMemory>
    ensures { OnOk result (out.new.items ≡ out.old.items ++ action_line name.now) }
{
    out.extend_from_slice(b"Action: ")?;
    push_shown(out, name)?;
    out.push(b'\n')?;
    Ok(())
}

fn push_actions(out: &mut Vec<u8>, names: &[Text]) -> Result<(), NoMemory>
    ensures { OnOk result (out.new.items ≡ out.old.items ++ flat_map action_line names.now) }
{
    for name in names {
        push_action(out, name.as_str())?;
    }
    Ok(())
}

// The first so many, or all.
fn first(names: &[Text], count: u32) -> &[Text]
    ensures { result.now ≡ take count names.now }
{
    let count = count as usize;
    &names[..count.min(names.len())]
}

/// The log of a command, of whose begun actions the first `reached` are written (this project's own).
pub fn report(alloc: Global, outcome: &Outcome, reached: u32) -> Result<Bytes, NoMemory>
    ensures { IfOk result (λ bytes. bytes ≡ report_of outcome.now.kind outcome.now.settled outcome.now.walks outcome.now.begun reached) }
{
    let mut out = Vec::new(alloc);
    if outcome.walks {
        push_recovered(alloc, &mut out, outcome.settled)?;
        push_actions(&mut out, first(outcome.begun.as_slice(), reached))?;
    }
    if !matches!(outcome.kind, Kind::Listed) {
        push_result_line(alloc, &mut out, &outcome.kind)?;
    }
    Ok(Bytes::from_vec(out))
}
