//! Judging a field by the kind of its column.

ghost use Rattle.std.specs.Prelude.{◌≡◌, None, Some};
ghost use Rattle.mi_idt.specs.Cells as raw;
ghost use Rattle.mi_idt.specs.Means.{Shows, text_shown};
ghost use Rattle.mi_rows.specs.Fields.{field_value};
ghost use Rattle.mi_rows.specs.Reads.{ReadsAs, FitsKind};
ghost use Rattle.mi_rows.specs.Texts.{place_in};
ghost use Rattle.mi_rows.specs.Typed.{some_condition_in};
ghost use Rattle.mi_rows.specs.Values.{unless, text_fault, text_value, kind_fault};

use crate::column::Kind;
use crate::field::{Bad, Field, FieldError, shown};
use crate::take::Take;
use mi_base::{Guid, is_file_name, is_file_pattern};
use mi_cond::{Cond, CondError, CondFault};

fn checked(good: bool) -> Result<Option<Cond>, FieldError>
    ensures { ReadsAs (unless good) None result }
{
    if good {
        Ok(None)
    } else {
        Err(FieldError::Bad(Bad::Value))
    }
}

fn place_in(fault: CondFault) -> u64
    ensures { result ≡ place_in fault }
{
    match fault {
        CondFault::Syntax(place) => place,
        CondFault::TooDeep(place) => place,
    }
}

/// The condition that a text is, which begins at this place of the table's text, in bytes.
fn read_condition(take: &Take, start: usize, text: &str) -> Result<Option<Cond>, FieldError>
    ensures { ReadsAs (text_fault Kind.Condition text.now) (some_condition_in (Some (text_value Kind.Condition text.now))) result }
{
    match Cond::read_part(take.alloc, &take.whole, start, text) {
        Ok(condition) => Ok(Some(condition)),
        Err(CondError::NoMemory) => Err(FieldError::NoMemory),
        Err(CondError::Fault(fault)) => Err(FieldError::Bad(Bad::Condition(place_in(fault)))),
    }
}

fn read_text(take: &Take, field: &Field, text: &str) -> Result<Option<Cond>, FieldError>
    ensures { ReadsAs (text_fault field.now.kind text.now) (some_condition_in (Some (text_value field.now.kind text.now))) result }
{
    match field.kind {
        Kind::Name => checked(is_file_name(text)),
        Kind::Pattern => checked(is_file_pattern(text)),
        Kind::Code => checked(Guid::read(text).is_ok()),
        Kind::Condition => read_condition(take, field.start, text),
        Kind::Text | Kind::Formatted | Kind::Integer => Ok(None),
    }
}

/// Why a field isn't of the kind of its column, or the condition that it is, where it is one.
pub fn read_kind(take: &Take, field: &Field, nullable: bool) -> Result<Option<Cond>, FieldError>
    ensures { (x : raw.Cell) → Shows (text_shown field.now.text.now) x → FitsKind field.now.kind x → ReadsAs (kind_fault field.now.kind nullable x) (some_condition_in (field_value field.now)) result }
{
    match shown(field) {
        Some(text) => read_text(take, field, text),
        None => checked(nullable),
    }
}
