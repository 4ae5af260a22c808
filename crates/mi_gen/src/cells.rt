//! The fields of a row, and a row as it is written.

ghost use Rattle.std.specs.Prelude.{◌≡◌, ◌++◌, [], ◌∷◌, map, OnOk};
ghost use Rattle.mi_idt.specs.Written.{escaped, written_cell, written_row, with_ends};
ghost use Rattle.mi_idt.specs.Texts.{separator, tabbed};
ghost use Rattle.mi_gen.specs.Fields.{cell};

use crate::pieces::push_end;
use mi_text::NoMemory;
use std::alloc::Global;

/// What a field of a row holds.
#[derive(Clone, Copy)]
pub enum Field<'a> {
    Null,
    Text(&'a str),
    Number(u32),
}

const fn escaped(byte: u8) -> u8
    ensures { result ≡ escaped byte }
{
    match byte {
        0 => 21,
        8 => 27,
        9 => 16,
        10 => 25,
        12 => 24,
        13 => 17,
        _ => byte,
    }
}

fn push_escaped(out: &mut Vec<u8>, text: &[u8]) -> Result<(), NoMemory>
    ensures { OnOk result (out.new.items ≡ out.old.items ++ map escaped text.now) }
{
    for byte in text {
        out.push(escaped(*byte))?;
    }
    Ok(())
}

fn push_field(alloc: Global, out: &mut Vec<u8>, field: &Field<'_>) -> Result<(), NoMemory>
    ensures { OnOk result (out.new.items ≡ out.old.items ++ written_cell (cell field.now)) }
{
    match field {
        Field::Null => Ok(()),
        Field::Text(text) => push_escaped(out, text.as_bytes()),
        Field::Number(number) => {
            let digits = number.to_string(alloc)?;
            out.extend_from_slice(digits.as_bytes())?;
            Ok(())
        }
    }
}

// The tab before the field of a place, from 0; the first has none.
fn push_tab(out: &mut Vec<u8>, place: usize) -> Result<(), NoMemory>
    ensures { OnOk result (out.new.items ≡ out.old.items ++ separator place) }
{
    if place > 0 {
        out.push(b'\t')?;
    }
    Ok(())
}

fn push_fields(alloc: Global, out: &mut Vec<u8>, fields: &[Field<'_>]) -> Result<(), NoMemory>
    ensures { OnOk result (out.new.items ≡ out.old.items ++ tabbed 0 (map written_cell (map cell fields.now))) }
{
    for (place, field) in fields.iter().enumerate() {
        push_tab(out, place)?;
        push_field(alloc, out, field)?;
    }
    Ok(())
}

/// Adds a row in the writer's form, with its end.
pub fn push_row(alloc: Global, out: &mut Vec<u8>, fields: &[Field<'_>]) -> Result<(), NoMemory>
    ensures { OnOk result (out.new.items ≡ out.old.items ++ with_ends (written_row (map cell fields.now) ∷ [])) }
{
    push_fields(alloc, out, fields)?;
    push_end(out)?;
    Ok(())
}
