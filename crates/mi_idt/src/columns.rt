//! Lines 1 and 2: the columns.

ghost use Rattle.std.specs.Prelude.{◌≡◌, ◌<◌, ◌^◌, ◌==◌, [], if◌then◌else◌, Some, length, map, option_map, IfOk, vec_len};
ghost use Rattle.mi_text.specs.declared.answers.IdtFault.TheVariants.{ColumnCount};
ghost use Rattle.mi_idt.specs.Columns.{width_of, column_of, definitions_fault, columns_in, second_fault};
ghost use Rattle.mi_idt.specs.Fields.{fields_of};
ghost use Rattle.mi_idt.specs.Means.{column_value};
ghost use Rattle.mi_idt.specs.Steps.{ReadsPart};

use crate::lines::{count_fields, text_fields};
use crate::names::Names;
use crate::number::number_within;
use crate::table::{Column, IdtError};
use mi_text::IdtFault;
use std::alloc::Global;

fn width_of(letter: u8, digits: &[u8]) -> Option<u8>
    ensures { result ≡ width_of letter digits.now }
{
    match letter {
        b's' | b'S' | b'l' | b'L' => match number_within(digits, 255) {
            Some(width) => Some(width as u8),
            None => None,
        },
        b'i' | b'I' => match digits {
            b"2" => Some(2),
            b"4" => Some(4),
            _ => None,
        },
        b'v' | b'V' => match digits {
            b"0" => Some(0),
            _ => None,
        },
        _ => None,
    }
}

fn column_of<'a>(name: &'a str, definition: &str) -> Option<Column<'a>>
    ensures { option_map column_value result ≡ column_of name.now definition.now }
{
    let [letter, digits @ ..] = definition.as_bytes() else {
        return None;
    };
    let width = width_of(*letter, digits)?;
    Some(Column {
        name,
        letter: *letter,
        width,
    })
}

fn read_definitions<'a>(
    alloc: Global,
    names: &[&'a str],
    definitions: &[&str],
) -> Result<Vec<Column<'a>>, IdtError>
    requires same { length names.now ≡ length definitions.now }
    requires few { length names.now < 2 ^ 31 }
    ensures as_many { IfOk result (λ cs. vec_len cs ≡ length names.now) }
    ensures read { ReadsPart result (definitions_fault 1 (map (λ b. b.now) names.now) (map (λ b. b.now) definitions.now)) (λ cs. map column_value cs.items ≡ columns_in (map (λ b. b.now) names.now) (map (λ b. b.now) definitions.now)) }
{
    let mut columns = Vec::new(alloc);
    for (i, definition) in definitions.iter().enumerate() {
        let Some(column) = column_of(names[i], definition) else {
            return Err(IdtError::Fault(IdtFault::Definition(i as u32 + 1)));
        };
        columns.push(column)?;
    }
    Ok(columns)
}

/// The columns of the names and of line 2.
pub fn read_columns<'a>(
    alloc: Global,
    names: &[&'a str],
    line: &str,
) -> Result<Vec<Column<'a>>, IdtError>
    requires few { length names.now < 2 ^ 31 }
    ensures as_many { IfOk result (λ cs. vec_len cs ≡ length names.now) }
    ensures read { ReadsPart result (second_fault (map (λ b. b.now) names.now) (fields_of line.now)) (λ cs. map column_value cs.items ≡ columns_in (map (λ b. b.now) names.now) (fields_of line.now)) }
{
    if count_fields(line.as_bytes()) != names.len() {
        return Err(IdtError::Fault(IdtFault::ColumnCount(2)));
    }
    let definitions = text_fields(alloc, line, names.len())?;
    read_definitions(alloc, names, &definitions)
}
