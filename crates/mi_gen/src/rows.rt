//! The rows that a file brings, by its number.

ghost use Rattle.std.specs.Prelude.{◌≡◌, ◌+◌, ◌<◌, ◌-◌, ◌/◌, ◌^◌, ◌++◌, [], ◌∷◌, codes, IfOk, OnOk};
ghost use Rattle.mi_idt.specs.Written.{written_row, with_ends};
ghost use Rattle.mi_text.specs.Guid.{guid_text};
ghost use Rattle.mi_model.specs.Selftest.{component_of as component_name, name_of_file as file_name, component, file as file_row, registry, pair};

use crate::cells::{Field, push_row};
use crate::digits::numbered;
use mi_text::{Guid, NoMemory, Text};
use std::alloc::Global;

fn component_of(alloc: Global, file: u32) -> Result<Text, NoMemory>
    ensures { IfOk result (λ name. name ≡ component_name file) }
{
    numbered(alloc, "C", file / 10)
}

fn code_of(alloc: Global, file: u32) -> Result<Text, NoMemory>
    ensures { IfOk result (λ code. code ≡ guid_text (4096 + file / 10)) }
{
    let code = Guid {
        number: 4096 + (file / 10) as u128,
    };
    code.print(alloc)
}

/// The name of a file.
pub fn name_of_file(alloc: Global, file: u32) -> Result<Text, NoMemory>
    ensures { IfOk result (λ name. name ≡ file_name file) }
{
    let mut name = numbered(alloc, "f", file)?;
    name.push_str(".txt")?;
    Ok(name)
}

/// Adds the row of the component whose first file this is.
pub fn push_component(alloc: Global, out: &mut Vec<u8>, file: u32) -> Result<(), NoMemory>
    ensures { OnOk result (out.new.items ≡ out.old.items ++ with_ends (written_row (component file) ∷ [])) }
{
    let name = component_of(alloc, file)?;
    let code = code_of(alloc, file)?;
    let key_path = numbered(alloc, "F", file)?;
    push_row(
        alloc,
        out,
        &[
            Field::Text(name.as_str()),
            Field::Text(code.as_str()),
            Field::Text("APP"),
            Field::Number(0),
            Field::Null,
            Field::Text(key_path.as_str()),
        ],
    )
}

/// Adds the row that gives this component to the feature.
pub fn push_feature_component(alloc: Global, out: &mut Vec<u8>, file: u32) -> Result<(), NoMemory>
    ensures { OnOk result (out.new.items ≡ out.old.items ++ with_ends (written_row (pair (codes "Main") (component_name file)) ∷ [])) }
{
    let component = component_of(alloc, file)?;
    push_row(
        alloc,
        out,
        &[Field::Text("Main"), Field::Text(component.as_str())],
    )
}

/// Adds the row of a file.
pub fn push_file(alloc: Global, out: &mut Vec<u8>, file: u32) -> Result<(), NoMemory>
    requires { file < 2 ^ 32 - 1 }
    ensures { OnOk result (out.new.items ≡ out.old.items ++ with_ends (written_row (file_row file) ∷ [])) }
{
    let key = numbered(alloc, "F", file)?;
    let component = component_of(alloc, file)?;
    let name = name_of_file(alloc, file)?;
    push_row(
        alloc,
        out,
        &[
            Field::Text(key.as_str()),
            Field::Text(component.as_str()),
            Field::Text(name.as_str()),
            Field::Number(4),
            Field::Null,
            Field::Null,
            Field::Null,
            Field::Number(file + 1),
        ],
    )
}

/// Adds the row of a file's value.
pub fn push_registry(alloc: Global, out: &mut Vec<u8>, file: u32) -> Result<(), NoMemory>
    ensures { OnOk result (out.new.items ≡ out.old.items ++ with_ends (written_row (registry file) ∷ [])) }
{
    let key = numbered(alloc, "R", file)?;
    let name = numbered(alloc, "v", file)?;
    let value = numbered(alloc, "", file)?;
    let component = component_of(alloc, file)?;
    push_row(
        alloc,
        out,
        &[
            Field::Text(key.as_str()),
            Field::Number(2),
            Field::Text("Software\\Selftest"),
            Field::Text(name.as_str()),
            Field::Text(value.as_str()),
            Field::Text(component.as_str()),
        ],
    )
}
