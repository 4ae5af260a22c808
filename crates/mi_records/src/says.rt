//! What a row says of the place that it names.

ghost use Rattle.std.specs.Prelude.{◌≡◌, ℕ, List, Option, Some};
ghost use Rattle.mi_model.specs.Refusals.{expanded};
ghost use Rattle.mi_model.specs.RegistryRows.{of_key, said};
ghost use Rattle.mi_records.specs.Meaning.{meant};
ghost use Rattle.mi_records.specs.Stops.{AnswersBy};

use crate::stop::Stop;
use crate::text::whole_text;
use mi_base::Text;
use mi_format::BoundedEnv;
use std::alloc::Global;

/// What a row says of the place that it names (Registry table, columns Name and Value).
#[derive(Drop)]
pub enum Says {
    /// Null Name and Value: the key is made.
    KeyAlone,
    /// A null Value and the Name `+`: the key is made.
    Makes,
    /// A null Value and the Name `-`: the key is removed.
    Removes,
    /// A null Value and the Name `*`: the key is made, and removed with its component.
    MakesAndRemoves,
    /// The value that this text stands for; a null Value of another Name is the empty text.
    Writes(Text),
}

// By the expanded Name, where the Value is null.
fn of_key(alloc: Global, name: &str) -> Says
    ensures { meant result ≡ of_key name.now }
{
    if name == "+" {
        Says::Makes
    } else if name == "-" {
        Says::Removes
    } else if name == "*" {
        Says::MakesAndRemoves
    } else {
        Says::Writes(Text::new(alloc))
    }
}

// The text that a row writes.
fn writes<E: BoundedEnv>(alloc: Global, env: &E, value: &str) -> Result<Says, Stop>
    ensures { (table name : List ℕ) (field : Option (List ℕ)) (row : ℕ) → AnswersBy meant table row (said field name (Some value.now) (expanded (E.lookups env.now) table row)) result }
{
    match whole_text(alloc, env, value) {
        Ok(text) => Ok(Says::Writes(text)),
        Err(stop) => Err(stop),
    }
}

/// By the columns Name and Value, and the expanded Name.
pub fn said<E: BoundedEnv>(
    alloc: Global,
    env: &E,
    field: &Option<Text>,
    name: &str,
    value: &Option<Text>,
) -> Result<Says, Stop>
    ensures { (table : List ℕ) (row : ℕ) → AnswersBy meant table row (said field.now name.now value.now (expanded (E.lookups env.now) table row)) result }
{
    match value {
        Some(value) => writes(alloc, env, value.as_str()),
        None => match field {
            Some(_) => Ok(of_key(alloc, name)),
            None => Ok(Says::KeyAlone),
        },
    }
}
