//! The text that a row of Environment writes over the value that stands there (Environment table, column Value).

ghost use Rattle.std.specs.Prelude.{◌≡◌, ◌++◌, ◌∷◌, IfOk, None};
ghost use Rattle.std.specs.Option.{option_copied};
ghost use Rattle.mi_model.specs.EnvironmentRows.{Whole};
ghost use Rattle.mi_variables.specs.Forms.{meant};
ghost use Rattle.mi_model.specs.WriteEnvironmentStrings.{with_part, text_after};

use crate::form::Form;
use crate::items::has_part;
use mi_base::{NoMemory, Text};
use std::alloc::Global;

// Two texts with `;` between.
fn joined(alloc: Global, front: &str, back: &str) -> Result<Text, NoMemory>
    ensures { IfOk result (λ text. text ≡ front.now ++ 59 ∷ back.now) }
{
    let mut text = Text::copy_of(alloc, front)?;
    text.push_str(";")?;
    text.push_str(back)?;
    Ok(text)
}

fn whole(alloc: Global, text: &str) -> Result<Option<Text>, NoMemory>
    ensures { IfOk result (λ t. t ≡ text_after (Whole text.now) None) }
{
    if text.is_empty() {
        return Ok(None);
    }
    Ok(Some(Text::copy_of(alloc, text)?))
}

// A part behind the old value, unless it is among its items.
fn appended(alloc: Global, part: &str, old: Option<&str>) -> Result<Option<Text>, NoMemory>
    ensures { IfOk result (λ text. text ≡ with_part part.now (λ value. value ++ 59 ∷ part.now) (option_copied old.entry)) }
{
    match old {
        Some(value) if has_part(part, value) => Ok(None),
        Some(value) => Ok(Some(joined(alloc, value, part)?)),
        None => Ok(Some(Text::copy_of(alloc, part)?)),
    }
}

// A part before the old value, unless it is among its items.
fn put_in_front(alloc: Global, part: &str, old: Option<&str>) -> Result<Option<Text>, NoMemory>
    ensures { IfOk result (λ text. text ≡ with_part part.now (λ value. part.now ++ 59 ∷ value) (option_copied old.entry)) }
{
    match old {
        Some(value) if has_part(part, value) => Ok(None),
        Some(value) => Ok(Some(joined(alloc, part, value)?)),
        None => Ok(Some(Text::copy_of(alloc, part)?)),
    }
}

/// The text that a variable has behind a row, over the value that it had; None where it stays as it is.
pub fn text_after(
    alloc: Global,
    form: Form<'_>,
    old: Option<&str>,
) -> Result<Option<Text>, NoMemory>
    ensures { IfOk result (λ text. text ≡ text_after (meant form.entry) (option_copied old.entry)) }
{
    match form {
        Form::Null => Ok(None),
        Form::Whole(text) => whole(alloc, text),
        Form::Behind(part) => appended(alloc, part, old),
        Form::Before(part) => put_in_front(alloc, part, old),
    }
}
