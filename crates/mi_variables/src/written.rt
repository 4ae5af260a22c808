//! What a row of Environment writes: the text, and the entry of its variable (WriteEnvironmentStrings Action).

ghost use Rattle.std.specs.Prelude.{◌≡◌, IfOk};
ghost use Rattle.std.specs.Option.{option_copied};
ghost use Rattle.mi_model.specs.WriteEnvironmentStrings.{variable_entry};
ghost use Rattle.mi_variables.specs.Forms.{meant};
ghost use Rattle.mi_variables.specs.Written.{written_text};

use crate::column::{creates, is_of_system, sets, variable_in};
use crate::form::Form;
use crate::parts::text_after;
use mi_base::{Entry, NoMemory, Text, Variable};
use std::alloc::Global;

/// The text that a row writes over the value that its variable has, by the row's Name and the form of its Value; None where it writes
/// nothing. A prefix `=` writes always, `+` only where there is no variable. It takes memory (WriteEnvironmentStrings Action;
/// Environment table, columns Name and Value).
pub fn written_text(
    alloc: Global,
    name: &str,
    form: Form<'_>,
    old: Option<&str>,
) -> Result<Option<Text>, NoMemory>
    ensures { IfOk result (λ text. text ≡ written_text name.now (meant form.entry) (option_copied old.entry)) }
{
    if sets(name) || (creates(name) && old.is_none()) {
        text_after(alloc, form, old)
    } else {
        Ok(None)
    }
}

/// The entry of the variable of a Name with a text: the system's or the user's, under the name as it is spelled behind the prefixes.
/// It takes memory (WriteEnvironmentStrings Action; Environment table, column Name).
pub fn variable_entry(alloc: Global, name: &str, text: Text) -> Result<Entry, NoMemory>
    ensures { IfOk result (λ entry. entry ≡ variable_entry name.now text) }
{
    match Text::copy_of(alloc, variable_in(name)) {
        Ok(shown) => Ok(Entry::Variable(Variable {
            system: is_of_system(name),
            name: shown,
            value: text,
        })),
        Err(_) => {
            drop(text);
            Err(NoMemory)
        }
    }
}
