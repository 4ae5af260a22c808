//! Variables as they are held.

ghost use Rattle.std.specs.Prelude.{◌≡◌, ◌∷◌, ◌++◌, [], List, ℕ, Some, IfOk, IfSome, codes, if◌then◌else◌};
ghost use Rattle.std.specs.Option.{option_copied};
ghost use Rattle.std.specs.FinMap.{get};
ghost use Rattle.mi_text.specs.Maps.{Map};
ghost use Rattle.mi_base.specs.declared.entry.Entry.TheVariants as entry;
ghost use Rattle.mi_base.specs.Machine.{as_variable};
ghost use Rattle.mi_base.specs.Names.{digit, variable_name};
ghost use Rattle.mi_image.specs.Items.{entry_over, machine_over};
ghost use Rattle.mi_image.specs.declared.item.Item.TheVariants.{Whole};
ghost use Rattle.mi_model.specs.EnvironmentRows.{named_variable};
ghost use Rattle.mi_environment.specs.Variables.{IsHeldAt};

use mi_base::{Entry, NoMemory, Text, Variable, fold};
use mi_image::{Image, Item};
use mi_variables::{is_of_system, variable_in};
use std::alloc::Global;

// How names of variables of the system, or else of the user, begin.
fn name_front(system: bool) -> &'static str
    ensures { result.now ≡ codes "n/" ++ (if system then digit 1 else digit 0) ∷ [] }
{
    if system { "n/1" } else { "n/0" }
}

// The text of the name of a variable.
#[tactic(auto, unfolding(mi_base::specs::Names::variable_name))]
fn variable_name(alloc: Global, system: bool, name: &str) -> Result<Text, NoMemory>
    ensures { IfOk result (λ text. text ≡ variable_name system name.now) }
{
    let mut text = Text::copy_of(alloc, name_front(system))?;
    text.push_str(fold(alloc, name)?.as_str())?;
    Ok(text)
}

/// The text of the name under which the variable of a Name is held.
#[tactic(auto, unfolding(mi_model::specs::EnvironmentRows::named_variable))]
pub fn name_text(alloc: Global, name: &str) -> Result<Text, NoMemory>
    ensures { IfOk result (λ text. text ≡ named_variable name.now) }
{
    variable_name(alloc, is_of_system(name), variable_in(name))
}

fn as_variable(held: &Entry) -> Option<&Variable>
    ensures value { option_copied result ≡ as_variable (Some held.now) }
    ensures whole { IfSome result (λ variable. held.now ≡ entry.Variable variable.now) }
{
    match held {
        Entry::File(_) => None,
        Entry::Folder(_) => None,
        Entry::Value(_, _) => None,
        Entry::Key(_, _) => None,
        Entry::Shortcut(_) => None,
        Entry::Variable(variable) => Some(variable),
        Entry::Client(_) => None,
        Entry::Product(_) => None,
        Entry::System(_, _) => None,
    }
}

fn whole_variable(item: &Item) -> Option<&Variable>
    ensures value { (held files : Map (List ℕ)) → option_copied result ≡ as_variable (Some (entry_over held files item.now)) }
    ensures whole { IfSome result (λ variable. item.now ≡ Whole (entry.Variable variable.now)) }
{
    match item {
        Item::Whole(entry) => as_variable(entry),
        Item::Head(_, _) => None,
    }
}

/// The variable that an image holds at a name. No memory.
pub fn held_variable<'a>(image: &'a Image, name: &str) -> Option<&'a Variable>
    ensures value { (held files : Map (List ℕ)) → option_copied result ≡ as_variable (get (machine_over held files image.now) name.now) }
    ensures named { IfSome result (λ variable. IsHeldAt name.now variable.now) }
{
    match image.get(name) {
        Some(item) => whole_variable(item),
        None => None,
    }
}
