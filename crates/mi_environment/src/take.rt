//! What a row of Environment takes of its variable.

ghost use Rattle.std.specs.Prelude.{◌≡◌, ◌∷◌, [], List, ℕ, Some, IfOk, IfSome, OnOk, option_map, false};
ghost use Rattle.std.specs.FinMap.{get};
ghost use Rattle.mi_text.specs.Fold.{IsNameLength};
ghost use Rattle.mi_text.specs.Maps.{Map};
ghost use Rattle.mi_base.specs.declared.entry.Entry.TheVariants as entry;
ghost use Rattle.mi_base.specs.Machine.{as_variable};
ghost use Rattle.mi_changes.specs.Touches.{Set};
ghost use Rattle.mi_image.specs.Items.{machine_over};
ghost use Rattle.mi_model.specs.RemoveEnvironmentStrings.{less_part, less_value, variable_less};
ghost use Rattle.mi_script.specs.Spelled.{is_file_name};
ghost use Rattle.mi_steps.specs.Follows.{put_touch};
ghost use Rattle.mi_steps.specs.Makes.{Makes};
ghost use Rattle.mi_base.specs.Spelling.{name_of};
ghost use Rattle.mi_records.specs.Keeps.{Keeps};
ghost use Rattle.mi_variables.specs.Forms.{meant};
ghost use Rattle.mi_model.specs.EnvironmentRows.{Whole};
ghost use Rattle.mi_environment.specs.Variables.{IsHeldAt, has_other_value};

use crate::variable::held_variable;
use mi_base::{Entry, NoMemory, Text, Variable};
use mi_image::Image;
use mi_row_steps::drop_at;
use mi_steps::Plan;
use mi_variables::{Form, has_another_value, without_part};
use std::alloc::Global;

// ---- a part

// A variable with another value.
fn with_value(alloc: Global, variable: &Variable, value: Text) -> Result<Option<Variable>, NoMemory>
    ensures { IfOk result (λ rest. rest ≡ Some (record { system = variable.now.system; name = variable.now.name; value = value })) }
{
    match Text::copy_of(alloc, variable.name.as_str()) {
        Ok(name) => Ok(Some(Variable {
            system: variable.system,
            name,
            value,
        })),
        Err(_) => {
            drop(value);
            Err(NoMemory)
        }
    }
}

// A variable without its first item that equals a part; None where no item is left.
fn less_part(alloc: Global, variable: &Variable, part: &str) -> Result<Option<Variable>, NoMemory>
    ensures left { IfOk result (λ rest. option_map entry.Variable rest ≡ less_part part.now (Some variable.now)) }
    ensures named { (q : List ℕ) → IsHeldAt q variable.now → IfOk result (λ rest. IfSome rest (IsHeldAt q)) }
{
    match without_part(alloc, part, variable.value.as_str()) {
        Ok(Some(value)) => with_value(alloc, variable, value),
        Ok(None) => Ok(None),
        Err(_) => Err(NoMemory),
    }
}

// What is left of the variable that is held at a name.
fn part_less(
    alloc: Global,
    image: &Image,
    at: &str,
    part: &str,
) -> Result<Option<Variable>, NoMemory>
    ensures left { (held files : Map (List ℕ)) → IfOk result (λ rest. option_map entry.Variable rest ≡ less_part part.now (as_variable (get (machine_over held files image.now) at.now))) }
    ensures named { IfOk result (λ rest. IfSome rest (IsHeldAt at.now)) }
{
    match held_variable(image, at) {
        Some(variable) => less_part(alloc, variable, part),
        None => Ok(None),
    }
}

// Puts a variable. One whose record is too long, which none is that is left of another one, is want of memory.
fn put_variable(alloc: Global, plan: &mut Plan, variable: Variable) -> Result<(), NoMemory>
    ensures makes { (held files : Map (List ℕ)) → OnOk result (Makes held files plan.old plan.new (put_touch (name_of (entry.Variable variable)) (entry.Variable variable) ∷ [])) }
    ensures keeps { Keeps plan.old plan.new }
{
    match plan.put(alloc, Entry::Variable(variable)) {
        Ok(()) => Ok(()),
        Err(_) => Err(NoMemory),
    }
}

// Takes a part out of the variable at a name.
fn take_part(alloc: Global, plan: &mut Plan, at: &str, part: &str) -> Result<(), NoMemory>
    requires { IsNameLength at.now }
    ensures makes { (held files : Map (List ℕ)) → OnOk result (Makes held files plan.old plan.new (Set at.now (λ old. less_part part.now (as_variable old)) ∷ [])) }
    ensures keeps { Keeps plan.old plan.new }
{
    match part_less(alloc, plan.overlay.image(), at, part) {
        Ok(Some(variable)) => put_variable(alloc, plan, variable),
        Ok(None) => drop_at(alloc, plan, at),
        Err(_) => Err(NoMemory),
    }
}

// ---- a whole value

// Whether a variable with another value is held at a name.
fn has_other_value(image: &Image, at: &str, text: &str) -> bool
    ensures { (held files : Map (List ℕ)) → result ≡ has_other_value text.now (as_variable (get (machine_over held files image.now) at.now)) }
{
    match held_variable(image, at) {
        Some(variable) => has_another_value(variable, text),
        None => false,
    }
}

// Takes the variable at a name away where it has exactly this value.
fn take_value(alloc: Global, plan: &mut Plan, at: &str, text: &str) -> Result<(), NoMemory>
    requires length { IsNameLength at.now }
    requires plain { is_file_name at.now ≡ false }
    ensures makes { (held files : Map (List ℕ)) → OnOk result (Makes held files plan.old plan.new (Set at.now (λ old. less_value text.now (as_variable old)) ∷ [])) }
    ensures keeps { Keeps plan.old plan.new }
{
    if has_other_value(plan.overlay.image(), at, text) {
        return Ok(());
    }
    drop_at(alloc, plan, at)
}

// Takes a whole value away: of a leaving row the variable, whatever its value.
fn take_whole(
    alloc: Global,
    plan: &mut Plan,
    at: &str,
    leaving: bool,
    text: &str,
) -> Result<(), NoMemory>
    requires length { IsNameLength at.now }
    requires plain { is_file_name at.now ≡ false }
    ensures makes { (held files : Map (List ℕ)) → OnOk result (Makes held files plan.old plan.new (Set at.now (λ old. variable_less leaving (Whole text.now) (as_variable old)) ∷ [])) }
    ensures keeps { Keeps plan.old plan.new }
{
    if leaving {
        drop_at(alloc, plan, at)
    } else {
        take_value(alloc, plan, at, text)
    }
}

/// Takes away what the form of a Value says of the variable at a name: a null one and a leaving row's whole one the variable, a
/// local row's whole one the variable where it has exactly this value, a part its first item that equals it, and the variable
/// where none is left.
pub fn take_form(
    alloc: Global,
    plan: &mut Plan,
    at: &str,
    leaving: bool,
    form: Form<'_>,
) -> Result<(), NoMemory>
    requires length { IsNameLength at.now }
    requires plain { is_file_name at.now ≡ false }
    ensures makes { (held files : Map (List ℕ)) → OnOk result (Makes held files plan.old plan.new (Set at.now (λ old. variable_less leaving (meant form.entry) (as_variable old)) ∷ [])) }
    ensures keeps { Keeps plan.old plan.new }
{
    match form {
        Form::Null => drop_at(alloc, plan, at),
        Form::Whole(text) => take_whole(alloc, plan, at, leaving, text),
        Form::Behind(part) => take_part(alloc, plan, at, part),
        Form::Before(part) => take_part(alloc, plan, at, part),
    }
}
