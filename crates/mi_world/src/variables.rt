//! The environment variables of the former machine.

ghost use Rattle.std.specs.Prelude.{◌≡◌, ◌≤◌, List, ℕ, IfOk, Some, None, length, map, option_map, unwrap_or, []};
ghost use Rattle.std.specs.Option.{option_copied};
ghost use Rattle.std.specs.List.{filter_map};
ghost use Rattle.mi_text.specs.Maps.{Name, Map};
ghost use Rattle.mi_text.specs.Folded.{KeysRise, value_at_fold};
ghost use Rattle.mi_base.specs.Machine.{as_variable, variable_at};
ghost use Rattle.mi_image.specs.Items.{machine_over, AreRight};
ghost use Rattle.mi_model.specs.Settings.{variable_of};
ghost use Rattle.mi_world.specs.Bounds.{AreFoldedWithin};
ghost use Rattle.mi_world.specs.Variables.{front, pair_at, variable_at_name, variable_in, variable_pair};

use mi_base::{Entry, NoMemory, Text, Variable, find_folded, fold};
use mi_image::Image;
use std::alloc::Global;
use std::marker::Model;

/// Texts by folded names, in byte order of the names.
#[derive(Drop)]
pub(crate) struct Folded {
    items: Vec<(Text, Text)>,
    /// One more than the bytes of the longest name.
    bound: usize,
}

impl Model for Folded {
    ghost use Rattle.std.specs.Prelude.{List, ℕ};

    ghost Value = { List (List ℕ × List ℕ) };

    ghost view = { λ t. t.items.items };

    ghost use Rattle.mi_text.specs.Folded.{KeysRise};
    ghost use Rattle.mi_world.specs.Bounds.{AreFoldedWithin};

    ghost invariant = { λ t. KeysRise t.items.items × AreFoldedWithin t.bound t.items.items };
}

/// The variables of a machine: those of the user, and those of the system.
#[derive(Drop)]
pub(crate) struct Variables {
    user: Folded,
    system: Folded,
}

// One more than the bytes of the longest name.
fn bound_of(items: &[(Text, Text)]) -> usize
    ensures { AreFoldedWithin result items.now }
{
    let mut bound = 1;
    for item in items {
        bound = bound.max(item.0.as_str().len() + 1);
    }
    bound
}

impl Folded {
    fn new(items: Vec<(Text, Text)>) -> Folded
        requires { KeysRise items.items }
        ensures { result ≡ items.items }
    {
        let bound = bound_of(&items);
        Folded { items, bound }
    }

    // The text of a name, in whichever case. No memory.
    fn get(&self, name: &str) -> Option<&Text>
        ensures { option_copied result ≡ value_at_fold self.now name.now }
    {
        find_folded(&self.items, name)
    }

    fn name_bound(&self) -> usize
        ensures { AreFoldedWithin result self.now }
    {
        self.bound
    }
}

fn as_variable(entry: &Entry) -> Option<&Variable>
    ensures { option_copied result ≡ as_variable (Some entry.now) }
{
    match entry {
        Entry::Variable(variable) => Some(variable),
        _ => None,
    }
}

// What stands in an image is right, as a look-up says.
pub(crate) fn stands_right(image: &Image)
    ensures { AreRight image.now }
{
    let _ = image.get("");
}

// The variable that stands at a name.
fn variable_at_name<'a>(image: &'a Image, name: &str) -> Option<&'a Variable>
    ensures { option_copied result ≡ variable_at_name image.now name.now }
{
    as_variable(image.get(name)?.whole()?)
}

fn pair_of(alloc: Global, variable: &Variable) -> Result<(Text, Text), NoMemory>
    ensures { IfOk result (λ p. p ≡ variable_pair variable.now) }
{
    let name = fold(alloc, variable.name.as_str())?;
    let value = Text::copy_of(alloc, variable.value.as_str())?;
    Ok((name, value))
}

// The folded name and the value of the variable at a name.
fn pair_at(alloc: Global, image: &Image, name: &str) -> Result<Option<(Text, Text)>, NoMemory>
    ensures { IfOk result (λ o. o ≡ pair_at image.now name.now) }
{
    match variable_at_name(image, name) {
        Some(variable) => Ok(Some(pair_of(alloc, variable)?)),
        None => Ok(None),
    }
}

// The variables at these names: their folded names and values.
fn pairs_of(alloc: Global, image: &Image, names: &[&str]) -> Result<Vec<(Text, Text)>, NoMemory>
    ensures { IfOk result (λ v. v.items ≡ filter_map (pair_at image.now) (map (λ n. n.now) names.now)) }
{
    let mut pairs = Vec::new(alloc);
    for name in names {
        match pair_at(alloc, image, name)? {
            Some(pair) => {
                pairs.push(pair)?;
            }
            None => {}
        }
    }
    Ok(pairs)
}

// What the names of variables begin with.
fn front(system: bool) -> &'static str
    ensures { result.now ≡ front system }
{
    if system { "n/1" } else { "n/0" }
}

// The system's variables, or the user's.
fn folded_variables(alloc: Global, image: &Image, system: bool) -> Result<Folded, NoMemory>
    ensures { (held files : Map (List ℕ)) (name : Name) → IfOk result (λ t. value_at_fold t name ≡ option_map (λ v. v.value) (variable_at (machine_over held files image.now) system name)) }
{
    stands_right(image);
    let names = image.names(alloc, front(system))?;
    let pairs = pairs_of(alloc, image, &names)?;
    Ok(Folded::new(pairs))
}

pub(crate) fn or_empty(value: Option<&Text>) -> &str
    ensures { result.now ≡ unwrap_or (option_copied value.entry) [] }
{
    match value {
        Some(value) => value.as_str(),
        None => "",
    }
}

impl Variables {
    /// The variables of the machine that an image stands for.
    pub fn of(alloc: Global, image: &Image) -> Result<Variables, NoMemory>
        ensures { (held files : Map (List ℕ)) (name : Name) → IfOk result (λ v. variable_in v name ≡ variable_of (machine_over held files image.now) name) }
    {
        let user = folded_variables(alloc, image, false)?;
        let system = folded_variables(alloc, image, true)?;
        Ok(Variables { user, system })
    }

    /// The value of a variable: the user's, else the system's, and the empty text where there is none. No memory.
    pub fn get(&self, name: &str) -> &str
        ensures { result.now ≡ variable_in self.now name.now }
    {
        match self.user.get(name) {
            Some(value) => value.as_str(),
            None => or_empty(self.system.get(name)),
        }
    }

    /// Every name of so many bytes or more has the empty value. No memory.
    pub fn name_bound(&self) -> usize
        ensures { (name : Name) → result ≤ length name → variable_in self.now name ≡ [] }
    {
        self.user.name_bound().max(self.system.name_bound())
    }
}
