//! Properties that know how long their names are.

ghost use Rattle.std.specs.Prelude.{◌≡◌, ◌≤◌, length, None, Some, true, false, IfOk, OnOk, OnErr};
ghost use Rattle.std.specs.FinMap as map;
ghost use Rattle.mi_text.specs.Maps.{Name};
ghost use Rattle.mi_text.specs.PropertyNames.{is_property_name};
ghost use Rattle.mi_props.specs.Props.{given, started, start_fault, value_in};
ghost use Rattle.mi_props.specs.Starts.{IfFault};
ghost use Rattle.mi_world.specs.Bounds.{AreWithin};

use mi_props::{PropError, PropFault, Props};
use mi_text::Text;
use std::alloc::Global;
use std::marker::Model;

/// The properties of a run, which know how long their names are, so that a longer name needn't be put together to be looked up
/// (this project's own).
#[derive(Drop)]
pub struct Properties {
    props: Props,
    /// One more than the bytes of the longest name.
    bound: usize,
}

impl Model for Properties {
    ghost use Rattle.mi_props.specs.Props.{Values, values_code};

    ghost Value = { Values };

    ghost coded = { values_code };

    ghost view = { λ p. p.props };

    ghost use Rattle.mi_world.specs.Bounds.{AreWithin};

    ghost invariant = { λ p. AreWithin p.bound p.props };
}

// One more than the bytes of the longest name.
fn bound_of(pairs: &[(Text, Text)]) -> usize
    ensures { (name : Name) → result ≤ length name → given pairs.now name ≡ None }
{
    let mut bound = 1;
    for pair in pairs {
        bound = bound.max(pair.0.as_str().len() + 1);
    }
    bound
}

impl Properties {
    /// The properties at the start of a run: a name has the system's value, else that of the words, else that of the Property
    /// table (Order of Property Precedence). Of two entries of one list the later holds.
    ///
    /// Refused with `PrivateName` where a word's name isn't public, and with `BadName` where a name of the system or of the
    /// table is no property name; the list that stands first decides.
    pub fn start(
        alloc: Global,
        system: &[(Text, Text)],
        words: &[(Text, Text)],
        table: &[(Text, Text)],
    ) -> Result<Properties, PropError>
        ensures whole { IfOk result (λ p. p ≡ started system.now words.now table.now) }
        ensures accepted { OnOk result (start_fault system.now words.now table.now ≡ None) }
        ensures refused { IfFault result (λ fault. start_fault system.now words.now table.now ≡ Some fault) }
    {
        let props = Props::start(alloc, system, words, table)?;
        let bound = bound_of(system).max(bound_of(words)).max(bound_of(table));
        Ok(Properties { props, bound })
    }

    /// The properties as directories are resolved by them. No memory.
    pub fn props(&self) -> &Props
        ensures { result.now ≡ self.now }
    {
        &self.props
    }

    /// The value of a property, and the empty text where it isn't set. No memory.
    pub fn get(&self, name: &str) -> &str
        ensures { result.now ≡ value_in self.now name.now }
    {
        self.props.get(name)
    }

    /// Every name of so many bytes or more isn't set. No memory.
    pub fn name_bound(&self) -> usize
        ensures { AreWithin result self.now }
    {
        self.bound
    }

    /// Sets a property. Refused with `BadName` where the name is no property name; unchanged where refused.
    pub fn set(&mut self, alloc: Global, name: &str, value: &str) -> Result<(), PropError>
        ensures ok { OnOk result (self.new ≡ map.insert self.old name.now value.now) }
        ensures err { OnErr result (self.new ≡ self.old) }
        ensures accepted { OnOk result (is_property_name name.now ≡ true) }
        ensures refused { IfFault result (λ fault. (fault ≡ PropFault.BadName) × (is_property_name name.now ≡ false)) }
    {
        self.props.set(alloc, name, value)?;
        self.bound = self.bound.max(name.len() + 1);
        Ok(())
    }
}
