//! The map of properties: a look-up is one search by the name, and takes no memory.
//!
//! `start` puts the lists in from the last to the first (the table's, the words', the system's), so
//! that an earlier list's value replaces a later one's, and of two entries of one list the later
//! holds.

ghost use Rattle.std.specs.Prelude.{◌≡◌, true, false, None, Some, IfOk, OnOk, OnErr};
ghost use Rattle.std.specs.Option.{option_or};
ghost use Rattle.std.specs.FinMap as map;
ghost use Rattle.mi_text.specs.Maps.{Name};
ghost use Rattle.mi_props.specs.declared.props.PropError.TheVariants.{NoMemory as no_memory};
ghost use Rattle.mi_text.specs.PropertyNames.{is_property_name, is_public_name};
ghost use Rattle.mi_props.specs.Props.{all_names, given, first_value, started, start_fault, value_in};
ghost use Rattle.mi_props.specs.Starts.{IfFault};

use mi_text::{NoMemory, Text, is_property_name, is_public_name};
use std::alloc::{AllocError, AllocFailed, Global};
use std::collections::BTreeMap;
use std::marker::Model;

/// Why a property is refused.
#[derive(Clone, Copy)]
pub enum PropFault {
    /// A word of the command line sets a property whose name isn't public.
    PrivateName,
    /// A name is no property name.
    BadName,
}

/// Want of memory, or why a property is refused.
#[derive(Clone, Copy)]
pub enum PropError {
    NoMemory,
    Fault(PropFault),
}

impl From<NoMemory> for PropError {
    ghost from_gives = { λ _ e. e ≡ no_memory };

    fn from(_e: NoMemory) -> PropError {
        PropError::NoMemory
    }
}

impl From<AllocError> for PropError {
    ghost from_gives = { λ _ e. e ≡ no_memory };

    fn from(_e: AllocError) -> PropError {
        PropError::NoMemory
    }
}

impl<T: Drop> From<AllocFailed<T>> for PropError {
    ghost from_gives = { λ _ e. e ≡ no_memory };

    fn from(_e: AllocFailed<T>) -> PropError {
        PropError::NoMemory
    }
}

/// The properties that are set, by name. A name that isn't set has the empty value.
#[derive(Drop)]
pub struct Props {
    values: BTreeMap<String, Text>,
}

impl Model for Props {
    ghost use Rattle.mi_props.specs.Props.{Values, values_code, values_of};

    ghost Value = { Values };

    ghost coded = { values_code };

    ghost view = { λ p. values_of p.values.entries };
}

fn all_property_names(pairs: &[(Text, Text)]) -> bool
    ensures { result ≡ all_names is_property_name pairs.now }
{
    for pair in pairs {
        if !is_property_name(pair.0.as_str()) {
            return false;
        }
    }
    true
}

fn all_public_names(pairs: &[(Text, Text)]) -> bool
    ensures { result ≡ all_names is_public_name pairs.now }
{
    for pair in pairs {
        if !is_public_name(pair.0.as_str()) {
            return false;
        }
    }
    true
}

impl Props {
    /// The properties at the start of a run: a name has the system's value, else that of the words, else that
    /// of the Property table (Order of Property Precedence). Of two entries of one list the later holds.
    ///
    /// Refused with `PrivateName` where a word's name isn't public, and with `BadName` where a name of the
    /// system or of the table is no property name; the list that stands first decides.
    pub fn start(
        alloc: Global,
        system: &[(Text, Text)],
        words: &[(Text, Text)],
        table: &[(Text, Text)],
    ) -> Result<Props, PropError>
        ensures precedence { IfOk result (λ p. (name : Name) → map.get p name ≡ first_value system.now words.now table.now name) }
        ensures whole { IfOk result (λ p. p ≡ started system.now words.now table.now) }
        ensures accepted { OnOk result (start_fault system.now words.now table.now ≡ None) }
        ensures refused { IfFault result (λ fault. start_fault system.now words.now table.now ≡ Some fault) }
    {
        if !all_property_names(system) {
            return Err(PropError::Fault(PropFault::BadName));
        }
        if !all_public_names(words) {
            return Err(PropError::Fault(PropFault::PrivateName));
        }
        if !all_property_names(table) {
            return Err(PropError::Fault(PropFault::BadName));
        }
        let mut props = Props::none(alloc);
        props.put_all(alloc, table)?;
        props.put_all(alloc, words)?;
        props.put_all(alloc, system)?;
        Ok(props)
    }

    /// The value of a property, and the empty text where it isn't set. No memory.
    pub fn get(&self, name: &str) -> &str
        ensures { result.now ≡ value_in self.now name.now }
    {
        match self.values.get(name) {
            Some(value) => value.as_str(),
            None => "",
        }
    }

    /// Sets a property. Refused with `BadName` where the name is no property name; unchanged where refused.
    pub fn set(&mut self, alloc: Global, name: &str, value: &str) -> Result<(), PropError>
        ensures ok { OnOk result (self.new ≡ map.insert self.old name.now value.now) }
        ensures err { OnErr result (self.new ≡ self.old) }
        ensures accepted { OnOk result (is_property_name name.now ≡ true) }
        ensures refused { IfFault result (λ fault. (fault ≡ PropFault.BadName) × (is_property_name name.now ≡ false)) }
    {
        if !is_property_name(name) {
            return Err(PropError::Fault(PropFault::BadName));
        }
        self.put(alloc, name, value)?;
        Ok(())
    }

    // No properties, which takes no memory.
    fn none(alloc: Global) -> Props
        ensures { result ≡ map.empty }
    {
        Props {
            values: BTreeMap::new(alloc),
        }
    }

    fn put(&mut self, alloc: Global, name: &str, value: &str) -> Result<(), NoMemory>
        ensures ok { OnOk result (self.new ≡ map.insert self.old name.now value.now) }
        ensures err { OnErr result (self.new ≡ self.old) }
    {
        let name = String::from_str(alloc, name)?;
        let value = Text::copy_of(alloc, value)?;
        self.values.insert(name, value)?;
        Ok(())
    }

    // Sets each pair in turn.
    fn put_all(&mut self, alloc: Global, pairs: &[(Text, Text)]) -> Result<(), NoMemory>
        ensures { OnOk result ((name : Name) → map.get self.new name ≡ option_or (given pairs.now name) (map.get self.old name)) }
    {
        for pair in pairs {
            self.put(alloc, pair.0.as_str(), pair.1.as_str())?;
        }
        Ok(())
    }
}
