//! Texts by names.

ghost use Rattle.std.specs.Prelude.{◌≡◌, OnOk};
ghost use Rattle.std.specs.Option.{option_copied};
ghost use Rattle.std.specs.FinMap as map;
ghost use Rattle.mi_world.specs.Bounds.{AreWithin};

use mi_text::{NoMemory, Text};
use std::alloc::Global;
use std::collections::BTreeMap;
use std::marker::Model;

/// Texts by names, which know how long the names are.
#[derive(Drop)]
pub(crate) struct Table {
    values: BTreeMap<String, Text>,
    /// One more than the bytes of the longest name.
    bound: usize,
}

impl Model for Table {
    ghost use Rattle.mi_props.specs.Props.{Values, values_code, values_of};

    ghost Value = { Values };

    ghost coded = { values_code };

    ghost view = { λ t. values_of t.values.entries };

    ghost use Rattle.mi_world.specs.Bounds.{AreWithin};

    ghost invariant = { λ t. AreWithin t.bound (values_of t.values.entries) };
}

impl Table {
    /// No texts, which takes no memory.
    pub fn new(alloc: Global) -> Table
        ensures { result ≡ map.empty }
    {
        Table {
            values: BTreeMap::new(alloc),
            bound: 1,
        }
    }

    /// The text of a name. No memory.
    pub fn get(&self, name: &str) -> Option<&Text>
        ensures { option_copied result ≡ map.get self.now name.now }
    {
        self.values.get(name)
    }

    /// Every name of so many bytes or more has no text. No memory.
    pub fn name_bound(&self) -> usize
        ensures { AreWithin result self.now }
    {
        self.bound
    }

    /// Sets the text of a name.
    pub fn put(&mut self, alloc: Global, name: &str, value: Text) -> Result<(), NoMemory>
        ensures { OnOk result (self.new ≡ map.insert self.old name.now value) }
    {
        let key = String::from_str(alloc, name)?;
        self.values.insert(key, value)?;
        self.bound = self.bound.max(name.len() + 1);
        Ok(())
    }
}
