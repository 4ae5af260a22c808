//! Facts by names.

ghost use Rattle.std.specs.Prelude.{◌≡◌, OnOk, is_some};
ghost use Rattle.std.specs.Option.{option_copied};
ghost use Rattle.std.specs.FinMap as map;

use mi_text::NoMemory;
use std::alloc::Global;
use std::collections::BTreeMap;
use std::marker::Model;

/// Whether something holds, by names.
#[derive(Drop)]
pub(crate) struct Flags {
    values: BTreeMap<String, bool>,
}

impl Model for Flags {
    ghost use Rattle.std.specs.Prelude.{Bool, ℕ};
    ghost use Rattle.std.specs.Coded.{coded_list, coded_ℕ, coded_bool};
    ghost use Rattle.std.specs.FinMap as map;
    ghost use Rattle.mi_text.specs.Maps.{Map};
    ghost use Rattle.mi_world.specs.Flags.{flags_of};

    ghost Value = { Map Bool };

    ghost coded = { map.code (coded_list coded_ℕ) coded_bool };

    ghost view = { λ t. flags_of t.values.entries };
}

impl Flags {
    /// Nothing is known, which takes no memory.
    pub fn new(alloc: Global) -> Flags
        ensures { result ≡ map.empty }
    {
        Flags {
            values: BTreeMap::new(alloc),
        }
    }

    /// What is known of a name. No memory.
    pub fn get(&self, name: &str) -> Option<bool>
        ensures { result ≡ map.get self.now name.now }
    {
        self.values.get(name).copied()
    }

    /// Whether anything is known of a name. No memory.
    pub fn holds(&self, name: &str) -> bool
        ensures { result ≡ is_some (map.get self.now name.now) }
    {
        self.get(name).is_some()
    }

    /// From now on this is known of a name.
    pub fn put(&mut self, alloc: Global, name: &str, value: bool) -> Result<(), NoMemory>
        ensures { OnOk result (self.new ≡ map.insert self.old name.now value) }
    {
        let key = String::from_str(alloc, name)?;
        self.values.insert(key, value)?;
        Ok(())
    }
}
