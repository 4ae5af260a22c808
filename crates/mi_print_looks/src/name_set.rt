//! Names, each once, in byte order.

ghost use Rattle.std.specs.Prelude.{◌≡◌, ◌++◌, List, IfOk, OnOk, map};
ghost use Rattle.std.specs.FinMap as tree;
ghost use Rattle.mi_text.specs.Maps.{Name};
ghost use Rattle.mi_print_looks.specs.Machines.{plain_machine};
ghost use Rattle.mi_print_looks.specs.Sets.{names_of, name_set};

use mi_base::NoMemory;
use mi_image::Image;
use std::alloc::Global;
use std::collections::BTreeMap;
use std::marker::Model;

/// A set of names (this project's own).
#[derive(Drop)]
pub struct NameSet {
    names: BTreeMap<String, ()>,
}

impl Model for NameSet {
    ghost use Rattle.std.specs.FinMap as map;
    ghost use Rattle.std.specs.Coded.{coded_list, coded_ℕ};
    ghost use base.Stored.{coded_unit};
    ghost use Rattle.mi_text.specs.Maps.{Map};
    ghost use Rattle.mi_print_looks.specs.Sets.{set_of};

    ghost Value = { Map (Unit {0}) };

    ghost coded = { map.code (coded_list coded_ℕ) coded_unit };

    ghost view = { λ s. set_of s.names.entries };
}

impl NameSet {
    /// No names, which takes no memory.
    fn new(alloc: Global) -> NameSet
        ensures { result ≡ tree.empty }
    {
        NameSet {
            names: BTreeMap::new(alloc),
        }
    }

    // Adds a name.
    fn add(&mut self, alloc: Global, name: &str) -> Result<(), NoMemory>
        ensures { OnOk result (self.new ≡ tree.insert self.old name.now tt) }
    {
        let key = String::from_str(alloc, name)?;
        let was = self.names.insert(key, ())?;
        drop(was);
        Ok(())
    }

    // Adds these names.
    fn add_all(&mut self, alloc: Global, names: &[&str]) -> Result<(), NoMemory>
        ensures { (had : List Name) → self.old ≡ name_set had → OnOk result (self.new ≡ name_set (had ++ map (λ n. n.now) names.now)) }
    {
        for name in names {
            self.add(alloc, name)?;
        }
        Ok(())
    }

    /// The names, in byte order, lent. It takes memory for the list.
    pub fn list(&self, alloc: Global) -> Result<Vec<&str>, NoMemory>
        ensures { IfOk result (λ names. map (λ n. n.now) names.items ≡ tree.keys self.now) }
    {
        let mut list = Vec::new(alloc);
        for (name, _) in self.names.iter() {
            list.push(name.as_str())?;
        }
        Ok(list)
    }

    // Adds the names of an image that begin so.
    fn add_names(&mut self, alloc: Global, image: &Image, front: &str) -> Result<(), NoMemory>
        ensures { (had : List Name) → self.old ≡ name_set had → OnOk result (self.new ≡ name_set (had ++ names_of front.now (plain_machine image.now))) }
    {
        let names = image.names(alloc, front)?;
        self.add_all(alloc, names.as_slice())?;
        Ok(())
    }

    /// The names of either image that begin so, each once. It takes memory for a copy of each.
    pub fn of_either(
        alloc: Global,
        before: &Image,
        after: &Image,
        front: &str,
    ) -> Result<NameSet, NoMemory>
        ensures { IfOk result (λ set. set ≡ name_set (names_of front.now (plain_machine before.now) ++ names_of front.now (plain_machine after.now))) }
    {
        let mut set = NameSet::new(alloc);
        set.add_names(alloc, before, front)?;
        set.add_names(alloc, after, front)?;
        Ok(set)
    }
}
