//! What stood at the names of an image that were changed.

ghost use Rattle.std.specs.Prelude.{◌≡◌, OnOk, OnErr, IfErr, None, is_some, true, string_bytes};
ghost use Rattle.std.specs.Option.{option_copied, option_map};
ghost use Rattle.std.specs.FinMap as tree;
ghost use Rattle.mi_image.specs.Items.{unboxed};

use crate::image::lent;
use crate::item::Item;
use std::alloc::{AllocFailed, Global};
use std::collections::BTreeMap;
use std::marker::Model;

/// What stood at some names, or that nothing did (this project's own). Items keep the boxes that they had in the image.
#[derive(Drop)]
pub struct Former {
    items: BTreeMap<String, Option<Box<Item>>>,
}

impl Model for Former {
    ghost use Rattle.std.specs.FinMap as map;
    ghost use Rattle.std.specs.Coded.{coded_list, coded_option, coded_ℕ};
    ghost use Rattle.mi_image.specs.contracts.item.Item as item;
    ghost use Rattle.mi_image.specs.Overlays.{Stood, stood_of};

    ghost Value = { Stood };

    ghost coded = { map.code (coded_list coded_ℕ) (coded_option item.the_row.coded) };

    ghost view = { λ f. stood_of f.items.entries };
}

impl Former {
    /// No names, which takes no memory.
    pub fn new(alloc: Global) -> Former
        ensures { result ≡ tree.empty }
    {
        Former {
            items: BTreeMap::new(alloc),
        }
    }

    /// What stood at a name, where it was changed. No memory.
    pub fn get(&self, name: &str) -> Option<Option<&Item>>
        ensures { option_map option_copied result ≡ tree.get self.now name.now }
    {
        match self.items.get(name) {
            Some(stood) => Some(lent(stood.as_ref())),
            None => None,
        }
    }

    /// Whether a name was changed. No memory.
    pub fn holds(&self, name: &str) -> bool
        ensures { result ≡ is_some (tree.get self.now name.now) }
    {
        match self.get(name) {
            Some(_) => true,
            None => false,
        }
    }

    /// Notes what stood at a name. Where memory is refused both come back.
    pub fn note(
        &mut self,
        key: String,
        was: Option<Box<Item>>,
    ) -> Result<(), AllocFailed<(String, Option<Box<Item>>)>>
        ensures ok { OnOk result (self.new ≡ tree.insert self.old (string_bytes key) (option_map unboxed was)) }
        ensures absent { OnErr result (tree.get self.old (string_bytes key) ≡ None) }
        ensures back { IfErr result (λ refused. refused.value ≡ (key, was)) }
        ensures err { OnErr result (self.new ≡ self.old) }
    {
        match self.items.insert(key, was) {
            Ok(former) => {
                drop(former);
                Ok(())
            }
            Err(refused) => Err(refused),
        }
    }

    /// Notes what stood at a name that is marked. No memory.
    pub fn fill(&mut self, key: String, was: Option<Box<Item>>)
        requires marked { is_some (tree.get self.old (string_bytes key)) ≡ true }
        ensures { self.new ≡ tree.insert self.old (string_bytes key) (option_map unboxed was) }
    {
        match self.note(key, was) {
            Ok(()) => {}
            Err(_) => unreachable!(),
        }
    }
}
