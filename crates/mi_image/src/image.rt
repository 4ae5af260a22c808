//! The image of a machine: one ordered map from the names of the volume to what they hold.
//!
//! - A scan lists what it reads and builds the map of the whole list at once. The names come in
//!   byte order, so each is compared with its neighbours alone; put one by one into the tree, each
//!   would be compared with about as many as the tree is deep.
//! - Items are boxed. What moves, from the list into the tree and within a node, is a pointer. A
//!   node has room for fifteen entries and is half full after a split, so that an item in the node
//!   would take twice its size there.
//! - A look-up composes the name on the stack (`NameBuffer`), so it takes no memory. A text whose
//!   name would pass 1,024 bytes isn't found.
//! - Keys of the tree are strings and not slices of bytes, since std compares two texts eight bytes
//!   at a time, and slices of bytes item by item.
//! - Of a file the image has the head alone, and where its bytes are: no file's bytes are in
//!   memory.

ghost use Rattle.std.specs.Prelude.{◌≡◌, List, ℕ, Some, true, false, is_some, IfSome, IfNone, IfOk, OnOk, OnErr, map, filter, nat_eq, string_bytes};
ghost use Rattle.std.specs.Option.{option_copied, option_map};
ghost use Rattle.std.specs.List.{list_any, starts_with};
ghost use Rattle.std.specs.FinMap as tree;
ghost use Rattle.std.specs.Ordering.{is_le};
ghost use Rattle.mi_text.specs.Maps.{Map, name_cmp, set_to};
ghost use Rattle.mi_base.specs.System.{is_system_property};
ghost use Rattle.mi_image.specs.Items.{unboxed, machine_over, MayStand, AreRight};
ghost use Rattle.mi_image.specs.declared.item.Item as item_value;
ghost use Rattle.mi_image.specs.Firsts.{IsFirstOf};
ghost use Rattle.mi_image.specs.Lookups.{IsComposed};

use crate::buffer::NameBuffer;
use crate::item::Item;
use crate::under::{items_under, names_under};
use mi_base::{Name, NoMemory};
use std::alloc::Global;
use std::collections::BTreeMap;
use std::marker::Model;
use std::ops::Bound;

/// What a machine is, without the bytes of its files: of each file its head and where its bytes are, and
/// every other entry whole (this project's own). It is kept by the names of the volume, in byte order; items are boxed,
/// since nodes of the tree have room for more than they hold.
#[derive(Drop)]
pub struct Image {
    items: BTreeMap<String, Box<Item>>,
}

impl Model for Image {
    ghost use Rattle.std.specs.FinMap as map;
    ghost use Rattle.std.specs.Coded.{coded_list, coded_ℕ};
    ghost use Rattle.mi_image.specs.contracts.item.Item as item;
    ghost use Rattle.mi_image.specs.Items.{Items, items_of, AreRight};

    ghost Value = { Items };

    ghost coded = { map.code (coded_list coded_ℕ) item.the_row.coded };

    ghost view = { λ a. items_of a.items.entries };

    ghost invariant = { λ a. AreRight (items_of a.items.entries) };
}

/// The item in its box.
pub(crate) fn lent(item: Option<&Box<Item>>) -> Option<&Item>
    ensures { option_copied result ≡ option_map unboxed (option_copied item.entry) }
{
    match item {
        Some(item) => Some(item.as_ref()),
        None => None,
    }
}

// The item in a box, or dropped where there is no memory for one.
fn boxed(alloc: Global, item: Item) -> Result<Box<Item>, NoMemory>
    ensures { IfOk result (λ boxed. unboxed boxed ≡ item) }
{
    match Box::new(alloc, item) {
        Ok(boxed) => Ok(boxed),
        Err(refused) => {
            drop(refused);
            Err(NoMemory)
        }
    }
}

/// What a scan has read so far, in the order in which it came. The tree is built of all at once: where the names came in
/// byte order, each is compared with its neighbours alone.
#[derive(Drop)]
pub(crate) struct Gathered {
    pairs: Vec<(String, Box<Item>)>,
}

impl Model for Gathered {
    ghost use Rattle.std.specs.Prelude.{reverse};
    ghost use Rattle.std.specs.FinMap as map;
    ghost use Rattle.std.specs.Coded.{coded_list, coded_ℕ};
    ghost use Rattle.mi_image.specs.contracts.item.Item as item;
    ghost use Rattle.mi_image.specs.Items.{Items, items_of, AreRight};

    ghost Value = { Items };

    ghost coded = { map.code (coded_list coded_ℕ) item.the_row.coded };

    ghost view = { λ g. items_of (reverse g.pairs.items) };

    ghost invariant = { λ g. AreRight (items_of (reverse g.pairs.items)) };
}

impl Gathered {
    /// Nothing, which takes no memory.
    pub(crate) fn new(alloc: Global) -> Gathered
        ensures { result ≡ tree.empty }
    {
        Gathered {
            pairs: Vec::new(alloc),
        }
    }

    /// Sets what stands at a name.
    pub(crate) fn put(&mut self, alloc: Global, name: &Name, item: Item) -> Result<(), NoMemory>
        requires { MayStand name.now item }
        ensures ok { OnOk result (self.new ≡ tree.insert self.old name.now item) }
    {
        let item = boxed(alloc, item)?;
        let key = String::from_str(alloc, name.as_str())?;
        self.pairs.push((key, item))?;
        Ok(())
    }
}

impl Image {
    /// The image of what was gathered, which is moved.
    pub(crate) fn of(alloc: Global, gathered: Gathered) -> Result<Image, NoMemory>
        ensures { IfOk result (λ image. image ≡ gathered) }
    {
        let items = BTreeMap::from_iter(alloc, gathered.pairs)?;
        Ok(Image { items })
    }

    /// What stands at a composed name, which takes no memory.
    pub(crate) fn at(&self, name: Option<NameBuffer>) -> Option<&Item>
        ensures value { (q : List ℕ) → IsComposed q name → option_copied result ≡ tree.get self.now q }
        ensures right { AreRight self.now }
    {
        let items = &self.items;
        lent(items.get(name?.as_str()))
    }

    /// Whether a property of the system is held, which takes no memory: their names are the last.
    pub(crate) fn has_system(&self) -> bool
        ensures { result ≡ list_any is_system_property (tree.keys self.now) }
    {
        match self.items.keys().next_back() {
            Some(name) => name.as_bytes().starts_with(b"y/"),
            None => false,
        }
    }

    /// What stands at the names that begin so, in byte order.
    pub(crate) fn under(&self, alloc: Global, front: &str) -> Result<Vec<&Item>, NoMemory>
        ensures found { IfOk result (λ found. map (λ i. i.now) found.items ≡ map (λ e. e.1) (filter (λ e. starts_with nat_eq e.0 front.now) (tree.entries self.now))) }
        ensures right { AreRight self.now }
    {
        items_under(alloc, &self.items, front)
    }

    /// The names that begin so, in byte order, lent (this project's own). One search and what is listed.
    pub fn names(&self, alloc: Global, front: &str) -> Result<Vec<&str>, NoMemory>
        ensures { (held files : Map (List ℕ)) → IfOk result (λ names. map (λ n. n.now) names.items ≡ filter (λ q. starts_with nat_eq q front.now) (tree.keys (machine_over held files self.now))) }
    {
        names_under(alloc, &self.items, front)
    }

    /// What stands at the first name that isn't below this one. No memory.
    pub(crate) fn first_from(&self, from: &String) -> Option<(&String, &Item)>
        ensures none { IfNone result ((q : List ℕ) (i : item_value.Item) → tree.get self.now q ≡ Some i → is_le (name_cmp (string_bytes from.now) q) ≡ false) }
        ensures first { IfSome result (λ e. IsFirstOf self.now (string_bytes from.now) (string_bytes e.0.now) e.1.now) }
        ensures right { AreRight self.now }
    {
        let items = &self.items;
        let (name, item) = items
            .range((Bound::Included(from), Bound::Unbounded))
            .next()?;
        Some((name, item.as_ref()))
    }

    /// Sets what stands at a name.
    pub(crate) fn put(&mut self, alloc: Global, name: &Name, item: Item) -> Result<(), NoMemory>
        requires { MayStand name.now item }
        ensures ok { OnOk result (self.new ≡ tree.insert self.old name.now item) }
        ensures err { OnErr result (self.new ≡ self.old) }
    {
        match String::from_str(alloc, name.as_str()) {
            Ok(key) => self.put_at(alloc, key, item),
            Err(_) => {
                drop(item);
                Err(NoMemory)
            }
        }
    }

    fn put_at(&mut self, alloc: Global, key: String, item: Item) -> Result<(), NoMemory>
        requires { MayStand (string_bytes key) item }
        ensures ok { OnOk result (self.new ≡ tree.insert self.old (string_bytes key) item) }
        ensures err { OnErr result (self.new ≡ self.old) }
    {
        let former = self.exchange(alloc, key, item)?;
        drop(former);
        Ok(())
    }

    /// Sets what stands at a name, and hands out what stood there.
    pub(crate) fn exchange(
        &mut self,
        alloc: Global,
        key: String,
        item: Item,
    ) -> Result<Option<Box<Item>>, NoMemory>
        requires { MayStand (string_bytes key) item }
        ensures value { IfOk result (λ was. option_map unboxed was ≡ tree.get self.old (string_bytes key)) }
        ensures right { IfOk result (λ _. AreRight self.old) }
        ensures ok { OnOk result (self.new ≡ tree.insert self.old (string_bytes key) item) }
        ensures err { OnErr result (self.new ≡ self.old) }
    {
        let item = boxed(alloc, item)?;
        let was = self.items.insert(key, item)?;
        Ok(was)
    }

    // Sets what stands at a name where something stands. No memory.
    fn replace(&mut self, key: String, item: Box<Item>)
        requires set { is_some (tree.get self.old (string_bytes key)) ≡ true }
        requires may { MayStand (string_bytes key) (unboxed item) }
        ensures { self.new ≡ tree.insert self.old (string_bytes key) (unboxed item) }
    {
        match self.items.insert(key, item) {
            Ok(was) => drop(was),
            Err(_) => unreachable!(),
        }
    }

    /// Puts back what stood at a name that was set. No memory.
    pub(crate) fn put_back(&mut self, key: String, was: Option<Box<Item>>)
        requires set { is_some (tree.get self.old (string_bytes key)) ≡ true }
        requires may { (i : item_value.Item) → option_map unboxed was ≡ Some i → MayStand (string_bytes key) i }
        ensures { self.new ≡ set_to self.old (string_bytes key) (option_map unboxed was) }
    {
        match was {
            Some(item) => self.replace(key, item),
            None => {
                let set = self.take(key.as_str());
                drop(set);
            }
        }
    }

    /// Takes away what stands at a name, and hands it out. No memory.
    pub(crate) fn take(&mut self, name: &str) -> Option<Box<Item>>
        ensures value { option_map unboxed result ≡ tree.get self.old name.now }
        ensures gone { self.new ≡ tree.remove self.old name.now }
    {
        self.items.remove(name)
    }

    /// What stands at a name of the volume (this project's own). No memory.
    pub fn get(&self, name: &str) -> Option<&Item>
        ensures value { option_copied result ≡ tree.get self.now name.now }
        ensures right { AreRight self.now }
    {
        lent(self.items.get(name))
    }
}
