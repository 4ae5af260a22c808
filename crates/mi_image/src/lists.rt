//! Lists of what an image holds, in byte order of the volume's names. Each costs one search in the ordered names
//! and what is listed; the values below a key cost two searches for each length of a key that is held.

ghost use Rattle.std.specs.Prelude.{◌≡◌, ◌<◌, ◌≤◌, ◌-◌, List, ℕ, IfSome, IfOk, filter, length, map};
ghost use Rattle.mi_text.specs.Maps.{Map};
ghost use Rattle.std.specs.FinMap.{entries};
ghost use Rattle.mi_image.specs.Fronts.{value_front, begins_within, NoneBegins};
ghost use Rattle.mi_image.specs.Items.{machine_over, AreRight};
ghost use Rattle.mi_image.specs.Lists.{products_of, clients_of, clients_with, values_under};

use crate::image::Image;
use crate::item::Item;
use crate::names::value_front;
use crate::pick::{ClientsOf, EachClient, EachProduct, ValuesIn, key_length, pick_all};
use mi_base::{Client, Guid, NoMemory, Product, Text, ValueKey, fold};
use std::alloc::Global;

/// The length of the longest registry key, in bytes.
const KEY_LIMIT: usize = 500;

impl Image {
    /// The installed products, by code (this project's own).
    pub fn products(&self, alloc: Global) -> Result<Vec<Product>, NoMemory>
        ensures { (held files : Map (List ℕ)) → IfOk result (λ products. products.items ≡ products_of (machine_over held files self.now)) }
    {
        let items = self.under(alloc, "p/")?;
        pick_all(alloc, items.as_slice(), &EachProduct)
    }

    /// The clients of all components, by component, then product (Component table).
    pub fn clients(&self, alloc: Global) -> Result<Vec<Client>, NoMemory>
        ensures { (held files : Map (List ℕ)) → IfOk result (λ clients. clients.items ≡ clients_of (machine_over held files self.now)) }
    {
        let items = self.under(alloc, "c/")?;
        pick_all(alloc, items.as_slice(), &EachClient)
    }

    /// The clients of one component, by product (Component table).
    pub fn clients_of(&self, alloc: Global, component: Guid) -> Result<Vec<Client>, NoMemory>
        ensures { (held files : Map (List ℕ)) → IfOk result (λ clients. clients.items ≡ clients_with (machine_over held files self.now) component.number) }
    {
        let mut front = Text::copy_of(alloc, "c/")?;
        front.push_str(component.print(alloc)?.as_str())?;
        let items = self.under(alloc, front.as_str())?;
        pick_all(alloc, items.as_slice(), &ClientsOf(component))
    }

    // The least length of a key, from `size` on, of the values of this root that are held, or none; at the lengths
    // between no name of such a value begins with `front`.
    fn next_length(
        &self,
        alloc: Global,
        root: u8,
        size: usize,
        front: &str,
    ) -> Result<Option<usize>, NoMemory>
        requires root { root < 10 }
        requires size { size < 10000 }
        ensures next { IfOk result (λ next. IfSome next (λ n. (size ≤ n) × (n ≤ 500))) }
        ensures none { (k : ℕ) → size ≤ k → k < 10000 → IfOk result (λ next. IfSome next (λ n. k < n) → NoneBegins self.now (value_front root k front.now)) }
    {
        let from = value_front(alloc, root, size, front)?;
        match self.first_from(&from) {
            Some((_, item)) => Ok(key_length(item, root)),
            None => Ok(None),
        }
    }

    // What stands at the names of the values of a key, and of the keys that are longer and begin with `front`. A
    // value's name begins with the length of its key, so each length that is held is a search of its own.
    fn under_key(
        &self,
        alloc: Global,
        root: u8,
        key: &str,
        front: &str,
    ) -> Result<Vec<&Item>, NoMemory>
        requires { root < 10 }
        ensures found { IfOk result (λ found. map (λ i. i.now) found.items ≡ map (λ e. e.1) (filter (λ e. begins_within root key.now front.now (500 - length key.now) e.0) (entries self.now))) }
        ensures right { IfOk result (λ found. AreRight self.now) }
    {
        let name = value_front(alloc, root, key.len(), key)?;
        let mut found = self.under(alloc, name.as_str())?;
        if key.len() >= KEY_LIMIT {
            return Ok(found);
        }
        let mut last = key.len();
        while let Some(size) = self.next_length(alloc, root, last + 1, front)? {
            let name = value_front(alloc, root, size, front)?;
            let items = self.under(alloc, name.as_str())?;
            found.extend_from_slice(items.as_slice())?;
            last = size;
        }
        Ok(found)
    }

    /// Where the values of a registry key and of the keys below it stand (Registry table).
    pub fn values_below(
        &self,
        alloc: Global,
        root: u8,
        key: &str,
    ) -> Result<Vec<ValueKey>, NoMemory>
        ensures { (held files : Map (List ℕ)) → IfOk result (λ values. values.items ≡ values_under (machine_over held files self.now) root key.now) }
    {
        let key = fold(alloc, key)?;
        let mut front = Text::copy_of(alloc, key.as_str())?;
        front.push_str("\\")?;
        let values = ValuesIn {
            root,
            key: key.as_str(),
            front: front.as_str(),
        };
        // No value has a greater root than 3.
        let items = self.under_key(alloc, root.min(9), values.key, values.front)?;
        pick_all(alloc, items.as_slice(), &values)
    }
}
