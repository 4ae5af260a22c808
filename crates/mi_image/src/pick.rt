//! What is picked of the items of an image.

ghost use Rattle.std.specs.Prelude.{◌≡◌, ◌||◌, nat_eq, IfOk, map};
ghost use Rattle.std.specs.List.{filter_map, starts_with};
ghost use Rattle.std.specs.Str.{bytes_eq};
ghost use Rattle.mi_image.specs.Picks.{product_in, client_in, client_with, file_in, folder_in, key_in, key_length, shortcut_in, value_in};

use crate::copies::{copy_client, copy_product, copy_value_key};
use crate::item::Item;
use crate::kinds::{as_client, as_folder, as_key, as_product, as_shortcut};
use mi_base::{Client, Entry, Guid, NoMemory, PathText, Product, Text, ValueKey};
use std::alloc::Global;

/// What is picked of one item.
pub trait Pick<T: Drop> {
    ghost use Rattle.std.specs.Prelude.{Option};
    ghost use Rattle.mi_image.specs.declared.item.Item.{Item as ItemValue};

    /// What is picked of an item.
    ghost picks: { Self → ItemValue → Option T };

    /// A copy of what is picked.
    fn pick(&self, alloc: Global, item: &Item) -> Result<Option<T>, NoMemory>
        ensures { IfOk result (λ found. found ≡ picks self.now item.now) };
}

/// What is picked of each item, in order.
pub fn pick_all<T: Drop, P: Pick<T>>(
    alloc: Global,
    items: &[&Item],
    pick: &P,
) -> Result<Vec<T>, NoMemory>
    ensures { IfOk result (λ picked. picked.items ≡ filter_map (P.picks pick.now) (map (λ i. i.now) items.now)) }
{
    let mut picked = Vec::new(alloc);
    for item in items {
        if let Some(found) = pick.pick(alloc, item)? {
            picked.push(found)?;
        }
    }
    Ok(picked)
}

/// Each product.
#[derive(Drop)]
pub struct EachProduct;

impl Pick<Product> for EachProduct {
    ghost picks = { λ _ i. product_in i };

    fn pick(&self, alloc: Global, item: &Item) -> Result<Option<Product>, NoMemory> {
        match item.whole().and_then(as_product) {
            Some(product) => Ok(Some(copy_product(alloc, product)?)),
            None => Ok(None),
        }
    }
}

/// Each client.
#[derive(Drop)]
pub struct EachClient;

impl Pick<Client> for EachClient {
    ghost picks = { λ _ i. client_in i };

    fn pick(&self, alloc: Global, item: &Item) -> Result<Option<Client>, NoMemory> {
        match item.whole().and_then(as_client) {
            Some(client) => Ok(Some(copy_client(alloc, client)?)),
            None => Ok(None),
        }
    }
}

/// Each client of one component.
#[derive(Drop)]
pub struct ClientsOf(pub Guid);

impl Pick<Client> for ClientsOf {
    ghost picks = { λ c i. client_with c.0.number i };

    fn pick(&self, alloc: Global, item: &Item) -> Result<Option<Client>, NoMemory> {
        match item.whole().and_then(as_client) {
            Some(client) if client.component.number == self.0.number => {
                Ok(Some(copy_client(alloc, client)?))
            }
            _ => Ok(None),
        }
    }
}

/// The shown path of each file.
#[derive(Drop)]
pub struct EachFile;

impl Pick<PathText> for EachFile {
    ghost picks = { λ _ i. file_in i };

    fn pick(&self, alloc: Global, item: &Item) -> Result<Option<PathText>, NoMemory> {
        match item {
            Item::Head(head, _) => Ok(Some(head.shown.copy(alloc)?)),
            Item::Whole(_) => Ok(None),
        }
    }
}

/// The shown path of each folder.
#[derive(Drop)]
pub struct EachFolder;

impl Pick<PathText> for EachFolder {
    ghost picks = { λ _ i. folder_in i };

    fn pick(&self, alloc: Global, item: &Item) -> Result<Option<PathText>, NoMemory> {
        match item.whole().and_then(as_folder) {
            Some(shown) => Ok(Some(shown.copy(alloc)?)),
            None => Ok(None),
        }
    }
}

/// The shown path of each shortcut.
#[derive(Drop)]
pub struct EachShortcut;

impl Pick<PathText> for EachShortcut {
    ghost picks = { λ _ i. shortcut_in i };

    fn pick(&self, alloc: Global, item: &Item) -> Result<Option<PathText>, NoMemory> {
        match item.whole().and_then(as_shortcut) {
            Some(shortcut) => Ok(Some(shortcut.shown.copy(alloc)?)),
            None => Ok(None),
        }
    }
}

/// Each key, as it is shown.
#[derive(Drop)]
pub struct EachKey;

impl Pick<Text> for EachKey {
    ghost picks = { λ _ i. key_in i };

    fn pick(&self, alloc: Global, item: &Item) -> Result<Option<Text>, NoMemory> {
        match item.whole().and_then(as_key) {
            Some(shown) => Ok(Some(Text::copy_of(alloc, shown.as_str())?)),
            None => Ok(None),
        }
    }
}

/// Where each value stands whose key is this one or begins so.
#[derive(Drop)]
pub struct ValuesIn<'a> {
    pub root: u8,
    /// The key, which is folded.
    pub key: &'a str,
    /// How the keys below it begin.
    pub front: &'a str,
}

impl Pick<ValueKey> for ValuesIn<'_> {
    ghost picks = { λ v i. value_in v.root v.key.now v.front.now i };

    fn pick(&self, alloc: Global, item: &Item) -> Result<Option<ValueKey>, NoMemory> {
        match item {
            Item::Whole(Entry::Value(key, _))
                if key.root == self.root && is_in(key.key.as_str(), self.key, self.front) => {
                Ok(Some(copy_value_key(alloc, key)?))
            }
            _ => Ok(None),
        }
    }
}

/// The length of the key of a value of this root.
pub fn key_length(item: &Item, root: u8) -> Option<usize>
    ensures { result ≡ key_length root item.now }
{
    match item {
        Item::Whole(Entry::Value(key, _)) if key.root == root => Some(key.key.len()),
        _ => None,
    }
}

fn is_in(own: &str, key: &str, front: &str) -> bool
    ensures { result ≡ (bytes_eq own.now key.now || starts_with nat_eq own.now front.now) }
{
    own == key || own.as_bytes().starts_with(front.as_bytes())
}
