//! What an image holds, looked up by paths, keys, names and codes. No look-up takes memory; each costs one search
//! in the ordered names.

ghost use Rattle.std.specs.Prelude.{◌≡◌, List, ℕ, Bool, is_some};
ghost use Rattle.std.specs.Option.{option_copied, option_map};
ghost use Rattle.std.specs.FinMap.{get};
ghost use Rattle.mi_text.specs.Maps.{Map};
ghost use Rattle.mi_base.specs.Names.{file_name};
ghost use Rattle.mi_base.specs.Spelling.{head_of};
ghost use Rattle.mi_base.specs.Machine.{file_at, folder_at, value_at, key_at, shortcut_at, variable_at, client_at, product_at};
ghost use Rattle.mi_image.specs.Items.{content_bytes, machine_over, AreThere};
ghost use Rattle.mi_image.specs.Lookups.{IsComposed, head_in, whole_of};

use crate::buffer::NameBuffer;
use crate::image::Image;
use crate::item::{Content, Item};
use crate::kinds::{as_client, as_product, as_shortcut, as_value, as_variable, is_folder, is_key};
use crate::names::{
    client_name, file_name, folder_name, key_name, product_name, shortcut_name, value_name,
    variable_name,
};
use mi_base::{Client, Entry, FileHead, Guid, PathText, Product, RegValue, Shortcut};

impl Image {
    // The entry that stands whole at a composed name.
    pub(crate) fn whole_at(&self, name: Option<NameBuffer>) -> Option<&Entry>
        ensures { (q : List ℕ) → IsComposed q name → option_copied result ≡ whole_of (get self.now q) }
    {
        match self.at(name)? {
            Item::Whole(entry) => Some(entry),
            Item::Head(_, _) => None,
        }
    }

    /// What is known of a file beside its bytes (File table).
    pub fn file(&self, path: &PathText) -> Option<&FileHead>
        ensures value { (held files : Map (List ℕ)) → AreThere held files self.now → option_copied result ≡ option_map head_of (file_at (machine_over held files self.now) path.now) }
        ensures head { option_copied result ≡ head_in (get self.now (file_name path.now)) }
    {
        match self.at(file_name(path))? {
            Item::Head(head, _) => Some(head),
            Item::Whole(_) => None,
        }
    }

    /// Where the bytes of a file are (this project's own).
    pub fn content(&self, path: &PathText) -> Option<&Content>
        ensures { (held files : Map (List ℕ)) → option_map (content_bytes held files (file_name path.now)) (option_copied result) ≡ option_map (λ f. f.bytes) (file_at (machine_over held files self.now) path.now) }
    {
        match self.at(file_name(path))? {
            Item::Head(_, content) => Some(content),
            Item::Whole(_) => None,
        }
    }

    /// Whether a folder is there (Directory table).
    pub fn folder(&self, path: &PathText) -> bool
        ensures { (held files : Map (List ℕ)) → result ≡ is_some (folder_at (machine_over held files self.now) path.now) }
    {
        match self.whole_at(folder_name(path)) {
            Some(entry) => is_folder(entry),
            None => false,
        }
    }

    /// What a registry value holds (Registry table). Roots are 0 HKCR, 1 HKCU, 2 HKLM, 3 HKU.
    pub fn value(&self, root: u8, key: &str, name: &str) -> Option<&RegValue>
        ensures { (held files : Map (List ℕ)) → option_copied result ≡ option_map (λ v. v.1) (value_at (machine_over held files self.now) root key.now name.now) }
    {
        as_value(self.whole_at(value_name(root, key, name))?)
    }

    /// Whether a registry key is there (Registry table).
    pub fn key(&self, root: u8, key: &str) -> bool
        ensures { (held files : Map (List ℕ)) → result ≡ is_some (key_at (machine_over held files self.now) root key.now) }
    {
        match self.whole_at(key_name(root, key)) {
            Some(entry) => is_key(entry),
            None => false,
        }
    }

    /// The shortcut of a path (Shortcut table).
    pub fn shortcut(&self, path: &PathText) -> Option<&Shortcut>
        ensures { (held files : Map (List ℕ)) → option_copied result ≡ shortcut_at (machine_over held files self.now) path.now }
    {
        as_shortcut(self.whole_at(shortcut_name(path))?)
    }

    /// The value of an environment variable, the system's or the user's (Environment table).
    pub fn variable(&self, system: bool, name: &str) -> Option<&str>
        ensures { (held files : Map (List ℕ)) → option_copied result ≡ option_map (λ v. v.value) (variable_at (machine_over held files self.now) system name.now) }
    {
        let variable = as_variable(self.whole_at(variable_name(system, name))?)?;
        Some(variable.value.as_str())
    }

    /// That a product uses a component; the product of all zeros is the system (Component table).
    pub fn client(&self, component: Guid, product: Guid) -> Option<&Client>
        ensures { (held files : Map (List ℕ)) → option_copied result ≡ client_at (machine_over held files self.now) component.number product.number }
    {
        as_client(self.whole_at(client_name(component, product))?)
    }

    /// An installed product (this project's own).
    pub fn product(&self, code: Guid) -> Option<&Product>
        ensures { (held files : Map (List ℕ)) → option_copied result ≡ product_at (machine_over held files self.now) code.number }
    {
        as_product(self.whole_at(product_name(code))?)
    }
}
