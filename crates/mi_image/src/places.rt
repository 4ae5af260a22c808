//! Lists of the places that an image holds, in byte order of the volume's names: files, folders, shortcuts and keys.
//! Each costs one search in the ordered names and what is listed; the keys one search more.

ghost use Rattle.std.specs.Prelude.{◌≡◌, ◌++◌, ◌∷◌, ◌||◌, if◌then◌else◌, true, [], List, ℕ, IfOk, nat_eq, map, filter};
ghost use Rattle.std.specs.List.{starts_with, filter_map};
ghost use Rattle.std.specs.Option.{option_copied, option_to_list};
ghost use Rattle.std.specs.FinMap.{entries};
ghost use Rattle.mi_text.specs.Fold.{folded};
ghost use Rattle.mi_text.specs.Maps.{Map, same_name};
ghost use Rattle.mi_text.specs.Path.{is_folder_path};
ghost use Rattle.mi_image.specs.Items.{machine_over, AreRight};
ghost use Rattle.mi_image.specs.Lists.{files_under, folders_under, shortcuts_under, keys_under};

use crate::image::Image;
use crate::item::Item;
use crate::names::key_front;
use crate::pick::{EachFile, EachFolder, EachKey, EachShortcut, Pick, pick_all};
use mi_base::{NoMemory, PathText, Text, fold};
use std::alloc::Global;

// The item, where there is one.
fn found_there(alloc: Global, item: Option<&Item>) -> Result<Vec<&Item>, NoMemory>
    ensures { IfOk result (λ found. map (λ i. i.now) found.items ≡ option_to_list (option_copied item.entry)) }
{
    let mut found = Vec::new(alloc);
    match item {
        Some(item) => {
            found.push(item)?;
            Ok(found)
        }
        None => Ok(found),
    }
}

impl Image {
    // What is picked of what stands at the names of a kind in a folder and below it; below the path of a file
    // there is none.
    fn places_below<P: Pick<PathText>>(
        &self,
        alloc: Global,
        kind: &str,
        folder: &PathText,
        pick: &P,
    ) -> Result<Vec<PathText>, NoMemory>
        ensures picked { IfOk result (λ paths. paths.items ≡ (if is_folder_path folder.now then filter_map (P.picks pick.now) (map (λ e. e.1) (filter (λ e. starts_with nat_eq e.0 (kind.now ++ folded folder.now)) (entries self.now))) else [])) }
        ensures right { IfOk result (λ _. is_folder_path folder.now ≡ true → AreRight self.now) }
    {
        if !folder.is_folder() {
            return Ok(Vec::new(alloc));
        }
        let mut front = Text::copy_of(alloc, kind)?;
        front.push_str(fold(alloc, folder.as_str())?.as_str())?;
        let items = self.under(alloc, front.as_str())?;
        pick_all(alloc, items.as_slice(), pick)
    }

    /// The paths of the files in a folder and in the folders below it, as they are shown (File table). Below the
    /// path of a file there is none.
    pub fn files_below(&self, alloc: Global, folder: &PathText) -> Result<Vec<PathText>, NoMemory>
        ensures { (held files : Map (List ℕ)) → IfOk result (λ paths. paths.items ≡ files_under (machine_over held files self.now) folder.now) }
    {
        self.places_below(alloc, "f/", folder, &EachFile)
    }

    /// The paths of the recorded folders below a folder, and of the folder itself, as they are shown (CreateFolder
    /// table). Below the path of a file there is none.
    pub fn folders_below(&self, alloc: Global, folder: &PathText) -> Result<Vec<PathText>, NoMemory>
        ensures { (held files : Map (List ℕ)) → IfOk result (λ paths. paths.items ≡ folders_under (machine_over held files self.now) folder.now) }
    {
        self.places_below(alloc, "d/", folder, &EachFolder)
    }

    /// The paths of the shortcuts in a folder and in the folders below it, as they are shown (Shortcut table). Below
    /// the path of a file there is none.
    pub fn shortcuts_below(
        &self,
        alloc: Global,
        folder: &PathText,
    ) -> Result<Vec<PathText>, NoMemory>
        ensures { (held files : Map (List ℕ)) → IfOk result (λ paths. paths.items ≡ shortcuts_under (machine_over held files self.now) folder.now) }
    {
        self.places_below(alloc, "s/", folder, &EachShortcut)
    }

    // What stands at a name, and at the names that begin with it and a backslash.
    fn at_and_below(&self, alloc: Global, name: &str) -> Result<Vec<&Item>, NoMemory>
        ensures found { IfOk result (λ found. map (λ i. i.now) found.items ≡ map (λ e. e.1) (filter (λ e. same_name name.now e.0 || starts_with nat_eq e.0 (name.now ++ 92 ∷ [])) (entries self.now))) }
        ensures right { IfOk result (λ _. AreRight self.now) }
    {
        let mut front = String::from_str(alloc, name)?;
        front.push_str("\\")?;
        let mut found = found_there(alloc, self.get(name))?;
        let below = self.under(alloc, front.as_str())?;
        found.extend_from_slice(below.as_slice())?;
        Ok(found)
    }

    /// The registry keys below a key of a root, and the key itself, as they are shown (Registry table).
    pub fn keys_below(&self, alloc: Global, root: u8, key: &str) -> Result<Vec<Text>, NoMemory>
        ensures { (held files : Map (List ℕ)) → IfOk result (λ keys. keys.items ≡ keys_under (machine_over held files self.now) root key.now) }
    {
        // No key has a greater root than 3.
        let key = fold(alloc, key)?;
        let name = key_front(alloc, root.min(9), key.as_str())?;
        let items = self.at_and_below(alloc, name.as_str())?;
        pick_all(alloc, items.as_slice(), &EachKey)
    }
}
