//! The properties that the former machine gives a run.

ghost use Rattle.std.specs.Prelude.{◌≡◌, ◌++◌, ◌∷◌, [], List, ℕ, IfOk, IfSome, OnOk, Some, codes, map, option_map, if◌then◌else◌};
ghost use Rattle.std.specs.List.{cons_option, filter_map};
ghost use Rattle.mi_text.specs.Maps.{Map};
ghost use Rattle.mi_base.specs.System.{default_system};
ghost use Rattle.mi_dirs.specs.Views.{IsFolder};
ghost use Rattle.mi_image.specs.Items.{machine_over, AreRight};
ghost use Rattle.mi_schema.specs.RowsOf.{rows_in};
ghost use Rattle.mi_model.specs.Settings.{settings, system_properties, is_recorded};
ghost use Rattle.mi_world.specs.Ground.{ground};
ghost use Rattle.mi_world.specs.Systems.{lent_pair, system_of, system_at, listed_in, both_now, folder_named, pair_folder};

use crate::rows::product_code;
use crate::variables::stands_right;
use mi_base::{Entry, NoMemory, PathError, PathText, Text};
use mi_image::Image;
use mi_schema::Package;
use std::alloc::Global;

/// The properties of a machine that holds none of the system (Property Reference; their values are this project's own).
const DEFAULT_SYSTEM: [(&str, &str); 18] = [
    ("VersionNT", "603"),
    ("VersionNT64", "603"),
    ("Privileged", "1"),
    ("AdminUser", "1"),
    ("UserLanguageID", "1033"),
    ("SystemLanguageID", "1033"),
    ("WindowsFolder", "C:\\Windows\\"),
    ("SystemFolder", "C:\\Windows\\System32\\"),
    ("ProgramFilesFolder", "C:\\Program Files\\"),
    ("ProgramFiles64Folder", "C:\\Program Files\\"),
    ("CommonFilesFolder", "C:\\Program Files\\Common Files\\"),
    ("CommonAppDataFolder", "C:\\ProgramData\\"),
    ("AppDataFolder", "C:\\Users\\User\\AppData\\Roaming\\"),
    ("LocalAppDataFolder", "C:\\Users\\User\\AppData\\Local\\"),
    ("DesktopFolder", "C:\\Users\\User\\Desktop\\"),
    ("StartMenuFolder", "C:\\ProgramData\\Start Menu\\"),
    (
        "ProgramMenuFolder",
        "C:\\ProgramData\\Start Menu\\Programs\\",
    ),
    ("TempFolder", "C:\\Temp\\"),
];

fn copy_pair(alloc: Global, name: &str, value: &str) -> Result<(Text, Text), NoMemory>
    ensures { IfOk result (λ p. p ≡ (name.now, value.now)) }
{
    let name = Text::copy_of(alloc, name)?;
    let value = Text::copy_of(alloc, value)?;
    Ok((name, value))
}

fn copy_pairs(alloc: Global, pairs: &[(&str, &str)]) -> Result<Vec<(Text, Text)>, NoMemory>
    ensures { IfOk result (λ v. v.items ≡ map lent_pair pairs.now) }
{
    let mut copies = Vec::new(alloc);
    for (name, value) in pairs {
        copies.push(copy_pair(alloc, name, value)?)?;
    }
    Ok(copies)
}

fn default_pairs(alloc: Global) -> Result<Vec<(Text, Text)>, NoMemory>
    ensures { IfOk result (λ v. v.items ≡ default_system) }
{
    let pairs = copy_pairs(alloc, &DEFAULT_SYSTEM)?;
    Ok(pairs)
}

fn as_system(entry: &Entry) -> Option<(&Text, &Text)>
    ensures { option_map both_now result ≡ system_of (Some entry.now) }
{
    match entry {
        Entry::System(property, value) => Some((property, value)),
        _ => None,
    }
}

fn system_at<'a>(image: &'a Image, name: &str) -> Option<(&'a Text, &'a Text)>
    ensures { option_map both_now result ≡ system_at image.now name.now }
{
    as_system(image.get(name)?.whole()?)
}

// The property of the system that stands at a name.
fn pair_at(alloc: Global, image: &Image, name: &str) -> Result<Option<(Text, Text)>, NoMemory>
    ensures { IfOk result (λ o. o ≡ system_at image.now name.now) }
{
    match system_at(image, name) {
        Some((property, value)) => {
            let pair = copy_pair(alloc, property.as_str(), value.as_str())?;
            Ok(Some(pair))
        }
        None => Ok(None),
    }
}

fn pairs_at(alloc: Global, image: &Image, names: &[&str]) -> Result<Vec<(Text, Text)>, NoMemory>
    ensures { IfOk result (λ v. v.items ≡ filter_map (system_at image.now) (map (λ n. n.now) names.now)) }
{
    let mut pairs = Vec::new(alloc);
    for name in names {
        match pair_at(alloc, image, name)? {
            Some(pair) => {
                pairs.push(pair)?;
            }
            None => {}
        }
    }
    Ok(pairs)
}

// The properties that stand at these names; where there are no names, the default ones.
fn listed_pairs(alloc: Global, image: &Image, names: &[&str]) -> Result<Vec<(Text, Text)>, NoMemory>
    ensures { IfOk result (λ v. v.items ≡ listed_in image.now names.now) }
{
    if names.is_empty() {
        let pairs = default_pairs(alloc)?;
        return Ok(pairs);
    }
    let pairs = pairs_at(alloc, image, names)?;
    Ok(pairs)
}

// The properties of the system; where none at all is held, the default ones.
fn system_pairs(alloc: Global, image: &Image) -> Result<Vec<(Text, Text)>, NoMemory>
    ensures { (held files : Map (List ℕ)) → IfOk result (λ v. v.items ≡ system_properties (machine_over held files image.now)) }
{
    stands_right(image);
    let names = image.names(alloc, "y/")?;
    let pairs = listed_pairs(alloc, image, &names)?;
    Ok(pairs)
}

// ---- the folders that they name

/// The folder that a text names, if it names one.
pub(crate) fn folder_named(alloc: Global, text: &str) -> Result<Option<PathText>, NoMemory>
    ensures value { IfOk result (λ f. f ≡ folder_named text.now) }
    ensures folder { IfOk result (λ f. IfSome f IsFolder) }
{
    match PathText::folder(alloc, text) {
        Ok(folder) => Ok(Some(folder)),
        Err(PathError::NoMemory) => Err(NoMemory),
        Err(PathError::Fault(_)) => Ok(None),
    }
}

fn push_folder(alloc: Global, folders: &mut Vec<PathText>, text: &str) -> Result<(), NoMemory>
    ensures { OnOk result (folders.new.items ≡ folders.old.items ++ cons_option (folder_named text.now) []) }
{
    match folder_named(alloc, text)? {
        Some(folder) => {
            folders.push(folder)?;
            Ok(())
        }
        None => Ok(()),
    }
}

// The folders that the values of these properties name.
fn folders_in(alloc: Global, pairs: &[(Text, Text)]) -> Result<Vec<PathText>, NoMemory>
    ensures { IfOk result (λ v. v.items ≡ filter_map pair_folder pairs.now) }
{
    let mut folders = Vec::new(alloc);
    for pair in pairs {
        push_folder(alloc, &mut folders, pair.1.as_str())?;
    }
    Ok(folders)
}

/// The folders that properties of the system name, in byte order of the properties; where none of them is held, those of the
/// default ones (Property Reference).
pub(crate) fn system_folders(alloc: Global, image: &Image) -> Result<Vec<PathText>, NoMemory>
    ensures { (held files : Map (List ℕ)) → IfOk result (λ v. v.items ≡ filter_map pair_folder (system_properties (machine_over held files image.now))) }
{
    let pairs = system_pairs(alloc, image)?;
    let folders = folders_in(alloc, &pairs)?;
    Ok(folders)
}

// ---- the properties of a run

fn push_pair(
    alloc: Global,
    pairs: &mut Vec<(Text, Text)>,
    name: &str,
    value: &str,
) -> Result<(), NoMemory>
    ensures { OnOk result (pairs.new.items ≡ pairs.old.items ++ (name.now, value.now) ∷ []) }
{
    pairs.push(copy_pair(alloc, name, value)?)?;
    Ok(())
}

// `Installed`, where the product is recorded.
fn push_installed(
    alloc: Global,
    loaded: &Package,
    image: &Image,
    pairs: &mut Vec<(Text, Text)>,
) -> Result<(), NoMemory>
    ensures { (held files : Map (List ℕ)) → OnOk result (pairs.new.items ≡ pairs.old.items ++ (if is_recorded (rows_in loaded.now) (machine_over held files image.now) then (codes "Installed", codes "1") ∷ [] else [])) }
{
    match image.product(product_code(loaded)) {
        Some(_) => {
            push_pair(alloc, pairs, "Installed", "1")?;
            Ok(())
        }
        None => Ok(()),
    }
}

/// The system's properties of a run: those of the machine, `Installed` where the product is recorded, and `UILevel` 2 (Property
/// Reference; Installed and UILevel Properties).
pub(crate) fn settings(
    alloc: Global,
    loaded: &Package,
    image: &Image,
) -> Result<Vec<(Text, Text)>, NoMemory>
    ensures { (held files : Map (List ℕ)) → IfOk result (λ v. v.items ≡ settings (ground (rows_in loaded.now) (machine_over held files image.now))) }
{
    let mut pairs = system_pairs(alloc, image)?;
    push_installed(alloc, loaded, image, &mut pairs)?;
    push_pair(alloc, &mut pairs, "UILevel", "2")?;
    Ok(pairs)
}
