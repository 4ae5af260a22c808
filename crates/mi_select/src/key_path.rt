//! Key paths of components.

ghost use Rattle.std.specs.Prelude.{◌≡◌, [], codes, negsuc, pos, is_some, unwrap_or, option_copied, option_map, ℕ, List, None, IfOk, IfSome};
ghost use Rattle.std.specs.Result.{result_ok};
ghost use Rattle.mi_text.specs.FileNames.{long_name};
ghost use Rattle.mi_text.specs.Lookups.{Lookups};
ghost use Rattle.mi_text.specs.Maps.{Map};
ghost use Rattle.mi_text.specs.Path.{file_of};
ghost use Rattle.mi_base.specs.declared.answers.Fault.TheVariants.{BadPath as bad_path};
ghost use Rattle.mi_base.specs.Machine.{file_at, folder_at, value_at};
ghost use Rattle.mi_dirs.specs.Places.{target_of};
ghost use Rattle.mi_dirs.specs.Views.{IsFolder};
ghost use Rattle.mi_image.specs.Items.{machine_over};
ghost use Rattle.mi_schema.specs.Lawful.{IsLawful};
ghost use Rattle.mi_schema.specs.Laws.{IsWithin};
ghost use Rattle.mi_schema.specs.RowsOf.{rows_in};
ghost use Rattle.mi_model.specs.Asked.{component_folder, path_of_file};
ghost use Rattle.mi_model.specs.KeyPaths as model;
ghost use Rattle.mi_model.specs.KeyPaths.{key_path_text, is_there, value_row, file_row, of_file, of_rows, key_path_of};
ghost use Rattle.mi_model.specs.RegistryRows.{registry_place};
ghost use Rattle.mi_records.specs.Meaning.{numbered};
ghost use Rattle.mi_records.specs.Order.{as_numbered};
ghost use Rattle.mi_wishes.specs.Answers.{Refuses, Gives};
ghost use Rattle.mi_select.specs.KeyPaths.{meant, of_value, registry_row_of};

use mi_base::{Fault, NoMemory, PathError, PathText, Text, long_name};
use mi_components::file_row;
use mi_dirs::Dirs;
use mi_features::{SelectError, has_attribute};
use mi_format::BoundedEnv;
use mi_image::Image;
use mi_records::{PlanError, RegistryPlace, Row, registry_place};
use mi_schema::{
    ComponentRow, FileRow, Package, RegistryRow, keys_stand, tables_small, values_stand,
};
use std::alloc::Global;

/// That by which a component is known to be there (Component Table, KeyPath).
#[derive(Drop)]
pub enum KeyPath {
    /// A file.
    File(PathText),
    /// The component's folder; none where its directory is no row, which reads as the empty text.
    Folder(Option<PathText>),
    /// A value of the registry.
    Value(RegistryPlace),
}

// ---- what a key path tells

fn folder_text(alloc: Global, folder: &Option<PathText>) -> Result<Text, NoMemory>
    ensures { IfOk result (λ text. text ≡ unwrap_or folder.now []) }
{
    match folder {
        Some(folder) => Text::copy_of(alloc, folder.as_str()),
        None => Ok(Text::new(alloc)),
    }
}

fn value_text(alloc: Global, place: &RegistryPlace) -> Result<Text, NoMemory>
    ensures { IfOk result (λ text. text ≡ key_path_text (model.Value place.now)) }
{
    let root = place.root();
    let key = place.key();
    let name = place.name();
    let text = format!(in alloc; "0{root}:{key}\\{name}")?;
    let shown = Text::from_string(alloc, text)?;
    Ok(shown)
}

fn is_file_there(former: &Image, path: &PathText) -> bool
    ensures { (held files : Map (List ℕ)) → result ≡ is_some (file_at (machine_over held files former.now) path.now) }
{
    former.content(path).is_some()
}

fn is_folder_there(former: &Image, folder: &Option<PathText>) -> bool
    ensures { (held files : Map (List ℕ)) → result ≡ is_some (folder_at (machine_over held files former.now) (unwrap_or folder.now [])) }
{
    match folder {
        Some(folder) => former.folder(folder),
        // Nothing stands at the name of a folder without a path.
        None => former.get("d/").is_some(),
    }
}

fn is_value_there(former: &Image, place: &RegistryPlace) -> bool
    ensures { (held files : Map (List ℕ)) → result ≡ is_some (value_at (machine_over held files former.now) place.now.root place.now.key place.now.name) }
{
    former
        .value(place.root(), place.key(), place.name())
        .is_some()
}

impl KeyPath {
    /// The key path as it is recorded: the path of a file or a folder; of a value `0`, the digit of the root, `:`, the key,
    /// `\` and the name (Component Table, KeyPath; MsiGetComponentPath).
    #[tactic(auto, unfolding(mi_model::specs::KeyPaths::key_path_text))]
    pub fn text(&self, alloc: Global) -> Result<Text, NoMemory>
        ensures { IfOk result (λ text. text ≡ key_path_text (meant self.now)) }
    {
        match self {
            KeyPath::File(path) => Text::copy_of(alloc, path.as_str()),
            KeyPath::Folder(folder) => folder_text(alloc, folder),
            KeyPath::Value(place) => value_text(alloc, place),
        }
    }

    /// Whether the machine before the run holds what the key path names (Component Table, Attributes, 128). No memory, and one
    /// search.
    #[tactic(auto, unfolding(mi_model::specs::KeyPaths::is_there))]
    pub fn is_there(&self, former: &Image) -> bool
        ensures { (held files : Map (List ℕ)) → result ≡ is_there (machine_over held files former.now) (meant self.now) }
    {
        match self {
            KeyPath::File(path) => is_file_there(former, path),
            KeyPath::Folder(folder) => is_folder_there(former, folder),
            KeyPath::Value(place) => is_value_there(former, place),
        }
    }
}

// ---- the rows that are key paths

/// The row of Registry with this key, behind its number in the file.
fn registry_row_of<'a>(loaded: &'a Package, key: &Text) -> Option<Row<'a, RegistryRow>>
    requires { IsLawful loaded.now }
    ensures row { option_map as_numbered result ≡ registry_row_of (rows_in loaded.now) key.now }
    ensures root { IfSome result (λ r. IsWithin (negsuc 0) (pos 3) r.1.now.root) }
{
    keys_stand(loaded);
    tables_small(loaded);
    values_stand(loaded);
    match loaded.registry.get_full(key) {
        Some((place, _, row)) => Some((place as u32 + 1, row)),
        None => None,
    }
}

/// The row of Registry that KeyPath names, where attribute 4 is set.
fn value_row<'a>(loaded: &'a Package, row: &ComponentRow) -> Option<Row<'a, RegistryRow>>
    requires { IsLawful loaded.now }
    ensures row { option_map as_numbered result ≡ value_row (rows_in loaded.now) row.now }
    ensures root { IfSome result (λ r. IsWithin (negsuc 0) (pos 3) r.1.now.root) }
{
    if !has_attribute(4, row.attributes) {
        return None;
    }
    match &row.key_path {
        Some(key) => registry_row_of(loaded, key),
        None => None,
    }
}

// ---- paths of files

/// The folder of a component: the target of its directory.
fn component_folder<'a>(loaded: &Package, dirs: &'a Dirs, component: &Text) -> Option<&'a PathText>
    requires { IsLawful loaded.now }
    ensures folder { option_copied result ≡ component_folder (rows_in loaded.now) dirs.now component.now }
    ensures is_folder { IfSome result (λ path. IsFolder path.now) }
{
    keys_stand(loaded);
    match loaded.component.get(component) {
        Some(row) => dirs.target(row.directory.as_str()),
        None => None,
    }
}

/// The path of a file in a folder, and none where it is past the limits.
fn path_in(alloc: Global, folder: &PathText, file_name: &str) -> Result<Option<PathText>, NoMemory>
    requires { IsFolder folder.now }
    ensures { IfOk result (λ path. path ≡ result_ok (file_of folder.now (long_name file_name.now))) }
{
    match folder.file(alloc, long_name(file_name)) {
        Ok(path) => Ok(Some(path)),
        Err(PathError::NoMemory) => Err(NoMemory),
        Err(PathError::Fault(_)) => Ok(None),
    }
}

/// The path of the file of a row, and none where it is past the limits.
fn path_of_file(
    alloc: Global,
    loaded: &Package,
    dirs: &Dirs,
    row: &FileRow,
) -> Result<Option<PathText>, NoMemory>
    requires { IsLawful loaded.now }
    ensures { IfOk result (λ path. path ≡ path_of_file (rows_in loaded.now) dirs.now row.now) }
{
    match component_folder(loaded, dirs, &row.component) {
        Some(folder) => path_in(alloc, folder, row.file_name.as_str()),
        None => Ok(None),
    }
}

// ---- key paths

/// The refusal of a row of File whose path is past the limits.
fn bad_path(alloc: Global, row: u32) -> SelectError
    ensures { Refuses result (bad_path (codes "File") row) }
{
    match Text::copy_of(alloc, "File") {
        Ok(table) => SelectError::Fault(Fault::BadPath(table, row)),
        Err(_) => SelectError::NoMemory,
    }
}

/// The value that a row of Registry names, which stands at this number, or the row's refusal.
fn of_value<E: BoundedEnv>(
    alloc: Global,
    env: &E,
    number: u32,
    row: &RegistryRow,
) -> Result<KeyPath, SelectError>
    requires { IsWithin (negsuc 0) (pos 3) row.now.root }
    ensures { Gives result meant (of_value (registry_place (E.lookups env.now) (numbered number row.now))) }
{
    match registry_place(alloc, env, number, row) {
        Ok(place) => Ok(KeyPath::Value(place)),
        Err(PlanError::NoMemory) => Err(SelectError::NoMemory),
        Err(PlanError::Fault(fault)) => Err(SelectError::Fault(fault)),
    }
}

/// The file of a row, which stands at this number, or the row's refusal.
fn of_file(
    alloc: Global,
    loaded: &Package,
    dirs: &Dirs,
    number: u32,
    row: &FileRow,
) -> Result<KeyPath, SelectError>
    requires { IsLawful loaded.now }
    ensures { Gives result meant (of_file (path_of_file (rows_in loaded.now) dirs.now row.now) number) }
{
    match path_of_file(alloc, loaded, dirs, row) {
        Ok(Some(path)) => Ok(KeyPath::File(path)),
        Ok(None) => Err(bad_path(alloc, number)),
        Err(_) => Err(SelectError::NoMemory),
    }
}

/// The component's folder.
fn of_folder(alloc: Global, dirs: &Dirs, directory: &str) -> Result<KeyPath, NoMemory>
    ensures { IfOk result (λ path. meant path ≡ model.Folder (unwrap_or (target_of dirs.now directory.now) [])) }
{
    match dirs.target(directory) {
        Some(folder) => Ok(KeyPath::Folder(Some(folder.copy(alloc)?))),
        None => Ok(KeyPath::Folder(None)),
    }
}

/// The key path of a component that no value is: a file, or else the component's folder.
fn without_value(
    alloc: Global,
    loaded: &Package,
    dirs: &Dirs,
    row: &ComponentRow,
) -> Result<KeyPath, SelectError>
    requires { IsLawful loaded.now }
    ensures { (L : Lookups) → Gives result meant (of_rows (rows_in loaded.now) dirs.now L row.now None (file_row (rows_in loaded.now) row.now)) }
{
    match file_row(loaded, row) {
        Some((number, file)) => of_file(alloc, loaded, dirs, number, file),
        None => {
            let folder = of_folder(alloc, dirs, row.directory.as_str())?;
            Ok(folder)
        }
    }
}

/// The key path of a component, by the directories and look-ups as they stand: with attribute 4 the value of the row of
/// Registry that KeyPath names, else the file of the row of File, and the component's folder where there is no such row
/// (Component Table, KeyPath and Attributes). Refused with `BadPath` of a row of File whose path is past the limits, and with
/// the first of `TooDeep` and `BadKey` of a row of Registry, its Key before its Name. The package is lawful.
pub(crate) fn key_path_of<E: BoundedEnv>(
    alloc: Global,
    env: &E,
    loaded: &Package,
    dirs: &Dirs,
    row: &ComponentRow,
) -> Result<KeyPath, SelectError>
    requires { IsLawful loaded.now }
    ensures { Gives result meant (key_path_of (rows_in loaded.now) dirs.now (E.lookups env.now) row.now) }
{
    match value_row(loaded, row) {
        Some((number, value)) => of_value(alloc, env, number, value),
        None => without_value(alloc, loaded, dirs, row),
    }
}
