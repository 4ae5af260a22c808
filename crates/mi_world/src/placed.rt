//! The directories and the files' paths by them.

ghost use Rattle.std.specs.Prelude.{◌≡◌, ◌+◌, ◌≤◌, [], IfOk, IfSome, OnOk, length, option_and_then, unwrap_or, None};
ghost use Rattle.std.specs.Option.{option_copied};
ghost use Rattle.std.specs.FinMap.{get};
ghost use Rattle.std.specs.Result.{result_ok};
ghost use Rattle.mi_text.specs.Maps.{Name};
ghost use Rattle.mi_text.specs.Path.{file_of};
ghost use Rattle.mi_text.specs.FileNames.{long_name};
ghost use Rattle.mi_dirs.specs.Places.{target_of};
ghost use Rattle.mi_dirs.specs.Views.{IsFolder};
ghost use Rattle.mi_schema.specs.RowsOf.{rows_in};
ghost use Rattle.mi_world.specs.Places.{kept_folder, kept_path, AreKeptPaths};

use crate::rows::file_at;
use crate::table::Table;
use crate::variables::or_empty;
use mi_base::{NoMemory, PathError, PathText, Text, long_name};
use mi_dirs::Dirs;
use mi_schema::{FileRow, Package};
use std::alloc::Global;

/// The directories as they stand, and the path of each file by them; a path past the limits is the empty text.
#[derive(Drop)]
pub(crate) struct Placed {
    pub dirs: Dirs,
    pub files: Table,
}

/// The folder of a component: the target of its directory. No memory.
pub(crate) fn folder_of<'a>(
    directories: &Table,
    dirs: &'a Dirs,
    component: &str,
) -> Option<&'a PathText>
    ensures folder { option_copied result ≡ kept_folder directories.now dirs.now component.now }
    ensures is_folder { IfSome result (λ path. IsFolder path.now) }
{
    let Some(directory) = directories.get(component) else {
        return None;
    };
    dirs.target(directory.as_str())
}

// The path of a file in a folder, and the empty text where it is past the limits.
fn path_in(alloc: Global, folder: &PathText, file_name: &str) -> Result<Text, NoMemory>
    requires { IsFolder folder.now }
    ensures { IfOk result (λ t. t ≡ unwrap_or (result_ok (file_of folder.now (long_name file_name.now))) []) }
{
    match folder.file(alloc, long_name(file_name)) {
        Ok(path) => Text::copy_of(alloc, path.as_str()),
        Err(PathError::NoMemory) => Err(NoMemory),
        Err(PathError::Fault(_)) => Ok(Text::new(alloc)),
    }
}

// The path of the file of a row.
fn path_of(alloc: Global, directories: &Table, dirs: &Dirs, row: &FileRow) -> Result<Text, NoMemory>
    ensures { IfOk result (λ t. t ≡ kept_path directories.now dirs.now row.now) }
{
    match folder_of(directories, dirs, row.component.as_str()) {
        Some(folder) => path_in(alloc, folder, row.file_name.as_str()),
        None => Ok(Text::new(alloc)),
    }
}

fn tell_path(
    alloc: Global,
    loaded: &Package,
    directories: &Table,
    dirs: &Dirs,
    place: usize,
    files: &mut Table,
) -> Result<(), NoMemory>
    ensures { OnOk result (AreKeptPaths directories.now dirs.now (rows_in loaded.now).file (place + 1) files.old → AreKeptPaths directories.now dirs.now (rows_in loaded.now).file place files.new) }
{
    match file_at(loaded, place) {
        Some(row) => {
            let path = path_of(alloc, directories, dirs, row)?;
            files.put(alloc, row.file.as_str(), path)?;
            Ok(())
        }
        None => Ok(()),
    }
}

/// The path of each file, by its key (File Table).
pub(crate) fn files_of(
    alloc: Global,
    loaded: &Package,
    directories: &Table,
    dirs: &Dirs,
) -> Result<Table, NoMemory>
    ensures { IfOk result (λ t. AreKeptPaths directories.now dirs.now (rows_in loaded.now).file 0 t) }
{
    let mut files = Table::new(alloc);
    let mut place = loaded.file.len();
    while place > 0 {
        place -= 1;
        tell_path(alloc, loaded, directories, dirs, place, &mut files)?;
    }
    Ok(files)
}

fn path_or_empty(path: Option<&PathText>) -> &str
    ensures { result.now ≡ unwrap_or (option_copied path.entry) [] }
{
    match path {
        Some(path) => path.as_str(),
        None => "",
    }
}

impl Placed {
    /// The path of a file, and the empty text where there is none. No memory.
    pub fn file(&self, key: &str) -> &str
        ensures { result.now ≡ unwrap_or (get self.now.files key.now) [] }
    {
        or_empty(self.files.get(key))
    }

    /// The folder of a component, and the empty text where there is none. No memory.
    pub fn folder(&self, directories: &Table, key: &str) -> &str
        ensures { result.now ≡ unwrap_or (kept_folder directories.now self.now.dirs key.now) [] }
    {
        path_or_empty(folder_of(directories, &self.dirs, key))
    }
}

/// Every key of so many bytes or more has no path. No memory.
pub(crate) fn files_bound(placed: &Option<Placed>) -> usize
    ensures { (key : Name) → result ≤ length key → option_and_then (λ p. get p.files key) placed.now ≡ None }
{
    match placed {
        Some(placed) => placed.files.name_bound(),
        None => 1,
    }
}
