//! The directories that CostFinalize resolves.

ghost use Rattle.std.specs.Prelude.{◌≡◌, List, ℕ, All, IfOk, map};
ghost use Rattle.mi_text.specs.Maps.{Map};
ghost use Rattle.mi_dirs.specs.Rows as rows;
ghost use Rattle.mi_dirs.specs.Rows.{given};
ghost use Rattle.mi_dirs.specs.Places.{Place};
ghost use Rattle.mi_dirs.specs.Views.{IsFolder};
ghost use Rattle.mi_image.specs.Items.{machine_over};
ghost use Rattle.mi_schema.specs.declared.typed_rows.DirectoryRow.{DirectoryRow};
ghost use Rattle.mi_schema.specs.RowsOf.{rows_in};
ghost use Rattle.mi_model.specs.Properties.{dir_row, in_table, resolved};
ghost use Rattle.mi_model.specs.World.{Given};
ghost use Rattle.mi_world.specs.Costs.{Finds, Places};
ghost use Rattle.mi_world.specs.Places.{AreKeptPaths};

use crate::directories::dir_rows;
use crate::error::{WorldError, directory_fault};
use crate::placed::{Placed, files_of};
use crate::recall::remembered;
use crate::table::Table;
use mi_base::{PathText, Text};
use mi_dirs::{DirError, Dirs, resolve};
use mi_image::Image;
use mi_props::Props;
use mi_schema::Package;
use std::alloc::Global;

fn resolved(
    alloc: Global,
    loaded: &Package,
    props: &Props,
    remembered: &[(Text, PathText)],
    folder: &str,
) -> Result<Dirs, WorldError>
    requires { All (λ r. IsFolder r.1) remembered.now }
    ensures { Finds result (in_table (rows.resolved (given (map dir_row (rows_in loaded.now).directory) props.now remembered.now folder.now (rows_in loaded.now).short_names))) }
{
    let rows = dir_rows(alloc, loaded)?;
    match resolve(alloc, &rows, props, remembered, folder, loaded.short_names) {
        Ok(dirs) => Ok(dirs),
        Err(DirError::NoMemory) => Err(WorldError::NoMemory),
        Err(DirError::Fault(fault)) => {
            let fault = directory_fault(alloc, fault)?;
            Err(WorldError::Fault(fault))
        }
    }
}

/// The directories by the rows, the properties as they stand and the folders of an earlier run, and the files' paths by them
/// (CostFinalize Action). `folder` is the package's in the source; `directories` has the directory of each component. Refused with
/// the first row whose chain of parents doesn't end, else the first whose target is refused.
pub(crate) fn place(
    alloc: Global,
    loaded: &Package,
    props: &Props,
    image: &Image,
    directories: &Table,
    folder: &str,
) -> Result<Placed, WorldError>
    ensures dirs { (held files : Map (List ℕ)) (g : Given) → rows_in loaded.now ≡ g.rows → machine_over held files image.now ≡ g.former → folder.now ≡ g.folder → Places result (resolved g props.now) }
    ensures keys { IfOk result (λ p. map (λ (d : Place). d.key) p.dirs ≡ map (λ (r : DirectoryRow). r.directory) (rows_in loaded.now).directory) }
    ensures files { IfOk result (λ p. AreKeptPaths directories.now p.dirs (rows_in loaded.now).file 0 p.files) }
{
    let remembered = remembered(alloc, loaded, image)?;
    match resolved(alloc, loaded, props, &remembered, folder) {
        Ok(dirs) => {
            let files = files_of(alloc, loaded, directories, &dirs)?;
            Ok(Placed { dirs, files })
        }
        Err(error) => Err(error),
    }
}
