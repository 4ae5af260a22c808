//! The copy of a file of the source, with its folders.

ghost use Rattle.std.specs.Prelude.{◌≡◌, ◌++◌, ◌∷◌, [], List, ℕ, Some, OnOk, IsTrue, length, true};
ghost use Rattle.std.specs.FinMap.{get};
ghost use Rattle.mi_text.specs.Maps.{Map};
ghost use Rattle.mi_text.specs.Path.{is_folder_path};
ghost use Rattle.mi_base.specs.declared.entry.Entry.TheVariants as entry;
ghost use Rattle.mi_base.specs.Limits.{fits};
ghost use Rattle.mi_base.specs.Records.{with_bytes};
ghost use Rattle.mi_source.specs.Paths as source;
ghost use Rattle.mi_source.specs.Paths.{Files};
ghost use Rattle.mi_image.specs.Items.{bytes_or_none};
ghost use Rattle.mi_model.specs.World.{World};
ghost use Rattle.mi_model.specs.Parents.{folder_with_parents};
ghost use Rattle.mi_model.specs.InstallFiles.{stated_size, installed_file, file_with_parents};
ghost use Rattle.mi_steps.specs.Makes.{Makes, copy_touch};
ghost use Rattle.mi_installs.specs.Copying.{GrowsOn, StaysThere, AddsWhole};
ghost use Rattle.mi_installs.specs.Placings.{as_placed, HasFilePath, HasLanguages};

use crate::heads::installed_head;
use crate::placed::Placed;
use mi_base::{FileHead, NoMemory, PathText};
use mi_files::make_folders;
use mi_steps::Plan;
use std::alloc::Global;

// Makes a folder, and copies a file of the source.
fn copy_below(
    alloc: Global,
    plan: &mut Plan,
    folder: &PathText,
    head: &FileHead,
    file: &str,
    path: &str,
) -> Result<(), NoMemory>
    requires folder { IsTrue (is_folder_path folder.now) }
    requires fits { fits (entry.File (with_bytes head.now [])) ≡ true }
    ensures makes { (held files : Map (List ℕ)) → OnOk result (Makes held files plan.old plan.new (folder_with_parents folder.now ++ copy_touch files head.now path.now ∷ [])) }
    ensures there { (held files : Map (List ℕ)) → length (bytes_or_none (get files path.now)) ≡ head.now.length → OnOk result (StaysThere held files plan.old plan.new) }
    ensures lengths { (files : Files) → length (source.bytes_or_none (get files path.now)) ≡ head.now.length → OnOk result (AddsWhole files plan.old.script plan.new.script) }
    ensures grows { GrowsOn plan.old plan.new }
{
    make_folders(alloc, plan, folder)?;
    plan.copy_file(alloc, head, file, path)?;
    Ok(())
}

/// Copies a row's file from its path in the source, with the folders that are missing (InstallFiles action).
pub(crate) fn copy_row(
    alloc: Global,
    placed: &Placed<'_>,
    moment: u64,
    path: &str,
    plan: &mut Plan,
) -> Result<(), NoMemory>
    requires path { HasFilePath placed.now }
    requires languages { HasLanguages placed.now }
    ensures makes { (held files : Map (List ℕ)) (w : World) (bytes : List ℕ) → w.given.now ≡ moment → get files path.now ≡ Some bytes → OnOk result (Makes held files plan.old plan.new (file_with_parents (installed_file w (as_placed placed.now) bytes))) }
    ensures there { (held files : Map (List ℕ)) (bytes : List ℕ) → get files path.now ≡ Some bytes → length bytes ≡ stated_size placed.now.row.now → OnOk result (StaysThere held files plan.old plan.new) }
    ensures lengths { (files : Files) (bytes : List ℕ) → get files path.now ≡ Some bytes → length bytes ≡ stated_size placed.now.row.now → OnOk result (AddsWhole files plan.old.script plan.new.script) }
    ensures grows { GrowsOn plan.old plan.new }
{
    let folder = placed.path.parent(alloc)?;
    match installed_head(alloc, placed, moment) {
        Ok(head) => {
            let file = placed.row.file.as_str();
            let done = copy_below(alloc, plan, &folder, &head, file, path);
            drop(head);
            done
        }
        Err(error) => Err(error),
    }
}
