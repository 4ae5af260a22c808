//! The head of a file that is installed (File table).

ghost use Rattle.std.specs.Prelude.{◌≡◌, [], List, ℕ, IfOk, true};
ghost use Rattle.mi_base.specs.declared.entry.Entry.TheVariants as entry;
ghost use Rattle.mi_base.specs.Limits.{fits};
ghost use Rattle.mi_base.specs.Records.{with_bytes};
ghost use Rattle.mi_model.specs.World.{World};
ghost use Rattle.mi_model.specs.InstallFiles.{stated_size, installed_file};
ghost use Rattle.mi_installs.specs.Placings.{as_placed, HasFilePath, HasLanguages};

use crate::placed::Placed;
use crate::sources::stated_size;
use mi_base::{FileHead, NoMemory};
use mi_file_rows::{attributes_of_row, languages_of_row, version_of_row};
use std::alloc::Global;

/// The head of a row's file: its path, what the row says, this moment as that of its creation and its last change, and the size
/// that the row states (File table).
pub(crate) fn installed_head(
    alloc: Global,
    placed: &Placed<'_>,
    moment: u64,
) -> Result<FileHead, NoMemory>
    requires path { HasFilePath placed.now }
    requires languages { HasLanguages placed.now }
    ensures head { (w : World) (bytes : List ℕ) → w.given.now ≡ moment → IfOk result (λ h. with_bytes h bytes ≡ installed_file w (as_placed placed.now) bytes) }
    ensures size { IfOk result (λ h. h.length ≡ stated_size placed.now.row.now) }
    ensures fits { IfOk result (λ h. fits (entry.File (with_bytes h [])) ≡ true) }
{
    Ok(FileHead {
        shown: placed.path.copy(alloc)?,
        version: version_of_row(placed.row),
        languages: languages_of_row(alloc, placed.row)?,
        created: moment,
        modified: moment,
        attributes: attributes_of_row(placed.row),
        length: stated_size(placed.row),
    })
}
