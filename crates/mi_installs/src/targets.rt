//! Rows of File whose files are one.

ghost use Rattle.std.specs.Prelude.{◌≡◌, [], map, IfOk};
ghost use Rattle.mi_base.specs.declared.answers.Fault.TheVariants.{SameTarget as same};
ghost use Rattle.mi_model.specs.InstallFiles as model;
ghost use Rattle.mi_installs.specs.Placings.{as_placed};
ghost use Rattle.mi_installs.specs.Targets.{fault_of};

use crate::placed::Placed;
use mi_base::{Fault, NoMemory, Text, fold};
use mi_schema::FileRow;
use std::alloc::Global;
use std::collections::BTreeMap;

// That two rows of File have one target.
fn fault(alloc: Global, first: &FileRow, second: &FileRow) -> Result<Fault, NoMemory>
    ensures { IfOk result (λ f. f ≡ same first.now.file second.now.file) }
{
    let earlier = Text::copy_of(alloc, first.file.as_str())?;
    let later = Text::copy_of(alloc, second.file.as_str())?;
    Ok(Fault::SameTarget(earlier, later))
}

// The first row whose path an earlier row has, behind that one.
fn first_repeat<'a>(
    alloc: Global,
    rows: &'a [Placed<'a>],
) -> Result<Option<(&'a FileRow, &'a FileRow)>, NoMemory>
    ensures { IfOk result (λ found. model.same_target [] (map as_placed rows.now) ≡ fault_of found) }
{
    let mut seen = BTreeMap::new(alloc);
    for placed in rows {
        let path = fold(alloc, placed.path.as_str())?;
        if let Some(first) = seen.get(&path) {
            return Ok(Some((*first, placed.row)));
        }
        seen.insert(path, placed.row)?;
    }
    Ok(None)
}

/// The first row whose path an earlier row has, in whichever case, as `SameTarget` of both keys (File table; this project's own).
/// It costs a search for each row.
pub(crate) fn same_target(alloc: Global, rows: &[Placed<'_>]) -> Result<Option<Fault>, NoMemory>
    ensures { IfOk result (λ f. f ≡ model.same_target [] (map as_placed rows.now)) }
{
    match first_repeat(alloc, rows)? {
        Some((first, second)) => Ok(Some(fault(alloc, first, second)?)),
        None => Ok(None),
    }
}
