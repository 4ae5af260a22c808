//! The names that a script changes.

ghost use Rattle.std.specs.Prelude.{◌≡◌, List, ℕ, IfOk, map};
ghost use Rattle.std.specs.BTreeSet.{contains};
ghost use Rattle.mi_text.specs.Maps.{name_cmp, is_among};
ghost use Rattle.mi_script.specs.Scripts.{name_at, touched_names};

use crate::rec::Rec;
use crate::script::Script;
use mi_base::{Name, NoMemory};
use std::alloc::Global;
use std::collections::BTreeSet;

fn names_of(alloc: Global, recs: &[Rec]) -> Result<BTreeSet<Name>, NoMemory>
    ensures { IfOk result (λ names. (q : List ℕ) → contains name_cmp names q ≡ is_among q (map name_at recs.now)) }
{
    let mut names = BTreeSet::new(alloc);
    for rec in recs {
        let name = rec.name().copy(alloc)?;
        let _ = names.insert(name)?;
    }
    Ok(names)
}

/// The names that the records of a script change, each once, in byte order (this project's own).
pub fn touched(alloc: Global, script: &Script) -> Result<Vec<Name>, NoMemory>
    ensures { IfOk result (λ names. names.items ≡ touched_names script.now) }
{
    let mut listed = Vec::new(alloc);
    for name in names_of(alloc, script.recs())? {
        listed.push(name)?;
    }
    Ok(listed)
}
