//! Features that lists add, with their ancestors.

ghost use Rattle.std.specs.Prelude.{◌≡◌, ◌&&◌, not, ◌==◌, ℕ, List, Option, Some, map, length, slice_get, IfOk, unwrap_or, pos};
ghost use Rattle.std.specs.BTreeSet.{contains};
ghost use Rattle.std.specs.Ordering.{int_eq};
ghost use Rattle.mi_text.specs.Maps.{name_cmp};
ghost use Rattle.mi_text.specs.Lookups.{Lookups};
ghost use Rattle.mi_dirs.specs.Order.{parent_in, IsOrder};
ghost use Rattle.mi_schema.specs.declared.typed_rows.FeatureRow.{FeatureRow as Row};
ghost use Rattle.mi_schema.specs.Lawful.{IsLawful};
ghost use Rattle.mi_schema.specs.RowsOf.{rows_in, behind};
ghost use Rattle.mi_model.specs.Texts.{Text as Bytes};
ghost use Rattle.mi_wishes.specs.Brought.{is_bringing, brings, is_brought};
ghost use Rattle.mi_wishes.specs.Chains.{feature_parents};
ghost use Rattle.mi_wishes.specs.Lists.{IsList};
ghost use Rattle.mi_wishes.specs.Marks.{is_marked};
ghost use Rattle.mi_wishes.specs.Wishes.{AreWishes};

use crate::list::FeatureList;
use crate::marks::mark_up;
use crate::wishes::Wishes;
use mi_base::NoMemory;
use mi_schema::{FeatureRow, Package, keys_apart, keys_stand};
use std::alloc::Global;

/// Whether a list names a feature that isn't disabled.
fn is_bringing(wishes: &Wishes, list: &FeatureList, row: &FeatureRow) -> bool
    ensures { result ≡ is_bringing wishes.now list.now row.now }
{
    list.names(&row.feature) && wishes.level_of(row) != 0
}

fn bringing(
    alloc: Global,
    loaded: &Package,
    wishes: &Wishes,
    list: &FeatureList,
) -> Result<Vec<bool>, NoMemory>
    ensures { IfOk result (λ marks. marks.items ≡ map (is_bringing wishes.now list.now) (behind loaded.now.feature.entries)) }
{
    let mut marks = Vec::with_capacity(alloc, loaded.feature.len())?;
    for row in loaded.feature.values() {
        marks.push(is_bringing(wishes, list, row))?;
    }
    Ok(marks)
}

/// Which features a list brings, in file order: those that it names, and their ancestors, but for named ones that are
/// disabled (ADDLOCAL Property; that it brings ancestors is this project's own). The package is lawful; `parents` are the
/// places of its features' parents, and `order` is an order of them in which each stands behind its parent.
pub fn brought(
    alloc: Global,
    loaded: &Package,
    wishes: &Wishes,
    list: &FeatureList,
    parents: &[Option<usize>],
    order: &[usize],
) -> Result<Vec<bool>, NoMemory>
    requires lawful { IsLawful loaded.now }
    requires parents { parents.now ≡ feature_parents loaded.now }
    requires order { IsOrder (parent_in parents.now) (length parents.now) order.now }
    ensures size { IfOk result (λ marks. length marks.items ≡ length parents.now) }
    ensures brought { (L : Lookups) (recorded : Option (List Bytes)) (level : ℕ) (text : Bytes) (place : ℕ) (f : Row)
        → AreWishes (rows_in loaded.now) L recorded level wishes.now → IsList text list.now → slice_get (rows_in loaded.now).feature place ≡ Some f
        → IfOk result (λ marks. is_marked marks.items place ≡ is_brought (rows_in loaded.now) L recorded level text f) }
{
    keys_stand(loaded);
    keys_apart(loaded);
    let mut marks = bringing(alloc, loaded, wishes, list)?;
    mark_up(parents, order, &mut marks);
    Ok(marks)
}
