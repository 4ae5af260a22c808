//! The lines of all features.

ghost use Rattle.std.specs.Prelude.{◌≡◌, ◌<◌, ◌&&◌, ℕ, List, Option, Some, length, slice_get, option_copied, IfOk, IfSome};
ghost use Rattle.mi_text.specs.Lookups.{Lookups};
ghost use Rattle.mi_dirs.specs.Order.{parent_in, AreRows, IsOrder};
ghost use Rattle.mi_schema.specs.declared.typed_rows.FeatureRow.{FeatureRow as Row};
ghost use Rattle.mi_schema.specs.Lawful.{IsLawful};
ghost use Rattle.mi_schema.specs.RowsOf.{rows_in};
ghost use Rattle.mi_model.specs.Texts.{Text as Bytes};
ghost use Rattle.mi_wishes.specs.Chains.{feature_parents};
ghost use Rattle.mi_wishes.specs.Kept.{own_kept, line_above, line_kept, AreBrought};
ghost use Rattle.mi_wishes.specs.Lines.{line_to, line_below};
ghost use Rattle.mi_wishes.specs.Wishes.{AreWishes};

use crate::own::{Line, Own, has_attribute};
use crate::wishes::Wishes;
use mi_base::NoMemory;
use mi_schema::{FeatureRow, Package, keys_apart, keys_stand};
use std::alloc::Global;

/// Which features ADDLOCAL and ADDDEFAULT bring, in file order.
#[derive(Drop)]
pub struct Brought {
    pub local: Vec<bool>,
    pub by_default: Vec<bool>,
}

/// What is said of a feature by itself.
fn own_of(wishes: &Wishes, row: &FeatureRow, local: bool, by_default: bool) -> Own
    ensures { result ≡ own_kept wishes.now row.now local by_default }
{
    let level = wishes.level_of(row);
    let enabled = level != 0;
    Own {
        removed: wishes.lists.remove.names(&row.feature),
        added_local: enabled && local,
        added_default: enabled && by_default,
        reinstalled: wishes.is_recorded(row) && wishes.lists.reinstall.names(&row.feature),
        within: wishes.is_within(level),
        follows: has_attribute(2, row.attributes) && enabled,
    }
}

/// The line above a row.
fn line_above(lines: &[Line], parent: Option<usize>) -> Line
    requires { IfSome parent (λ p. p < length lines.now) }
    ensures { result ≡ line_above lines.now parent }
{
    match parent {
        Some(parent) => lines[parent],
        None => Line::none(),
    }
}

/// The row of a feature at its place in file order, from 0. Takes no memory.
pub fn row_at(loaded: &Package, place: usize) -> Option<&FeatureRow>
    ensures { option_copied result ≡ slice_get (rows_in loaded.now).feature place }
{
    match loaded.feature.get_index(place) {
        Some((_, row)) => Some(row),
        None => None,
    }
}

/// The line of a feature below a line.
fn line_of_row(
    wishes: &Wishes,
    row: &FeatureRow,
    above: Line,
    local: bool,
    by_default: bool,
) -> Line
    ensures { result ≡ line_below (wishes.now.lists.none && wishes.now.is_new) (own_kept wishes.now row.now local by_default) above }
{
    let own = own_of(wishes, row, local, by_default);
    above.below(own, wishes.lists.none && wishes.is_new)
}

/// The line of the feature at a place, where those above it are known.
fn line_at(loaded: &Package, wishes: &Wishes, brought: &Brought, above: Line, place: usize) -> Line
    requires local { place < length brought.now.local.items }
    requires by_default { place < length brought.now.by_default.items }
    ensures { (f : Row) → slice_get (rows_in loaded.now).feature place ≡ Some f → result ≡ line_kept wishes.now brought.now place above f }
{
    let local = brought.local[place];
    let by_default = brought.by_default[place];
    match row_at(loaded, place) {
        Some(row) => line_of_row(wishes, row, above, local, by_default),
        None => above,
    }
}

/// The lines of all features, in file order (Feature Table; ADDLOCAL, REMOVE, ADDDEFAULT and REINSTALL Properties). The
/// package is lawful; `parents` are the places of its features' parents, `order` is an order of them in which each stands
/// behind its parent, and of each feature both marks are there.
pub fn lines_of(
    alloc: Global,
    loaded: &Package,
    wishes: &Wishes,
    brought: &Brought,
    parents: &[Option<usize>],
    order: &[usize],
) -> Result<Vec<Line>, NoMemory>
    requires lawful { IsLawful loaded.now }
    requires parents { parents.now ≡ feature_parents loaded.now }
    requires order { IsOrder (parent_in parents.now) (length parents.now) order.now }
    requires local { length brought.now.local.items ≡ length parents.now }
    requires by_default { length brought.now.by_default.items ≡ length parents.now }
    ensures size { IfOk result (λ lines. length lines.items ≡ length parents.now) }
    ensures lines { (L : Lookups) (recorded : Option (List Bytes)) (level : ℕ) (place : ℕ) (f : Row)
        → AreWishes (rows_in loaded.now) L recorded level wishes.now → AreBrought (rows_in loaded.now) L recorded level brought.now → slice_get (rows_in loaded.now).feature place ≡ Some f
        → IfOk result (λ lines. slice_get lines.items place ≡ Some (line_to (rows_in loaded.now) L recorded level f)) }
{
    keys_stand(loaded);
    keys_apart(loaded);
    let mut lines = vec![in alloc; Line::none(); parents.len()]?;
    for place in order {
        let above = line_above(&lines, parents[*place]);
        lines[*place] = line_at(loaded, wishes, brought, above, *place);
    }
    Ok(lines)
}
