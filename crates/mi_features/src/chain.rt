//! An order of the features in which each stands behind its parent.

ghost use Rattle.std.specs.Prelude.{◌≡◌, length, map, IfOk, option_and_then};
ghost use Rattle.std.specs.Map.{keys_of};
ghost use Rattle.mi_dirs.specs.Order.{parent_in, AreRows, IsOrder};
ghost use Rattle.mi_schema.specs.Checks.{row_with};
ghost use Rattle.mi_schema.specs.Lawful.{IsLawful};
ghost use Rattle.mi_schema.specs.RowsOf.{behind};
ghost use Rattle.mi_wishes.specs.Chains.{feature_parents};

use mi_base::NoMemory;
use mi_dirs::{DirError, order_of};
use mi_schema::{FeatureRow, Package, keys_apart, keys_stand, parents_end};
use std::alloc::Global;

fn parent_of(loaded: &Package, row: &FeatureRow) -> Option<usize>
    ensures { result ≡ option_and_then (row_with (keys_of loaded.now.feature.entries)) row.now.feature_parent }
{
    match &row.feature_parent {
        Some(parent) => loaded.feature.get_index_of(parent),
        None => None,
    }
}

fn parents_of(alloc: Global, loaded: &Package) -> Result<Vec<Option<usize>>, NoMemory>
    ensures { IfOk result (λ parents. parents.items ≡ map (λ r. option_and_then (row_with (keys_of loaded.now.feature.entries)) r.feature_parent) (behind loaded.now.feature.entries)) }
{
    let mut parents = Vec::with_capacity(alloc, loaded.feature.len())?;
    for row in loaded.feature.values() {
        parents.push(parent_of(loaded, row))?;
    }
    Ok(parents)
}

/// The places of the parents of the features, in file order, from 0.
pub fn feature_parents(alloc: Global, loaded: &Package) -> Result<Vec<Option<usize>>, NoMemory>
    requires { IsLawful loaded.now }
    ensures parents { IfOk result (λ parents. parents.items ≡ feature_parents loaded.now) }
{
    keys_stand(loaded);
    let parents = parents_of(alloc, loaded)?;
    Ok(parents)
}

/// The places of the features, each behind its parent.
pub fn order_of_features(
    alloc: Global,
    loaded: &Package,
    parents: &[Option<usize>],
) -> Result<Vec<usize>, NoMemory>
    requires lawful { IsLawful loaded.now }
    requires parents { parents.now ≡ feature_parents loaded.now }
    ensures { IfOk result (λ order. IsOrder (parent_in parents.now) (length parents.now) order.items) }
{
    keys_stand(loaded);
    keys_apart(loaded);
    parents_end(loaded);
    match order_of(alloc, parents) {
        Ok(order) => Ok(order),
        Err(DirError::NoMemory) => Err(NoMemory),
        Err(DirError::Fault(_)) => unreachable!(),
    }
}
