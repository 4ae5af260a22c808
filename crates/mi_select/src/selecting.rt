//! The selection, made.

ghost use Rattle.std.specs.Prelude.{◌≡◌, ℕ, List, All, map, length, Ok, IfOk, IsTrue};
ghost use Rattle.std.specs.FinMap.{is_sorted};
ghost use Rattle.std.specs.String.{string_eq};
ghost use Rattle.indexmap.specs.IndexMap.{IsUnique};
ghost use Rattle.mi_text.specs.Lookups.{Lookups};
ghost use Rattle.mi_text.specs.Maps.{Map, name_cmp};
ghost use Rattle.mi_image.specs.Items.{machine_over};
ghost use Rattle.mi_schema.specs.declared.typed_rows.ComponentRow.{ComponentRow as Component};
ghost use Rattle.mi_schema.specs.declared.typed_rows.FeatureRow.{FeatureRow as Feature};
ghost use Rattle.mi_schema.specs.Lawful.{IsLawful};
ghost use Rattle.mi_schema.specs.RowsOf.{rows_in};
ghost use Rattle.mi_model.specs.Refusals.{each};
ghost use Rattle.mi_model.specs.Selecting.{component_order, feature_order, selected};
ghost use Rattle.mi_model.specs.World.{Given};
ghost use Rattle.mi_wishes.specs.declared.choice.FeatureChoice.{FeatureChoice as OfFeature};
ghost use Rattle.mi_components.specs.declared.component.ComponentChoice.{ComponentChoice as OfComponent};
ghost use Rattle.mi_wishes.specs.Answers.{Gives};
ghost use Rattle.mi_select.specs.Chosen.{chosen_entry, IsNumberedWithin, IsChosenAt};
ghost use Rattle.mi_features.specs.Records.{recorded_in};
ghost use Rattle.mi_features.specs.Requests.{shown, requested};
ghost use Rattle.mi_select.specs.Selections.{as_named};

use crate::key_path::key_path_of;
use crate::selection::{Chosen, Selection};
use indexmap::IndexMap;
use mi_base::NoMemory;
use mi_components::{ComponentChoice, components, has_other_count};
use mi_dirs::Dirs;
use mi_features::{Asked, FeatureChoice, SelectError, requests};
use mi_format::BoundedEnv;
use mi_image::Image;
use mi_records::{Row, in_key_order};
use mi_schema::{ComponentRow, FeatureRow, Package, keys_stand, tables_small};
use std::alloc::Global;

/// These by their names, which rise.
fn by_name<V: Drop>(alloc: Global, named: Vec<(String, V)>) -> Result<IndexMap<String, V>, NoMemory>
    ensures entries { IsTrue (is_sorted name_cmp (map as_named named.items)) → IfOk result (λ map. map.entries ≡ named.items) }
    ensures unique { IfOk result (IsUnique string_eq) }
{
    let map = IndexMap::from_iter(alloc, named)?;
    Ok(map)
}

// ---- features

/// What becomes of the features of these rows, where `choices` has it in file order.
fn named_features(
    alloc: Global,
    rows: &[Row<FeatureRow>],
    choices: &[FeatureChoice],
) -> Result<Vec<(String, FeatureChoice)>, NoMemory>
    requires { All (IsNumberedWithin (length choices.now)) rows.now }
    ensures { (choice : Feature → OfFeature) → All (IsChosenAt choices.now choice) rows.now → IfOk result (λ named. map as_named named.items ≡ map (λ r. (r.1.now.feature, choice r.1.now)) rows.now) }
{
    let mut named = Vec::with_capacity(alloc, rows.len())?;
    for row in rows {
        let choice = choices[row.0 as usize - 1];
        let name = String::from_str(alloc, row.1.feature.as_str())?;
        named.push((name, choice))?;
    }
    Ok(named)
}

/// What becomes of the features of a package, in key order, where `choices` has it in file order.
fn features_of(
    alloc: Global,
    loaded: &Package,
    choices: &[FeatureChoice],
) -> Result<IndexMap<String, FeatureChoice>, NoMemory>
    requires lawful { IsLawful loaded.now }
    requires all { length choices.now ≡ length (rows_in loaded.now).feature }
    ensures { (choice : Feature → OfFeature) → choices.now ≡ map choice (rows_in loaded.now).feature → IfOk result (λ features. map as_named features.entries ≡ map (λ f. (f.feature, choice f)) (feature_order (rows_in loaded.now))) }
{
    keys_stand(loaded);
    tables_small(loaded);
    let rows = in_key_order(alloc, &loaded.feature)?;
    let named = named_features(alloc, &rows, choices)?;
    let features = by_name(alloc, named)?;
    Ok(features)
}

// ---- components

/// What becomes of the component of a row, by its name, or the refusal of its key path.
fn chosen_of<E: BoundedEnv>(
    alloc: Global,
    env: &E,
    loaded: &Package,
    former: &Image,
    dirs: &Dirs,
    row: &ComponentRow,
    choice: ComponentChoice,
) -> Result<(String, Chosen), SelectError>
    requires { IsLawful loaded.now }
    ensures { (held files : Map (List ℕ)) → Gives result as_named (chosen_entry (machine_over held files former.now) (rows_in loaded.now) dirs.now (E.lookups env.now) (λ _. choice) row.now) }
{
    let path = key_path_of(alloc, env, loaded, dirs, row)?;
    let coming = choice.is_coming(row, path.is_there(former));
    let text = path.text(alloc);
    drop(path);
    let key_path = text?;
    let leaving = choice.is_leaving(row, has_other_count(loaded, former, row, key_path.as_str()));
    let name = String::from_str(alloc, row.component.as_str())?;
    Ok((
        name,
        Chosen {
            choice,
            coming,
            leaving,
            kept: choice.is_kept(leaving),
            key_path,
        },
    ))
}

/// What becomes of the components of these rows, where `choices` has it in file order, or the first refusal of a key path.
fn named_components<E: BoundedEnv>(
    alloc: Global,
    env: &E,
    loaded: &Package,
    former: &Image,
    dirs: &Dirs,
    rows: &[Row<ComponentRow>],
    choices: &[ComponentChoice],
) -> Result<Vec<(String, Chosen)>, SelectError>
    requires lawful { IsLawful loaded.now }
    requires all { All (IsNumberedWithin (length choices.now)) rows.now }
    ensures { (held files : Map (List ℕ)) (choice : Component → OfComponent) → All (IsChosenAt choices.now choice) rows.now
        → Gives result (λ named. map as_named named.items) (each (chosen_entry (machine_over held files former.now) (rows_in loaded.now) dirs.now (E.lookups env.now) choice) (map (λ r. r.1.now) rows.now)) }
{
    let mut named = Vec::with_capacity(alloc, rows.len())?;
    for row in rows {
        let choice = choices[row.0 as usize - 1];
        let chosen = chosen_of(alloc, env, loaded, former, dirs, row.1, choice)?;
        named.push(chosen)?;
    }
    Ok(named)
}

/// What becomes of the components of a package, in key order, where `choices` has it in file order, or the first refusal of a
/// key path.
fn components_of<E: BoundedEnv>(
    alloc: Global,
    env: &E,
    loaded: &Package,
    former: &Image,
    dirs: &Dirs,
    choices: &[ComponentChoice],
) -> Result<IndexMap<String, Chosen>, SelectError>
    requires lawful { IsLawful loaded.now }
    requires all { length choices.now ≡ length (rows_in loaded.now).component }
    ensures chosen { (held files : Map (List ℕ)) (choice : Component → OfComponent) → choices.now ≡ map choice (rows_in loaded.now).component
        → Gives result (λ components. map as_named components.entries) (each (chosen_entry (machine_over held files former.now) (rows_in loaded.now) dirs.now (E.lookups env.now) choice) (component_order (rows_in loaded.now))) }
    ensures unique { IfOk result (IsUnique string_eq) }
{
    keys_stand(loaded);
    tables_small(loaded);
    let rows = in_key_order(alloc, &loaded.component)?;
    let named = named_components(alloc, env, loaded, former, dirs, &rows, choices)?;
    let components = by_name(alloc, named)?;
    Ok(components)
}

// ---- all of it

/// The selection, where `asked` has what becomes of the features, or the first refusal of a key path.
fn selection_by<E: BoundedEnv>(
    alloc: Global,
    loaded: &Package,
    former: &Image,
    env: &E,
    dirs: &Dirs,
    asked: &Asked,
) -> Result<Selection, SelectError>
    requires lawful { IsLawful loaded.now }
    requires asked { (held files : Map (List ℕ)) → requested (rows_in loaded.now) (E.lookups env.now) (recorded_in (machine_over held files former.now) (rows_in loaded.now)) ≡ Ok (shown asked.now) }
    ensures { (held files : Map (List ℕ)) (g : Given) → g.rows ≡ rows_in loaded.now → g.former ≡ machine_over held files former.now → Gives result (λ s. s) (selected g (E.lookups env.now) dirs.now) }
{
    let choices = components(alloc, loaded, former, env, asked)?;
    let features = features_of(alloc, loaded, &asked.features)?;
    let components = components_of(alloc, env, loaded, former, dirs, &choices)?;
    Ok(Selection {
        features,
        components,
        mode: asked.mode,
    })
}

/// What CostFinalize makes of the features and components of a package, over the machine before the run, what conditions may
/// ask, and the directories as they stand (CostFinalize Action; Feature Table; Component Table). Refused, in this order, with
/// BadProperty of INSTALLLEVEL and of REINSTALLMODE; by the lists in the order ADDLOCAL, REMOVE, ADDSOURCE, ADDDEFAULT and
/// REINSTALL with the first item that names no feature, or with AddSource; and with TooDeep, BadKey or BadPath of the first
/// component in byte order whose key path has one. The package is lawful.
pub fn select<E: BoundedEnv>(
    alloc: Global,
    loaded: &Package,
    former: &Image,
    env: &E,
    dirs: &Dirs,
) -> Result<Selection, SelectError>
    requires { IsLawful loaded.now }
    ensures { (held files : Map (List ℕ)) (g : Given) → g.rows ≡ rows_in loaded.now → g.former ≡ machine_over held files former.now → Gives result (λ s. s) (selected g (E.lookups env.now) dirs.now) }
{
    let asked = requests(alloc, loaded, former, env)?;
    let selection = selection_by(alloc, loaded, former, env, dirs, &asked)?;
    Ok(selection)
}
