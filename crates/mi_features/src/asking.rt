//! What is asked of features.

ghost use Rattle.std.specs.Prelude.{◌≡◌, List, ℕ, Option, length, map, slice_get, Some, IfOk};
ghost use Rattle.mi_text.specs.Lookups.{Lookups};
ghost use Rattle.std.specs.BTreeSet.{contains};
ghost use Rattle.mi_text.specs.Maps.{Map, name_cmp};
ghost use Rattle.mi_image.specs.Items.{machine_over};
ghost use Rattle.mi_schema.specs.declared.typed_rows.FeatureRow.{FeatureRow as Row};
ghost use Rattle.mi_schema.specs.Lawful.{IsLawful};
ghost use Rattle.mi_schema.specs.RowsOf.{rows_in};
ghost use Rattle.mi_model.specs.Texts.{Text as Bytes};
ghost use Rattle.mi_model.specs.World.{Given};
ghost use Rattle.mi_wishes.specs.Answers.{Gives};
ghost use Rattle.mi_wishes.specs.Lines.{line_to};
ghost use Rattle.mi_wishes.specs.Lists.{AreLists};
ghost use Rattle.mi_features.specs.Records.{recorded_in};
ghost use Rattle.mi_features.specs.Requests.{is_kept_local, choice_kept, choice_to, shown, requested};
ghost use Rattle.mi_wishes.specs.Wishes.{AreWishes};

use crate::chain::{feature_parents, order_of_features};
use crate::record::record_of;
use crate::settings::{install_level, reinstall_mode};
use mi_base::{Env, NoMemory};
use mi_fver::Mode;
use mi_image::Image;
use mi_schema::Package;
use mi_wishes::{
    Brought, FeatureChoice, Line, Lists, Request, SelectError, Wishes, brought, levels_of,
    lines_of, row_at,
};
use std::alloc::Global;

/// What is asked of the features, and the letters of REINSTALLMODE.
#[derive(Drop)]
pub struct Asked {
    /// What becomes of each feature, in file order.
    pub features: Vec<FeatureChoice>,
    pub mode: Mode,
}

fn is_local_after(request: Option<Request>, recorded: bool) -> bool
    ensures { result ≡ is_kept_local request recorded }
{
    match request {
        Some(Request::Local) => true,
        Some(Request::Absent) => false,
        Some(Request::Reinstall) => recorded,
        None => recorded,
    }
}

fn is_recorded_at(loaded: &Package, wishes: &Wishes, place: usize) -> bool
    ensures { (f : Row) → slice_get (rows_in loaded.now).feature place ≡ Some f → result ≡ contains name_cmp wishes.now.recorded f.feature }
{
    match row_at(loaded, place) {
        Some(row) => wishes.is_recorded(row),
        None => false,
    }
}

/// What becomes of the feature at a place, by its line.
fn choice_at(loaded: &Package, wishes: &Wishes, line: Line, place: usize) -> FeatureChoice
    ensures { (f : Row) → slice_get (rows_in loaded.now).feature place ≡ Some f → result ≡ choice_kept wishes.now line f }
{
    let recorded = is_recorded_at(loaded, wishes, place);
    FeatureChoice {
        request: line.request,
        local_after: is_local_after(line.request, recorded),
    }
}

/// What becomes of each feature, in file order, by their lines.
fn choices_in(
    alloc: Global,
    loaded: &Package,
    wishes: &Wishes,
    lines: &[Line],
) -> Result<Vec<FeatureChoice>, NoMemory>
    requires { length lines.now ≡ length (rows_in loaded.now).feature }
    ensures { (L : Lookups) (recorded : Option (List Bytes)) (level : ℕ) → AreWishes (rows_in loaded.now) L recorded level wishes.now
        → ((place : ℕ) (f : Row) → slice_get (rows_in loaded.now).feature place ≡ Some f → slice_get lines.now place ≡ Some (line_to (rows_in loaded.now) L recorded level f))
        → IfOk result (λ choices. choices.items ≡ map (choice_to (rows_in loaded.now) L recorded level) (rows_in loaded.now).feature) }
{
    let mut choices = Vec::with_capacity(alloc, lines.len())?;
    for place in 0..lines.len() {
        choices.push(choice_at(loaded, wishes, lines[place], place))?;
    }
    Ok(choices)
}

/// What becomes of each feature, in file order.
fn choices_of(
    alloc: Global,
    loaded: &Package,
    wishes: &Wishes,
) -> Result<Vec<FeatureChoice>, NoMemory>
    requires { IsLawful loaded.now }
    ensures { (L : Lookups) (recorded : Option (List Bytes)) (level : ℕ) → AreWishes (rows_in loaded.now) L recorded level wishes.now
        → IfOk result (λ choices. choices.items ≡ map (choice_to (rows_in loaded.now) L recorded level) (rows_in loaded.now).feature) }
{
    let parents = feature_parents(alloc, loaded)?;
    let order = order_of_features(alloc, loaded, &parents)?;
    let local = brought(
        alloc,
        loaded,
        wishes,
        &wishes.lists.add_local,
        &parents,
        &order,
    )?;
    let by_default = brought(
        alloc,
        loaded,
        wishes,
        &wishes.lists.add_default,
        &parents,
        &order,
    )?;
    let brought = Brought { local, by_default };
    let lines = lines_of(alloc, loaded, wishes, &brought, &parents, &order)?;
    let choices = choices_in(alloc, loaded, wishes, &lines)?;
    Ok(choices)
}

/// What properties, conditions and the product's record say of features.
fn wishes_of<'a, E: Env>(
    alloc: Global,
    loaded: &'a Package,
    former: &Image,
    env: &E,
    lists: Lists,
    install_level: u32,
) -> Result<Wishes<'a>, NoMemory>
    requires lawful { IsLawful loaded.now }
    requires lists { AreLists (E.lookups env.now) lists }
    ensures { (held files : Map (List ℕ)) → IfOk result (AreWishes (rows_in loaded.now) (E.lookups env.now) (recorded_in (machine_over held files former.now) (rows_in loaded.now)) install_level) }
{
    let levels = levels_of(alloc, loaded, env)?;
    let record = record_of(alloc, loaded, former)?;
    Ok(Wishes {
        levels,
        lists,
        recorded: record.features,
        is_new: record.is_new,
        install_level,
    })
}

fn choose<E: Env>(
    alloc: Global,
    loaded: &Package,
    former: &Image,
    env: &E,
    lists: Lists,
    install_level: u32,
) -> Result<Vec<FeatureChoice>, NoMemory>
    requires lawful { IsLawful loaded.now }
    requires lists { AreLists (E.lookups env.now) lists }
    ensures { (held files : Map (List ℕ)) → IfOk result (λ choices. choices.items ≡ map (choice_to (rows_in loaded.now) (E.lookups env.now) (recorded_in (machine_over held files former.now) (rows_in loaded.now)) install_level) (rows_in loaded.now).feature) }
{
    let wishes = wishes_of(alloc, loaded, former, env, lists, install_level)?;
    let choices = choices_of(alloc, loaded, &wishes)?;
    Ok(choices)
}

/// What is asked of the features of a package, and the letters of REINSTALLMODE, over the machine before the run and what
/// conditions may ask (ADDLOCAL, REMOVE, ADDDEFAULT, REINSTALL, INSTALLLEVEL and REINSTALLMODE Properties; Feature and
/// Condition Tables). Refused, in this order, with BadProperty of INSTALLLEVEL and of REINSTALLMODE, and by the lists in the
/// order ADDLOCAL, REMOVE, ADDSOURCE, ADDDEFAULT and REINSTALL with the first item that names no feature, or with AddSource.
/// The package is lawful.
pub fn requests<E: Env>(
    alloc: Global,
    loaded: &Package,
    former: &Image,
    env: &E,
) -> Result<Asked, SelectError>
    requires { IsLawful loaded.now }
    ensures { (held files : Map (List ℕ)) → Gives result shown (requested (rows_in loaded.now) (E.lookups env.now) (recorded_in (machine_over held files former.now) (rows_in loaded.now))) }
{
    let level = install_level(alloc, env)?;
    let mode = reinstall_mode(alloc, env)?;
    let lists = Lists::read(alloc, loaded, env)?;
    let features = choose(alloc, loaded, former, env, lists, level)?;
    Ok(Asked { features, mode })
}
