//! What is known from the start, of the package's rows and of the former machine.

ghost use Rattle.std.specs.Prelude.{◌≡◌, ◌+◌, List, ℕ, IfOk, OnOk};
ghost use Rattle.mi_text.specs.Maps.{Name, Map, is_among};
ghost use Rattle.mi_schema.specs.RowsOf.{rows_in};
ghost use Rattle.mi_schema.specs.TableRows.{product_code};
ghost use Rattle.mi_image.specs.Items.{machine_over};
ghost use Rattle.mi_world.specs.Ground.{recorded_in, is_held, is_set, present_by};
ghost use Rattle.mi_world.specs.Known.{AreHeld, is_held_by, ArePresent, AreDirectories, AreRecorded, IsKnown};

use crate::flags::Flags;
use crate::rows::{component_at, feature_at, feature_component_at, product_code};
use crate::system::system_folders;
use crate::table::Table;
use crate::variables::Variables;
use mi_base::{Guid, NoMemory, PathText, Text};
use mi_image::Image;
use mi_schema::{ComponentRow, FeatureComponentsRow, Package};
use std::alloc::Global;

/// What is known from the start.
#[derive(Drop)]
pub(crate) struct Known {
    pub variables: Variables,
    /// The directory of each component.
    pub directories: Table,
    /// Whether each component was present.
    pub present: Flags,
    /// Whether each feature was recorded.
    pub recorded: Flags,
    /// The folders that properties of the system name.
    pub system: Vec<PathText>,
}

// ---- the directories of components

fn tell_directory(
    alloc: Global,
    loaded: &Package,
    place: usize,
    table: &mut Table,
) -> Result<(), NoMemory>
    ensures { OnOk result (AreDirectories (rows_in loaded.now).component (place + 1) table.old → AreDirectories (rows_in loaded.now).component place table.new) }
{
    match component_at(loaded, place) {
        Some(row) => {
            let directory = Text::copy_of(alloc, row.directory.as_str())?;
            table.put(alloc, row.component.as_str(), directory)?;
            Ok(())
        }
        None => Ok(()),
    }
}

/// The directory of each component, by its key.
fn directories_of(alloc: Global, loaded: &Package) -> Result<Table, NoMemory>
    ensures { IfOk result (λ t. AreDirectories (rows_in loaded.now).component 0 t) }
{
    let mut table = Table::new(alloc);
    let mut place = loaded.component.len();
    while place > 0 {
        place -= 1;
        tell_directory(alloc, loaded, place, &mut table)?;
    }
    Ok(table)
}

// ---- the recorded features

fn names_of(alloc: Global, names: &[Text]) -> Result<Flags, NoMemory>
    ensures { IfOk result (λ f. (q : Name) → is_set f q ≡ is_among q names.now) }
{
    let mut flags = Flags::new(alloc);
    for name in names {
        flags.put(alloc, name.as_str(), true)?;
    }
    Ok(flags)
}

/// The features that the product's record has.
fn recorded_names(alloc: Global, loaded: &Package, image: &Image) -> Result<Flags, NoMemory>
    ensures { (held files : Map (List ℕ)) → IfOk result (λ f. (q : Name) → is_set f q ≡ is_among q (recorded_in (rows_in loaded.now) (machine_over held files image.now))) }
{
    match image.product(product_code(loaded)) {
        Some(product) => {
            let names = names_of(alloc, product.features.as_slice())?;
            Ok(names)
        }
        None => Ok(Flags::new(alloc)),
    }
}

fn tell_recorded(
    alloc: Global,
    loaded: &Package,
    names: &Flags,
    place: usize,
    flags: &mut Flags,
) -> Result<(), NoMemory>
    ensures { OnOk result (AreRecorded (rows_in loaded.now).feature (is_set names.now) (place + 1) flags.old → AreRecorded (rows_in loaded.now).feature (is_set names.now) place flags.new) }
{
    match feature_at(loaded, place) {
        Some(row) => {
            let recorded = names.holds(row.feature.as_str());
            flags.put(alloc, row.feature.as_str(), recorded)?;
            Ok(())
        }
        None => Ok(()),
    }
}

/// Whether each feature is among these names.
fn recorded_of(alloc: Global, loaded: &Package, names: &Flags) -> Result<Flags, NoMemory>
    ensures { IfOk result (λ f. AreRecorded (rows_in loaded.now).feature (is_set names.now) 0 f) }
{
    let mut flags = Flags::new(alloc);
    let mut place = loaded.feature.len();
    while place > 0 {
        place -= 1;
        tell_recorded(alloc, loaded, names, place, &mut flags)?;
    }
    Ok(flags)
}

// ---- the components that were present

fn hold(
    alloc: Global,
    row: &FeatureComponentsRow,
    names: &Flags,
    held: &mut Flags,
) -> Result<(), NoMemory>
    ensures { OnOk result ((q : Name) → is_set held.new q ≡ is_held_by names.now row.now held.old q) }
{
    if !names.holds(row.feature.as_str()) {
        return Ok(());
    }
    held.put(alloc, row.component.as_str(), true)?;
    Ok(())
}

fn tell_held(
    alloc: Global,
    loaded: &Package,
    names: &Flags,
    place: usize,
    held: &mut Flags,
) -> Result<(), NoMemory>
    ensures { OnOk result (AreHeld (rows_in loaded.now).feature_components (place + 1) names.now held.old → AreHeld (rows_in loaded.now).feature_components place names.now held.new) }
{
    match feature_component_at(loaded, place) {
        Some(row) => {
            hold(alloc, row, names, held)?;
            Ok(())
        }
        None => Ok(()),
    }
}

/// The components that a feature among these names holds.
fn held_of(alloc: Global, loaded: &Package, names: &Flags) -> Result<Flags, NoMemory>
    ensures { IfOk result (λ f. (c : Name) → is_set f c ≡ is_held (rows_in loaded.now) (is_set names.now) c) }
{
    let mut held = Flags::new(alloc);
    let mut place = loaded.feature_components.len();
    while place > 0 {
        place -= 1;
        tell_held(alloc, loaded, names, place, &mut held)?;
    }
    Ok(held)
}

/// Whether a component was present (Component Table).
fn is_present(image: &Image, code: Guid, held: &Flags, row: &ComponentRow) -> bool
    ensures { (base files : Map (List ℕ)) → result ≡ present_by (machine_over base files image.now) code.number (is_set held.now) row.now row.now.component_id }
{
    match row.component_id {
        Some(id) => image.client(id, code).is_some(),
        None => held.holds(row.component.as_str()),
    }
}

fn tell_present(
    alloc: Global,
    loaded: &Package,
    image: &Image,
    code: Guid,
    held: &Flags,
    place: usize,
    flags: &mut Flags,
) -> Result<(), NoMemory>
    ensures { (base files : Map (List ℕ)) → OnOk result (ArePresent (rows_in loaded.now).component (machine_over base files image.now) code.number held.now (place + 1) flags.old → ArePresent (rows_in loaded.now).component (machine_over base files image.now) code.number held.now place flags.new) }
{
    match component_at(loaded, place) {
        Some(row) => {
            let present = is_present(image, code, held, row);
            flags.put(alloc, row.component.as_str(), present)?;
            Ok(())
        }
        None => Ok(()),
    }
}

/// Whether each component was present.
fn present_of(
    alloc: Global,
    loaded: &Package,
    image: &Image,
    held: &Flags,
) -> Result<Flags, NoMemory>
    ensures { (base files : Map (List ℕ)) → IfOk result (λ f. ArePresent (rows_in loaded.now).component (machine_over base files image.now) (product_code (rows_in loaded.now)) held.now 0 f) }
{
    let code = product_code(loaded);
    let mut flags = Flags::new(alloc);
    let mut place = loaded.component.len();
    while place > 0 {
        place -= 1;
        tell_present(alloc, loaded, image, code, held, place, &mut flags)?;
    }
    Ok(flags)
}

impl Known {
    /// What is known of a package and of the machine that an image stands for.
    pub fn of(alloc: Global, loaded: &Package, image: &Image) -> Result<Known, NoMemory>
        ensures { (held files : Map (List ℕ)) → IfOk result (IsKnown (rows_in loaded.now) (machine_over held files image.now)) }
    {
        let variables = Variables::of(alloc, image)?;
        let directories = directories_of(alloc, loaded)?;
        let names = recorded_names(alloc, loaded, image)?;
        let recorded = recorded_of(alloc, loaded, &names)?;
        let held = held_of(alloc, loaded, &names)?;
        let present = present_of(alloc, loaded, image, &held)?;
        let system = system_folders(alloc, image)?;
        Ok(Known {
            variables,
            directories,
            present,
            recorded,
            system,
        })
    }
}
