//! What features say of the components that they hold.

ghost use Rattle.std.specs.Prelude.{◌≡◌, if◌then◌else◌, slice_get, IfOk, OnOk};
ghost use Rattle.std.specs.BTreeSet.{contains};
ghost use Rattle.mi_text.specs.Maps.{Name, name_cmp, same_name};
ghost use Rattle.mi_schema.specs.Lawful.{IsLawful};
ghost use Rattle.mi_schema.specs.RowsOf.{rows_in};
ghost use Rattle.mi_components.specs.Holders.{is_local, is_reinstall, nobody, both, says, choice_named, held_at, said_in, AreHeld};

use mi_base::{NoMemory, Text};
use mi_features::{Asked, FeatureChoice, Request};
use mi_schema::{FeatureComponentsRow, Package, keys_stand};
use std::alloc::Global;
use std::collections::{BTreeMap, BTreeSet};

/// What the features that hold a component say of it.
#[derive(Clone, Copy)]
pub struct Holders {
    /// One of them is to be installed.
    pub local: bool,
    /// One of them is to be repaired.
    pub reinstalled: bool,
    /// One of them is installed after the run.
    pub wanted: bool,
    /// One of them is in the product's record.
    pub recorded: bool,
}

/// What features say of the components that they hold, by component.
pub type Held<'a> = BTreeMap<&'a str, Holders>;

fn is_local(request: Option<Request>) -> bool
    ensures { result ≡ is_local request }
{
    match request {
        Some(Request::Local) => true,
        Some(Request::Absent) => false,
        Some(Request::Reinstall) => false,
        None => false,
    }
}

fn is_reinstall(request: Option<Request>) -> bool
    ensures { result ≡ is_reinstall request }
{
    match request {
        Some(Request::Local) => false,
        Some(Request::Absent) => false,
        Some(Request::Reinstall) => true,
        None => false,
    }
}

impl Holders {
    fn none() -> Holders
        ensures { result ≡ nobody }
    {
        Holders {
            local: false,
            reinstalled: false,
            wanted: false,
            recorded: false,
        }
    }

    /// What these and other features say.
    fn with(self, other: Holders) -> Holders
        ensures { result ≡ both self other }
    {
        Holders {
            local: self.local || other.local,
            reinstalled: self.reinstalled || other.reinstalled,
            wanted: self.wanted || other.wanted,
            recorded: self.recorded || other.recorded,
        }
    }

    /// What one feature says.
    fn of(choice: Option<FeatureChoice>, recorded: bool) -> Holders
        ensures { result ≡ says choice recorded }
    {
        match choice {
            Some(choice) => Holders {
                local: is_local(choice.request),
                reinstalled: is_reinstall(choice.request),
                wanted: choice.local_after,
                recorded,
            },
            None => Holders {
                local: false,
                reinstalled: false,
                wanted: false,
                recorded,
            },
        }
    }
}

/// What is said of a component.
pub fn held_at(held: &Held, component: &str) -> Holders
    ensures { result ≡ held_at held.now component.now }
{
    match held.get(component) {
        Some(holders) => *holders,
        None => Holders::none(),
    }
}

fn put<'a>(held: &mut Held<'a>, component: &'a str, holders: Holders) -> Result<(), NoMemory>
    ensures { OnOk result ((q : Name) → held_at held.new q ≡ (if same_name q component.now then holders else held_at held.old q)) }
{
    held.insert(component, holders)?;
    Ok(())
}

fn add<'a>(held: &mut Held<'a>, component: &'a str, holders: Holders) -> Result<(), NoMemory>
    ensures { OnOk result ((q : Name) → held_at held.new q ≡ (if same_name q component.now then both (held_at held.old q) holders else held_at held.old q)) }
{
    let all = held_at(held, component).with(holders);
    put(held, component, all)?;
    Ok(())
}

/// What becomes of the feature at a place in file order.
fn choice_at(asked: &Asked, place: usize) -> Option<FeatureChoice>
    ensures { result ≡ slice_get asked.now.features.items place }
{
    match asked.features.get(place) {
        Some(choice) => Some(*choice),
        None => None,
    }
}

/// What becomes of the feature of this name.
fn choice_named(loaded: &Package, asked: &Asked, feature: &Text) -> Option<FeatureChoice>
    requires { IsLawful loaded.now }
    ensures { result ≡ choice_named (rows_in loaded.now).feature asked.now.features.items feature.now }
{
    keys_stand(loaded);
    match loaded.feature.get_index_of(feature) {
        Some(place) => choice_at(asked, place),
        None => None,
    }
}

/// What the feature of a row says of the row's component.
fn said_in(
    loaded: &Package,
    asked: &Asked,
    recorded: &BTreeSet<Text>,
    row: &FeatureComponentsRow,
) -> Holders
    requires { IsLawful loaded.now }
    ensures { result ≡ said_in (rows_in loaded.now).feature asked.now.features.items recorded.now row.now }
{
    let choice = choice_named(loaded, asked, &row.feature);
    Holders::of(choice, recorded.contains(&row.feature))
}

/// What the features say of the components that they hold (FeatureComponents Table).
pub fn held_by<'a>(
    alloc: Global,
    loaded: &'a Package,
    asked: &Asked,
    recorded: &BTreeSet<Text>,
) -> Result<Held<'a>, NoMemory>
    requires { IsLawful loaded.now }
    ensures { IfOk result (AreHeld (rows_in loaded.now) asked.now.features.items recorded.now) }
{
    let mut held = BTreeMap::new(alloc);
    for row in loaded.feature_components.values() {
        let holders = said_in(loaded, asked, recorded, row);
        add(&mut held, row.component.as_str(), holders)?;
    }
    Ok(held)
}
