//! The selection that CostFinalize makes.

ghost use Rattle.std.specs.Prelude.{◌≡◌, ◌++◌, ◌∷◌, [], unwrap_or, option_map, map, IfOk, OnOk};
ghost use Rattle.std.specs.Option.{option_flatten};
ghost use Rattle.mi_text.specs.Maps.{is_among};
ghost use Rattle.mi_model.specs.Components.{is_made_local, is_made_absent};
ghost use Rattle.mi_model.specs.States.{named};
ghost use Rattle.mi_components.specs.Actions.{action_to};
ghost use Rattle.mi_wishes.specs.Choices.{request_to};
ghost use Rattle.mi_select.specs.Selections.{as_named, names_that};

use indexmap::IndexMap;
use mi_base::{NoMemory, Text};
use mi_components::{Action, ComponentChoice, is_absent, is_local};
use mi_features::{FeatureChoice, Request};
use mi_fver::Mode;
use std::alloc::Global;
use std::marker::Model;

/// What becomes of a component.
#[derive(Drop)]
pub(crate) struct Chosen {
    pub choice: ComponentChoice,
    /// Whether it is installed.
    pub coming: bool,
    /// Whether what it brought is taken away.
    pub leaving: bool,
    /// Whether what it brought stays.
    pub kept: bool,
    /// The text of its key path.
    pub key_path: Text,
}

/// What the features and components of a package come to, by their names, in key order (CostFinalize Action; Feature Table;
/// Component Table). The look-ups take no memory; of what is no feature or component they tell nothing.
#[derive(Drop)]
pub struct Selection {
    pub(crate) features: IndexMap<String, FeatureChoice>,
    pub(crate) components: IndexMap<String, Chosen>,
    pub(crate) mode: Mode,
}

impl Model for Selection {
    ghost use Rattle.std.specs.Prelude.{map};
    ghost use Rattle.std.specs.String.{string_eq};
    ghost use Rattle.indexmap.specs.IndexMap.{IsUnique};
    ghost use Rattle.mi_model.specs.World as world;

    ghost Value = { world.Selection };

    ghost use Rattle.mi_select.specs.Selections.{as_named, selection_of};

    ghost view = { λ s. selection_of (map as_named s.features.entries) (map as_named s.components.entries) s.mode };

    ghost invariant = { λ s. IsUnique string_eq s.components };
}

impl Selection {
    /// What is asked of a feature (ADDLOCAL, REMOVE and REINSTALL Properties).
    pub fn request(&self, feature: &str) -> Option<Request>
        ensures { option_map request_to result ≡ option_flatten (named feature.now self.now.requests) }
    {
        match self.features.get(feature) {
            Some(choice) => choice.request,
            None => None,
        }
    }

    /// What is done to a component (Component Table).
    pub fn action(&self, component: &str) -> Option<Action>
        ensures { option_map action_to result ≡ option_flatten (named component.now self.now.actions) }
    {
        match self.components.get(component) {
            Some(chosen) => chosen.choice.action,
            None => None,
        }
    }

    /// Whether a component is installed: it is to be local, but not where attribute 128 is set and its key path is there
    /// (Component Table, Attributes).
    pub fn comes(&self, component: &str) -> bool
        ensures { result ≡ is_among component.now self.now.coming }
    {
        match self.components.get(component) {
            Some(chosen) => chosen.coming,
            None => false,
        }
    }

    /// Whether what a component brought is taken away: it is to be absent, isn't permanent, no other product and not the system
    /// is its client, and by its count no others hold its file (Component Table, Attributes).
    pub fn leaves(&self, component: &str) -> bool
        ensures { result ≡ is_among component.now self.now.leaving }
    {
        match self.components.get(component) {
            Some(chosen) => chosen.leaving,
            None => false,
        }
    }

    /// Whether what a component brought stays: it is to be local, or it is there and doesn't leave.
    pub fn keeps(&self, component: &str) -> bool
        ensures { result ≡ is_among component.now self.now.kept }
    {
        match self.components.get(component) {
            Some(chosen) => chosen.kept,
            None => false,
        }
    }

    /// Whether a component is to be local.
    pub fn is_local(&self, component: &str) -> bool
        ensures { result ≡ is_made_local (option_flatten (named component.now self.now.actions)) }
    {
        is_local(self.action(component))
    }

    /// Whether a component is to be absent.
    pub fn is_absent(&self, component: &str) -> bool
        ensures { result ≡ is_made_absent (option_flatten (named component.now self.now.actions)) }
    {
        is_absent(self.action(component))
    }

    /// The text of a component's key path (Component Table, KeyPath).
    pub fn key_path(&self, component: &str) -> &str
        ensures { result.now ≡ unwrap_or (named component.now self.now.key_paths) [] }
    {
        match self.components.get(component) {
            Some(chosen) => chosen.key_path.as_str(),
            None => "",
        }
    }

    /// The letters of REINSTALLMODE (REINSTALLMODE Property).
    pub fn mode(&self) -> Mode
        ensures { result ≡ self.now.mode }
    {
        self.mode
    }

    /// The features that are installed after the run, in byte order.
    pub fn local_after(&self, alloc: Global) -> Result<Vec<Text>, NoMemory>
        ensures { IfOk result (λ names. names.items ≡ self.now.local_after) }
    {
        let names = local_names(alloc, &self.features)?;
        Ok(names)
    }
}

/// Adds the feature's name where it is installed after the run.
fn push_local(
    alloc: Global,
    names: &mut Vec<Text>,
    name: &String,
    choice: FeatureChoice,
) -> Result<(), NoMemory>
    ensures { OnOk result (names.new.items ≡ names.old.items ++ names_that (λ f. f.local_after) (as_named (name.now, choice) ∷ [])) }
{
    if !choice.local_after {
        return Ok(());
    }
    names.push(Text::copy_of(alloc, name.as_str())?)?;
    Ok(())
}

/// The names of the features that are installed after the run, in their order.
fn local_names(
    alloc: Global,
    features: &IndexMap<String, FeatureChoice>,
) -> Result<Vec<Text>, NoMemory>
    ensures { IfOk result (λ names. names.items ≡ names_that (λ f. f.local_after) (map as_named features.now.entries)) }
{
    let mut names = Vec::new(alloc);
    for (name, choice) in features {
        push_local(alloc, &mut names, name, *choice)?;
    }
    Ok(names)
}
