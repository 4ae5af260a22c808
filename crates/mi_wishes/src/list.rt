//! The lists of features that properties hold.

ghost use Rattle.std.specs.Prelude.{◌≡◌, ◌++◌, ◌∷◌, ◌||◌, [], ◌==◌, not, filter, find, length, codes, None, Some, IfOk, OnOk, option_copied, option_map};
ghost use Rattle.std.specs.List.{list_any};
ghost use Rattle.std.specs.BTreeSet.{contains};
ghost use Rattle.mi_text.specs.Maps.{Name, name_cmp, is_among};
ghost use Rattle.mi_base.specs.declared.answers.Fault.TheVariants.{UnknownFeature as unknown_feature, AddSource as add_source};
ghost use Rattle.mi_schema.specs.Lawful.{IsLawful};
ghost use Rattle.mi_schema.specs.RowsOf.{rows_in};
ghost use Rattle.mi_model.specs.Texts.{Text as Bytes};
ghost use Rattle.mi_model.specs.FeatureLists.{items_of, is_all, unknown_in, add_source_in, lists_fault};
ghost use Rattle.mi_wishes.specs.Answers.{Refuses, Checks};
ghost use Rattle.mi_wishes.specs.Lists.{is_item, is_known, is_unknown, none_is_set, IsList, AreLists};

use crate::error::SelectError;
use mi_base::{Env, Fault, NoMemory, Text};
use mi_schema::{Package, keys_stand};
use std::alloc::Global;
use std::collections::BTreeSet;

/// What a list of features names.
#[derive(Drop)]
pub struct FeatureList {
    /// Whether it names all features.
    pub all: bool,
    pub names: BTreeSet<Text>,
}

/// The lists of features that the properties hold.
#[derive(Drop)]
pub struct Lists {
    pub add_local: FeatureList,
    pub remove: FeatureList,
    pub add_default: FeatureList,
    pub reinstall: FeatureList,
    /// Whether no such property is set, nor ADDSOURCE.
    pub none: bool,
}

fn push_item(alloc: Global, items: &mut Vec<Text>, part: &str) -> Result<(), NoMemory>
    ensures { OnOk result (items.new.items ≡ items.old.items ++ filter is_item (part.now ∷ [])) }
{
    if part.is_empty() {
        return Ok(());
    }
    items.push(Text::copy_of(alloc, part)?)?;
    Ok(())
}

/// The items between the commas that aren't empty.
fn items_of(alloc: Global, text: &str) -> Result<Vec<Text>, NoMemory>
    ensures { IfOk result (λ items. items.items ≡ items_of text.now) }
{
    let mut items = Vec::new(alloc);
    for part in text.split(',') {
        push_item(alloc, &mut items, part)?;
    }
    Ok(items)
}

fn is_all(item: &Text) -> bool
    ensures { result ≡ is_all item.now }
{
    item.as_str() == "ALL"
}

/// Whether an item names a feature, or all.
fn is_known(loaded: &Package, item: &Text) -> bool
    requires { IsLawful loaded.now }
    ensures { result ≡ is_known (rows_in loaded.now) item.now }
{
    keys_stand(loaded);
    is_all(item) || loaded.feature.contains_key(item)
}

fn first_unknown<'a>(loaded: &Package, items: &'a [Text]) -> Option<&'a Text>
    requires { IsLawful loaded.now }
    ensures { option_copied result ≡ find (is_unknown (rows_in loaded.now)) items.now }
{
    for item in items {
        if !is_known(loaded, item) {
            return Some(item);
        }
    }
    None
}

fn unknown(alloc: Global, item: &Text) -> SelectError
    ensures { Refuses result (unknown_feature item.now) }
{
    match Text::copy_of(alloc, item.as_str()) {
        Ok(item) => SelectError::Fault(Fault::UnknownFeature(item)),
        Err(_) => SelectError::NoMemory,
    }
}

fn any_all(items: &[Text]) -> bool
    ensures { result ≡ list_any is_all items.now }
{
    for item in items {
        if is_all(item) {
            return true;
        }
    }
    false
}

/// These texts as a set, by name.
pub fn set_of(alloc: Global, items: &[Text]) -> Result<BTreeSet<Text>, NoMemory>
    ensures { IfOk result (λ set. (q : Name) → contains name_cmp set q ≡ is_among q items.now) }
{
    let mut set = BTreeSet::new(alloc);
    for item in items {
        set.insert(Text::copy_of(alloc, item.as_str())?)?;
    }
    Ok(set)
}

/// Refuses with the first item that names no feature.
fn check_items(alloc: Global, loaded: &Package, items: &[Text]) -> Result<(), SelectError>
    requires { IsLawful loaded.now }
    ensures { Checks result (option_map unknown_feature (find (is_unknown (rows_in loaded.now)) items.now)) (λ _. Unit {0}) }
{
    match first_unknown(loaded, items) {
        Some(item) => Err(unknown(alloc, item)),
        None => Ok(()),
    }
}

fn kept(alloc: Global, items: &[Text]) -> Result<FeatureList, NoMemory>
    ensures { IfOk result (λ l. (list : Bytes) → items.now ≡ items_of list → IsList list l) }
{
    let all = any_all(items);
    let names = set_of(alloc, items)?;
    Ok(FeatureList { all, names })
}

impl FeatureList {
    /// The list that a text is: names joined by `,`, where `ALL` names all features. Refused with the first item that names
    /// none.
    pub fn read(alloc: Global, loaded: &Package, text: &str) -> Result<FeatureList, SelectError>
        requires { IsLawful loaded.now }
        ensures { Checks result (unknown_in (rows_in loaded.now) text.now) (IsList text.now) }
    {
        let items = items_of(alloc, text)?;
        check_items(alloc, loaded, &items)?;
        let list = kept(alloc, &items)?;
        Ok(list)
    }

    /// Whether it names this feature.
    pub fn names(&self, feature: &Text) -> bool
        ensures { result ≡ (self.now.all || contains name_cmp self.now.names feature.now) }
    {
        self.all || self.names.contains(feature)
    }
}

fn no_source(text: &str) -> Result<(), SelectError>
    ensures { Checks result (add_source_in text.now) (λ _. Unit {0}) }
{
    if text.is_empty() {
        Ok(())
    } else {
        Err(SelectError::Fault(Fault::AddSource))
    }
}

fn none_is_set<E: Env>(env: &E) -> bool
    ensures { result ≡ none_is_set (E.lookups env.now) }
{
    env.property("ADDLOCAL").is_empty()
        && env.property("REMOVE").is_empty()
        && env.property("ADDSOURCE").is_empty()
        && env.property("ADDDEFAULT").is_empty()
        && env.property("REINSTALL").is_empty()
}

impl Lists {
    /// The lists of the properties. Refused, in the order ADDLOCAL, REMOVE, ADDSOURCE, ADDDEFAULT and REINSTALL, with the
    /// first item that names no feature, or with AddSource where ADDSOURCE isn't empty. The package is lawful.
    #[tactic(auto, unfolding(mi_model::specs::FeatureLists::lists_fault))]
    pub fn read<E: Env>(alloc: Global, loaded: &Package, env: &E) -> Result<Lists, SelectError>
        requires { IsLawful loaded.now }
        ensures { Checks result (lists_fault (rows_in loaded.now) (E.lookups env.now)) (AreLists (E.lookups env.now)) }
    {
        let add_local = FeatureList::read(alloc, loaded, env.property("ADDLOCAL"))?;
        let remove = FeatureList::read(alloc, loaded, env.property("REMOVE"))?;
        no_source(env.property("ADDSOURCE"))?;
        let add_default = FeatureList::read(alloc, loaded, env.property("ADDDEFAULT"))?;
        let reinstall = FeatureList::read(alloc, loaded, env.property("REINSTALL"))?;
        Ok(Lists {
            add_local,
            remove,
            add_default,
            reinstall,
            none: none_is_set(env),
        })
    }
}
