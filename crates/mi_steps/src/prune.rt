//! Pruning: the folders or keys that a phase leaves without use.

ghost use Rattle.std.specs.Prelude.{◌≡◌, ◌∷◌, [], List, ℕ, Some, None, map, filter, is_some, IfOk, OnOk, true, if◌then◌else◌};
ghost use Rattle.std.specs.List.{filter_map};
ghost use Rattle.std.specs.FinMap.{get, keys};
ghost use Rattle.mi_text.specs.Maps.{Map};
ghost use Rattle.mi_base.specs.Limits.{fits};
ghost use Rattle.mi_base.specs.Spelling.{name_of};
ghost use Rattle.mi_changes.specs.Touches.{Clear};
ghost use Rattle.mi_image.specs.Items.{item_name, item_fits, machine_over, AreThere};
ghost use Rattle.mi_image.specs.Overlays.{former_items, present_items};
ghost use Rattle.mi_steps.specs.Follows.{Grows};
ghost use Rattle.mi_steps.specs.Makes.{Makes, plan_machine};
ghost use Rattle.mi_model.specs.Prune.{goes};
ghost use Rattle.mi_steps.specs.Trees.{seat_in, keeps, passes};

use crate::heads::head_name;
use crate::places::Places;
use crate::plan::Plan;
use crate::seats::{Place, Tree, place_in};
use mi_base::{Bytes, EncError, Entry, Name, NoMemory, enc_entry};
use mi_image::{Image, Item};
use std::alloc::Global;

// The place of a name that keeps the holders it lies in.
fn keeping(
    alloc: Global,
    tree: Tree,
    touched: &Places,
    name: &str,
) -> Result<Option<Bytes>, NoMemory>
    ensures { IfOk result (λ place. place ≡ keeps touched.now (seat_in tree name.now)) }
{
    match place_in(alloc, tree, name.as_bytes())? {
        Place::Holder(place) if touched.are_on_way(place.as_slice()) => Ok(None),
        Place::Holder(place) => Ok(Some(place)),
        Place::Leaf(place) => Ok(Some(place)),
        Place::Apart => Ok(None),
    }
}

// The places of names that keep the holders they lie in.
fn all_keeping(
    alloc: Global,
    tree: Tree,
    touched: &Places,
    names: &[&str],
) -> Result<Vec<Bytes>, NoMemory>
    ensures { IfOk result (λ places. places.items ≡ filter_map (λ q. keeps touched.now (seat_in tree q)) (map (λ n. n.now) names.now)) }
{
    let mut places = Vec::new(alloc);
    for name in names {
        if let Some(place) = keeping(alloc, tree, touched, name)? {
            places.push(place)?;
        }
    }
    Ok(places)
}

// What decides which holders of a tree go: the touched places, those that are protected, and those of what is held
/// that keep the holders they lie in.
#[derive(Drop)]
struct Rule {
    tree: Tree,
    touched: Places,
    protected: Places,
    kept: Places,
}

// Whether a name goes.
fn goes(alloc: Global, rule: &Rule, name: &str) -> Result<bool, NoMemory>
    ensures { IfOk result (λ b. b ≡ passes rule.now.touched rule.now.protected rule.now.kept (seat_in rule.now.tree name.now)) }
{
    match place_in(alloc, rule.tree, name.as_bytes())? {
        Place::Holder(place) => Ok(
            rule.touched.are_on_way(place.as_slice())
                && !rule.protected.are_on_way(place.as_slice())
                && !rule.kept.are_on_way(place.as_slice()),
        ),
        Place::Leaf(_) => Ok(false),
        Place::Apart => Ok(false),
    }
}

// The name of an entry.
fn entry_name(alloc: Global, entry: &Entry) -> Result<Name, NoMemory>
    requires { fits entry.now ≡ true }
    ensures { IfOk result (λ name. name ≡ name_of entry.now) }
{
    match enc_entry(alloc, entry) {
        Ok((name, _)) => Ok(name),
        Err(EncError::NoMemory) => Err(NoMemory),
        Err(EncError::Field) => unreachable!(),
    }
}

// The name of what an item stands for.
fn name_of_item(alloc: Global, item: &Item) -> Result<Name, NoMemory>
    requires { item_fits item.now ≡ true }
    ensures { IfOk result (λ name. name ≡ item_name item.now) }
{
    match item {
        Item::Whole(entry) => entry_name(alloc, entry),
        Item::Head(head, _) => head_name(alloc, head),
    }
}

// A name of an image.
fn held_name(alloc: Global, image: &Image, name: &str) -> Result<Name, NoMemory>
    requires { is_some (get image.now name.now) ≡ true }
    ensures { IfOk result (λ own. own ≡ name.now) }
{
    match image.get(name) {
        Some(item) => name_of_item(alloc, item),
        None => unreachable!(),
    }
}

// A name, where it goes.
fn gone(alloc: Global, image: &Image, rule: &Rule, name: &str) -> Result<Option<Name>, NoMemory>
    requires { is_some (get image.now name.now) ≡ true }
    ensures { IfOk result (λ n. n ≡ (if passes rule.now.touched rule.now.protected rule.now.kept (seat_in rule.now.tree name.now) then Some name.now else None)) }
{
    if goes(alloc, rule, name)? {
        Ok(Some(held_name(alloc, image, name)?))
    } else {
        Ok(None)
    }
}

// The names that go, in order.
fn all_gone(
    alloc: Global,
    image: &Image,
    rule: &Rule,
    names: &[&str],
) -> Result<Vec<Name>, NoMemory>
    requires { map (λ n. n.now) names.now ≡ keys image.now }
    ensures { IfOk result (λ gone. gone.items ≡ filter (λ q. passes rule.now.touched rule.now.protected rule.now.kept (seat_in rule.now.tree q)) (keys image.now)) }
{
    let mut all = Vec::new(alloc);
    for name in names {
        if let Some(name) = gone(alloc, image, rule, name)? {
            all.push(name)?;
        }
    }
    Ok(all)
}

// The names that pruning takes, in byte order.
fn names_gone(
    alloc: Global,
    image: &Image,
    tree: Tree,
    touched: Places,
    protected: Places,
) -> Result<Vec<Name>, NoMemory>
    ensures { (held files : Map (List ℕ)) → IfOk result (λ gone. gone.items ≡ filter (goes (seat_in tree) (keys (machine_over held files image.now)) touched protected) (keys (machine_over held files image.now))) }
{
    let names = image.names(alloc, "")?;
    let kept = Places::of(all_keeping(alloc, tree, &touched, names.as_slice())?);
    let rule = Rule {
        tree,
        touched,
        protected,
        kept,
    };
    all_gone(alloc, image, &rule, names.as_slice())
}

impl Plan {
    /// Prunes a tree: takes away the folders or keys that a phase left without use, over the places that it touched and
    /// those that are protected, in folded bytes. A place ends with a backslash; that of a key begins with the digit of its
    /// root. It costs a sort of the places of what is held, and three searches for each holder; nothing where nothing was touched
    /// (this project's own).
    pub fn prune(
        &mut self,
        alloc: Global,
        tree: Tree,
        touched: Vec<Bytes>,
        protected: Vec<Bytes>,
    ) -> Result<(), NoMemory>
        ensures makes { (held files : Map (List ℕ)) → OnOk result (Makes held files self.old self.new (Clear (goes (seat_in tree) (keys (plan_machine held files self.old)) touched.items protected.items) ∷ [])) }
        ensures there { (held files : Map (List ℕ)) → AreThere held files (present_items self.old.overlay) → AreThere held files (present_items self.new.overlay) }
        ensures former { former_items self.new.overlay ≡ former_items self.old.overlay }
        ensures grows { Grows self.old.script self.new.script }
    {
        if touched.is_empty() {
            return Ok(());
        }
        let touched = Places::of(touched);
        let protected = Places::of(protected);
        let gone = names_gone(alloc, self.overlay.image(), tree, touched, protected)?;
        self.drop_names(alloc, gone.as_slice())?;
        Ok(())
    }
}
