//! The files of a folder whose names are of a pattern (RemoveFile table; WildCardFilename).

ghost use Rattle.std.specs.Prelude.{◌≡◌, ◌∷◌, ◌&&◌, ◌||◌, not, [], List, ℕ, Bool, if◌then◌else◌, Some, None, IfOk, OnOk, filter, map};
ghost use Rattle.std.specs.FinMap.{keys};
ghost use Rattle.std.specs.Str.{bytes_eq};
ghost use Rattle.mi_text.specs.Fold.{folded};
ghost use Rattle.mi_text.specs.Maps.{Map};
ghost use Rattle.mi_text.specs.Path.{up_to_last, last_part};
ghost use Rattle.mi_base.specs.Names.{file_name};
ghost use Rattle.mi_changes.specs.Touches.{Clear};
ghost use Rattle.mi_dirs.specs.Views.{IsFolder};
ghost use Rattle.mi_image.specs.Items.{machine_over, AreRight};
ghost use Rattle.mi_model.specs.Patterns.{has_pattern};
ghost use Rattle.mi_steps.specs.Makes.{Makes};
ghost use Rattle.mi_records.specs.Keeps.{Keeps};
ghost use Rattle.mi_records.specs.Removing.{Guards};
ghost use Rattle.mi_files.specs.Taking.{takes};

use crate::names::{name_of_file, split_last};
use mi_base::{Name, NoMemory, PathText, fold};
use mi_image::Image;
use mi_patterns::has_pattern;
use mi_steps::Plan;
use std::alloc::Global;
use std::collections::BTreeSet;

/// What a row of RemoveFile takes: the files that lie directly in a folder under names of a pattern, those that are guarded too
/// where the row is of a local component.
#[derive(Clone, Copy)]
pub struct Taking<'a> {
    pub folder: &'a PathText,
    pub pattern: &'a str,
    pub local: bool,
    pub guards: &'a BTreeSet<Name>,
}

// What stands in an image may stand there.
fn stands_right(image: &Image)
    ensures { AreRight image.now }
{
    let _none = image.get("");
}

// Whether a file lies directly in a folder, whose path is folded, under a name of a pattern.
fn lies_in(alloc: Global, folder: &str, pattern: &str, path: &PathText) -> Result<bool, NoMemory>
    ensures { IfOk result (λ b. b ≡ (bytes_eq (up_to_last (folded path.now)) folder.now && has_pattern pattern.now (last_part (folded path.now)))) }
{
    let path = fold(alloc, path.as_str())?;
    let (front, name) = split_last(path.as_str());
    if front != folder {
        return Ok(false);
    }
    has_pattern(alloc, pattern, name)
}

// Whether what lies in the folder goes.
fn may_go(taking: Taking<'_>, name: &Name) -> bool
    ensures { (guarded : List ℕ → Bool) → Guards taking.entry.guards.now guarded → result ≡ (taking.entry.local || not (guarded name.now)) }
{
    taking.local || !taking.guards.contains(name)
}

// The name of the file of a path that lies in the folder, where it goes.
fn unguarded(alloc: Global, taking: Taking<'_>, path: &PathText) -> Result<Option<Name>, NoMemory>
    ensures { (guarded : List ℕ → Bool) → Guards taking.entry.guards.now guarded → IfOk result (λ name. name ≡ (if taking.entry.local || not (guarded (file_name path.now)) then Some (file_name path.now) else None)) }
{
    let name = name_of_file(alloc, path)?;
    if may_go(taking, &name) {
        Ok(Some(name))
    } else {
        Ok(None)
    }
}

// The name of the file of a path, where it goes.
fn taken(
    alloc: Global,
    taking: Taking<'_>,
    folder: &str,
    path: &PathText,
) -> Result<Option<Name>, NoMemory>
    requires { folder.now ≡ folded taking.folder.now }
    ensures { (guarded : List ℕ → Bool) → Guards taking.entry.guards.now guarded → IfOk result (λ name. name ≡ (if takes guarded taking.entry.local taking.entry.folder.now taking.entry.pattern.now (file_name path.now) then Some (file_name path.now) else None)) }
{
    if lies_in(alloc, folder, taking.pattern, path)? {
        unguarded(alloc, taking, path)
    } else {
        Ok(None)
    }
}

// The names of those files that go, of these.
fn all_taken(
    alloc: Global,
    taking: Taking<'_>,
    folder: &str,
    paths: &[PathText],
) -> Result<Vec<Name>, NoMemory>
    requires { folder.now ≡ folded taking.folder.now }
    ensures { (guarded : List ℕ → Bool) → Guards taking.entry.guards.now guarded → IfOk result (λ names. names.items ≡ filter (takes guarded taking.entry.local taking.entry.folder.now taking.entry.pattern.now) (map file_name paths.now)) }
{
    let mut names = Vec::new(alloc);
    for path in paths {
        if let Some(name) = taken(alloc, taking, folder, path)? {
            names.push(name)?;
        }
    }
    Ok(names)
}

// The names of the files that go, in byte order.
fn names_taken(alloc: Global, image: &Image, taking: Taking<'_>) -> Result<Vec<Name>, NoMemory>
    requires { IsFolder taking.folder.now }
    ensures { (guarded : List ℕ → Bool) (held files : Map (List ℕ)) → Guards taking.entry.guards.now guarded → IfOk result (λ names. names.items ≡ filter (takes guarded taking.entry.local taking.entry.folder.now taking.entry.pattern.now) (keys (machine_over held files image.now))) }
{
    stands_right(image);
    let folder = fold(alloc, taking.folder.as_str())?;
    let paths = image.files_below(alloc, taking.folder)?;
    all_taken(alloc, taking, folder.as_str(), paths.as_slice())
}

/// Takes those files away. It costs a search, a comparison for each file in the folder or below it, and a search for each that
/// goes.
pub fn take_matching(alloc: Global, plan: &mut Plan, taking: Taking<'_>) -> Result<(), NoMemory>
    requires { IsFolder taking.folder.now }
    ensures makes { (guarded : List ℕ → Bool) (held files : Map (List ℕ)) → Guards taking.entry.guards.now guarded → OnOk result (Makes held files plan.old plan.new (Clear (takes guarded taking.entry.local taking.entry.folder.now taking.entry.pattern.now) ∷ [])) }
    ensures keeps { Keeps plan.old plan.new }
{
    let names = names_taken(alloc, plan.overlay.image(), taking)?;
    plan.drop_names(alloc, names.as_slice())?;
    Ok(())
}
