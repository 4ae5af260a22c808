//! What an action sees.

ghost use Rattle.std.specs.Prelude.{◌≡◌, IsSome, OnOk, Some, option_map};
ghost use Rattle.mi_dirs.specs.Places.{row_of};
ghost use Rattle.mi_schema.specs.RowsOf.{rows_in};
ghost use Rattle.mi_model.specs.States.{action_state, request_state, installed_state};
ghost use Rattle.mi_components.specs.Actions.{action_to};
ghost use Rattle.mi_wishes.specs.Choices.{request_to};
ghost use Rattle.mi_world.specs.Places.{AreKeptPaths};
ghost use Rattle.mi_world.specs.Seen.{seen_lookups, kept_state, dirs_in, with_target, AreMoved, HaveMoved, IsRow};
ghost use Rattle.mi_world.specs.declared.placed.Placed as placed;

use crate::directories::set_directories;
use crate::error::{WorldError, directory_fault};
use crate::known::Known;
use crate::placed::{Placed, files_bound, files_of};
use crate::properties::Properties;
use crate::table::Table;
use mi_base::{Env, Sign};
use mi_dirs::{DirError, Dirs};
use mi_features::Request;
use mi_format::BoundedEnv;
use mi_schema::Package;
use mi_select::{Action, Selection};
use std::alloc::Global;

/// What an action sees: the package, its properties and the former machine's variables, and from CostFinalize on the
/// directories, the files' paths and the selection. Its look-ups lend texts without memory (Formatted; Conditional Statement
/// Syntax).
#[derive(Drop)]
pub struct Seen {
    pub(crate) loaded: Package,
    pub(crate) props: Properties,
    pub(crate) known: Known,
    pub(crate) moment: u64,
    pub(crate) placed: Option<Placed>,
    pub(crate) selection: Option<Selection>,
}

// 3 where it is there, 2 where it isn't, and -1 where it is unknown.
fn installed_state(there: Option<bool>) -> i32
    ensures { result ≡ installed_state there }
{
    match there {
        Some(true) => 3,
        Some(false) => 2,
        None => -1,
    }
}

// 3 for local, 2 for absent, and -1 for neither.
fn action_state(action: Option<Action>) -> i32
    ensures { result ≡ action_state (Some (option_map action_to action)) }
{
    match action {
        Some(Action::MakeLocal) => 3,
        Some(Action::MakeAbsent) => 2,
        None => -1,
    }
}

fn request_state(request: Option<Request>) -> i32
    ensures { result ≡ request_state (Some (option_map request_to request)) }
{
    match request {
        Some(Request::Local | Request::Reinstall) => 3,
        Some(Request::Absent) => 2,
        None => -1,
    }
}

fn kept_state(known: &Known, selection: &Selection, sign: Sign, key: &str) -> i32
    ensures { result ≡ kept_state known.now (Some selection.now) sign key.now }
{
    match sign {
        Sign::Action => action_state(selection.action(key)),
        Sign::Installed => installed_state(known.present.get(key)),
        Sign::FeatureAction => request_state(selection.request(key)),
        Sign::FeatureInstalled => installed_state(known.recorded.get(key)),
    }
}

impl Seen {
    /// The package.
    pub fn package(&self) -> &Package
        ensures { result.now ≡ self.now.loaded }
    {
        &self.loaded
    }

    /// The properties as they stand.
    pub fn props(&self) -> &Properties
        ensures { result.now ≡ self.now.props }
    {
        &self.props
    }

    /// The moment that new files carry, in seconds.
    pub fn now(&self) -> u64
        ensures { result ≡ self.now.moment }
    {
        self.moment
    }

    /// The directories as they stand, behind CostFinalize.
    pub fn dirs(&self) -> &Dirs
        requires { IsSome self.now.placed }
        ensures { dirs_in self.now ≡ Some result.now }
    {
        match &self.placed {
            Some(placed) => &placed.dirs,
            None => unreachable!(),
        }
    }

    /// The selection that CostFinalize made.
    pub fn selection(&self) -> &Selection
        requires { IsSome self.now.selection }
        ensures { self.now.selection ≡ Some result.now }
    {
        match &self.selection {
            Some(selection) => selection,
            None => unreachable!(),
        }
    }
}

// The directory's target is from now on the folder that the text names, and the files' paths follow.
fn moved(
    alloc: Global,
    loaded: &Package,
    directories: &Table,
    placed: &mut Placed,
    directory: &str,
    text: &str,
) -> Result<(), WorldError>
    requires { IsSome (row_of placed.old.dirs directory.now) }
    ensures dirs { AreMoved result (with_target directory.now text.now placed.old.dirs) placed.new.dirs }
    ensures files { OnOk result (AreKeptPaths directories.now placed.new.dirs (rows_in loaded.now).file 0 placed.new.files) }
{
    match placed.dirs.set(alloc, directory, text) {
        Ok(()) => {
            placed.files = files_of(alloc, loaded, directories, &placed.dirs)?;
            Ok(())
        }
        Err(DirError::NoMemory) => Err(WorldError::NoMemory),
        Err(DirError::Fault(fault)) => {
            let fault = directory_fault(alloc, fault)?;
            Err(WorldError::Fault(fault))
        }
    }
}

impl Seen {
    /// The directory's target is from now on the folder that a text names, and the files' paths and the properties of directories
    /// follow.
    pub(crate) fn set_dir(
        &mut self,
        alloc: Global,
        directory: &str,
        text: &str,
    ) -> Result<(), WorldError>
        requires placed { IsSome self.old.placed }
        requires row { IsRow self.old directory.now }
        ensures { (p : placed.Placed) → self.old.placed ≡ Some p → HaveMoved result (rows_in self.old.loaded) (with_target directory.now text.now p.dirs) self.old self.new }
    {
        match &mut self.placed {
            Some(placed) => {
                moved(
                    alloc,
                    &self.loaded,
                    &self.known.directories,
                    placed,
                    directory,
                    text,
                )?;
                set_directories(alloc, &self.loaded, &placed.dirs, &mut self.props)?;
                Ok(())
            }
            None => unreachable!(),
        }
    }
}

impl Env for Seen {
    ghost lookups = { seen_lookups };

    fn property(&self, name: &str) -> &str {
        self.props.get(name)
    }

    fn variable(&self, name: &str) -> &str {
        self.known.variables.get(name)
    }

    fn file(&self, key: &str) -> &str {
        match &self.placed {
            Some(placed) => placed.file(key),
            None => "",
        }
    }

    fn folder(&self, key: &str) -> &str {
        match &self.placed {
            Some(placed) => placed.folder(&self.known.directories, key),
            None => "",
        }
    }

    fn state(&self, sign: Sign, key: &str) -> i32 {
        match &self.selection {
            Some(selection) => kept_state(&self.known, selection, sign, key),
            None => -1,
        }
    }
}

impl BoundedEnv for Seen {
    fn name_bound(&self) -> usize {
        let texts = self
            .props
            .name_bound()
            .max(self.known.variables.name_bound());
        let keys = self
            .known
            .directories
            .name_bound()
            .max(files_bound(&self.placed));
        texts.max(keys)
    }
}
