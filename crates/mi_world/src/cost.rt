//! What CostFinalize makes of what is seen.

ghost use Rattle.std.specs.Prelude.{◌≡◌, List, ℕ, IsSome, None, Some, OnOk};
ghost use Rattle.mi_text.specs.Maps.{Map};
ghost use Rattle.mi_dirs.specs.Places.{Place};
ghost use Rattle.mi_image.specs.Items.{machine_over};
ghost use Rattle.mi_schema.specs.Lawful.{IsLawful};
ghost use Rattle.mi_schema.specs.RowsOf.{rows_in};
ghost use Rattle.mi_model.specs.World.{Given, Selection as Choice};
ghost use Rattle.mi_model.specs.Properties as model;
ghost use Rattle.mi_model.specs.Selecting as selecting;
ghost use Rattle.mi_steps.specs.declared.plan.Plan.{Plan};
ghost use Rattle.mi_world.specs.Costs.{Finds, Chooses, with_choice, IsCostedFrom};
ghost use Rattle.mi_world.specs.Seen.{world_over, dirs_in, Becomes, IsOf, Knows};

use crate::costing::place;
use crate::directories::set_directories;
use crate::error::WorldError;
use crate::seen::Seen;
use mi_base::NoMemory;
use mi_image::Image;
use mi_select::{Selection, select};
use std::alloc::Global;

impl Seen {
    // The selection by the properties and the directories as they stand, while states are unknown.
    fn selected(&self, alloc: Global, former: &Image) -> Result<Selection, WorldError>
        requires lawful { IsLawful self.now.loaded }
        requires placed { IsSome self.now.placed }
        ensures { (held files : Map (List ℕ)) (g : Given) (dirs : List Place) → Knows g self.now → self.now.selection ≡ None → dirs_in self.now ≡ Some dirs → machine_over held files former.now ≡ g.former → Finds result (selecting.select g self.now.props dirs) }
    {
        let selection = select(alloc, &self.loaded, former, self, self.dirs())?;
        Ok(selection)
    }

    // Sets the properties of the directories.
    fn set_properties(&mut self, alloc: Global) -> Result<(), NoMemory>
        requires { IsSome self.old.placed }
        ensures set { (dirs : List Place) → dirs_in self.old ≡ Some dirs → OnOk result (self.new ≡ record self.old { props = model.with_directories (rows_in self.old.loaded) dirs self.old.props }) }
        ensures placed { self.new.placed ≡ self.old.placed }
        ensures loaded { self.new.loaded ≡ self.old.loaded }
    {
        match &self.placed {
            Some(placed) => {
                set_directories(alloc, &self.loaded, &placed.dirs, &mut self.props)?;
                Ok(())
            }
            None => unreachable!(),
        }
    }

    // The selection by the properties as they stand, and then the properties of the directories.
    fn choose(&mut self, alloc: Global, former: &Image) -> Result<(), WorldError>
        requires lawful { IsLawful self.old.loaded }
        requires placed { IsSome self.old.placed }
        ensures ok { (dirs : List Place) → dirs_in self.old ≡ Some dirs → OnOk result ((choice : Choice) × (self.new ≡ with_choice dirs choice self.old)) }
        ensures selected { (held files : Map (List ℕ)) (g : Given) (dirs : List Place) → Knows g self.old → self.old.selection ≡ None → dirs_in self.old ≡ Some dirs → machine_over held files former.now ≡ g.former → Chooses result (selecting.select g self.old.props dirs) self.new.selection }
        ensures loaded { self.new.loaded ≡ self.old.loaded }
    {
        let selection = self.selected(alloc, former)?;
        self.selection = Some(selection);
        self.set_properties(alloc)?;
        Ok(())
    }

    /// The directories by the properties and an earlier run's folders, then the selection by the properties as they were, then the
    /// properties of directories (CostFinalize Action).
    pub(crate) fn cost(
        &mut self,
        alloc: Global,
        former: &Image,
        folder: &str,
    ) -> Result<(), WorldError>
        requires lawful { IsLawful self.old.loaded }
        requires first { self.old.selection ≡ None }
        ensures ok { OnOk result (IsCostedFrom self.old self.new) }
        ensures cost { (held files : Map (List ℕ)) (g : Given) (plan : Plan) → IsOf g self.old → machine_over held files former.now ≡ g.former → folder.now ≡ g.folder → Becomes result (model.cost (world_over held files g self.old plan)) (world_over held files g self.new plan) }
        ensures loaded { self.new.loaded ≡ self.old.loaded }
    {
        match place(
            alloc,
            &self.loaded,
            self.props.props(),
            former,
            &self.known.directories,
            folder,
        ) {
            Ok(placed) => {
                self.placed = Some(placed);
                self.choose(alloc, former)?;
                Ok(())
            }
            Err(error) => Err(error),
        }
    }
}
