//! What phases ask of what is seen.

ghost use Rattle.std.specs.Prelude.{◌≡◌, List, ℕ, [], false, unwrap_or};
ghost use Rattle.std.specs.FinMap.{get};
ghost use Rattle.mi_text.specs.Maps.{Map};
ghost use Rattle.mi_model.specs.World.{Given};
ghost use Rattle.mi_records.specs.Choices.{IsAsked};
ghost use Rattle.mi_world.specs.Choices.{seen_choices};
ghost use Rattle.mi_world.specs.Seen.{seen_lookups, world_over, IsCosted, IsOf};

use crate::seen::Seen;
use mi_base::{NoMemory, PathText, Text};
use mi_fver::Mode;
use mi_records::Sees;
use mi_schema::Package;
use mi_steps::Plan;
use std::alloc::Global;

const NO_MODE: Mode = Mode {
    p: false,
    o: false,
    e: false,
    d: false,
    a: false,
    u: false,
    m: false,
    s: false,
    v: false,
};

impl Sees for Seen {
    ghost choices = { seen_choices };

    ghost rows = { λ s. s.loaded };

    fn package(&self) -> &Package {
        &self.loaded
    }

    fn comes(&self, component: &str) -> bool {
        match &self.selection {
            Some(selection) => selection.comes(component),
            None => false,
        }
    }

    fn leaves(&self, component: &str) -> bool {
        match &self.selection {
            Some(selection) => selection.leaves(component),
            None => false,
        }
    }

    fn keeps(&self, component: &str) -> bool {
        match &self.selection {
            Some(selection) => selection.keeps(component),
            None => false,
        }
    }

    fn is_local(&self, component: &str) -> bool {
        match &self.selection {
            Some(selection) => selection.is_local(component),
            None => false,
        }
    }

    fn is_absent(&self, component: &str) -> bool {
        match &self.selection {
            Some(selection) => selection.is_absent(component),
            None => false,
        }
    }

    fn was_present(&self, component: &str) -> bool {
        self.known.present.get(component).unwrap_or(false)
    }

    fn mode(&self) -> Mode {
        match &self.selection {
            Some(selection) => selection.mode(),
            None => NO_MODE,
        }
    }

    fn found_path(&self, component: &str) -> &str {
        match &self.selection {
            Some(selection) => selection.key_path(component),
            None => "",
        }
    }

    fn local_after(&self, alloc: Global) -> Result<Vec<Text>, NoMemory> {
        match &self.selection {
            Some(selection) => Ok(selection.local_after(alloc)?),
            None => Ok(Vec::new(alloc)),
        }
    }

    fn target(&self, directory: &str) -> Option<&PathText> {
        match &self.placed {
            Some(placed) => placed.dirs.target(directory),
            None => None,
        }
    }

    fn source(&self, alloc: Global, directory: &str) -> Result<Option<Text>, NoMemory> {
        match &self.placed {
            Some(placed) => Ok(placed.dirs.source(alloc, directory)?),
            None => Ok(None),
        }
    }

    fn moment(&self) -> u64 {
        self.moment
    }

    fn system_folders(&self) -> &[PathText] {
        &self.known.system
    }
}

/// Behind CostFinalize, what phases ask of what is seen is what the world is asked for (a law; it does nothing).
pub fn phases_ask(seen: &Seen, plan: &Plan)
    ensures { (held files : Map (List ℕ)) (g : Given) → IsOf g seen.now → IsCosted seen.now → IsAsked (seen_lookups seen.now) (seen_choices seen.now) seen.now.loaded (world_over held files g seen.now plan.now) }
{}
