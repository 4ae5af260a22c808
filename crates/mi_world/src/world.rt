//! The world that a walk goes through.

ghost use Rattle.std.specs.Prelude.{◌≡◌, [], List, ℕ, IfOk, OnOk, OnErr, true, false};
ghost use Rattle.std.specs.FinMap.{insert};
ghost use Rattle.mi_text.specs.Maps.{Name, Map};
ghost use Rattle.mi_text.specs.PropertyNames.{is_property_name};
ghost use Rattle.mi_props.specs.Starts.{IfFault};
ghost use Rattle.mi_image.specs.Items.{machine_over};
ghost use Rattle.mi_image.specs.Overlays.{former_items, present_items};
ghost use Rattle.mi_model.specs.World.{Given};
ghost use Rattle.mi_model.specs.Properties as model;
ghost use Rattle.mi_schema.specs.Lawful.{IsLawful};
ghost use Rattle.mi_schema.specs.RowsOf.{rows_in};
ghost use Rattle.mi_world.specs.Seen.{world_over, Becomes, IsCosted, IsUncosted, IsOf, IsRow, Starts};

use crate::error::WorldError;
use crate::known::Known;
use crate::properties::Properties;
use crate::seen::Seen;
use mi_base::NoMemory;
use mi_image::{Image, Overlay};
use mi_props::{PropError, PropFault};
use mi_schema::Package;
use mi_steps::{Plan, Records};
use std::alloc::Global;

/// The world that a walk goes through: what an action sees, and the plan, which is the machine so far and the open script.
#[derive(Drop)]
pub struct World {
    pub seen: Seen,
    pub plan: Plan,
}

impl World {
    /// The world before any action: the package, the properties at the start, the former machine, and an empty script; `now` is
    /// the moment that new files carry, in seconds (InstallExecuteSequence table).
    pub fn start(
        alloc: Global,
        loaded: Package,
        props: Properties,
        image: Image,
        now: u64,
    ) -> Result<World, NoMemory>
        ensures started { (held files : Map (List ℕ)) (g : Given) → Starts g loaded props (machine_over held files image) now → IfOk result (λ w. world_over held files g w.seen w.plan ≡ model.started g) }
        ensures seen { (held files : Map (List ℕ)) (g : Given) → rows_in loaded ≡ g.rows → machine_over held files image ≡ g.former → now ≡ g.now → IfOk result (λ w. IsOf g w.seen) }
        ensures package { IfOk result (λ w. w.seen.loaded ≡ loaded) }
        ensures uncosted { IfOk result (λ w. IsUncosted w.seen) }
        ensures image { IfOk result (λ w. (former_items w.plan.overlay ≡ image) × (present_items w.plan.overlay ≡ image)) }
        ensures script { IfOk result (λ w. w.plan.script ≡ []) }
    {
        match Known::of(alloc, &loaded, &image) {
            Ok(known) => Ok(World {
                seen: Seen {
                    loaded,
                    props,
                    known,
                    moment: now,
                    placed: None,
                    selection: None,
                },
                plan: Plan {
                    overlay: Overlay::new(alloc, image),
                    script: Records::new(alloc),
                },
            }),
            Err(_) => {
                drop(loaded);
                drop(props);
                drop(image);
                Err(NoMemory)
            }
        }
    }

    /// Sets a property, as an action of type 51 does (Custom Action Type 51). Refused with `BadName` where the name is no property
    /// name; unchanged where refused.
    pub fn set(&mut self, alloc: Global, name: &str, value: &str) -> Result<(), PropError>
        ensures ok { OnOk result (self.new ≡ record self.old { seen = record self.old.seen { props = insert self.old.seen.props name.now value.now } }) }
        ensures err { OnErr result (self.new ≡ self.old) }
        ensures set { (held files : Map (List ℕ)) (g : Given) (action : Name) → OnOk result (model.set_property action name.now value.now (world_over held files g self.old.seen self.old.plan) ≡ Ok (world_over held files g self.new.seen self.new.plan)) }
        ensures seen { (g : Given) → IsOf g self.old.seen → IsOf g self.new.seen }
        ensures accepted { OnOk result (is_property_name name.now ≡ true) }
        ensures refused { IfFault result (λ fault. (fault ≡ PropFault.BadName) × (is_property_name name.now ≡ false)) }
    {
        self.seen.props.set(alloc, name, value)?;
        Ok(())
    }

    /// The directories, then the selection by the properties as they were, then the properties of the directories (CostFinalize
    /// Action). `folder` is the package's in the source. The package is lawful, CostFinalize wasn't carried out before, and nothing
    /// of the machine is changed yet. Refused with the `Cycle` or `BadPath` of Directory, else with what the selection is refused
    /// with: `BadProperty`, and the first refusal of the lists of features and of key paths; after an error the world isn't used
    /// again.
    pub fn cost(&mut self, alloc: Global, folder: &str) -> Result<(), WorldError>
        requires lawful { IsLawful self.old.seen.loaded }
        requires first { IsUncosted self.old.seen }
        requires former { present_items self.old.plan.overlay ≡ former_items self.old.plan.overlay }
        ensures cost { (held files : Map (List ℕ)) (g : Given) → IsOf g self.old.seen → machine_over held files (former_items self.old.plan.overlay) ≡ g.former → folder.now ≡ g.folder → Becomes result (model.cost (world_over held files g self.old.seen self.old.plan)) (world_over held files g self.new.seen self.new.plan) }
        ensures seen { (g : Given) → IsOf g self.old.seen → OnOk result (IsOf g self.new.seen × IsCosted self.new.seen) }
        ensures package { self.new.seen.loaded ≡ self.old.seen.loaded }
        ensures plan { self.new.plan ≡ self.old.plan }
    {
        self.seen.cost(alloc, self.plan.overlay.image(), folder)
    }

    /// A directory's target is from now on the folder that a text names, as an action of type 35 does (Custom Action Type 35);
    /// directories below it, files' paths and the properties of directories follow. CostFinalize was carried out, and a row of
    /// Directory has this key. Refused with the `BadPath` of the first row whose target is then refused; after an error the
    /// world isn't used again.
    pub fn set_dir(&mut self, alloc: Global, directory: &str, text: &str) -> Result<(), WorldError>
        requires costed { IsCosted self.old.seen }
        requires row { IsRow self.old.seen directory.now }
        ensures set { (held files : Map (List ℕ)) (g : Given) → IsOf g self.old.seen → Becomes result (model.set_dir directory.now text.now (world_over held files g self.old.seen self.old.plan)) (world_over held files g self.new.seen self.new.plan) }
        ensures seen { (g : Given) → IsOf g self.old.seen → OnOk result (IsOf g self.new.seen × IsCosted self.new.seen) }
        ensures package { OnOk result (self.new.seen.loaded ≡ self.old.seen.loaded) }
        ensures plan { self.new.plan ≡ self.old.plan }
    {
        self.seen.set_dir(alloc, directory, text)
    }
}
