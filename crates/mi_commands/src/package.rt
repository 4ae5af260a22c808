//! A package up to its walk.

ghost use Rattle.std.specs.Prelude.{◌≡◌, ◌≤◌, ◌&&◌, ◌++◌, not, List, ℕ, Option, None, IfOk, IfErr, OnOk, map};
ghost use Rattle.mi_text.specs.Maps.{Map};
ghost use Rattle.mi_volume.specs.State as volume;
ghost use Rattle.mi_volume.specs.State.{Passes};
ghost use Rattle.mi_source.specs.Counts.{Rose};
ghost use Rattle.mi_image.specs.Items.{AreRight, machine_over, AreThere as HasContents};
ghost use Rattle.mi_image.specs.Looks.{OnlyLooks};
ghost use Rattle.mi_schema.specs.Lawful.{IsLawful};
ghost use Rattle.mi_schema.specs.RowsOf.{rows_in};
ghost use Rattle.mi_schema.specs.TableRows.{product_code as code_of};
ghost use Rattle.mi_model.specs.PackageOutcome.{given_of, of_package};
ghost use Rattle.mi_model.specs.Cost.{all_rows};
ghost use Rattle.mi_model.specs.Plain.{ArePlain};
ghost use Rattle.mi_model.specs.Planning.{IsPlan};
ghost use Rattle.mi_model.specs.Properties.{first_properties};
ghost use Rattle.mi_model.specs.Settings.{is_recorded};
ghost use Rattle.mi_model.specs.Walk.{walk};
ghost use Rattle.mi_model.specs.World.{Given};
ghost use Rattle.mi_commands.specs.Calls.{ArePublic, FailsBy, IsOver, Judges, Prepares, Readies, Walks, sets_of, unknown_product};
ghost use Rattle.mi_commands.specs.Walks.{AreThere, MayRun};
ghost use Rattle.mi_plan.specs.Refusals.{IsWalkRefusal};
ghost use Rattle.mi_plan.specs.Made.{as_planned};
ghost use Rattle.mi_world.specs.Seen.{Starts};

use crate::stop::Stop;
use mi_base::Cause;
use mi_image::Image;
use mi_laws::{lawful_packages_have_codes, walks_are_plain};
use mi_plan::{WalkError, WalkPlan, plan_walk};
use mi_props::PropError;
use mi_schema::{Package, values_stand};
use mi_source::Source;
use mi_volume::Volume;
use mi_words::PackageWords;
use mi_world::{Properties, first_props, product_code};
use std::alloc::Global;

/// Refuses where the product has to be recorded and isn't (Windows Installer command-line options).
fn require_product(loaded: &Package, image: &Image, recorded: bool) -> Result<(), Stop>
    ensures { (held files : Map (List ℕ)) → Judges (unknown_product (recorded && not (is_recorded (rows_in loaded.now) (machine_over held files image.now))) (code_of (rows_in loaded.now))) result }
{
    if !recorded {
        return Ok(());
    }
    let code = product_code(loaded);
    match image.product(code) {
        Some(_) => Ok(()),
        None => Err(Stop::Refuse(Cause::UnknownProduct(code))),
    }
}

/// Each item of an image may stand at its name.
fn items_stand(image: &Image)
    ensures { AreRight image.now }
{
    let _ = image.get("");
}

/// The properties before any action.
fn properties(
    alloc: Global,
    loaded: &Package,
    image: &Image,
    asked: &PackageWords<'_>,
) -> Result<Properties, Stop>
    requires lawful { IsLawful loaded.now }
    requires public { ArePublic asked.now }
    ensures first { (held files : Map (List ℕ)) (g : Given) → IsOver g loaded.now (machine_over held files image.now) asked.now g.now → IfOk result (λ p. p ≡ first_properties g) }
    ensures stopped { IfErr result (λ stop. stop ≡ Stop.NoMemory) }
{
    values_stand(loaded);
    items_stand(image);
    let words = asked.properties(alloc)?;
    match first_props(alloc, loaded, image, words.as_slice()) {
        Ok(first) => Ok(first),
        Err(PropError::NoMemory) => Err(Stop::NoMemory),
        Err(PropError::Fault(_)) => unreachable!(),
    }
}

/// The properties before any action, or why the package isn't walked over.
fn ready(
    alloc: Global,
    loaded: &Package,
    image: &Image,
    asked: &PackageWords<'_>,
) -> Result<Properties, Stop>
    requires lawful { IsLawful loaded.now }
    requires public { ArePublic asked.now }
    ensures { (held files : Map (List ℕ)) (g : Given) → IsOver g loaded.now (machine_over held files image.now) asked.now g.now → Readies asked.now.recorded g result }
{
    match require_product(loaded, image, asked.recorded) {
        Ok(()) => properties(alloc, loaded, image, asked),
        Err(stop) => Err(stop),
    }
}

/// Plans the walk of a package.
fn walk_over<S: Source, V: Volume>(
    alloc: Global,
    loaded: Package,
    first: Properties,
    image: Image,
    folder: &str,
    now: u64,
    src: &mut S,
    vol: &mut V,
) -> Result<WalkPlan, Stop>
    requires lawful { IsLawful loaded }
    ensures plan { (g : Given) → V.told → S.told → g.files ≡ (S.files src.old) → HasContents (V.state vol.old).held (S.files src.old) image → Starts g loaded first (machine_over (V.state vol.old).held (S.files src.old) image) now → folder.now ≡ g.folder
        → IfOk result (λ p. IsPlan (S.files src.old) (walk g) p.begun.items (map as_planned p.segments.items) p.refusal) }
    ensures lengths { S.told → IfOk result (λ p. AreThere (S.files src.old) p) }
    ensures may_run { IfOk result MayRun }
    ensures refusal { IfOk result (λ p. IsWalkRefusal p.refusal) }
    ensures stopped { IfErr result (FailsBy (volume.Rose (V.state vol.old) (V.state vol.new)) (Rose (S.faults src.old) (S.faults src.new))) }
    ensures looks { V.told → OnlyLooks (V.state vol.old) (V.state vol.new) }
    ensures passes { Passes (V.state vol.old) (V.state vol.new) }
    ensures stays { S.files src.new ≡ S.files src.old }
    ensures counts { S.faults src.old ≤ S.faults src.new }
{
    match plan_walk(alloc, loaded, first, image, folder, now, src, vol) {
        Ok(plan) => Ok(plan),
        Err(WalkError::NoMemory) => Err(Stop::NoMemory),
        Err(WalkError::Source) => Err(Stop::Refuse(Cause::SourceFault)),
        Err(WalkError::Volume) => Err(Stop::Refuse(Cause::VolumeFault)),
    }
}

/// No row of a walk over a lawful package changes a name twice.
fn plain_walks(loaded: &Package)
    requires { IsLawful loaded.now }
    ensures { (g : Given) → rows_in loaded.now ≡ g.rows → ArePlain g.former (all_rows (walk g).parts) }
{
    walks_are_plain();
    lawful_packages_have_codes();
}

/// Plans the walk of a loaded package over the machine of an image, or stops before it.
fn plan_package<S: Source, V: Volume>(
    alloc: Global,
    loaded: Package,
    image: Image,
    asked: &PackageWords<'_>,
    now: u64,
    src: &mut S,
    vol: &mut V,
) -> Result<WalkPlan, Stop>
    requires lawful { IsLawful loaded }
    requires public { ArePublic asked.now }
    ensures walks { (held files : Map (List ℕ)) (g : Given) → IsOver g loaded (machine_over held files image) asked.now now → Walks (volume.Rose (V.state vol.old) (V.state vol.new)) (Rose (S.faults src.old) (S.faults src.new)) asked.now.recorded g result }
    ensures plan { (g : Given) → V.told → S.told → g.files ≡ (S.files src.old) → HasContents (V.state vol.old).held (S.files src.old) image → IsOver g loaded (machine_over (V.state vol.old).held (S.files src.old) image) asked.now now
        → IfOk result (λ p. IsPlan (S.files src.old) (walk g) p.begun.items (map as_planned p.segments.items) p.refusal) }
    ensures plain { (g : Given) → rows_in loaded ≡ g.rows → ArePlain g.former (all_rows (walk g).parts) }
    ensures lengths { S.told → IfOk result (λ p. AreThere (S.files src.old) p) }
    ensures may_run { IfOk result MayRun }
    ensures refusal { IfOk result (λ p. IsWalkRefusal p.refusal) }
    ensures looks { V.told → OnlyLooks (V.state vol.old) (V.state vol.new) }
    ensures passes { Passes (V.state vol.old) (V.state vol.new) }
    ensures stays { S.files src.new ≡ S.files src.old }
    ensures counts { S.faults src.old ≤ S.faults src.new }
{
    plain_walks(&loaded);
    match ready(alloc, &loaded, &image, asked) {
        Ok(first) => walk_over(alloc, loaded, first, image, asked.folder, now, src, vol),
        Err(stop) => {
            drop(loaded);
            drop(image);
            Err(stop)
        }
    }
}

/// Loads the package of a folder and plans its walk over the machine of the volume's image, or stops before it. The devices are only
/// read.
pub fn prepare<S: Source, V: Volume>(
    alloc: Global,
    asked: &PackageWords<'_>,
    image: Image,
    now: u64,
    src: &mut S,
    vol: &mut V,
) -> Result<WalkPlan, Stop>
    requires public { ArePublic asked.now }
    requires contents { V.told → HasContents (V.state vol.old).held (S.files src.old) image }
    ensures prepares { (free : Option ℕ) → Prepares (V.told × S.told) S.told (volume.Rose (V.state vol.old) (V.state vol.new)) (Rose (S.faults src.old) (S.faults src.new)) (S.files src.old) free (given_of (S.files src.old) asked.now.folder.now (sets_of asked.now) (machine_over (V.state vol.old).held (S.files src.old) image) now) (of_package (S.files src.old) free now (machine_over (V.state vol.old).held (S.files src.old) image) asked.now.recorded asked.now.folder.now (sets_of asked.now)) result }
    ensures lengths { S.told → IfOk result (λ p. AreThere (S.files src.old) p) }
    ensures may_run { IfOk result MayRun }
    ensures refusal { IfOk result (λ p. IsWalkRefusal p.refusal) }
    ensures looks { V.told → OnlyLooks (V.state vol.old) (V.state vol.new) }
    ensures passes { Passes (V.state vol.old) (V.state vol.new) }
    ensures stays { S.files src.new ≡ S.files src.old }
    ensures counts { S.faults src.old ≤ S.faults src.new }
{
    match Package::load(alloc, src, asked.folder) {
        Ok(loaded) => plan_package(alloc, loaded, image, asked, now, src, vol),
        Err(error) => {
            drop(image);
            Err(Stop::from(error))
        }
    }
}
