//! Whether the scripts of a planned walk have room.

ghost use Rattle.std.specs.Prelude.{◌≡◌, ◌≤◌, ◌<◌, List, ℕ, Err, IfOk, IsErrOf, MatchOption, map};
ghost use Rattle.mi_text.specs.Maps.{Map};
ghost use Rattle.mi_volume.specs.State.{Passes, Rose};
ghost use Rattle.mi_undo.specs.Keeps.{IsFree};
ghost use Rattle.mi_base.specs.Machine.{machine_of};
ghost use Rattle.mi_image.specs.Items.{AreThere};
ghost use Rattle.mi_image.specs.Looks.{OnlyLooks};
ghost use Rattle.mi_image.specs.declared.fault.ImageError.TheVariants as ImageError;
ghost use Rattle.mi_cost.specs.FormerMap.{former_map};
ghost use Rattle.mi_model.specs.StatedSizes.{stated_cost};
ghost use Rattle.mi_plan.specs.Made.{as_planned};
ghost use Rattle.mi_commands.specs.Room.{IsFreeRoom, Lacks, counted, scripts_in};

use mi_base::NoMemory;
use mi_cost::{CostError, fits, need};
use mi_image::{Image, ImageError};
use mi_plan::Segment;
use mi_script::Script;
use mi_volume::Volume;
use std::alloc::Global;

/// What a run needs of room, and the less that is free, in bytes (this project's own).
#[derive(Drop)]
pub struct Lack {
    pub need: u64,
    pub free: u64,
}

/// What the scripts of planned segments need more than is free on a settled volume, if they do; where no capacity is told, nothing. The
/// volume is only read: where there is a segment and a capacity, its machine anew (this project's own).
pub fn lacking<V: Volume>(
    alloc: Global,
    segments: Vec<Segment>,
    vol: &mut V,
) -> Result<Option<Lack>, ImageError>
    requires free { V.told → IsFree (V.state vol.old) }
    ensures lacks { V.told → IfOk result (Lacks (V.state vol.old).capacity (V.state vol.old).held (scripts_in (map as_planned segments.items))) }
    ensures bad { V.told → (name : List ℕ) → IsErrOf result (ImageError.BadImage name) → machine_of (V.state vol.old).held ≡ Err name }
    ensures fault { IsErrOf result ImageError.Fault → Rose (V.state vol.old) (V.state vol.new) }
    ensures looks { V.told → OnlyLooks (V.state vol.old) (V.state vol.new) }
    ensures passes { Passes (V.state vol.old) (V.state vol.new) }
{
    match scripts_of(alloc, segments) {
        Ok(scripts) => lack_of(alloc, scripts.as_slice(), vol),
        Err(_) => Err(ImageError::NoMemory),
    }
}

/// The scripts of planned segments.
fn scripts_of(alloc: Global, segments: Vec<Segment>) -> Result<Vec<Script>, NoMemory>
    ensures { IfOk result (λ v. v.items ≡ scripts_in (map as_planned segments.items)) }
{
    let mut scripts = Vec::new(alloc);
    for segment in segments {
        let Segment { script, reached: _ } = segment;
        scripts.push(script)?;
    }
    Ok(scripts)
}

/// What scripts need more than is free.
fn lack_of<V: Volume>(
    alloc: Global,
    scripts: &[Script],
    vol: &mut V,
) -> Result<Option<Lack>, ImageError>
    requires free { V.told → IsFree (V.state vol.old) }
    ensures lacks { V.told → IfOk result (Lacks (V.state vol.old).capacity (V.state vol.old).held scripts.now) }
    ensures bad { V.told → (name : List ℕ) → IsErrOf result (ImageError.BadImage name) → machine_of (V.state vol.old).held ≡ Err name }
    ensures fault { IsErrOf result ImageError.Fault → Rose (V.state vol.old) (V.state vol.new) }
    ensures looks { V.told → OnlyLooks (V.state vol.old) (V.state vol.new) }
    ensures passes { Passes (V.state vol.old) (V.state vol.new) }
{
    match vol.free() {
        Ok(Some(free)) => lack_in(alloc, scripts, free, vol),
        Ok(None) => Ok(None),
        Err(_) => Err(ImageError::Fault),
    }
}

/// What scripts need more than this, which is free. Without a script nothing is read.
fn lack_in<V: Volume>(
    alloc: Global,
    scripts: &[Script],
    free: u64,
    vol: &mut V,
) -> Result<Option<Lack>, ImageError>
    requires free { V.told → IsFree (V.state vol.old) }
    requires room { V.told → IsFreeRoom (V.state vol.old).capacity (V.state vol.old).held free }
    ensures lacks { V.told → IfOk result (Lacks (V.state vol.old).capacity (V.state vol.old).held scripts.now) }
    ensures bad { V.told → (name : List ℕ) → IsErrOf result (ImageError.BadImage name) → machine_of (V.state vol.old).held ≡ Err name }
    ensures fault { IsErrOf result ImageError.Fault → Rose (V.state vol.old) (V.state vol.new) }
    ensures looks { V.told → OnlyLooks (V.state vol.old) (V.state vol.new) }
    ensures passes { Passes (V.state vol.old) (V.state vol.new) }
{
    if scripts.is_empty() {
        return Ok(None);
    }
    match need_over(alloc, scripts, vol) {
        Ok(need) => Ok(beyond(need, free)),
        Err(error) => Err(error),
    }
}

/// What is needed, where less is free.
fn beyond(need: u64, free: u64) -> Option<Lack>
    ensures { MatchOption result (need ≤ free) (λ lack. (lack.need ≡ need) × (lack.free ≡ free) × (free < need)) }
{
    if fits(need, Some(free)) {
        None
    } else {
        Some(Lack { need, free })
    }
}

/// What scripts need over the machine that the volume holds, which is read anew.
fn need_over<V: Volume>(alloc: Global, scripts: &[Script], vol: &mut V) -> Result<u64, ImageError>
    requires free { V.told → IsFree (V.state vol.old) }
    ensures ok { V.told → IfOk result (λ n. n ≡ counted (stated_cost (V.state vol.old).held scripts.now)) }
    ensures bad { V.told → (name : List ℕ) → IsErrOf result (ImageError.BadImage name) → machine_of (V.state vol.old).held ≡ Err name }
    ensures fault { IsErrOf result ImageError.Fault → Rose (V.state vol.old) (V.state vol.new) }
    ensures looks { V.told → OnlyLooks (V.state vol.old) (V.state vol.new) }
    ensures passes { Passes (V.state vol.old) (V.state vol.new) }
{
    match Image::scan(alloc, vol) {
        Ok(image) => need_of(alloc, scripts, &image),
        Err(error) => Err(error),
    }
}

/// What scripts need over an image, or the greatest count where it is more than that.
fn need_of(alloc: Global, scripts: &[Script], image: &Image) -> Result<u64, ImageError>
    ensures ok { (held files : Map (List ℕ)) → AreThere held files image.now → IfOk result (λ n. n ≡ counted (stated_cost (former_map held files image.now) scripts.now)) }
    ensures fault { IsErrOf result ImageError.Fault → ⊥ }
    ensures bad { (name : List ℕ) → IsErrOf result (ImageError.BadImage name) → ⊥ }
{
    match need(alloc, scripts, image) {
        Ok(need) => Ok(need),
        Err(CostError::TooBig) => Ok(u64::MAX),
        Err(CostError::NoMemory) => Err(ImageError::NoMemory),
    }
}
