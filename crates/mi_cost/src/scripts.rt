//! What scripts need of room.

ghost use Rattle.std.specs.Prelude.{◌≡◌, ◌≤◌, ◌^◌, IfOk, IsErrOf, OnOk, List, ℕ, if◌then◌else◌};
ghost use Rattle.mi_text.specs.Maps.{Map};
ghost use Rattle.mi_image.specs.Items.{AreThere};
ghost use Rattle.mi_model.specs.StatedSizes.{stated_cost};
ghost use Rattle.mi_cost.specs.FormerMap.{former_map};
ghost use Rattle.mi_cost.specs.declared.error.CostError.TheVariants as CostError;
ghost use Rattle.mi_cost.specs.Tallies.{with_records, are_known, tally};

use crate::error::CostError;
use crate::known::Sizes;
use mi_base::NoMemory;
use mi_image::Image;
use mi_script::{Rec, Script};
use std::alloc::Global;

// Notes what a script's records state, and says how many entries of the rollback area that makes.
fn add(alloc: Global, sizes: &mut Sizes, recs: &[Rec]) -> Result<u64, NoMemory>
    ensures sizes { OnOk result (sizes.new ≡ with_records sizes.old recs.now) }
    ensures entries { IfOk result (λ n. n ≡ (if are_known sizes.old recs.now then 0 else 1)) }
{
    let entries = u64::from(!sizes.know(recs));
    sizes.note_all(alloc, recs)?;
    Ok(entries)
}

// What scripts state, and how many entries they make.
fn tally(alloc: Global, scripts: &[Script]) -> Result<(Sizes, u64), NoMemory>
    ensures sizes { IfOk result (λ t. t.0 ≡ (tally scripts.now).0) }
    ensures entries { IfOk result (λ t. t.1 ≡ (tally scripts.now).1) }
{
    let mut sizes = Sizes::new(alloc);
    let mut entries = 0;
    for script in scripts {
        entries += add(alloc, &mut sizes, script.recs())?;
    }
    Ok((sizes, entries))
}

/// What scripts cost over the former machine's image by the sizes that their records state, in bytes: their rollback area, and what their
/// names get greater on the way (this project's own). TooBig exactly where it passes 64 bits. n log n in the records.
pub fn need(alloc: Global, scripts: &[Script], image: &Image) -> Result<u64, CostError>
    ensures ok { (held files : Map (List ℕ)) → AreThere held files image.now → IfOk result (λ n. n ≡ stated_cost (former_map held files image.now) scripts.now) }
    ensures too_big { (held files : Map (List ℕ)) → AreThere held files image.now → IsErrOf result CostError.TooBig → 2 ^ 64 ≤ stated_cost (former_map held files image.now) scripts.now }
{
    let (sizes, entries) = tally(alloc, scripts)?;
    sizes.cost(alloc, image, entries)
}
