//! Adding the bytes of a file to a message that is hashed, wherever they are.

ghost use Rattle.std.specs.Prelude.{◌≡◌, ◌≤◌, ◌-◌, ◌++◌, List, ℕ, OnOk, IsErrOf, length, drop};
ghost use Rattle.std.specs.FinMap.{get};
ghost use Rattle.md5.specs.Md5.{Holds};
ghost use Rattle.mi_volume.specs.Maps.{bytes_or_none};
ghost use Rattle.mi_volume.specs.State.{Passes, Rose};
ghost use Rattle.mi_source.specs.Counts as count;
ghost use Rattle.mi_image.specs.Items.{content_bytes, bytes_of_file, machine_over, AreThere};
ghost use Rattle.mi_image.specs.Looks.{OnlyLooks};

use crate::fault::HashError;
use crate::pieces::{add_copied, add_held};
use md5::Md5;
use mi_base::Name;
use mi_image::{Content, Image, Item};
use mi_source::Source;
use mi_volume::{VolFault, Volume};
use std::alloc::Global;

// Adds the bytes that what a name of the volume holds ends with, as many as are stated, or all where it has fewer.
fn add_last<V: Volume>(
    alloc: Global,
    vol: &mut V,
    hasher: &mut Md5,
    name: &Name,
    stated: u64,
) -> Result<(), VolFault>
    ensures adds { V.told → let bytes = bytes_or_none (get (V.state vol.old).held name.now) in (m : List ℕ) → Holds hasher.old m → OnOk result (Holds hasher.new (m ++ drop (length bytes - stated) bytes)) }
    ensures looks { V.told → OnlyLooks (V.state vol.old) (V.state vol.new) }
    ensures passes { Passes (V.state vol.old) (V.state vol.new) }
    ensures failed { IsErrOf result VolFault.Failed → Rose (V.state vol.old) (V.state vol.new) }
{
    match vol.size(name) {
        Ok(size) => {
            let size = size.unwrap_or(0);
            add_held(alloc, vol, hasher, name, size.saturating_sub(stated), size)?;
            Ok(())
        }
        Err(_) => Err(VolFault::Failed),
    }
}

// Adds the bytes that a content names, as many as are stated; `own` is the name of the file.
fn add_content<S: Source, V: Volume>(
    alloc: Global,
    src: &mut S,
    vol: &mut V,
    hasher: &mut Md5,
    own: &Name,
    content: &Content,
    stated: u64,
) -> Result<(), HashError>
    ensures adds { V.told → S.told → let bytes = content_bytes (V.state vol.old).held (S.files src.old) own.now content.now in length bytes ≡ stated → (m : List ℕ) → Holds hasher.old m → OnOk result (Holds hasher.new (m ++ bytes)) }
    ensures looks { V.told → OnlyLooks (V.state vol.old) (V.state vol.new) }
    ensures passes { Passes (V.state vol.old) (V.state vol.new) }
    ensures volume { IsErrOf result HashError.Volume → Rose (V.state vol.old) (V.state vol.new) }
    ensures stays { S.files src.new ≡ S.files src.old }
    ensures counts { S.faults src.old ≤ S.faults src.new }
    ensures source { IsErrOf result HashError.Source → count.Rose (S.faults src.old) (S.faults src.new) }
{
    match content {
        Content::Own => {
            add_last(alloc, vol, hasher, own, stated)?;
            Ok(())
        }
        Content::Held(name) => {
            add_last(alloc, vol, hasher, name, stated)?;
            Ok(())
        }
        Content::Copied(path) => {
            add_copied(alloc, src, hasher, path.as_str(), stated)?;
            Ok(())
        }
    }
}

/// Adds the bytes of the file that an image has at a name; a name without a file has none.
pub fn add_file<S: Source, V: Volume>(
    alloc: Global,
    src: &mut S,
    vol: &mut V,
    hasher: &mut Md5,
    image: &Image,
    name: &Name,
) -> Result<(), HashError>
    ensures adds { V.told → S.told → AreThere (V.state vol.old).held (S.files src.old) image.now → (m : List ℕ) → Holds hasher.old m
        → OnOk result (Holds hasher.new (m ++ bytes_of_file (get (machine_over (V.state vol.old).held (S.files src.old) image.now) name.now))) }
    ensures looks { V.told → OnlyLooks (V.state vol.old) (V.state vol.new) }
    ensures passes { Passes (V.state vol.old) (V.state vol.new) }
    ensures volume { IsErrOf result HashError.Volume → Rose (V.state vol.old) (V.state vol.new) }
    ensures stays { S.files src.new ≡ S.files src.old }
    ensures counts { S.faults src.old ≤ S.faults src.new }
    ensures source { IsErrOf result HashError.Source → count.Rose (S.faults src.old) (S.faults src.new) }
{
    match image.get(name.as_str()) {
        Some(Item::Head(head, content)) => {
            add_content(alloc, src, vol, hasher, name, content, head.length)?;
            Ok(())
        }
        Some(Item::Whole(_)) => Ok(()),
        None => Ok(()),
    }
}
