//! Reading the image of a volume.

ghost use Rattle.std.specs.Prelude.{◌≡◌, List, ℕ, Some, Option, Err, IfOk, OnOk, IsErrOf, IsOkAnd};
ghost use Rattle.mi_text.specs.Maps.{Map};
ghost use Rattle.mi_text.specs.Next.{next_name};
ghost use Rattle.mi_volume.specs.State.{Passes, Rose};
ghost use Rattle.mi_base.specs.Machine.{machine_of};
ghost use Rattle.mi_image.specs.Items.{ImageOf};
ghost use Rattle.mi_image.specs.Looks.{OnlyLooks};
ghost use Rattle.mi_image.specs.Scan.{ReadUpTo};

use crate::fault::ImageError;
use crate::image::{Gathered, Image};
use crate::reading::{begins, read_item};
use mi_base::Name;
use mi_volume::Volume;
use std::alloc::Global;

/// Adds what a volume holds under a name; names of the rollback area are passed over.
fn add_name<V: Volume>(
    alloc: Global,
    vol: &mut V,
    found: &mut Gathered,
    name: &Name,
) -> Result<(), ImageError>
    ensures adds { V.told → (after : Option (List ℕ)) → next_name (V.state vol.old).held after ≡ Some name.now → ReadUpTo (V.state vol.old).held after found.old → OnOk result (ReadUpTo (V.state vol.old).held (Some name.now) found.new) }
    ensures bad { V.told → (after : Option (List ℕ)) → next_name (V.state vol.old).held after ≡ Some name.now → ReadUpTo (V.state vol.old).held after found.old → (n : List ℕ) → IsErrOf result (ImageError.BadImage n) → machine_of (V.state vol.old).held ≡ Err n }
    ensures looks { V.told → OnlyLooks (V.state vol.old) (V.state vol.new) }
    ensures passes { Passes (V.state vol.old) (V.state vol.new) }
    ensures fault { IsErrOf result ImageError.Fault → Rose (V.state vol.old) (V.state vol.new) }
{
    if begins(name, b"j/") {
        return Ok(());
    }
    let item = read_item(alloc, vol, name)?;
    found.put(alloc, name, item)?;
    Ok(())
}

impl Image {
    /// The image of what a volume holds. `BadImage` comes for the first name, in byte order, that isn't
    /// spelled; names of the rollback area are no part of the machine. `Fault` comes only where the count of
    /// the volume rose. Nothing is changed (this project's own).
    pub fn scan<V: Volume>(alloc: Global, vol: &mut V) -> Result<Image, ImageError>
        ensures image { V.told → (files : Map (List ℕ)) → IfOk result (λ image. IsOkAnd (machine_of (V.state vol.old).held) (ImageOf (V.state vol.old).held files image)) }
        ensures bad { V.told → (name : List ℕ) → IsErrOf result (ImageError.BadImage name) → machine_of (V.state vol.old).held ≡ Err name }
        ensures looks { V.told → OnlyLooks (V.state vol.old) (V.state vol.new) }
        ensures passes { Passes (V.state vol.old) (V.state vol.new) }
        ensures fault { IsErrOf result ImageError.Fault → Rose (V.state vol.old) (V.state vol.new) }
    {
        let mut found = Gathered::new(alloc);
        let mut after: Option<Name> = None;
        while let Some(name) = vol.next(alloc, after.as_ref())? {
            add_name(alloc, vol, &mut found, &name)?;
            let _bytes = name.as_bytes();
            after = Some(name);
        }
        let image = Image::of(alloc, found)?;
        Ok(image)
    }
}
