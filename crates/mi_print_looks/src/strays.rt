//! Values whose keys aren't recorded.

ghost use Rattle.std.specs.Prelude.{◌≡◌, ◌++◌, OnOk, Some};
ghost use Rattle.mi_base.specs.declared.entry.Entry.TheVariants as Entry;
ghost use Rattle.mi_print_looks.specs.Machines.{plain_machine};
ghost use Rattle.mi_print_looks.specs.Strays.{stray_at};

use mi_base::{NoMemory, RegValue, ValueKey};
use mi_image::Image;
use mi_print::push_stray;
use std::alloc::Global;

/// Adds a value, as `push_stray` of `mi_print` does, where the image has no key of its root and key; where it has one, nothing. Its one
/// error is want of memory, and what `out` has then isn't said (Registry table).
pub fn push_if_stray(
    alloc: Global,
    out: &mut Vec<u8>,
    image: &Image,
    key: &ValueKey,
    value: &RegValue,
) -> Result<(), NoMemory>
    ensures { OnOk result (out.new.items ≡ out.old.items ++ stray_at (plain_machine image.now) (Some (Entry.Value key.now value.now))) }
{
    if image.key(key.root, key.key.as_str()) {
        return Ok(());
    }
    push_stray(
        alloc,
        out,
        key.root,
        key.key.as_str(),
        key.shown.as_str(),
        value,
    )
}
