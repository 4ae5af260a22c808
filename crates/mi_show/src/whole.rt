//! The print of a machine.

ghost use Rattle.std.specs.Prelude.{◌≡◌, ◌++◌, ◌∷◌, [], List, ℕ, IfOk, OnOk, IsErrOf, IsOkAnd, Err, codes};
ghost use Rattle.mi_volume.specs.State.{Passes, Rose};
ghost use Rattle.mi_base.specs.Machine.{machine_of};
ghost use Rattle.mi_image.specs.Looks.{OnlyLooks};
ghost use Rattle.mi_print.specs.Trees.{tree};
ghost use Rattle.mi_print_looks.specs.Machines.{machine_in, plain_machine};
ghost use Rattle.mi_show.specs.Machines.{IsScanned};
ghost use Rattle.mi_show.specs.Prints.{lines, section, files_in, registry, shown, others};

use crate::entries::push_section;
use crate::fault::ShowError;
use crate::files::push_files;
use crate::kinds::push_registry;
use mi_base::{Bytes, NoMemory};
use mi_hashes::HashError;
use mi_image::Image;
use mi_print::push_word;
use mi_volume::Volume;
use std::alloc::Global;

// Adds the files with their title.
fn push_files_section<V: Volume>(
    alloc: Global,
    out: &mut Vec<u8>,
    vol: &mut V,
    image: &Image,
) -> Result<(), HashError>
    ensures text { V.told → IsScanned (V.state vol.old).held image.now → OnOk result (out.new.items ≡ out.old.items ++ section (codes "Files") (tree [] (files_in (machine_in (V.state vol.old).held image.now)))) }
    ensures looks { V.told → OnlyLooks (V.state vol.old) (V.state vol.new) }
    ensures passes { Passes (V.state vol.old) (V.state vol.new) }
    ensures fault { IsErrOf result HashError.Volume → Rose (V.state vol.old) (V.state vol.new) }
    ensures source { ¬ IsErrOf result HashError.Source }
{
    push_word(out, "Files\n")?;
    push_files(alloc, out, vol, image)?;
    push_word(out, "\n")?;
    Ok(())
}

// Adds the registry with its title.
fn push_registry_section(alloc: Global, out: &mut Vec<u8>, image: &Image) -> Result<(), NoMemory>
    ensures { OnOk result (out.new.items ≡ out.old.items ++ section (codes "Registry") (registry (plain_machine image.now))) }
{
    push_word(out, "Registry\n")?;
    push_registry(alloc, out, image)?;
    push_word(out, "\n")
}

// Adds the sections behind that of the files.
#[tactic(auto, unfolding(crate::specs::Prints::others))]
fn push_others(alloc: Global, out: &mut Vec<u8>, image: &Image) -> Result<(), NoMemory>
    ensures { OnOk result (out.new.items ≡ out.old.items ++ others (plain_machine image.now)) }
{
    push_section(alloc, out, image, "Folders", "d/")?;
    push_registry_section(alloc, out, image)?;
    push_section(alloc, out, image, "Shortcuts", "s/")?;
    push_section(alloc, out, image, "Environment", "n/")?;
    push_section(alloc, out, image, "Clients", "c/")?;
    push_section(alloc, out, image, "System", "y/")
}

// Adds the print of the machine of an image.
#[tactic(auto, unfolding(crate::specs::Prints::shown))]
fn push_machine<V: Volume>(
    alloc: Global,
    out: &mut Vec<u8>,
    vol: &mut V,
    image: &Image,
) -> Result<(), HashError>
    ensures text { V.told → IsScanned (V.state vol.old).held image.now → OnOk result (out.new.items ≡ out.old.items ++ shown (machine_in (V.state vol.old).held image.now)) }
    ensures looks { V.told → OnlyLooks (V.state vol.old) (V.state vol.new) }
    ensures passes { Passes (V.state vol.old) (V.state vol.new) }
    ensures fault { IsErrOf result HashError.Volume → Rose (V.state vol.old) (V.state vol.new) }
    ensures source { ¬ IsErrOf result HashError.Source }
{
    push_section(alloc, out, image, "Products", "p/")?;
    push_files_section(alloc, out, vol, image)?;
    push_others(alloc, out, image)?;
    Ok(())
}

/// The print of the machine that a volume holds outside its rollback area (this project's own). `BadImage` comes for the
/// first name, in byte order, that isn't spelled. `Fault` comes only where the count of the volume rose. Nothing is changed.
pub fn show<V: Volume>(alloc: Global, vol: &mut V) -> Result<Bytes, ShowError>
    ensures text { V.told → IfOk result (λ text. IsOkAnd (machine_of (V.state vol.old).held) (λ m. text ≡ shown m)) }
    ensures bad { V.told → (name : List ℕ) → IsErrOf result (ShowError.BadImage name) → machine_of (V.state vol.old).held ≡ Err name }
    ensures looks { V.told → OnlyLooks (V.state vol.old) (V.state vol.new) }
    ensures passes { Passes (V.state vol.old) (V.state vol.new) }
    ensures fault { IsErrOf result ShowError.Fault → Rose (V.state vol.old) (V.state vol.new) }
{
    let image = Image::scan(alloc, vol)?;
    let mut out = Vec::new(alloc);
    push_machine(alloc, &mut out, vol, &image)?;
    Ok(Bytes::from_vec(out))
}
