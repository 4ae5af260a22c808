//! What differs between the machines of two volumes.

ghost use Rattle.std.specs.Prelude.{◌≡◌, ◌++◌, List, ℕ, Some, Err, IfOk, OnOk, IsErrOf, IsOkAnd, option_map};
ghost use Rattle.std.specs.List.{flat_map};
ghost use Rattle.mi_volume.specs.State.{Passes, Rose};
ghost use Rattle.mi_base.specs.Machine.{machine_of};
ghost use Rattle.mi_image.specs.Looks.{OnlyLooks};
ghost use Rattle.mi_image.specs.Items.{ImageOf};
ghost use Rattle.mi_print_looks.specs.Machines.{no_files, machine_in};
ghost use Rattle.mi_show.specs.Machines.{IsScanned};
ghost use Rattle.mi_show.specs.Differences.{line_at, change, difference, differences, titled, different};

use crate::fault::{DiffError, SideFault};
use crate::lines_of::line_at;
use mi_base::{Bytes, NoMemory};
use mi_hashes::HashError;
use mi_image::{Image, ImageError};
use mi_print::push_word;
use mi_print_looks::NameSet;
use mi_volume::Volume;
use std::alloc::Global;

// Adds a mark and a line.
fn push_marked(out: &mut Vec<u8>, mark: &str, line: &[u8]) -> Result<(), NoMemory>
    ensures { OnOk result (out.new.items ≡ out.old.items ++ mark.now ++ line.now) }
{
    push_word(out, mark)?;
    out.extend_from_slice(line)?;
    Ok(())
}

// Adds two lines where they differ.
fn push_both(out: &mut Vec<u8>, former: &[u8], present: &[u8]) -> Result<(), NoMemory>
    ensures { OnOk result (out.new.items ≡ out.old.items ++ change (Some former.now) (Some present.now)) }
{
    if former == present {
        return Ok(());
    }
    push_marked(out, "~- ", former)?;
    push_marked(out, "~+ ", present)
}

// Adds what is said of a line that is gone, is new, or has come for another.
fn push_change(
    out: &mut Vec<u8>,
    former: &Option<Vec<u8>>,
    present: &Option<Vec<u8>>,
) -> Result<(), NoMemory>
    ensures { OnOk result (out.new.items ≡ out.old.items ++ change (option_map (λ l. l.items) former.now) (option_map (λ l. l.items) present.now)) }
{
    match (former, present) {
        (None, None) => Ok(()),
        (None, Some(present)) => push_marked(out, "+ ", present.as_slice()),
        (Some(former), None) => push_marked(out, "- ", former.as_slice()),
        (Some(former), Some(present)) => push_both(out, former.as_slice(), present.as_slice()),
    }
}

// The line at a name of the machine that is compared with.
fn line_before<W: Volume>(
    alloc: Global,
    other: &mut W,
    before: &Image,
    name: &str,
) -> Result<Option<Vec<u8>>, SideFault>
    ensures text { W.told → IsScanned (W.state other.old).held before.now
        → IfOk result (λ line. option_map (λ l. l.items) line ≡ line_at (machine_in (W.state other.old).held before.now) name.now) }
    ensures looks { W.told → OnlyLooks (W.state other.old) (W.state other.new) }
    ensures passes { Passes (W.state other.old) (W.state other.new) }
    ensures fault { IsErrOf result SideFault.Other → Rose (W.state other.old) (W.state other.new) }
    ensures side { ¬ IsErrOf result SideFault.Fault }
{
    match line_at(alloc, other, before, name) {
        Ok(line) => Ok(line),
        Err(HashError::NoMemory) => Err(SideFault::NoMemory),
        Err(HashError::Source | HashError::Volume) => Err(SideFault::Other),
    }
}

// The line at a name of the machine that is shown.
fn line_now<V: Volume>(
    alloc: Global,
    vol: &mut V,
    after: &Image,
    name: &str,
) -> Result<Option<Vec<u8>>, SideFault>
    ensures text { V.told → IsScanned (V.state vol.old).held after.now
        → IfOk result (λ line. option_map (λ l. l.items) line ≡ line_at (machine_in (V.state vol.old).held after.now) name.now) }
    ensures looks { V.told → OnlyLooks (V.state vol.old) (V.state vol.new) }
    ensures passes { Passes (V.state vol.old) (V.state vol.new) }
    ensures fault { IsErrOf result SideFault.Fault → Rose (V.state vol.old) (V.state vol.new) }
    ensures side { ¬ IsErrOf result SideFault.Other }
{
    match line_at(alloc, vol, after, name) {
        Ok(line) => Ok(line),
        Err(HashError::NoMemory) => Err(SideFault::NoMemory),
        Err(HashError::Source | HashError::Volume) => Err(SideFault::Fault),
    }
}

// Adds what differs at a name.
fn push_difference<V: Volume, W: Volume>(
    alloc: Global,
    out: &mut Vec<u8>,
    vol: &mut V,
    after: &Image,
    other: &mut W,
    before: &Image,
    name: &str,
) -> Result<(), SideFault>
    ensures text { V.told → W.told → IsScanned (V.state vol.old).held after.now → IsScanned (W.state other.old).held before.now
        → OnOk result (out.new.items ≡ out.old.items ++ difference (machine_in (W.state other.old).held before.now) (machine_in (V.state vol.old).held after.now) name.now) }
    ensures looks { V.told → OnlyLooks (V.state vol.old) (V.state vol.new) }
    ensures passes { Passes (V.state vol.old) (V.state vol.new) }
    ensures fault { IsErrOf result SideFault.Fault → Rose (V.state vol.old) (V.state vol.new) }
    ensures looks_other { W.told → OnlyLooks (W.state other.old) (W.state other.new) }
    ensures passes_other { Passes (W.state other.old) (W.state other.new) }
    ensures fault_other { IsErrOf result SideFault.Other → Rose (W.state other.old) (W.state other.new) }
{
    let former = line_before(alloc, other, before, name)?;
    let present = line_now(alloc, vol, after, name)?;
    push_change(out, &former, &present)?;
    Ok(())
}

// Adds what differs at these names.
fn push_all<V: Volume, W: Volume>(
    alloc: Global,
    out: &mut Vec<u8>,
    vol: &mut V,
    after: &Image,
    other: &mut W,
    before: &Image,
    names: &[&str],
) -> Result<(), SideFault>
    ensures text { V.told → W.told → IsScanned (V.state vol.old).held after.now → IsScanned (W.state other.old).held before.now
        → OnOk result (out.new.items ≡ out.old.items ++ flat_map (λ n. difference (machine_in (W.state other.old).held before.now) (machine_in (V.state vol.old).held after.now) n.now) names.now) }
    ensures looks { V.told → OnlyLooks (V.state vol.old) (V.state vol.new) }
    ensures passes { Passes (V.state vol.old) (V.state vol.new) }
    ensures fault { IsErrOf result SideFault.Fault → Rose (V.state vol.old) (V.state vol.new) }
    ensures looks_other { W.told → OnlyLooks (W.state other.old) (W.state other.new) }
    ensures passes_other { Passes (W.state other.old) (W.state other.new) }
    ensures fault_other { IsErrOf result SideFault.Other → Rose (W.state other.old) (W.state other.new) }
{
    for name in names {
        push_difference(alloc, out, vol, after, other, before, name)?;
    }
    Ok(())
}

// What differs at the names that begin so.
fn differences<V: Volume, W: Volume>(
    alloc: Global,
    vol: &mut V,
    after: &Image,
    other: &mut W,
    before: &Image,
    front: &str,
) -> Result<Vec<u8>, SideFault>
    ensures text { V.told → W.told → IsScanned (V.state vol.old).held after.now → IsScanned (W.state other.old).held before.now
        → IfOk result (λ text. text.items ≡ differences front.now (machine_in (W.state other.old).held before.now) (machine_in (V.state vol.old).held after.now)) }
    ensures looks { V.told → OnlyLooks (V.state vol.old) (V.state vol.new) }
    ensures passes { Passes (V.state vol.old) (V.state vol.new) }
    ensures fault { IsErrOf result SideFault.Fault → Rose (V.state vol.old) (V.state vol.new) }
    ensures looks_other { W.told → OnlyLooks (W.state other.old) (W.state other.new) }
    ensures passes_other { Passes (W.state other.old) (W.state other.new) }
    ensures fault_other { IsErrOf result SideFault.Other → Rose (W.state other.old) (W.state other.new) }
{
    let set = NameSet::of_either(alloc, before, after, front)?;
    let names = set.list(alloc)?;
    let mut text = Vec::new(alloc);
    push_all(
        alloc,
        &mut text,
        vol,
        after,
        other,
        before,
        names.as_slice(),
    )?;
    Ok(text)
}

// Adds lines with their title, where there are any.
fn push_titled(out: &mut Vec<u8>, title: &str, text: &[u8]) -> Result<(), NoMemory>
    ensures { OnOk result (out.new.items ≡ out.old.items ++ titled title.now text.now) }
{
    if text.is_empty() {
        return Ok(());
    }
    push_word(out, title)?;
    out.push(b'\n')?;
    out.extend_from_slice(text)?;
    out.push(b'\n')?;
    Ok(())
}

// A kind of entries: its title, and how its names begin.
#[derive(Clone, Copy)]
struct Kind {
    title: &'static str,
    front: &'static str,
}

fn kind_of(title: &'static str, front: &'static str) -> Kind
    ensures title { result.title.now ≡ title.now }
    ensures front { result.front.now ≡ front.now }
{
    Kind { title, front }
}

// Adds what differs of a kind.
fn push_kind<V: Volume, W: Volume>(
    alloc: Global,
    out: &mut Vec<u8>,
    vol: &mut V,
    after: &Image,
    other: &mut W,
    before: &Image,
    kind: &Kind,
) -> Result<(), SideFault>
    ensures text { V.told → W.told → IsScanned (V.state vol.old).held after.now → IsScanned (W.state other.old).held before.now
        → OnOk result (out.new.items ≡ out.old.items ++ titled kind.now.title.now (differences kind.now.front.now (machine_in (W.state other.old).held before.now) (machine_in (V.state vol.old).held after.now))) }
    ensures looks { V.told → OnlyLooks (V.state vol.old) (V.state vol.new) }
    ensures passes { Passes (V.state vol.old) (V.state vol.new) }
    ensures fault { IsErrOf result SideFault.Fault → Rose (V.state vol.old) (V.state vol.new) }
    ensures looks_other { W.told → OnlyLooks (W.state other.old) (W.state other.new) }
    ensures passes_other { Passes (W.state other.old) (W.state other.new) }
    ensures fault_other { IsErrOf result SideFault.Other → Rose (W.state other.old) (W.state other.new) }
{
    let text = differences(alloc, vol, after, other, before, kind.front)?;
    push_titled(out, kind.title, text.as_slice())?;
    Ok(())
}

// Adds what differs of these kinds.
fn push_kinds<V: Volume, W: Volume>(
    alloc: Global,
    out: &mut Vec<u8>,
    vol: &mut V,
    after: &Image,
    other: &mut W,
    before: &Image,
    kinds: &[Kind],
) -> Result<(), SideFault>
    ensures text { V.told → W.told → IsScanned (V.state vol.old).held after.now → IsScanned (W.state other.old).held before.now
        → OnOk result (out.new.items ≡ out.old.items ++ flat_map (λ k. titled k.title.now (differences k.front.now (machine_in (W.state other.old).held before.now) (machine_in (V.state vol.old).held after.now))) kinds.now) }
    ensures looks { V.told → OnlyLooks (V.state vol.old) (V.state vol.new) }
    ensures passes { Passes (V.state vol.old) (V.state vol.new) }
    ensures fault { IsErrOf result SideFault.Fault → Rose (V.state vol.old) (V.state vol.new) }
    ensures looks_other { W.told → OnlyLooks (W.state other.old) (W.state other.new) }
    ensures passes_other { Passes (W.state other.old) (W.state other.new) }
    ensures fault_other { IsErrOf result SideFault.Other → Rose (W.state other.old) (W.state other.new) }
{
    for kind in kinds {
        push_kind(alloc, out, vol, after, other, before, kind)?;
    }
    Ok(())
}

// What differs from the machine of an image to that of another.
#[tactic(auto, unfolding(crate::specs::Differences::different))]
fn different<V: Volume, W: Volume>(
    alloc: Global,
    vol: &mut V,
    after: &Image,
    other: &mut W,
    before: &Image,
) -> Result<Vec<u8>, SideFault>
    ensures text { V.told → W.told → IsScanned (V.state vol.old).held after.now → IsScanned (W.state other.old).held before.now
        → IfOk result (λ text. text.items ≡ different (machine_in (W.state other.old).held before.now) (machine_in (V.state vol.old).held after.now)) }
    ensures looks { V.told → OnlyLooks (V.state vol.old) (V.state vol.new) }
    ensures passes { Passes (V.state vol.old) (V.state vol.new) }
    ensures fault { IsErrOf result SideFault.Fault → Rose (V.state vol.old) (V.state vol.new) }
    ensures looks_other { W.told → OnlyLooks (W.state other.old) (W.state other.new) }
    ensures passes_other { Passes (W.state other.old) (W.state other.new) }
    ensures fault_other { IsErrOf result SideFault.Other → Rose (W.state other.old) (W.state other.new) }
{
    let kinds = [
        kind_of("Products", "p/"),
        kind_of("Files", "f/"),
        kind_of("Folders", "d/"),
        kind_of("Registry keys", "k/"),
        kind_of("Registry values", "v/"),
        kind_of("Shortcuts", "s/"),
        kind_of("Environment", "n/"),
        kind_of("Clients", "c/"),
        kind_of("System", "y/"),
    ];
    let mut text = Vec::new(alloc);
    push_kinds(alloc, &mut text, vol, after, other, before, &kinds)?;
    Ok(text)
}

// The image of the machine that is compared with.
fn scan_other<W: Volume>(alloc: Global, other: &mut W) -> Result<Image, DiffError>
    ensures image { W.told → IfOk result (λ image. IsOkAnd (machine_of (W.state other.old).held) (ImageOf (W.state other.old).held no_files image)) }
    ensures bad { W.told → (name : List ℕ) → IsErrOf result (DiffError.BadOther name) → machine_of (W.state other.old).held ≡ Err name }
    ensures looks { W.told → OnlyLooks (W.state other.old) (W.state other.new) }
    ensures passes { Passes (W.state other.old) (W.state other.new) }
    ensures fault { IsErrOf result DiffError.OtherFault → Rose (W.state other.old) (W.state other.new) }
    ensures side { ¬ IsErrOf result DiffError.Fault }
    ensures own { (name : List ℕ) → ¬ IsErrOf result (DiffError.BadImage name) }
{
    match Image::scan(alloc, other) {
        Ok(image) => Ok(image),
        Err(ImageError::NoMemory) => Err(DiffError::NoMemory),
        Err(ImageError::Fault) => Err(DiffError::OtherFault),
        Err(ImageError::BadImage(name)) => Err(DiffError::BadOther(name)),
    }
}

/// What differs from the machine that `other` holds outside its rollback area to that of `vol`, kind by kind (this project's
/// own); nothing where no line differs. `BadImage` and `BadOther` come for the first name, in byte order, that isn't
/// spelled in `vol` and in `other`. `Fault` and `OtherFault` come only where the count of that volume rose. Nothing is
/// changed.
pub fn diff<V: Volume, W: Volume>(
    alloc: Global,
    vol: &mut V,
    other: &mut W,
) -> Result<Bytes, DiffError>
    ensures text { V.told → W.told → IfOk result (λ text. IsOkAnd (machine_of (V.state vol.old).held) (λ new. IsOkAnd (machine_of (W.state other.old).held) (λ old. text ≡ different old new))) }
    ensures bad { V.told → (name : List ℕ) → IsErrOf result (DiffError.BadImage name) → machine_of (V.state vol.old).held ≡ Err name }
    ensures looks { V.told → OnlyLooks (V.state vol.old) (V.state vol.new) }
    ensures passes { Passes (V.state vol.old) (V.state vol.new) }
    ensures fault { IsErrOf result DiffError.Fault → Rose (V.state vol.old) (V.state vol.new) }
    ensures bad_other { W.told → (name : List ℕ) → IsErrOf result (DiffError.BadOther name) → machine_of (W.state other.old).held ≡ Err name }
    ensures looks_other { W.told → OnlyLooks (W.state other.old) (W.state other.new) }
    ensures passes_other { Passes (W.state other.old) (W.state other.new) }
    ensures fault_other { IsErrOf result DiffError.OtherFault → Rose (W.state other.old) (W.state other.new) }
{
    let before = scan_other(alloc, other)?;
    let after = Image::scan(alloc, vol)?;
    let text = different(alloc, vol, &after, other, &before)?;
    Ok(Bytes::from_vec(text))
}
