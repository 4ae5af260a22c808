//! The lines of entries that aren't files, by their names.

ghost use Rattle.std.specs.Prelude.{◌≡◌, ◌++◌, OnOk, codes};
ghost use Rattle.std.specs.Option.{option_copied};
ghost use Rattle.std.specs.List.{flat_map};
ghost use Rattle.std.specs.FinMap.{get};
ghost use Rattle.mi_image.specs.Items.{AreRight};
ghost use Rattle.mi_image.specs.Lookups.{whole_of};
ghost use Rattle.mi_print_looks.specs.Machines.{plain_machine};
ghost use Rattle.mi_show.specs.Prints.{other_at, lines, section};

use mi_base::{Entry, NoMemory};
use mi_image::Image;
use mi_print::{push_other, push_word};
use std::alloc::Global;

/// What every image keeps, which a look tells: its items stand at their own names and have records.
pub fn keeps_right(image: &Image)
    ensures { AreRight image.now }
{
    let _found = image.get("f/");
}

/// The entry that stands at a name, where that isn't a file.
pub fn entry_at<'a>(image: &'a Image, name: &str) -> Option<&'a Entry>
    ensures entry { option_copied result ≡ whole_of (get image.now name.now) }
    ensures right { AreRight image.now }
{
    match image.get(name) {
        Some(item) => item.whole(),
        None => None,
    }
}

// Adds the line of an entry, if there is one.
fn push_entry(alloc: Global, out: &mut Vec<u8>, entry: Option<&Entry>) -> Result<(), NoMemory>
    ensures { OnOk result (out.new.items ≡ out.old.items ++ other_at (option_copied entry.entry)) }
{
    match entry {
        Some(entry) => push_other(alloc, out, entry),
        None => Ok(()),
    }
}

/// Adds the line of what stands at a name, where that isn't a file.
pub fn push_at(alloc: Global, out: &mut Vec<u8>, image: &Image, name: &str) -> Result<(), NoMemory>
    ensures { OnOk result (out.new.items ≡ out.old.items ++ other_at (get (plain_machine image.now) name.now)) }
{
    push_entry(alloc, out, entry_at(image, name))?;
    Ok(())
}

// Adds the lines of what stands at these names.
fn push_all(alloc: Global, out: &mut Vec<u8>, image: &Image, names: &[&str]) -> Result<(), NoMemory>
    ensures { OnOk result (out.new.items ≡ out.old.items ++ flat_map (λ n. codes "  " ++ other_at (get (plain_machine image.now) n.now)) names.now) }
{
    for name in names {
        push_word(out, "  ")?;
        push_at(alloc, out, image, name)?;
    }
    Ok(())
}

// Adds the lines of what stands at the names that begin so.
fn push_lines(alloc: Global, out: &mut Vec<u8>, image: &Image, front: &str) -> Result<(), NoMemory>
    ensures { OnOk result (out.new.items ≡ out.old.items ++ lines front.now (plain_machine image.now)) }
{
    let names = image.names(alloc, front)?;
    push_all(alloc, out, image, names.as_slice())?;
    Ok(())
}

/// Adds a title and the lines of what stands at the names that begin so.
pub fn push_section(
    alloc: Global,
    out: &mut Vec<u8>,
    image: &Image,
    title: &str,
    front: &str,
) -> Result<(), NoMemory>
    ensures { OnOk result (out.new.items ≡ out.old.items ++ section title.now (lines front.now (plain_machine image.now))) }
{
    push_word(out, title)?;
    out.push(b'\n')?;
    push_lines(alloc, out, image, front)?;
    out.push(b'\n')?;
    Ok(())
}
