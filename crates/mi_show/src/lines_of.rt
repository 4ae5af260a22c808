//! The lines of the entries of an image.

ghost use Rattle.std.specs.Prelude.{◌≡◌, ◌++◌, IfOk, IsErrOf, option_map};
ghost use Rattle.std.specs.FinMap.{get};
ghost use Rattle.md5.specs.Md5.{md5};
ghost use Rattle.mi_base.specs.Names.{file_name};
ghost use Rattle.mi_volume.specs.State.{Passes, Rose};
ghost use Rattle.mi_image.specs.Items.{bytes_of_file};
ghost use Rattle.mi_image.specs.Looks.{OnlyLooks};
ghost use Rattle.mi_print.specs.Texts.{field};
ghost use Rattle.mi_print.specs.Lines.{head_details};
ghost use Rattle.mi_print.specs.Entries.{other_line};
ghost use Rattle.mi_print_looks.specs.Machines.{machine_in};
ghost use Rattle.mi_show.specs.Machines.{IsScanned};
ghost use Rattle.mi_show.specs.Differences.{item_line, line_at};

use crate::files::push_details_of;
use mi_base::{Entry, FileHead, NoMemory};
use mi_hashes::HashError;
use mi_image::{Image, Item};
use mi_print::{push_field, push_other};
use mi_volume::Volume;
use std::alloc::Global;

// The line of a file of an image.
fn line_of_file<V: Volume>(
    alloc: Global,
    vol: &mut V,
    image: &Image,
    head: &FileHead,
) -> Result<Vec<u8>, HashError>
    ensures text { V.told → IsScanned (V.state vol.old).held image.now
        → IfOk result (λ line. line.items ≡ field head.now.shown ++ head_details head.now (md5 (bytes_of_file (get (machine_in (V.state vol.old).held image.now) (file_name head.now.shown))))) }
    ensures looks { V.told → OnlyLooks (V.state vol.old) (V.state vol.new) }
    ensures passes { Passes (V.state vol.old) (V.state vol.new) }
    ensures fault { IsErrOf result HashError.Volume → Rose (V.state vol.old) (V.state vol.new) }
    ensures source { ¬ IsErrOf result HashError.Source }
{
    let mut line = Vec::new(alloc);
    push_field(&mut line, head.shown.as_str())?;
    push_details_of(alloc, &mut line, vol, image, head)?;
    Ok(line)
}

// The line of an entry that isn't a file.
fn line_of_other(alloc: Global, entry: &Entry) -> Result<Vec<u8>, NoMemory>
    ensures { IfOk result (λ line. line.items ≡ other_line entry.now) }
{
    let mut line = Vec::new(alloc);
    push_other(alloc, &mut line, entry)?;
    Ok(line)
}

// The line of an item of an image.
fn line_of<V: Volume>(
    alloc: Global,
    vol: &mut V,
    image: &Image,
    item: &Item,
) -> Result<Vec<u8>, HashError>
    ensures text { V.told → IsScanned (V.state vol.old).held image.now
        → IfOk result (λ line. line.items ≡ item_line (machine_in (V.state vol.old).held image.now) item.now) }
    ensures looks { V.told → OnlyLooks (V.state vol.old) (V.state vol.new) }
    ensures passes { Passes (V.state vol.old) (V.state vol.new) }
    ensures fault { IsErrOf result HashError.Volume → Rose (V.state vol.old) (V.state vol.new) }
    ensures source { ¬ IsErrOf result HashError.Source }
{
    match item {
        Item::Head(head, _) => line_of_file(alloc, vol, image, head),
        Item::Whole(entry) => {
            let line = line_of_other(alloc, entry)?;
            Ok(line)
        }
    }
}

/// The line of what stands at a name, if anything does.
pub fn line_at<V: Volume>(
    alloc: Global,
    vol: &mut V,
    image: &Image,
    name: &str,
) -> Result<Option<Vec<u8>>, HashError>
    ensures text { V.told → IsScanned (V.state vol.old).held image.now
        → IfOk result (λ line. option_map (λ l. l.items) line ≡ line_at (machine_in (V.state vol.old).held image.now) name.now) }
    ensures looks { V.told → OnlyLooks (V.state vol.old) (V.state vol.new) }
    ensures passes { Passes (V.state vol.old) (V.state vol.new) }
    ensures fault { IsErrOf result HashError.Volume → Rose (V.state vol.old) (V.state vol.new) }
    ensures source { ¬ IsErrOf result HashError.Source }
{
    match image.get(name) {
        Some(item) => {
            let line = line_of(alloc, vol, image, item)?;
            Ok(Some(line))
        }
        None => Ok(None),
    }
}
