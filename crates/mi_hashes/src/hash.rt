//! The hash of a file.

ghost use Rattle.std.specs.Prelude.{◌≡◌, ◌≤◌, None, IfOk, IsErrOf, MatchOption};
ghost use Rattle.std.specs.FinMap.{get};
ghost use Rattle.md5.specs.Md5.{md5};
ghost use Rattle.mi_base.specs.Names.{file_name};
ghost use Rattle.mi_volume.specs.State.{Passes, Rose};
ghost use Rattle.mi_source.specs.Counts as count;
ghost use Rattle.mi_image.specs.Items.{bytes_of_file, machine_over, AreThere};
ghost use Rattle.mi_image.specs.Looks.{OnlyLooks};

use crate::add::add_file;
use crate::fault::HashError;
use md5::{Digest, Md5};
use mi_base::{Name, NameError, NoMemory, PathText, Text, fold};
use mi_image::Image;
use mi_source::Source;
use mi_volume::Volume;
use std::alloc::Global;

// The text of the name of a file's path.
#[tactic(auto, unfolding(mi_base::specs::Names::file_name))]
fn name_text(alloc: Global, path: &PathText) -> Result<Text, NoMemory>
    ensures { IfOk result (λ text. text ≡ file_name path.now) }
{
    let mut text = Text::copy_of(alloc, "f/")?;
    text.push_str(fold(alloc, path.as_str())?.as_str())?;
    Ok(text)
}

// The name under which a file of this path is held, where the image has something there.
fn name_there(alloc: Global, image: &Image, path: &PathText) -> Result<Option<Name>, NoMemory>
    ensures { IfOk result (λ name. MatchOption name (get image.now (file_name path.now) ≡ None) (λ n. n ≡ file_name path.now)) }
{
    let text = name_text(alloc, path)?;
    if image.get(text.as_str()).is_none() {
        return Ok(None);
    }
    match Name::of(alloc, text.as_str()) {
        Ok(name) => Ok(Some(name)),
        Err(NameError::Length) => Ok(None),
        Err(NameError::NoMemory) => Err(NoMemory),
    }
}

/// The MD5 of the bytes of the file that an image names, wherever they are: behind the head in a record of the volume, or in
/// the source's file. They are read in pieces of at most 65,536 bytes; a file that isn't there has none
/// (MsiFileHash table; Default File Versioning).
pub fn hash_of<S: Source, V: Volume>(
    alloc: Global,
    src: &mut S,
    vol: &mut V,
    image: &Image,
    path: &PathText,
) -> Result<[u8; 16], HashError>
    ensures hash { V.told → S.told → AreThere (V.state vol.old).held (S.files src.old) image.now
        → IfOk result (λ hash. hash ≡ md5 (bytes_of_file (get (machine_over (V.state vol.old).held (S.files src.old) image.now) (file_name path.now)))) }
    ensures looks { V.told → OnlyLooks (V.state vol.old) (V.state vol.new) }
    ensures passes { Passes (V.state vol.old) (V.state vol.new) }
    ensures volume { IsErrOf result HashError.Volume → Rose (V.state vol.old) (V.state vol.new) }
    ensures stays { S.files src.new ≡ S.files src.old }
    ensures counts { S.faults src.old ≤ S.faults src.new }
    ensures source { IsErrOf result HashError.Source → count.Rose (S.faults src.old) (S.faults src.new) }
{
    let Some(name) = name_there(alloc, image, path)? else {
        return Ok(Md5::new().finalize());
    };
    let mut hasher = Md5::new();
    add_file(alloc, src, vol, &mut hasher, image, &name)?;
    Ok(hasher.finalize())
}
