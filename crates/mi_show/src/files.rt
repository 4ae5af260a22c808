//! The files of an image, with the hashes of their bytes.

ghost use Rattle.std.specs.Prelude.{◌≡◌, ◌≤◌, ◌++◌, ℕ, List, [], length, take, drop, map, IfOk, OnOk, OnErr, IsErrOf};
ghost use Rattle.std.specs.Option.{option_copied, option_map};
ghost use Rattle.std.specs.FinMap.{empty, get};
ghost use Rattle.md5.specs.Md5.{md5};
ghost use Rattle.mi_base.specs.Names.{file_name};
ghost use Rattle.mi_volume.specs.State.{Passes, Rose};
ghost use Rattle.mi_source.specs.Paths.{bytes_or_none, names_in};
ghost use Rattle.mi_source.specs.Counts as count;
ghost use Rattle.mi_image.specs.Items.{AreRight, bytes_of_file};
ghost use Rattle.mi_image.specs.Lookups.{head_in};
ghost use Rattle.mi_image.specs.Looks.{OnlyLooks};
ghost use Rattle.mi_print.specs.Lines.{head_details};
ghost use Rattle.mi_print.specs.Trees.{tree};
ghost use Rattle.mi_show.specs.Prints.{files_in};
ghost use Rattle.mi_print_looks.specs.Machines.{no_files, machine_in};
ghost use Rattle.mi_show.specs.Machines.{IsScanned, head_lines, lines_after, path_after, heads_tree, heads_of};

use crate::entries::keeps_right;
use mi_base::{Bytes, FileHead, PathText, Text};
use mi_hashes::{HashError, hash_of};
use mi_image::{Image, Item};
use mi_print::{push_details, push_path};
use mi_source::{Failed, Source, SrcFault};
use mi_volume::Volume;
use std::alloc::Global;

/// A source without files: no image that was scanned names one.
#[derive(Drop)]
pub struct NoFiles;

impl Source for NoFiles {
    ghost told = { Unit {0} };

    ghost files = { λ s. no_files };

    ghost faults = { λ s. 0 };

    fn names(&mut self, alloc: Global, _folder: &str) -> Result<Vec<Text>, SrcFault> {
        Ok(Vec::new(alloc))
    }

    fn size(&mut self, _path: &str) -> Result<Option<u64>, Failed> {
        Ok(None)
    }

    fn read(
        &mut self,
        alloc: Global,
        _path: &str,
        _at: u64,
        _want: usize,
    ) -> Result<Bytes, SrcFault> {
        Ok(Bytes::new(alloc))
    }
}

/// The MD5 of the bytes of a file that an image of the volume has at a path, read by pieces.
pub fn hash_at<V: Volume>(
    alloc: Global,
    vol: &mut V,
    image: &Image,
    path: &PathText,
) -> Result<[u8; 16], HashError>
    ensures hash { V.told → IsScanned (V.state vol.old).held image.now
        → IfOk result (λ hash. hash ≡ md5 (bytes_of_file (get (machine_in (V.state vol.old).held image.now) (file_name path.now)))) }
    ensures looks { V.told → OnlyLooks (V.state vol.old) (V.state vol.new) }
    ensures passes { Passes (V.state vol.old) (V.state vol.new) }
    ensures fault { IsErrOf result HashError.Volume → Rose (V.state vol.old) (V.state vol.new) }
    ensures source { ¬ IsErrOf result HashError.Source }
{
    let hash = hash_of(alloc, &mut NoFiles, vol, image, path)?;
    Ok(hash)
}

/// Adds what stands behind the path of a file of an image.
pub fn push_details_of<V: Volume>(
    alloc: Global,
    out: &mut Vec<u8>,
    vol: &mut V,
    image: &Image,
    head: &FileHead,
) -> Result<(), HashError>
    ensures text { V.told → IsScanned (V.state vol.old).held image.now
        → OnOk result (out.new.items ≡ out.old.items ++ head_details head.now (md5 (bytes_of_file (get (machine_in (V.state vol.old).held image.now) (file_name head.now.shown))))) }
    ensures looks { V.told → OnlyLooks (V.state vol.old) (V.state vol.new) }
    ensures passes { Passes (V.state vol.old) (V.state vol.new) }
    ensures fault { IsErrOf result HashError.Volume → Rose (V.state vol.old) (V.state vol.new) }
    ensures source { ¬ IsErrOf result HashError.Source }
{
    let hash = hash_at(alloc, vol, image, &head.shown)?;
    push_details(alloc, out, head, &hash)?;
    Ok(())
}

// Adds the lines of a file of an image.
fn push_file<V: Volume>(
    alloc: Global,
    out: &mut Vec<u8>,
    vol: &mut V,
    image: &Image,
    former: &[u8],
    head: &FileHead,
) -> Result<(), HashError>
    ensures text { V.told → IsScanned (V.state vol.old).held image.now
        → OnOk result (out.new.items ≡ out.old.items ++ head_lines (machine_in (V.state vol.old).held image.now) former.now head.now) }
    ensures looks { V.told → OnlyLooks (V.state vol.old) (V.state vol.new) }
    ensures passes { Passes (V.state vol.old) (V.state vol.new) }
    ensures fault { IsErrOf result HashError.Volume → Rose (V.state vol.old) (V.state vol.new) }
    ensures source { ¬ IsErrOf result HashError.Source }
{
    push_path(out, former, head.shown.as_str().as_bytes())?;
    push_details_of(alloc, out, vol, image, head)
}

// The head of the file that stands at a name.
fn head_at<'a>(image: &'a Image, name: &str) -> Option<&'a FileHead>
    ensures head { option_copied result ≡ head_in (get image.now name.now) }
    ensures right { AreRight image.now }
{
    match image.get(name) {
        Some(Item::Head(head, _)) => Some(head),
        Some(Item::Whole(_)) | None => None,
    }
}

// Adds the lines of a file, if there is one, and answers the path behind whose lines the next ones stand.
fn push_if_file<'a, V: Volume>(
    alloc: Global,
    out: &mut Vec<u8>,
    vol: &mut V,
    image: &Image,
    former: &'a [u8],
    head: Option<&'a FileHead>,
) -> Result<&'a [u8], HashError>
    ensures text { V.told → IsScanned (V.state vol.old).held image.now
        → OnOk result (out.new.items ≡ out.old.items ++ lines_after (machine_in (V.state vol.old).held image.now) former.now (option_copied head.entry)) }
    ensures path { IfOk result (λ path. path.now ≡ path_after former.now (option_copied head.entry)) }
    ensures looks { V.told → OnlyLooks (V.state vol.old) (V.state vol.new) }
    ensures passes { Passes (V.state vol.old) (V.state vol.new) }
    ensures fault { IsErrOf result HashError.Volume → Rose (V.state vol.old) (V.state vol.new) }
    ensures source { ¬ IsErrOf result HashError.Source }
{
    match head {
        Some(head) => {
            push_file(alloc, out, vol, image, former, head)?;
            Ok(head.shown.as_str().as_bytes())
        }
        None => Ok(former),
    }
}

// Adds the files that stand at these names, as a tree.
fn push_tree<V: Volume>(
    alloc: Global,
    out: &mut Vec<u8>,
    vol: &mut V,
    image: &Image,
    names: &[&str],
) -> Result<(), HashError>
    ensures text { V.told → IsScanned (V.state vol.old).held image.now
        → OnOk result (out.new.items ≡ out.old.items ++ heads_tree (machine_in (V.state vol.old).held image.now) [] (heads_of image.now (map (λ n. n.now) names.now))) }
    ensures looks { V.told → OnlyLooks (V.state vol.old) (V.state vol.new) }
    ensures passes { Passes (V.state vol.old) (V.state vol.new) }
    ensures fault { IsErrOf result HashError.Volume → Rose (V.state vol.old) (V.state vol.new) }
    ensures source { ¬ IsErrOf result HashError.Source }
{
    let mut former: &[u8] = b"";
    for name in names {
        former = push_if_file(alloc, out, vol, image, former, head_at(image, name))?;
    }
    Ok(())
}

/// Adds the files of an image, as a tree.
pub fn push_files<V: Volume>(
    alloc: Global,
    out: &mut Vec<u8>,
    vol: &mut V,
    image: &Image,
) -> Result<(), HashError>
    ensures text { V.told → IsScanned (V.state vol.old).held image.now → OnOk result (out.new.items ≡ out.old.items ++ tree [] (files_in (machine_in (V.state vol.old).held image.now))) }
    ensures looks { V.told → OnlyLooks (V.state vol.old) (V.state vol.new) }
    ensures passes { Passes (V.state vol.old) (V.state vol.new) }
    ensures fault { IsErrOf result HashError.Volume → Rose (V.state vol.old) (V.state vol.new) }
    ensures source { ¬ IsErrOf result HashError.Source }
{
    keeps_right(image);
    let names = image.names(alloc, "f/")?;
    push_tree(alloc, out, vol, image, names.as_slice())?;
    Ok(())
}
