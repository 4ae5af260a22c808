//! The hash that a package states of a row's file, and when the rules on versions look at it (MsiFileHash table; File Versioning
//! Rules).

ghost use Rattle.std.specs.Prelude.{◌≡◌, ◌⊎◌, ◌∷◌, [], Some, ℕ, IfOk};
ghost use Rattle.std.specs.Int.{w32, to_le_bytes};
ghost use Rattle.std.specs.List.{flat_map};
ghost use Rattle.std.specs.Option.{option_map};
ghost use Rattle.std.specs.FinMap.{get};
ghost use Rattle.std.specs.Str.{bytes_eq};
ghost use Rattle.md5.specs.Md5.{md5};
ghost use Rattle.mi_base.specs.declared.entry.FileEntry.{FileEntry};
ghost use Rattle.mi_base.specs.Machine.{file_at};
ghost use Rattle.mi_base.specs.Names.{file_name};
ghost use Rattle.mi_fver.specs.Rules.{replaces_of};
ghost use Rattle.mi_image.specs.Items.{AreThere, machine_over, bytes_of_file};
ghost use Rattle.mi_schema.specs.Lawful.{IsLawful};
ghost use Rattle.mi_schema.specs.RowsOf.{rows_in};
ghost use Rattle.mi_schema.specs.TableRows.{row_of};
ghost use Rattle.mi_rows.specs.Values.{bits_of};
ghost use Rattle.mi_schema.specs.declared.typed_rows.FileRow.{FileRow};
ghost use Rattle.mi_schema.specs.declared.typed_rows.MsiFileHashRow as hash_row;
ghost use Rattle.mi_model.specs.World.{World};
ghost use Rattle.mi_model.specs.FileVersions.{hash_bytes, has_same_hash};
ghost use Rattle.mi_installs.specs.Deciding.{looks_at_hash, IgnoresHash, StatesNoHash};
ghost use Rattle.mi_installs.specs.Reading.{Reads, Causes};
ghost use Rattle.mi_source.specs.Counts as source;
ghost use Rattle.mi_volume.specs.State as volume;

use crate::error::InstallError;
use crate::placed::Placed;
use mi_base::{FileHead, PathText, Text};
use mi_fver::{Mode, NewFile};
use mi_hashes::{HashError, hash_of};
use mi_image::Image;
use mi_schema::{MsiFileHashRow, Package, keys_stand};
use mi_source::Source;
use mi_volume::Volume;
use std::alloc::Global;

// Two parts of a hash, each with its low byte first.
fn two_parts(first: i32, second: i32) -> [u8; 8]
    ensures { result ≡ flat_map (λ part. to_le_bytes w32 (bits_of part)) (first ∷ second ∷ []) }
{
    let a = first.to_le_bytes();
    let b = second.to_le_bytes();
    [a[0], a[1], a[2], a[3], b[0], b[1], b[2], b[3]]
}

// The four parts of a row's hash, each with its low byte first.
fn hash_in(row: &MsiFileHashRow) -> [u8; 16]
    ensures { result ≡ hash_bytes row.now }
{
    let a = two_parts(row.hash_part1, row.hash_part2);
    let b = two_parts(row.hash_part3, row.hash_part4);
    [
        a[0], a[1], a[2], a[3], a[4], a[5], a[6], a[7], b[0], b[1], b[2], b[3], b[4], b[5], b[6],
        b[7],
    ]
}

// The hash that the package states of the file of this key.
fn stated_hash(loaded: &Package, file: &Text) -> Option<[u8; 16]>
    requires { IsLawful loaded.now }
    ensures { result ≡ option_map hash_bytes (row_of (λ (h : hash_row.MsiFileHashRow). h.file) (rows_in loaded.now).msi_file_hash file.now) }
{
    keys_stand(loaded);
    match loaded.msi_file_hash.get(file) {
        Some(row) => Some(hash_in(row)),
        None => None,
    }
}

// Whether the bytes that an image names at a path have this hash.
fn has_hash<S: Source, V: Volume>(
    alloc: Global,
    stated: &[u8; 16],
    path: &PathText,
    image: &Image,
    src: &mut S,
    vol: &mut V,
) -> Result<bool, InstallError>
    ensures same { V.told → S.told → AreThere (V.state vol.old).held (S.files src.old) image.now → IfOk result (λ same. same ≡ bytes_eq (md5 (bytes_of_file (get (machine_over (V.state vol.old).held (S.files src.old) image.now) (file_name path.now)))) stated.now) }
    ensures reads { Reads V.told (V.state vol.old) (V.state vol.new) (S.files src.old) (S.files src.new) (S.faults src.old) (S.faults src.new) }
    ensures causes { Causes (source.Rose (S.faults src.old) (S.faults src.new)) (volume.Rose (V.state vol.old) (V.state vol.new)) result }
{
    match hash_of(alloc, src, vol, image, path) {
        Ok(hash) => Ok(hash.as_slice() == stated.as_slice()),
        Err(HashError::NoMemory) => Err(InstallError::NoMemory),
        Err(HashError::Source) => Err(InstallError::Source),
        Err(HashError::Volume) => Err(InstallError::Volume),
    }
}

// Whether those bytes have the hash that the package states of a row's file; not where it states none.
fn has_same_hash<S: Source, V: Volume>(
    alloc: Global,
    loaded: &Package,
    file: &Text,
    path: &PathText,
    image: &Image,
    src: &mut S,
    vol: &mut V,
) -> Result<bool, InstallError>
    requires { IsLawful loaded.now }
    ensures same { (w : World) (r : FileRow) (f : FileEntry) → w.given.rows ≡ rows_in loaded.now → r.file ≡ file.now → V.told → S.told → AreThere (V.state vol.old).held (S.files src.old) image.now → file_at (machine_over (V.state vol.old).held (S.files src.old) image.now) path.now ≡ Some f → IfOk result (λ same. same ≡ has_same_hash w r f) }
    ensures untouched { StatesNoHash loaded.now file.now → (src.new ≡ src.old) × (vol.new ≡ vol.old) }
    ensures reads { Reads V.told (V.state vol.old) (V.state vol.new) (S.files src.old) (S.files src.new) (S.faults src.old) (S.faults src.new) }
    ensures causes { Causes (source.Rose (S.faults src.old) (S.faults src.new)) (volume.Rose (V.state vol.old) (V.state vol.new)) result }
{
    match stated_hash(loaded, file) {
        Some(stated) => has_hash(alloc, &stated, path, image, src, vol),
        None => Ok(false),
    }
}

// Whether the rules on versions look at the hash: neither file has a version, the one that is there wasn't changed, and the letters
// leave it to the hash.
fn looks_at_hash(mode: Mode, old: &FileHead, new: &NewFile) -> bool
    ensures { result ≡ looks_at_hash mode old.now new.now }
{
    !mode.a
        && !mode.e
        && (mode.o || mode.d)
        && old.version.is_none()
        && new.version.is_none()
        && old.modified <= old.created
}

/// What the rules on versions are told of the hash of a file that is there. Its bytes are read only where the rules look at the
/// hash and the package states one.
pub(crate) fn same_hash<S: Source, V: Volume>(
    alloc: Global,
    loaded: &Package,
    placed: &Placed<'_>,
    mode: Mode,
    old: &FileHead,
    new: &NewFile,
    image: &Image,
    src: &mut S,
    vol: &mut V,
) -> Result<bool, InstallError>
    requires { IsLawful loaded.now }
    ensures same { (w : World) (f : FileEntry) (product : ℕ) → w.given.rows ≡ rows_in loaded.now → V.told → S.told → AreThere (V.state vol.old).held (S.files src.old) image.now → file_at (machine_over (V.state vol.old).held (S.files src.old) image.now) placed.now.path ≡ Some f
        → IfOk result (λ same. replaces_of mode (Some old.now) new.now product same ≡ replaces_of mode (Some old.now) new.now product (has_same_hash w placed.now.row.now f)) }
    ensures untouched { IgnoresHash mode old.now new.now ⊎ StatesNoHash loaded.now placed.now.row.now.file → (src.new ≡ src.old) × (vol.new ≡ vol.old) }
    ensures reads { Reads V.told (V.state vol.old) (V.state vol.new) (S.files src.old) (S.files src.new) (S.faults src.old) (S.faults src.new) }
    ensures causes { Causes (source.Rose (S.faults src.old) (S.faults src.new)) (volume.Rose (V.state vol.old) (V.state vol.new)) result }
{
    if looks_at_hash(mode, old, new) {
        has_same_hash(
            alloc,
            loaded,
            &placed.row.file,
            &placed.path,
            image,
            src,
            vol,
        )
    } else {
        Ok(false)
    }
}
