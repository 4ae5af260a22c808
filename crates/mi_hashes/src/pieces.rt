//! Adding bytes of a device to a message that is hashed, by pieces.

ghost use Rattle.std.specs.Prelude.{◌≡◌, ◌≤◌, ◌-◌, ◌++◌, List, ℕ, OnOk, IsErrOf, take, drop};
ghost use Rattle.std.specs.FinMap.{get};
ghost use Rattle.md5.specs.Md5.{Holds};
ghost use Rattle.mi_volume.specs.Maps as volume;
ghost use Rattle.mi_volume.specs.State.{Passes, Rose};
ghost use Rattle.mi_source.specs.Paths as source;
ghost use Rattle.mi_source.specs.Counts as count;
ghost use Rattle.mi_image.specs.Looks.{OnlyLooks};

use md5::{Digest, Md5};
use mi_base::Name;
use mi_source::{Source, SrcFault};
use mi_volume::{PIECE, VolFault, Volume};
use std::alloc::Global;

/// Adds what a name of the volume holds from `at` up to `end`, both counted in bytes. It goes on by the bytes that a read gave,
/// and ends when a read gives none, whatever length was stated.
pub fn add_held<V: Volume>(
    alloc: Global,
    vol: &mut V,
    hasher: &mut Md5,
    name: &Name,
    at: u64,
    end: u64,
) -> Result<(), VolFault>
    requires { at ≤ end }
    ensures adds { V.told → (m : List ℕ) → Holds hasher.old m → OnOk result (Holds hasher.new (m ++ take (end - at) (drop at (volume.bytes_or_none (get (V.state vol.old).held name.now))))) }
    ensures looks { V.told → OnlyLooks (V.state vol.old) (V.state vol.new) }
    ensures passes { Passes (V.state vol.old) (V.state vol.new) }
    ensures failed { IsErrOf result VolFault.Failed → Rose (V.state vol.old) (V.state vol.new) }
{
    let mut at = at;
    while at < end {
        let want = (end - at).min(PIECE as u64);
        let bytes = vol.read(alloc, name, at, want as usize)?;
        if bytes.is_empty() {
            return Ok(());
        }
        hasher.update(bytes.as_slice());
        at += bytes.len() as u64;
    }
    Ok(())
}

/// Adds the first bytes of the source's file, at most `length`. It goes on by the bytes that a read gave, and ends when a read
/// gives none, whatever length was stated.
pub fn add_copied<S: Source>(
    alloc: Global,
    src: &mut S,
    hasher: &mut Md5,
    path: &str,
    length: u64,
) -> Result<(), SrcFault>
    ensures adds { S.told → (m : List ℕ) → Holds hasher.old m → OnOk result (Holds hasher.new (m ++ take length (source.bytes_or_none (get (S.files src.old) path.now)))) }
    ensures stays { S.files src.new ≡ S.files src.old }
    ensures counts { S.faults src.old ≤ S.faults src.new }
    ensures failed { IsErrOf result SrcFault.Failed → count.Rose (S.faults src.old) (S.faults src.new) }
{
    let mut at = 0;
    while at < length {
        let want = (length - at).min(PIECE as u64);
        let bytes = src.read(alloc, path, at, want as usize)?;
        if bytes.is_empty() {
            return Ok(());
        }
        hasher.update(bytes.as_slice());
        at += bytes.len() as u64;
    }
    Ok(())
}
