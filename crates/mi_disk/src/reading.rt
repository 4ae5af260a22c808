//! Reading a file of the system.

ghost use Rattle.std.specs.Prelude.{◌≤◌, IfOk, OnOk, vec_len};

use crate::trouble::Trouble;
use std::alloc::Global;
use std::fs::{File, Files};
use std::io::{Read, Seek, SeekFrom};

fn read_open<F: Read + Seek + Drop>(
    mut file: F,
    bytes: &mut Vec<u8>,
    at: u64,
    want: usize,
) -> Result<(), Trouble>
    ensures { OnOk result (vec_len bytes.new ≤ want) }
{
    if at > 0 {
        file.seek(SeekFrom::Start(at))?;
    }
    file.take(want as u64).read_to_end(bytes)?;
    bytes.truncate(want);
    Ok(())
}

fn read_path<F: Files>(
    rt: &F,
    bytes: &mut Vec<u8>,
    path: &str,
    at: u64,
    want: usize,
) -> Result<(), Trouble>
    ensures { OnOk result (vec_len bytes.new ≤ want) }
{
    // One byte more than is wanted, so that the end is met without more room.
    bytes.reserve_exact(want.saturating_add(1))?;
    let file = File::open(rt, path)?;
    read_open(file, bytes, at, want)
}

/// The bytes from `at` of the file at a path that is so long, at most `want` of them. None are asked for past its end.
pub fn read_at<F: Files>(
    rt: &F,
    alloc: Global,
    path: &str,
    length: u64,
    at: u64,
    want: usize,
) -> Result<Vec<u8>, Trouble>
    ensures { IfOk result (λ bytes. vec_len bytes ≤ want) }
{
    let mut bytes = Vec::new(alloc);
    if at >= length {
        return Ok(bytes);
    }
    let want = want.min((length - at) as usize);
    match read_path(rt, &mut bytes, path, at, want) {
        Ok(()) => Ok(bytes),
        Err(trouble) => Err(trouble),
    }
}
