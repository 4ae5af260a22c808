//! A folder as a source.

use crate::device::{Device, Failure, Trip};
use crate::fake::Fake;
use crate::folder::{file_in, folder_of, write_file};
use crate::known::Wrong;
use mi_edges::FolderSource;
use mi_source::Source;
use std::alloc::{AllocError, Global};
use std::fs;
use std::os::unix::fs::symlink;
use std::test::Fail;

/// Links beside the one file, and where they lead: one to it, and two to none.
const LINKS: [(&str, &str); 3] = [
    ("linked", "Property.idt"),
    ("nowhere", "none"),
    ("loop", "loop"),
];

/// Whether the source has two files in its folder, and this one of ten digits.
fn has_digits<S: Source>(alloc: Global, source: &mut S, folder: &str, path: &str) -> bool {
    let listed = match source.names(alloc, folder) {
        Ok(names) => names.len() == 2,
        Err(_) => false,
    };
    let sized = source.size(path) == Ok(Some(10));
    match source.read(alloc, path, 8, 4) {
        Ok(piece) => listed && sized && piece.as_slice() == b"89".as_slice(),
        Err(_) => false,
    }
}

/// Whether the source has nothing at a path and below it.
fn has_nothing<S: Source>(alloc: Global, source: &mut S, path: &str) -> bool {
    let sized = source.size(path) == Ok(None);
    match source.names(alloc, path) {
        Ok(names) => sized && names.is_empty(),
        Err(_) => false,
    }
}

/// Whether the source has nothing at paths that are too long for the system, in a part and as a whole.
fn has_nothing_long<S: Source>(
    alloc: Global,
    source: &mut S,
    folder: &str,
) -> Result<bool, AllocError> {
    let part = format!(in alloc; "{folder}/{}", "p".repeat(alloc, 256)?)?;
    let below = format!(in alloc; "{}/one", part.as_str())?;
    let whole = format!(in alloc; "{folder}{}", "/p".repeat(alloc, 2_100)?)?;
    Ok(
        has_nothing(alloc, source, part.as_str())
            && has_nothing(alloc, source, below.as_str())
            && has_nothing(alloc, source, whole.as_str()),
    )
}

/// Makes a link directly in a folder.
fn is_linked(rt: &HostRuntime, folder: &str, link: &str, leads: &str) -> bool {
    match file_in(rt, folder, link) {
        Ok(path) => symlink(rt, leads, path.as_str()).is_ok(),
        Err(_) => false,
    }
}

/// Makes a folder, and a file of ten digits, a folder and links in it.
fn is_made(rt: &HostRuntime, folder: &str, below: &str) -> bool {
    fs::create_dir_all(rt, below).is_ok()
        && write_file(rt, folder, "Property.idt", "0123456789")
        && LINKS
            .iter()
            .all(|(link, leads)| is_linked(rt, folder, link, leads))
}

/// A disk with a package of two files.
fn packaged(alloc: Global) -> Result<Device, Wrong> {
    let fake = Fake::new(alloc, Device::new(alloc)?)?;
    fs::create_dir(&fake, "p")?;
    fs::write(&fake, "p/one", "1234")?;
    fs::write(&fake, "p/two", "")?;
    Ok(fake.device()?)
}

/// Whether the source has the names of the package; None where that fails.
fn has_names(alloc: Global, source: &mut FolderSource<Fake>) -> Option<bool> {
    match source.names(alloc, "p") {
        Ok(names) => Some(names.len() == 2),
        Err(_) => None,
    }
}

/// Whether the source has the size of a file; None where that fails.
fn has_size(source: &mut FolderSource<Fake>) -> Option<bool> {
    match source.size("p/one") {
        Ok(size) => Some(size == Some(4)),
        Err(_) => None,
    }
}

/// Whether the source has the bytes of a file; None where that fails.
fn has_bytes(alloc: Global, source: &mut FolderSource<Fake>) -> Option<bool> {
    match source.read(alloc, "p/one", 1, 2) {
        Ok(bytes) => Some(bytes.as_slice() == b"23".as_slice()),
        Err(_) => None,
    }
}

/// How many of three answers fail, where the others are right, and how many calls they make.
fn failures(alloc: Global, device: Device) -> Result<(usize, usize), Wrong> {
    let fake = Fake::new(alloc, device)?;
    let mut source = FolderSource::new(fake.clone()?);
    let answers = [
        has_names(alloc, &mut source),
        has_size(&mut source),
        has_bytes(alloc, &mut source),
    ];
    if answers.contains(&Some(false)) {
        return Err(Wrong::Other);
    }
    let failed = answers.iter().filter(|answer| answer.is_none()).count();
    Ok((failed, fake.device()?.calls()))
}

/// Each call that fails is the failure of one answer, and the others are right.
fn first_wrong(alloc: Global) -> Result<Option<usize>, Wrong> {
    let device = packaged(alloc)?;
    let (failed, calls) = failures(alloc, device.again(None)?)?;
    if failed > 0 || calls == 0 {
        return Ok(Some(calls));
    }
    for call in 0..calls {
        let failing = device.again(Some((call, Trip::Fail(Failure::Broken))))?;
        if failures(alloc, failing)?.0 != 1 {
            return Ok(Some(call));
        }
    }
    Ok(None)
}

#[test]
fn a_source_has_the_files_of_a_folder(rt: HostRuntime) -> Result<(), Fail> {
    let folder = folder_of(&rt, "source")?;
    let below = file_in(&rt, folder.as_str(), "below")?;
    let path = file_in(&rt, folder.as_str(), "Property.idt")?;
    let linked = file_in(&rt, folder.as_str(), "linked")?;
    let looped = file_in(&rt, folder.as_str(), "loop")?;
    assert!(rt; is_made(&rt, folder.as_str(), below.as_str()));
    let mut source = FolderSource::new(rt);
    assert!(rt; has_digits(rt.alloc(), &mut source, folder.as_str(), path.as_str()));
    assert!(rt; has_digits(rt.alloc(), &mut source, folder.as_str(), linked.as_str()));
    assert!(rt; has_nothing(rt.alloc(), &mut source, "none/none"));
    assert!(rt; has_nothing(rt.alloc(), &mut source, looped.as_str()));
    assert!(rt; has_nothing_long(rt.alloc(), &mut source, folder.as_str())?);
    assert_eq!(rt; first_wrong(rt.alloc()), Ok(None));
    assert!(rt; fs::remove_dir_all(&rt, folder.as_str()).is_ok());
    Ok(())
}
