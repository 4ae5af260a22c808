//! Names of many lengths.

use crate::folder::folder_of;
use crate::step::{Folder, holds};
use mi_text::{Name, NoMemory};
use mi_volume::{VolFault, Volume};
use std::alloc::Global;
use std::fs;
use std::test::Fail;

/// How many names there are.
const NAMES: usize = 300;

/// The name of a number, of 6 to 1,001 bytes; its last four are the number.
fn numbered(alloc: Global, number: usize) -> Result<Name, NoMemory> {
    let letters = "a".repeat(alloc, number % NAMES * 7 % 1_000)?;
    let text = format!(in alloc; "n/{letters}{number:04}")?;
    match Name::of(alloc, text.as_str()) {
        Ok(name) => Ok(name),
        Err(_) => Err(NoMemory),
    }
}

/// The last four bytes of a name.
fn number_of(name: &Name) -> &[u8] {
    let bytes = name.as_bytes();
    &bytes[bytes.len().saturating_sub(4)..]
}

/// Puts half of a name's number, appends the other, and says whether both went well.
fn write_number(alloc: Global, volume: &mut Folder, name: &Name) -> bool {
    let [first, second, third, fourth] = number_of(name) else {
        return false;
    };
    volume.put(alloc, name, &[*first, *second]).is_ok()
        && volume.append(alloc, name, &[*third, *fourth]).is_ok()
}

/// Writes the name of a number, or takes it away, and says whether that went well.
fn change(alloc: Global, volume: &mut Folder, number: usize, write: bool) -> bool {
    match numbered(alloc, number) {
        Ok(name) if write => write_number(alloc, volume, &name),
        Ok(name) => volume.remove(&name).is_ok(),
        Err(_) => false,
    }
}

/// Writes every name, or takes away all but each tenth, and says whether that went well.
fn change_all(alloc: Global, volume: &mut Folder, write: bool) -> bool {
    for number in 0..NAMES {
        if (write || number % 10 != 0) && !change(alloc, volume, number, write) {
            return false;
        }
    }
    true
}

/// The name, where it holds its number.
fn right_name(alloc: Global, volume: &mut Folder, name: Name) -> Option<Name> {
    if holds(alloc, volume, &name, number_of(&name)) {
        Some(name)
    } else {
        None
    }
}

/// The next name, where it holds its number.
fn next_right(
    alloc: Global,
    volume: &mut Folder,
    after: Option<&Name>,
) -> Result<Option<Name>, VolFault> {
    match volume.next(alloc, after)? {
        Some(name) => Ok(right_name(alloc, volume, name)),
        None => Ok(None),
    }
}

/// How many names are held, up to the first that doesn't hold its number.
fn count_held(alloc: Global, volume: &mut Folder) -> usize {
    let mut last: Option<Name> = None;
    for count in 0..2 * NAMES {
        match next_right(alloc, volume, last.as_ref()) {
            Ok(Some(name)) => last = Some(name),
            _ => return count,
        }
    }
    0
}

/// How many names a folder holds where it is opened anew: behind that all were written, or taken away but for each
/// tenth, where that is asked for.
fn held_after(rt: HostRuntime, folder: &str, write: Option<bool>) -> usize {
    let alloc = rt.alloc();
    let Ok(mut volume) = Folder::at(rt, alloc, folder) else {
        return 0;
    };
    let changed = write.is_none_or(|write| change_all(alloc, &mut volume, write));
    if changed && volume.sync().is_ok() {
        count_held(alloc, &mut volume)
    } else {
        0
    }
}

#[test]
fn names_of_many_lengths_are_listed_removed_and_found_again(rt: HostRuntime) -> Result<(), Fail> {
    let folder = folder_of(&rt, "lengths")?;
    assert_eq!(rt; held_after(rt, folder.as_str(), Some(true)), NAMES);
    assert_eq!(rt; held_after(rt, folder.as_str(), Some(false)), NAMES / 10);
    assert_eq!(rt; held_after(rt, folder.as_str(), None), NAMES / 10);
    assert!(rt; fs::remove_dir_all(&rt, folder.as_str()).is_ok());
    Ok(())
}
