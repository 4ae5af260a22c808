//! Folders of this run.

use std::alloc::AllocError;
use std::{env, fs, process};

/// Whether a folder can be made at a path; it is taken away again.
fn can_be_made(rt: &HostRuntime, folder: &str) -> bool {
    fs::create_dir(rt, folder).is_ok() && fs::remove_dir(rt, folder).is_ok()
}

/// The path of a folder that no other run and no other test has: in the folder for temporary files, where one can be made
/// there, and otherwise in the current folder.
pub fn folder_of(rt: &HostRuntime, word: &str) -> Result<String, AllocError> {
    let alloc = rt.alloc();
    let run = process::id(rt.process());
    let name = format!(in alloc; "mi_edges-{run}-{word}")?;
    if let Ok(temporary) = env::temp_dir(rt) {
        let folder = format!(in alloc; "{}/{name}", temporary.as_path().as_str())?;
        if can_be_made(rt, folder.as_str()) {
            return Ok(folder);
        }
    }
    Ok(name)
}

/// A file directly in a folder.
pub fn file_in(rt: &HostRuntime, folder: &str, file: &str) -> Result<String, AllocError> {
    format!(in rt.alloc(); "{folder}/{file}")
}

/// Writes a file directly in a folder, without the volume.
pub fn write_file(rt: &HostRuntime, folder: &str, file: &str, text: &str) -> bool {
    match file_in(rt, folder, file) {
        Ok(path) => fs::write(rt, path.as_str(), text).is_ok(),
        Err(_) => false,
    }
}

/// Whether a file stands directly in a folder.
pub fn has_file(rt: &HostRuntime, folder: &str, file: &str) -> bool {
    match file_in(rt, folder, file) {
        Ok(path) => matches!(fs::exists(rt, path.as_str()), Ok(true)),
        Err(_) => false,
    }
}
