//! The calls of the system on the files of a volume.

ghost use Rattle.std.specs.Prelude.{◌≤◌, IfOk, vec_len};

use crate::changes::{LONGEST_LIST, names_of, set_line};
use crate::found::{Found, Lockable, Plain, is_folder, look, look_through, plain_file};
use crate::levels::{Levels, do_levels};
use crate::listing::{Folders, Listed, list};
use crate::names::{LONGEST_NAME, LONGEST_PATH, PART_BYTES, push_digits};
use crate::reading::read_at;
use crate::replacing::{Contents, replace_file};
use crate::trouble::Trouble;
use crate::writing::{
    append_file, make_folder, mark_file, put_file, remove_path, sync_file, sync_folder, write_on,
};
use std::alloc::Global;
use std::fs::{File, Files};

/// A folder whose files are names of a volume. Once it is opened, it is locked against other processes for as long as
/// this value lives. Its calls take no memory but where they are passed an allocator. Before a file or a level of a long
/// name is opened, written or taken away, one look says that it is a plain file or a plain folder, or else it is made, which
/// the system refuses where anything stands. A look serves the calls that follow it at the same name, up to the first that
/// changes something. In place of a file that has other names, too, a new one is put, so that nothing outside the folder
/// changes.
#[derive(Drop)]
pub struct Disk<R: Files> {
    rt: R,
    folder: String,
    // The path in which all names stand: the folder's and `/`.
    top: String,
    // Room for the longest path, so that no call has to grow it.
    path: String,
    // The name whose file is at `path`, with room for the longest, and what the last look found; no text if no look serves
    // any more.
    looked: String,
    found: Plain,
    // The path at which a file is written that takes another's place.
    spare: String,
    // The list of the names that this process has changed, open at its end, if it has changed any, and room for a line.
    list: Option<R::File>,
    line: String,
    // The folder itself, open, with its lock.
    lock: Option<R::File>,
}

/// A file that is no name's: it is there while something that was written may not be synced, and lists the names of which
/// that may be so.
const UNSYNCED: &str = "unsynced";

/// A file that is no name's: it is to take the place of one that is.
const SPARE: &str = "renewed";

// What is done with a folder in which a long name stands.
#[derive(Clone, Copy)]
enum Parts<'a> {
    // One look says whether it is there, and that it is a plain folder.
    Looked,
    // It is made where it isn't there.
    Made,
    // It is synced where it is there, but for one in which this name stands too.
    Synced(Option<&'a [u8]>),
}

// Whether two names stand in one folder after so many bytes.
fn is_shared(name: &[u8], last: Option<&[u8]>, bytes: usize) -> bool {
    match last {
        None => false,
        Some(last) => bytes < last.len() && name.get(..bytes) == last.get(..bytes),
    }
}

// Makes a folder in which a long name stands, where it isn't there.
fn make_part<F: Files>(rt: &F, path: &str) -> Result<bool, Trouble> {
    if !is_folder(rt, path)? {
        make_folder(rt, path)?;
    }
    Ok(true)
}

// Syncs a folder in which a long name stands, where it is there; whether it is.
fn sync_part<F: Files>(rt: &F, path: &str) -> Result<bool, Trouble> {
    let is_there = is_folder(rt, path)?;
    if is_there {
        sync_folder(rt, path)?;
    }
    Ok(is_there)
}

// Opens the folder, and takes its lock.
fn lock_folder<F: Files>(rt: &F, folder: &str) -> Result<F::File, Trouble>
where
    F::File: Lockable,
{
    let file = File::open(rt, folder)?;
    match file.take_lock() {
        Ok(()) => Ok(file),
        Err(_) => Err(Trouble::Failed),
    }
}

impl<R: Files + Alloc + Clone + Drop> Disk<R> {
    /// A folder that isn't opened yet, with room for the longest path. It looks at nothing.
    pub fn new(rt: R, alloc: Global, folder: &str) -> Result<Disk<R>, Trouble> {
        let mut disk = Disk {
            rt,
            folder: String::new(alloc),
            top: String::new(alloc),
            path: String::new(alloc),
            looked: String::new(alloc),
            found: Plain {
                length: 0,
                is_linked: false,
            },
            spare: String::new(alloc),
            list: None,
            line: String::new(alloc),
            lock: None,
        };
        match disk.take_room(folder) {
            Ok(()) => Ok(disk),
            Err(trouble) => Err(trouble),
        }
    }

    fn take_room(&mut self, folder: &str) -> Result<(), Trouble> {
        self.folder.push_str(folder)?;
        self.top.push_str(folder)?;
        self.top.push('/')?;
        self.path.push_str(self.top.as_str())?;
        self.path.reserve(LONGEST_PATH)?;
        self.looked.reserve(LONGEST_NAME)?;
        self.spare.push_str(self.top.as_str())?;
        self.spare.push_str(SPARE)?;
        self.line.reserve(LONGEST_PATH.saturating_add(1))?;
        Ok(())
    }

    /// Makes the levels of the folder's path that aren't there, and syncs them; takes the folder's lock. If an earlier
    /// process has ended without a sync, the file of each name that it lists is written anew: a new one that holds the same
    /// is synced and put in its place, and then its folders are synced. If it lists none, so is the file of every name.
    pub fn open(&mut self, alloc: Global) -> Result<(), Trouble>
    where
        R::File: Lockable,
    {
        do_levels(&self.rt, self.folder.as_str(), Levels::Make)?;
        let lock = lock_folder(&self.rt, self.folder.as_str())?;
        self.lock = Some(lock);
        self.renew_leftovers(alloc)
    }

    /// Takes the folder's lock. Nothing is made or written: where no folder is there it is a failure, and what stands there
    /// isn't opened; what an earlier process has left without a sync stays as it is.
    pub fn open_to_read(&mut self) -> Result<(), Trouble>
    where
        R::File: Lockable,
    {
        if look_through(&self.rt, self.folder.as_str())? != Found::Folder {
            return Err(Trouble::Failed);
        }
        let lock = lock_folder(&self.rt, self.folder.as_str())?;
        self.lock = Some(lock);
        Ok(())
    }

    fn renew_leftovers(&mut self, alloc: Global) -> Result<(), Trouble> {
        match self.unsynced()? {
            Some(length) => self.renew(alloc, length),
            None => Ok(()),
        }
    }

    // Writes anew what an earlier process may have left unsynced; its list is so long, and at the path.
    fn renew(&mut self, alloc: Global, length: u64) -> Result<(), Trouble> {
        match self.left_names(alloc, length)? {
            Some(names) => self.renew_listed(names.as_slice())?,
            None => self.renew_all(alloc)?,
        }
        self.sync_levels()?;
        self.forget_unsynced()
    }

    // The names that an earlier process has changed, by its list, which is at the path.
    fn left_names(&self, alloc: Global, length: u64) -> Result<Option<Vec<String>>, Trouble> {
        if length > LONGEST_LIST {
            return Ok(None);
        }
        let list = read_at(
            &self.rt,
            alloc,
            self.path.as_str(),
            length,
            0,
            length as usize,
        )?;
        names_of(alloc, list.as_slice())
    }

    // Writes the files of these names anew, and syncs their folders.
    fn renew_listed(&mut self, names: &[String]) -> Result<(), Trouble> {
        self.renew_names(names)?;
        self.sync_parts_of(names)?;
        self.sync_folder()
    }

    // Writes the files of all names anew, and syncs all folders.
    fn renew_all(&mut self, alloc: Global) -> Result<(), Trouble> {
        let Listed { names, is_whole: _ } = self.list(alloc, Folders::Listed)?;
        self.renew_names(names.as_slice())?;
        let listed = self.list(alloc, Folders::Synced)?;
        drop(listed);
        Ok(())
    }

    // Writes the plain files of names anew.
    fn renew_names(&mut self, names: &[String]) -> Result<(), Trouble> {
        let mut last = None;
        for name in names {
            if last != Some(name.as_str()) {
                self.renew_name(name.as_str())?;
            }
            last = Some(name.as_str());
        }
        Ok(())
    }

    // A name below a level that is no plain folder is passed over, as a listing does.
    fn renew_name(&mut self, name: &str) -> Result<(), Trouble> {
        match self.look_at(name) {
            Ok(Found::File(_)) => self.replace(Contents::Same).map(drop),
            Ok(Found::Nothing | Found::Folder | Found::Other) | Err(Trouble::Strange) => Ok(()),
            Err(trouble) => Err(trouble),
        }
    }

    // Syncs the folders of names, which are in byte order.
    fn sync_parts_of(&mut self, names: &[String]) -> Result<(), Trouble> {
        let mut last = None;
        for name in names {
            let is_plain = self.are_parts_synced(name.as_str(), last)?;
            last = is_plain.then_some(name.as_str());
        }
        Ok(())
    }

    // Syncs the folders of a name, as far as they are plain; whether they are.
    fn are_parts_synced(&mut self, name: &str, last: Option<&str>) -> Result<bool, Trouble> {
        match self.sync_parts(name, last) {
            Ok(()) => Ok(true),
            Err(Trouble::Strange) => Ok(false),
            Err(trouble) => Err(trouble),
        }
    }

    // Puts a file with these contents in the place of the one at the path.
    fn replace(&mut self, contents: Contents<'_>) -> Result<R::File, Trouble> {
        self.looked.clear();
        replace_file(&self.rt, self.spare.as_str(), self.path.as_str(), contents)
    }

    fn set_folder(&mut self) -> Result<(), Trouble> {
        self.looked.clear();
        self.path.clear();
        self.path.push_str(self.top.as_str())?;
        Ok(())
    }

    fn set_unsynced(&mut self) -> Result<(), Trouble> {
        self.set_folder()?;
        self.path.push_str(UNSYNCED)?;
        Ok(())
    }

    // The length of the list of what may not be synced, if there is one; leaves the path there.
    fn unsynced(&mut self) -> Result<Option<u64>, Trouble> {
        self.set_unsynced()?;
        let found = look(&self.rt, self.path.as_str())?;
        Ok(plain_file(found)?.map(|plain| plain.length))
    }

    // Makes the list of the names that this process has changed, if it isn't made yet.
    fn begin_list(&mut self) -> Result<(), Trouble> {
        if self.list.is_none() {
            self.set_unsynced()?;
            let list = append_file(&self.rt, self.path.as_str(), true, &[])?;
            self.list = Some(list);
        }
        Ok(())
    }

    /// Notes for a later process that what this name has may not be synced. It is called before the name changes.
    pub fn note_unsynced(&mut self, name: &str) -> Result<(), Trouble> {
        self.begin_list()?;
        set_line(&mut self.line, name)?;
        match &mut self.list {
            Some(list) => write_on(list, self.line.as_bytes()),
            None => Err(Trouble::Failed),
        }
    }

    /// Whether a later process would find that something may not be synced.
    pub fn is_noted(&self) -> bool {
        self.list.is_some()
    }

    /// Takes down that all is synced.
    pub fn forget_unsynced(&mut self) -> Result<(), Trouble> {
        self.set_unsynced()?;
        remove_path(&self.rt, self.path.as_str())?;
        self.list = None;
        Ok(())
    }

    // Does this with the folder at the path, in which a name stands after so many bytes; whether it is there then.
    fn do_part(&self, name: &[u8], bytes: usize, what: Parts<'_>) -> Result<bool, Trouble> {
        let path = self.path.as_str();
        match what {
            Parts::Synced(last) if is_shared(name, last, bytes) => Ok(true),
            Parts::Looked => is_folder(&self.rt, path),
            Parts::Made => make_part(&self.rt, path),
            Parts::Synced(_) => sync_part(&self.rt, path),
        }
    }

    // Spells the folder at the path, in which a name stands after so many bytes, and does this with it, where those above
    // it are there; whether all are there then.
    fn do_next_part(
        &mut self,
        name: &[u8],
        bytes: usize,
        what: Parts<'_>,
        are_there: bool,
    ) -> Result<bool, Trouble> {
        self.path.push('+')?;
        let are_there = are_there && self.do_part(name, bytes, what)?;
        self.path.push('/')?;
        Ok(are_there)
    }

    // Spells a name's path, at which this leaves the path, and does this with each folder in which the name stands, the
    // highest first, up to one that isn't there; whether all are there then.
    fn do_parts(&mut self, name: &str, what: Parts<'_>) -> Result<bool, Trouble> {
        self.set_folder()?;
        let name = name.as_bytes();
        let mut are_there = true;
        let mut bytes = 0usize;
        for part in name.chunks(PART_BYTES) {
            if bytes > 0 {
                are_there = self.do_next_part(name, bytes, what, are_there)?;
            }
            push_digits(&mut self.path, part)?;
            bytes = bytes.saturating_add(part.len());
        }
        Ok(are_there)
    }

    // Looks at a name's path, at which this leaves the path.
    fn look_anew(&mut self, name: &str) -> Result<Found, Trouble> {
        if self.do_parts(name, Parts::Looked)? {
            look(&self.rt, self.path.as_str())
        } else {
            Ok(Found::Nothing)
        }
    }

    // Whether the last look serves this name.
    fn serves(&self, name: &str) -> bool {
        !name.is_empty() && self.looked.as_str() == name
    }

    /// What stands at a name's path.
    pub fn look_at(&mut self, name: &str) -> Result<Found, Trouble> {
        if self.serves(name) {
            return Ok(Found::File(self.found));
        }
        let found = self.look_anew(name)?;
        if let Found::File(plain) = found {
            self.looked.push_str(name)?;
            self.found = plain;
        }
        Ok(found)
    }

    // A name's file. What stands at its path and isn't a plain file is a failure.
    fn file(&mut self, name: &str) -> Result<Option<Plain>, Trouble> {
        plain_file(self.look_at(name)?)
    }

    /// The length of a name's file. What stands at its path and isn't a plain file is a failure.
    pub fn size(&mut self, name: &str) -> Result<Option<u64>, Trouble> {
        Ok(self.file(name)?.map(|plain| plain.length))
    }

    /// The bytes of a name's file from `at`, at most `want` of them; none where there is no such file.
    pub fn read(
        &mut self,
        alloc: Global,
        name: &str,
        at: u64,
        want: usize,
    ) -> Result<Vec<u8>, Trouble>
        ensures { IfOk result (λ bytes. vec_len bytes ≤ want) }
    {
        let length = self.size(name)?.unwrap_or(0);
        read_at(&self.rt, alloc, self.path.as_str(), length, at, want)
    }

    // A name's file that is to be changed; leaves the path there. If it isn't there, its levels are made. `is_new` says that
    // nothing was there when the names were listed: then no look is needed, but for levels, since a file is made only if
    // nothing is there.
    fn begin(&mut self, name: &str, is_new: bool) -> Result<Option<Plain>, Trouble> {
        if is_new && name.len() <= PART_BYTES {
            self.do_parts(name, Parts::Looked)?;
            return Ok(None);
        }
        let before = self.file(name)?;
        self.looked.clear();
        if before.is_none() && name.len() > PART_BYTES {
            self.do_parts(name, Parts::Made)?;
        }
        Ok(before)
    }

    /// Gives a name's file exactly these bytes. `is_new` says that nothing stood at its path when the names were
    /// listed. Answers the file, open at its end, and how long it was, where it was there.
    pub fn put(
        &mut self,
        name: &str,
        bytes: &[u8],
        is_new: bool,
    ) -> Result<(R::File, Option<u64>), Trouble> {
        let before = self.begin(name, is_new)?;
        let length = before.map(|plain| plain.length);
        let file = match before {
            Some(plain) if plain.is_linked => self.replace(Contents::Only(bytes))?,
            _ => put_file(&self.rt, self.path.as_str(), length, bytes)?,
        };
        Ok((file, length))
    }

    /// Adds bytes at the end of a name's file, and makes it where it isn't there. `is_new` is as for `put`. Answers the file,
    /// open at its end.
    pub fn append(&mut self, name: &str, bytes: &[u8], is_new: bool) -> Result<R::File, Trouble> {
        match self.begin(name, is_new)? {
            Some(plain) if plain.is_linked => self.replace(Contents::Added(bytes)),
            before => append_file(&self.rt, self.path.as_str(), before.is_none(), bytes),
        }
    }

    /// Adds bytes at the end of a name's file that is open there.
    pub fn write_on(&mut self, file: &mut R::File, bytes: &[u8]) -> Result<(), Trouble> {
        self.looked.clear();
        write_on(file, bytes)
    }

    /// Writes the first byte of a name's file. Returns the file, and whether it is a new one that was put in the other's
    /// place, so that its folders want a sync, too.
    pub fn mark(&mut self, name: &str, byte: u8) -> Result<(R::File, bool), Trouble> {
        let Some(plain) = self.file(name)? else {
            return Err(Trouble::Absent);
        };
        self.looked.clear();
        let file = if plain.is_linked {
            self.replace(Contents::Marked(byte))?
        } else {
            mark_file(&self.rt, self.path.as_str(), byte)?
        };
        Ok((file, plain.is_linked))
    }

    /// Takes a name's file away, where it is there.
    pub fn remove(&mut self, name: &str) -> Result<(), Trouble> {
        match self.size(name)? {
            Some(_) => {
                self.looked.clear();
                remove_path(&self.rt, self.path.as_str())
            }
            None => Ok(()),
        }
    }

    /// Syncs a name's file, if it is there.
    pub fn sync_file(&mut self, name: &str) -> Result<(), Trouble> {
        match self.size(name)? {
            Some(_) => sync_file(&self.rt, self.path.as_str()),
            None => Ok(()),
        }
    }

    /// Syncs the folders in which a long name stands, without those in which the last one stands too.
    pub fn sync_parts(&mut self, name: &str, last: Option<&str>) -> Result<(), Trouble> {
        if name.len() > PART_BYTES {
            let last = match last {
                Some(last) => Some(last.as_bytes()),
                None => None,
            };
            self.do_parts(name, Parts::Synced(last))?;
        }
        Ok(())
    }

    /// Syncs the folder itself.
    pub fn sync_folder(&mut self) -> Result<(), Trouble> {
        sync_folder(&self.rt, self.folder.as_str())
    }

    /// Syncs the entries by which the folder is found.
    pub fn sync_levels(&mut self) -> Result<(), Trouble> {
        do_levels(&self.rt, self.folder.as_str(), Levels::Sync)
    }

    /// The names that the folder holds.
    pub fn list(&self, alloc: Global, folders: Folders) -> Result<Listed, Trouble> {
        list(&self.rt, alloc, self.folder.as_str(), folders)
    }
}
