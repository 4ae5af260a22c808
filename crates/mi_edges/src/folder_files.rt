//! The files of a folder as names with bytes: what is held, what has changed, and what a sync
//! reaches.
//!
//! How few calls of the system serve a run:
//!
//! - The names are listed once (`mi_held`). A size is asked of the system once for each name until
//!   that is changed, and one look at a name serves `next`, `size` and `read` of it: the folder is
//!   locked, so no other process of this program changes it meanwhile.
//! - A put writes in place and cuts the file after the new bytes, since emptying a file first costs
//!   more than all else of a put. A file with more than one link is replaced.
//! - The file that was written last stays open. What is added to it is written at its end, without
//!   another look or opening; its sync needs neither.
//! - A file that a put has left as long as it was is synced through its own handle before another
//!   is written: no look, opening and closing for its sync, and a file system with a journal has
//!   nothing to note of it. Files that were made, added to or have another length are closed, and
//!   synced after all is written, when the system notes many of them at once. (256 of them kept
//!   open, and synced when there would be more, took twice as long for 2,000 files on a loaded
//!   disk.)
//! - A file is synced by its data (fdatasync), a folder whole (fsync), each once a sync.
//! - The list `unsynced` stays open, gets a line for each changed name without a sync of its own,
//!   and is taken away once, however often a run syncs.
//!
//! What a sync reaches, what an earlier process has left and what isn't a plain file are decisions:
//! docs/DECISIONS.md, part 2.

ghost use Rattle.std.specs.Prelude.{◌≤◌, IfOk, IfSome, vec_len};
ghost use Rattle.std.specs.Option.{option_copied};
ghost use Rattle.mi_volume.specs.Maps.{IsAbove};

use mi_disk::{Disk, Folders, Found, Listed, Lockable, Trouble, sync_open};
use mi_held::{Held, Written};
use mi_text::Name;
use std::alloc::Global;
use std::fs::Files;
use thiserror::Error;

/// Why a folder can't be a volume.
#[derive(Clone, Copy, Debug, Error)]
pub enum EdgeFault {
    /// The folder can't be made or locked, or what an earlier process wrote can't be synced.
    #[error("the folder can't be made, locked or synced")]
    Folder,
    #[error("memory ran out")]
    NoMemory,
}

/// The files of a folder as names with bytes. Its calls return failures, and don't count them.
#[derive(Drop)]
pub struct FolderFiles<R: Files> {
    disk: Disk<R>,
    alloc: Global,
    // Whether the folder was opened, or why it can't be.
    opened: bool,
    refusal: Option<EdgeFault>,
    // The names that are held, once they were listed, and those that were written or taken away since the last good sync.
    held: Option<Held>,
    // The file that was written last, where it is still open.
    latest: Option<Latest<R::File>>,
    // Whether something has changed since then.
    changed: bool,
    // Whether the entry that names the folder was synced by this process.
    placed: bool,
    // Whether the system has failed at a sync. It may have dropped what it was given, so no later sync is good.
    lost: bool,
}

// A file that was written, open at its end.
#[derive(Drop)]
struct Latest<F> {
    // The place of its name among those that are held.
    place: usize,
    file: F,
    // Whether it was there before, as long as it is now.
    is_as_long: bool,
}

// The least held name above `after`, and what stands there. Where it is a plain file, its length is taken down.
fn look_above<R: Files + Alloc + Clone + Drop>(
    disk: &mut Disk<R>,
    alloc: Global,
    held: &mut Held,
    after: Option<&Name>,
) -> Result<Option<(Name, Found)>, Trouble>
    ensures { IfOk result (λ found. IfSome found (λ f. IsAbove (option_copied after.entry) f.0)) }
{
    let Some((name, place)) = held.next(alloc, after)? else {
        return Ok(None);
    };
    let found = disk.look_at(name.as_str())?;
    if let Found::File(plain) = found {
        held.set_length(place, plain.length);
    }
    Ok(Some((name, found)))
}

// A copy of the bytes of the file of the name at a place from `at`, at most `want` of them, where they are kept.
fn copy_kept(
    alloc: Global,
    held: &Held,
    place: usize,
    at: u64,
    want: usize,
) -> Result<Option<Vec<u8>>, Trouble>
    ensures { IfOk result (λ copied. IfSome copied (λ bytes. vec_len bytes ≤ want)) }
{
    match held.kept(place, at, want) {
        Some(bytes) => Ok(Some(Vec::from_slice(alloc, bytes)?)),
        None => Ok(None),
    }
}

// Syncs the folders of the names that were taken away.
fn sync_removed<R: Files + Alloc + Clone + Drop>(
    disk: &mut Disk<R>,
    held: &Held,
) -> Result<(), Trouble> {
    let mut last = None;
    for place in held.removed() {
        let name = held.text(*place);
        disk.sync_parts(name, last)?;
        last = Some(name);
    }
    Ok(())
}

// Syncs the files that were written and aren't synced yet, and their folders.
fn sync_written<R: Files + Alloc + Clone + Drop>(
    disk: &mut Disk<R>,
    held: &Held,
) -> Result<(), Trouble> {
    let mut last = None;
    for place in held.written() {
        let name = held.text(*place);
        // A name that was taken away in between has a second place.
        if !held.is_synced(*place) && last != Some(name) {
            disk.sync_file(name)?;
        }
        disk.sync_parts(name, last)?;
        last = Some(name);
    }
    Ok(())
}

impl<R: Files + Alloc + Clone + Drop> FolderFiles<R>
where
    R::File: Lockable,
{
    /// The files of a folder that isn't opened yet. It looks at nothing. Takes the room for the longest path.
    pub fn new(rt: R, alloc: Global, folder: &str) -> Result<FolderFiles<R>, EdgeFault> {
        match Disk::new(rt, alloc, folder) {
            Ok(disk) => Ok(FolderFiles {
                disk,
                alloc,
                opened: false,
                refusal: None,
                held: None,
                latest: None,
                changed: false,
                placed: false,
                lost: false,
            }),
            Err(_) => Err(EdgeFault::NoMemory),
        }
    }

    /// Opens the folder to be read only.
    pub fn open_to_read(&mut self) -> Result<(), EdgeFault> {
        match self.disk.open_to_read() {
            Ok(()) => {
                self.opened = true;
                Ok(())
            }
            Err(Trouble::NoMemory) => Err(EdgeFault::NoMemory),
            Err(_) => Err(EdgeFault::Folder),
        }
    }

    /// Why the folder couldn't be opened, where a call has tried to and failed.
    pub fn refusal(&self) -> Option<EdgeFault> {
        self.refusal
    }

    /// Opens the folder where that wasn't tried yet.
    pub fn open(&mut self) -> Result<(), EdgeFault> {
        if self.opened {
            return Ok(());
        }
        if let Some(fault) = self.refusal {
            return Err(fault);
        }
        match self.disk.open(self.alloc) {
            Ok(()) => {
                self.opened = true;
                Ok(())
            }
            Err(trouble) => {
                let fault = match trouble {
                    Trouble::NoMemory => EdgeFault::NoMemory,
                    Trouble::Absent | Trouble::Strange | Trouble::Failed => EdgeFault::Folder,
                };
                self.refusal = Some(fault);
                Err(fault)
            }
        }
    }

    // Opens the folder where that wasn't tried yet.
    fn begin(&mut self) -> Result<(), Trouble> {
        match self.open() {
            Ok(()) => Ok(()),
            Err(_) => Err(Trouble::Failed),
        }
    }

    /// Takes down that all is synced, where it is.
    pub fn close(&mut self) -> Result<(), Trouble> {
        if self.changed || self.lost || !self.disk.is_noted() {
            return Ok(());
        }
        self.disk.forget_unsynced()?;
        if let Some(held) = &mut self.held {
            held.forget_noted();
        }
        Ok(())
    }

    // Lists the names that are held, once.
    fn list_held(&mut self, alloc: Global) -> Result<(), Trouble> {
        if self.held.is_some() {
            return Ok(());
        }
        let Listed { names, is_whole } = self.disk.list(alloc, Folders::Listed)?;
        let held = Held::of(alloc, names, is_whole)?;
        self.held = Some(held);
        Ok(())
    }

    // The least listed name above `after`, and what stands there.
    fn listed_above(
        &mut self,
        alloc: Global,
        after: Option<&Name>,
    ) -> Result<Option<(Name, Found)>, Trouble>
        ensures { IfOk result (λ found. IfSome found (λ f. IsAbove (option_copied after.entry) f.0)) }
    {
        match &mut self.held {
            None => Ok(None),
            Some(held) => look_above(&mut self.disk, alloc, held, after),
        }
    }

    // Takes down that the file of a name changes.
    fn note_changed(&mut self, name: &Name) {
        if let Some(held) = &mut self.held {
            held.note_changed(name);
        }
    }

    // Takes down the length of a listed name, or that it isn't known.
    fn note_length(&mut self, name: &Name, length: Option<u64>) {
        if let Some(held) = &mut self.held {
            held.note_length(name, length);
        }
    }

    // Takes a name off the list, at which this stands and no plain file.
    fn take_strange_off(&mut self, name: &Name, found: Found) {
        if let Some(held) = &mut self.held {
            held.take_off(name);
            if found != Found::Nothing {
                held.set_not_whole();
            }
        }
    }

    // The least listed name above `after` at which a plain file stands.
    fn next_listed(&mut self, alloc: Global, after: Option<&Name>) -> Result<Option<Name>, Trouble>
        ensures { IfOk result (λ name. IfSome name (IsAbove (option_copied after.entry))) }
    {
        for _ in 0..u64::MAX {
            let Some((name, found)) = self.listed_above(alloc, after)? else {
                break;
            };
            if let Found::File(_) = found {
                return Ok(Some(name));
            }
            self.take_strange_off(&name, found);
        }
        Ok(None)
    }

    /// The least held name above `after`.
    pub fn next(&mut self, alloc: Global, after: Option<&Name>) -> Result<Option<Name>, Trouble>
        ensures { IfOk result (λ name. IfSome name (IsAbove (option_copied after.entry))) }
    {
        self.begin()?;
        self.list_held(alloc)?;
        self.next_listed(alloc, after)
    }

    // The size of a name, where the listing knows it.
    fn told(&mut self, name: &Name) -> Option<Option<u64>> {
        self.held.as_mut()?.size(name)
    }

    /// The length of a name's file, where it is there.
    pub fn size(&mut self, name: &Name) -> Result<Option<u64>, Trouble> {
        self.begin()?;
        if let Some(size) = self.told(name) {
            return Ok(size);
        }
        let size = self.disk.size(name.as_str())?;
        self.note_length(name, size);
        Ok(size)
    }

    // The place of a listed name.
    fn place_of(&mut self, name: &Name) -> Option<usize> {
        self.held.as_mut()?.held_place(name)
    }

    // The bytes of the file of the name at a place from `at`, at most `want` of them, where it was read before and not
    // changed since. Behind a sync that failed each file is read anew.
    fn kept_at(
        &self,
        alloc: Global,
        place: Option<usize>,
        at: u64,
        want: usize,
    ) -> Result<Option<Vec<u8>>, Trouble>
        ensures { IfOk result (λ copied. IfSome copied (λ bytes. vec_len bytes ≤ want)) }
    {
        let Some(place) = place else {
            return Ok(None);
        };
        match &self.held {
            Some(held) if !self.lost => copy_kept(alloc, held, place, at, want),
            _ => Ok(None),
        }
    }

    // Keeps bytes that were read of the file of the name at a place from `at`, where these are all of its bytes.
    fn keep_at(&mut self, place: Option<usize>, at: u64, bytes: &[u8]) {
        let Some(place) = place else {
            return;
        };
        match &mut self.held {
            Some(held) if at == 0 => held.keep(place, bytes),
            _ => {}
        }
    }

    /// The bytes of a name's file from `at`, at most `want` of them; none where it isn't there.
    pub fn read(
        &mut self,
        alloc: Global,
        name: &Name,
        at: u64,
        want: usize,
    ) -> Result<Vec<u8>, Trouble>
        ensures { IfOk result (λ bytes. vec_len bytes ≤ want) }
    {
        self.begin()?;
        let place = self.place_of(name);
        if let Some(bytes) = self.kept_at(alloc, place, at, want)? {
            return Ok(bytes);
        }
        let bytes = self.disk.read(alloc, name.as_str(), at, want)?;
        self.keep_at(place, at, bytes.as_slice());
        Ok(bytes)
    }

    // Whether a later process would find that what a name has may not be synced.
    fn is_noted(&mut self, name: &Name) -> bool {
        match &mut self.held {
            Some(held) => held.is_noted(name),
            None => false,
        }
    }

    // Notes for a later process, before a change of a name, that what it has may not be synced.
    fn begin_change(&mut self, name: &Name) -> Result<(), Trouble> {
        self.begin()?;
        if !self.is_noted(name) {
            self.disk.note_unsynced(name.as_str())?;
            if let Some(held) = &mut self.held {
                held.set_noted(name);
            }
        }
        self.changed = true;
        Ok(())
    }

    /// Takes down in the list of names that a name is written, before it is, which changes nothing else. Where memory is
    /// wanting, the list is as it was.
    pub fn list_written(&mut self, alloc: Global, name: &Name) -> Result<Written, Trouble> {
        self.begin()?;
        self.list_held(alloc)?;
        match &mut self.held {
            Some(held) => held.write(alloc, name),
            None => Err(Trouble::Failed),
        }
    }

    // Takes a name out of the list, and keeps it for the next sync where there is room; false where it isn't kept.
    fn note_removed(&mut self, name: &Name) -> bool {
        match &mut self.held {
            Some(held) => held.remove(name),
            None => false,
        }
    }

    // Whether a sync reaches the file of a name.
    fn is_reached(&mut self, name: &Name) -> bool {
        match &mut self.held {
            Some(held) => held.is_written(name),
            None => false,
        }
    }

    // Takes down that the file of the name at a place is synced, as it was written last.
    fn note_synced(&mut self, place: usize) {
        if let Some(held) = &mut self.held {
            held.note_synced(place);
        }
    }

    // Takes down whether a sync was good.
    fn note_lost(&mut self, synced: Result<(), Trouble>) -> Result<(), Trouble> {
        self.lost = self.lost || synced.is_err();
        synced
    }

    // Syncs a file that was written through itself.
    fn sync_latest(&mut self, latest: &Latest<R::File>) -> Result<(), Trouble> {
        let synced = sync_open(&latest.file);
        self.note_lost(synced)?;
        self.note_synced(latest.place);
        Ok(())
    }

    // Lets the file that was written last go, before another is written. Where it is as long as before, it is synced
    // first, through itself: a file system has nothing to note of it, and the next sync needn't open it. Of files that were
    // made or have other lengths it notes many at once, where they are synced behind all that is written.
    fn let_go(&mut self) -> Result<(), Trouble> {
        match self.latest.take() {
            Some(latest) if latest.is_as_long => self.sync_latest(&latest),
            _ => Ok(()),
        }
    }

    // Whether the file of the name at a place was written last, and is still open.
    fn is_open(&self, place: usize) -> bool {
        match &self.latest {
            Some(latest) => latest.place == place,
            None => false,
        }
    }

    fn put_file(&mut self, name: &Name, bytes: &[u8], written: Written) -> Result<(), Trouble> {
        self.begin_change(name)?;
        self.let_go()?;
        let (file, before) = self.disk.put(name.as_str(), bytes, written.is_new)?;
        self.latest = Some(Latest {
            place: written.place,
            file,
            is_as_long: before == Some(bytes.len() as u64),
        });
        Ok(())
    }

    // Adds bytes at the end of the file that is open.
    fn append_open(&mut self, bytes: &[u8]) -> Result<(), Trouble> {
        match &mut self.latest {
            Some(latest) => {
                latest.is_as_long = false;
                self.disk.write_on(&mut latest.file, bytes)
            }
            None => Err(Trouble::Failed),
        }
    }

    fn append_file(&mut self, name: &Name, bytes: &[u8], written: Written) -> Result<(), Trouble> {
        self.begin_change(name)?;
        if self.is_open(written.place) {
            return self.append_open(bytes);
        }
        self.let_go()?;
        let file = self.disk.append(name.as_str(), bytes, written.is_new)?;
        self.latest = Some(Latest {
            place: written.place,
            file,
            is_as_long: false,
        });
        Ok(())
    }

    // The answer of a write, whose failure may have changed the name. It stays among the names, and each look at it tells
    // whether it has a file.
    fn written(&mut self, answer: Result<(), Trouble>) -> Result<(), Trouble> {
        if answer.is_err() {
            self.latest = None;
        }
        answer
    }

    /// Gives a name, which is listed as written, exactly these bytes.
    pub fn put(&mut self, name: &Name, bytes: &[u8], written: Written) -> Result<(), Trouble> {
        let put = self.put_file(name, bytes, written);
        self.written(put)
    }

    /// Adds bytes at the end of a name, which is listed as written.
    pub fn append(&mut self, name: &Name, bytes: &[u8], written: Written) -> Result<(), Trouble> {
        let appended = self.append_file(name, bytes, written);
        self.written(appended)
    }

    // Syncs a name's file that was marked, and its folders if it is a new one.
    fn sync_marked(
        &mut self,
        name: &Name,
        file: &R::File,
        is_replaced: bool,
    ) -> Result<(), Trouble> {
        sync_open(file)?;
        if is_replaced {
            self.disk.sync_parts(name.as_str(), None)?;
            self.disk.sync_folder()?;
        }
        Ok(())
    }

    /// Writes the first byte of a name. Where no sync would reach its file, it is synced at once, through the file that was
    /// written.
    pub fn mark(&mut self, name: &Name, byte: u8) -> Result<(), Trouble> {
        self.begin_change(name)?;
        self.note_changed(name);
        let (file, is_replaced) = self.disk.mark(name.as_str(), byte)?;
        if is_replaced {
            self.latest = None;
        }
        if self.is_reached(name) {
            return Ok(());
        }
        let synced = self.sync_marked(name, &file, is_replaced);
        self.note_lost(synced)
    }

    // Takes away a name's file that is there. Where no sync would reach its folders, they are synced at once.
    fn take_away(&mut self, name: &Name) -> Result<(), Trouble> {
        self.begin_change(name)?;
        self.note_changed(name);
        self.latest = None;
        self.disk.remove(name.as_str())?;
        if self.note_removed(name) {
            return Ok(());
        }
        let synced = self.disk.sync_parts(name.as_str(), None);
        self.note_lost(synced)
    }

    /// Takes a name's file away, where it is there.
    pub fn remove(&mut self, name: &Name) -> Result<(), Trouble> {
        match self.size(name)? {
            Some(_) => self.take_away(name),
            None => Ok(()),
        }
    }

    // Syncs the files that were written, and the folders of all names that were written or taken away.
    fn sync_names(&mut self) -> Result<(), Trouble> {
        if let Some(latest) = &self.latest {
            sync_open(&latest.file)?;
            let place = latest.place;
            self.note_synced(place);
        }
        let Some(held) = &mut self.held else {
            return Ok(());
        };
        held.sort_changes();
        sync_removed(&mut self.disk, held)?;
        sync_written(&mut self.disk, held)
    }

    // Syncs what was written, and each folder in which a file was made or taken away.
    fn sync_changes(&mut self) -> Result<(), Trouble> {
        self.sync_names()?;
        self.disk.sync_folder()?;
        if !self.placed {
            self.disk.sync_levels()?;
        }
        self.placed = true;
        Ok(())
    }

    /// Syncs all changes since the last good sync. Where the system has failed at that once, no other is good.
    pub fn sync(&mut self) -> Result<(), Trouble> {
        self.begin()?;
        if self.lost {
            return Err(Trouble::Failed);
        }
        if !self.changed {
            return Ok(());
        }
        let synced = self.sync_changes();
        self.note_lost(synced)?;
        if let Some(held) = &mut self.held {
            held.set_synced();
        }
        self.latest = None;
        self.changed = false;
        Ok(())
    }
}
