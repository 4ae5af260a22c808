//! A folder as a volume.

ghost use Rattle.std.specs.Prelude.{◌≡◌, ◌-◌, ◌^◌, ◌<◌, ◌≤◌, OnErr, IsErrOf};
ghost use Rattle.mi_feeds.specs.Count.{Counts};

use crate::folder_files::{EdgeFault, FolderFiles};
use mi_disk::{Lockable, Trouble};
use mi_feeds::FaultCount;
use mi_held::{Written, fault_of};
use mi_text::{Bytes, Name};
use mi_volume::{Failed, PutFault, VolFault, Volume};
use std::alloc::Global;
use std::fs::Files;

/// A folder as a volume (this project's own). It tells no content and no capacity.
///
/// A sync reaches each file that was written since the last good one, and each folder in which a file was made
/// or taken away. If an earlier process has ended without a sync, opening the folder writes the files of the names anew that
/// it had changed, and syncs them. A file that has other names, too, isn't written in place. The folder is locked against
/// other processes from then on, for as long as this value lives.
#[derive(Drop)]
pub struct FolderVolume<R: Files> {
    files: FolderFiles<R>,
    faults: FaultCount,
}

impl<R: Files + Alloc + Clone + Drop> FolderVolume<R>
where
    R::File: Lockable,
{
    /// The folder as a volume; each level of its path is made and synced where it isn't there. Takes the folder's lock,
    /// and the room for its longest path. `Folder` comes for the empty path, where the system refuses one of these
    /// steps, and where another process has the lock. Nothing is written where the folder is there and synced.
    pub fn at(rt: R, alloc: Global, folder: &str) -> Result<FolderVolume<R>, EdgeFault> {
        let mut volume = FolderVolume::deferred(rt, alloc, folder)?;
        match volume.files.open() {
            Ok(()) => Ok(volume),
            Err(fault) => {
                drop(volume);
                Err(fault)
            }
        }
    }

    /// The folder as a volume that is made, locked and opened, as by `at`, at its first call, so that words which are
    /// refused make no folder. It looks at nothing. Takes the room for its longest path. Where the folder can't be had,
    /// every call fails, and `refusal` says why.
    pub fn deferred(rt: R, alloc: Global, folder: &str) -> Result<FolderVolume<R>, EdgeFault> {
        match FolderFiles::new(rt, alloc, folder) {
            Ok(files) => Ok(FolderVolume {
                files,
                faults: FaultCount::new(),
            }),
            Err(fault) => Err(fault),
        }
    }

    /// The folder as a volume that is only read: nothing is made, and what an earlier process has left without a sync stays
    /// as it is. Takes the folder's lock, and the room for its longest path. `Folder` comes where the folder isn't there or
    /// can't be opened, where something else stands there, and where another process has the lock.
    pub fn to_read(rt: R, alloc: Global, folder: &str) -> Result<FolderVolume<R>, EdgeFault> {
        let mut volume = FolderVolume::deferred(rt, alloc, folder)?;
        match volume.files.open_to_read() {
            Ok(()) => Ok(volume),
            Err(fault) => {
                drop(volume);
                Err(fault)
            }
        }
    }

    /// Why the folder couldn't be opened, where a call has tried to and failed.
    pub fn refusal(&self) -> Option<EdgeFault> {
        self.files.refusal()
    }

    /// Takes down that all is synced, where it is, so that a later process writes nothing anew. It is called behind the
    /// last change.
    pub fn close(&mut self) {
        let closed = self.files.close();
        let _ = self.answer(closed);
    }

    // Counts a failure of the system.
    fn count(&mut self)
        ensures { Counts self.old.faults self.new.faults }
    {
        self.faults.rise();
    }

    // The answer of the system, whose failures are counted.
    fn answer<T>(&mut self, answer: Result<T, Trouble>) -> Result<T, Failed>
        ensures failed { OnErr result (Counts self.old.faults self.new.faults) }
        ensures later { self.old.faults ≤ self.new.faults }
    {
        match answer {
            Ok(value) => Ok(value),
            Err(_) => {
                self.count();
                Err(Failed)
            }
        }
    }

    fn read_failed(&mut self, trouble: Trouble) -> VolFault
        ensures failed { result ≡ VolFault.Failed → Counts self.old.faults self.new.faults }
        ensures later { self.old.faults ≤ self.new.faults }
    {
        let fault = fault_of(trouble);
        if let VolFault::Failed = fault {
            self.count();
        }
        fault
    }

    // Takes down that a name is written, before it is, which changes nothing else.
    fn note_written(&mut self, alloc: Global, name: &Name) -> Result<Written, PutFault>
        ensures failed { IsErrOf result PutFault.Failed → Counts self.old.faults self.new.faults }
        ensures later { self.old.faults ≤ self.new.faults }
        ensures never { IsErrOf result PutFault.Full → ⊥ }
    {
        match self.files.list_written(alloc, name) {
            Ok(written) => Ok(written),
            Err(Trouble::NoMemory) => Err(PutFault::NoMemory),
            Err(_) => {
                self.count();
                Err(PutFault::Failed)
            }
        }
    }

    // The answer of a write, whose failure may have changed the name.
    fn written(&mut self, answer: Result<(), Trouble>) -> Result<(), PutFault>
        ensures failed { IsErrOf result PutFault.Failed → Counts self.old.faults self.new.faults }
        ensures later { self.old.faults ≤ self.new.faults }
        ensures never { IsErrOf result PutFault.Full → ⊥ }
    {
        match answer {
            Ok(()) => Ok(()),
            Err(_) => {
                self.count();
                Err(PutFault::Failed)
            }
        }
    }
}

impl<R: Files + Alloc + Clone + Drop> Volume for FolderVolume<R>
where
    R::File: Lockable,
{
    ghost use Rattle.mi_volume.specs.Untold.{untold};

    ghost told = { ⊥ };

    ghost state = { λ v. untold v.faults };

    ghost counts_now = { λ told v t d le image. absurd told };

    fn next(&mut self, alloc: Global, after: Option<&Name>) -> Result<Option<Name>, VolFault> {
        match self.files.next(alloc, after) {
            Ok(name) => Ok(name),
            Err(trouble) => Err(self.read_failed(trouble)),
        }
    }

    fn size(&mut self, name: &Name) -> Result<Option<u64>, Failed> {
        let size = self.files.size(name);
        self.answer(size)
    }

    fn read(
        &mut self,
        alloc: Global,
        name: &Name,
        at: u64,
        want: usize,
    ) -> Result<Bytes, VolFault> {
        match self.files.read(alloc, name, at, want) {
            Ok(bytes) => Ok(Bytes::from_vec(bytes)),
            Err(trouble) => Err(self.read_failed(trouble)),
        }
    }

    fn put(&mut self, alloc: Global, name: &Name, bytes: &[u8]) -> Result<(), PutFault> {
        let written = self.note_written(alloc, name)?;
        let put = self.files.put(name, bytes, written);
        self.written(put)
    }

    fn append(&mut self, alloc: Global, name: &Name, bytes: &[u8]) -> Result<(), PutFault> {
        let written = self.note_written(alloc, name)?;
        let appended = self.files.append(name, bytes, written);
        self.written(appended)
    }

    fn mark(&mut self, name: &Name, byte: u8) -> Result<(), Failed> {
        let marked = self.files.mark(name, byte);
        self.answer(marked)
    }

    fn remove(&mut self, name: &Name) -> Result<(), Failed> {
        let removed = self.files.remove(name);
        self.answer(removed)
    }

    fn sync(&mut self) -> Result<(), Failed> {
        let synced = self.files.sync();
        self.answer(synced)
    }

    fn free(&mut self) -> Result<Option<u64>, Failed> {
        Ok(None)
    }

    fn faults(&self) -> u64 {
        self.faults.told()
    }
}
