//! An open rollback area over a lent volume.

ghost use Rattle.std.specs.Prelude.{◌≡◌, ◌≢◌, ◌+◌, ◌≤◌, ◌<◌, ◌++◌, [], List, ℕ, length, take, drop, IsErrOf, IfOk, IfErr, OnOk, OnErr, IsOkUnless, MatchResult, IsSome, Contains};
ghost use Rattle.std.specs.Option.{option_map};
ghost use Rattle.std.specs.FinMap.{get, insert, remove};
ghost use Rattle.mi_volume.specs.Maps.{Map, OthersStay, Fits, Exceeds, size, bytes_or_none};
ghost use Rattle.mi_text.specs.Bytes.{AreBytes};
ghost use Rattle.mi_volume.specs.State.{Passes, Rose, Stays, StaysDirty, GoesOn, Images};
ghost use Rattle.mi_undo.specs.Names.{marker, most_entries};
ghost use Rattle.mi_undo.specs.Notes.{new_names, notes_for, spelled};
ghost use Rattle.mi_undo.specs.Stands.{outside, area_of};
ghost use Rattle.mi_undo.specs.Keeps.{IsFree};
ghost use Rattle.mi_undo.specs.Area.{AreOutside, Knows, entries_for, volume, noted_names, entry_count, IsWorking, IsLive, IsFresh, Works, CanGoBack};
ghost use Rattle.mi_undo.specs.Steps.{AddsBytes};
ghost use Rattle.mi_undo.specs.Room.{NeverShort, TakesAtMost, entry_size, GoesOnWithRoom, KeepsRoom, CommitsRoom};
ghost use Rattle.mi_undo.specs.Begins.{Begins, progress_of};
ghost use Rattle.mi_undo.specs.Answers.{IsFreeUnlessRose, Opens, Declines, Notes, Changes, Commits, CountsRise, IfUnknown, GoesBack};

use crate::back::back_area;
use crate::close::commit_area;
use crate::fault::{BackFault, CommitFault, OpFault};
use crate::kept::{Kept, Progress};
use crate::names::marker_of;
use crate::note::note_names;
use crate::steps::put_synced;
use mi_text::{Bytes, Name};
use mi_volume::{Failed, PIECE, VolFault, Volume};
use std::alloc::Global;
use std::collections::BTreeSet;

/// An open rollback area. Until `commit` each crash leaves the former map, whatever happens to the
/// noted names. Where that map, 4 bytes, and 25 bytes and the notes of each entry fit the capacity,
/// recovery of what a crash leaves has room, if its first gate that isn't open isn't held or has at
/// most one byte. It borrows the volume until it is gone back over or ended.
pub struct Open<'a, V, K = Kept> {
    vol: &'a mut V,
    kept: K,
    progress: Progress,
}

/// An area that wasn't begun: the volume is handed back beside the fault.
pub struct Refused<'a, V> {
    pub vol: &'a mut V,
    pub fault: OpFault,
}

/// Begins an area on a settled volume. Full comes only where the size and 4 bytes pass the capacity,
/// and Ok only where they fit. After another error than Fault nothing is changed.
pub fn begin<'a, V: Volume>(alloc: Global, vol: &'a mut V) -> Result<Open<'a, V>, Refused<'a, V>>
    requires free { V.told → IsFree (V.state vol.old) }
    ensures reference { IfOk result (λ o. o.vol.ghost_name ≡ vol.entry.ghost_name) }
    ensures handed_back { IfErr result (λ r. r.vol.ghost_name ≡ vol.entry.ghost_name) }
    ensures fresh { IfOk result IsFresh }
    ensures opens { V.told → IfOk result (λ o. Opens (V.state vol.old) (V.state (volume o)) o.kept) }
    ensures declines { V.told → IfErr result (λ r. Declines (V.state vol.old) (V.state r.vol.now)) }
    ensures passes { MatchResult result (λ o. Passes (V.state vol.old) (V.state (volume o))) (λ r. Passes (V.state vol.old) (V.state r.vol.now)) }
    ensures fault { IfErr result (λ r. r.fault ≡ OpFault.Fault → Rose (V.state vol.old) (V.state r.vol.now)) }
    ensures full { IfErr result (λ r. r.fault ≡ OpFault.Full → V.told × Exceeds (V.state vol.old).capacity (size (V.state vol.old).held + 4)) }
    ensures fits { V.told → IfOk result (λ o. Fits (V.state vol.old).capacity (size (V.state vol.old).held + 4)) }
    ensures stays { V.told → IfErr result (λ r. r.fault ≢ OpFault.Fault → Stays (V.state vol.old) (V.state r.vol.now)) }
    ensures room { V.told → IfOk result (λ o. KeepsRoom (V.state vol.old) (V.state (volume o)) (V.state vol.old).held 0) }
    ensures room_declined { V.told → IfErr result (λ r. GoesOn (V.state vol.old) (V.state r.vol.now) (NeverShort (V.state vol.old).capacity)) }
{
    match begin_area(alloc, vol) {
        Ok(marker) => Ok(Open {
            vol,
            kept: kept_from(alloc, marker),
            progress: Progress::Working,
        }),
        Err(fault) => Err(Refused { vol, fault }),
    }
}

/// Puts the marker, and answers its name.
fn begin_area<V: Volume>(alloc: Global, vol: &mut V) -> Result<Name, OpFault>
    requires { V.told → IsFree (V.state vol.old) }
    ensures name { IfOk result (λ n. n ≡ marker) }
    ensures begins { V.told → Begins (V.state vol.old) (V.state vol.new) result }
    ensures free { V.told → OnErr result (IsFreeUnlessRose (V.state vol.old) (V.state vol.new)) }
    ensures passes { Passes (V.state vol.old) (V.state vol.new) }
    ensures fault { IsErrOf result OpFault.Fault → Rose (V.state vol.old) (V.state vol.new) }
    ensures full { IsErrOf result OpFault.Full → V.told × Exceeds (V.state vol.old).capacity (size (V.state vol.old).held + 4) }
    ensures fits { V.told → OnOk result (Fits (V.state vol.old).capacity (size (V.state vol.old).held + 4)) }
    ensures stays { V.told → IfErr result (λ fault. fault ≢ OpFault.Fault → Stays (V.state vol.old) (V.state vol.new)) }
{
    let name = marker_of(alloc)?;
    put_synced(alloc, vol, &name, &[1])?;
    Ok(name)
}

/// What an area keeps that has noted nothing yet.
fn kept_from(alloc: Global, marker: Name) -> Kept
    ensures marker { result.marker ≡ marker }
    ensures area { result.area.items ≡ [] }
    ensures entries { result.entries ≡ 0 }
    ensures places { result.places.items ≡ [] }
    ensures knows { Knows result.seen [] }
{
    Kept {
        marker,
        area: Vec::new(alloc),
        entries: 0,
        places: Vec::new(alloc),
        seen: BTreeSet::new(alloc),
    }
}

/// How far an area has come by its commit.
fn progress_after(outcome: &Result<(), CommitFault>) -> Progress
    ensures { result ≡ progress_of outcome.now }
{
    match outcome {
        Err(CommitFault::Before) | Err(CommitFault::Undoable) => Progress::Failed,
        Ok(()) | Err(CommitFault::Unknown(_, _)) => Progress::Over,
    }
}

impl<'a, V: Volume> Open<'a, V> {
    /// Notes the old bytes or absence of each name that isn't noted yet, as one entry. Where all are
    /// noted, nothing is done, and the answer is Ok or NoMemory. Else the size grows by 25 bytes and the
    /// notes, and by no more where the call fails: Full comes only where that passes the capacity, and
    /// Ok only where it fits.
    pub fn note(&mut self, alloc: Global, names: &[Name]) -> Result<(), OpFault>
        requires working { IsWorking self.old }
        requires outside { AreOutside names.now }
        requires few { entry_count self.old < most_entries }
        ensures reference { self.new.vol.ghost_name ≡ self.old.vol.ghost_name }
        ensures live { IsLive self.new }
        ensures working { OnOk result (IsWorking self.new) }
        ensures names { OnOk result (noted_names self.new ≡ noted_names self.old ++ new_names (noted_names self.old) names.now) }
        ensures entries { OnOk result (entry_count self.new ≡ entry_count self.old + entries_for (new_names (noted_names self.old) names.now)) }
        ensures entries_stay { OnErr result (entry_count self.new ≡ entry_count self.old) }
        ensures all_noted { new_names (noted_names self.old) names.now ≡ [] → IsOkUnless result OpFault.NoMemory }
        ensures untouched { new_names (noted_names self.old) names.now ≡ [] → volume self.new ≡ volume self.old }
        ensures notes { V.told → (F : Map) → Works (V.state (volume self.old)) self.old.kept F → Notes (V.state (volume self.old)) (V.state (volume self.new)) self.new.kept F result }
        ensures passes { Passes (V.state (volume self.old)) (V.state (volume self.new)) }
        ensures fault { IsErrOf result OpFault.Fault → Rose (V.state (volume self.old)) (V.state (volume self.new)) }
        ensures full { IsErrOf result OpFault.Full → V.told × ((F : Map) → Works (V.state (volume self.old)) self.old.kept F → Exceeds (V.state (volume self.old)).capacity (size (V.state (volume self.old)).held + (25 + length (spelled (notes_for (V.state (volume self.old)).held (new_names (noted_names self.old) names.now)))))) }
        ensures adds { V.told → (F : Map) → Works (V.state (volume self.old)) self.old.kept F → new_names (noted_names self.old) names.now ≢ [] → AddsBytes (25 + length (spelled (notes_for (V.state (volume self.old)).held (new_names (noted_names self.old) names.now)))) (V.state (volume self.old)) (V.state (volume self.new)) result }
        ensures room { V.told → (F : Map) (n : ℕ) → Works (V.state (volume self.old)) self.old.kept F → TakesAtMost n (V.state (volume self.old)) → KeepsRoom (V.state (volume self.old)) (V.state (volume self.new)) F (n + entry_size (notes_for (V.state (volume self.old)).held (new_names (noted_names self.old) names.now))) }
    {
        self.progress = Progress::Failed;
        match note_names(alloc, self.vol, &mut self.kept, names) {
            Ok(()) => {
                self.progress = Progress::Working;
                Ok(())
            }
            Err(fault) => Err(fault),
        }
    }

    /// Gives a noted name exactly these bytes. Full comes only where the size then would pass the
    /// capacity, and Ok only where it fits. After another error than Fault nothing is changed.
    pub fn put(&mut self, alloc: Global, name: &Name, bytes: &[u8]) -> Result<(), OpFault>
        requires working { IsWorking self.old }
        requires noted { Contains (noted_names self.old) name.now }
        requires piece { length bytes.now ≤ PIECE }
        ensures reference { self.new.vol.ghost_name ≡ self.old.vol.ghost_name }
        ensures live { IsLive self.new }
        ensures working { OnOk result (IsWorking self.new) }
        ensures kept { self.new.kept ≡ self.old.kept }
        ensures changes { V.told → (F : Map) → Works (V.state (volume self.old)) self.old.kept F → Changes (V.state (volume self.old)) (V.state (volume self.new)) self.new.kept F }
        ensures room { V.told → (F : Map) (n : ℕ) → Works (V.state (volume self.old)) self.old.kept F → TakesAtMost n (V.state (volume self.old)) → KeepsRoom (V.state (volume self.old)) (V.state (volume self.new)) F n }
        ensures map { V.told → OnOk result (outside (V.state (volume self.new)).held ≡ insert (outside (V.state (volume self.old)).held) name.now bytes.now) }
        ensures others { V.told → OthersStay name.now (V.state (volume self.old)).held (V.state (volume self.new)).held }
        ensures passes { Passes (V.state (volume self.old)) (V.state (volume self.new)) }
        ensures fault { IsErrOf result OpFault.Fault → Rose (V.state (volume self.old)) (V.state (volume self.new)) }
        ensures full { IsErrOf result OpFault.Full → V.told × Exceeds (V.state (volume self.old)).capacity (size (insert (V.state (volume self.old)).held name.now bytes.now)) }
        ensures fits { V.told → OnOk result (Fits (V.state (volume self.old)).capacity (size (insert (V.state (volume self.old)).held name.now bytes.now))) }
        ensures stays { V.told → IfErr result (λ fault. fault ≢ OpFault.Fault → Stays (V.state (volume self.old)) (V.state (volume self.new))) }
    {
        self.progress = Progress::Failed;
        self.vol.put(alloc, name, bytes)?;
        self.progress = Progress::Working;
        Ok(())
    }

    /// Adds bytes at the end of a noted name, and makes it where it isn't held. Full, Ok and other
    /// errors come as for `put`.
    pub fn append(&mut self, alloc: Global, name: &Name, bytes: &[u8]) -> Result<(), OpFault>
        requires working { IsWorking self.old }
        requires noted { Contains (noted_names self.old) name.now }
        requires piece { length bytes.now ≤ PIECE }
        ensures reference { self.new.vol.ghost_name ≡ self.old.vol.ghost_name }
        ensures live { IsLive self.new }
        ensures working { OnOk result (IsWorking self.new) }
        ensures kept { self.new.kept ≡ self.old.kept }
        ensures changes { V.told → (F : Map) → Works (V.state (volume self.old)) self.old.kept F → Changes (V.state (volume self.old)) (V.state (volume self.new)) self.new.kept F }
        ensures room { V.told → (F : Map) (n : ℕ) → Works (V.state (volume self.old)) self.old.kept F → TakesAtMost n (V.state (volume self.old)) → KeepsRoom (V.state (volume self.old)) (V.state (volume self.new)) F n }
        ensures map { V.told → OnOk result (outside (V.state (volume self.new)).held ≡ insert (outside (V.state (volume self.old)).held) name.now (bytes_or_none (get (V.state (volume self.old)).held name.now) ++ bytes.now)) }
        ensures others { V.told → OthersStay name.now (V.state (volume self.old)).held (V.state (volume self.new)).held }
        ensures passes { Passes (V.state (volume self.old)) (V.state (volume self.new)) }
        ensures fault { IsErrOf result OpFault.Fault → Rose (V.state (volume self.old)) (V.state (volume self.new)) }
        ensures full { IsErrOf result OpFault.Full → V.told × Exceeds (V.state (volume self.old)).capacity (size (insert (V.state (volume self.old)).held name.now (bytes_or_none (get (V.state (volume self.old)).held name.now) ++ bytes.now))) }
        ensures fits { V.told → OnOk result (Fits (V.state (volume self.old)).capacity (size (insert (V.state (volume self.old)).held name.now (bytes_or_none (get (V.state (volume self.old)).held name.now) ++ bytes.now)))) }
        ensures stays { V.told → IfErr result (λ fault. fault ≢ OpFault.Fault → Stays (V.state (volume self.old)) (V.state (volume self.new))) }
    {
        self.progress = Progress::Failed;
        self.vol.append(alloc, name, bytes)?;
        self.progress = Progress::Working;
        Ok(())
    }

    /// Takes a noted name away, if it is held.
    pub fn remove(&mut self, name: &Name) -> Result<(), OpFault>
        requires working { IsWorking self.old }
        requires noted { Contains (noted_names self.old) name.now }
        ensures reference { self.new.vol.ghost_name ≡ self.old.vol.ghost_name }
        ensures live { IsLive self.new }
        ensures working { OnOk result (IsWorking self.new) }
        ensures kept { self.new.kept ≡ self.old.kept }
        ensures changes { V.told → (F : Map) → Works (V.state (volume self.old)) self.old.kept F → Changes (V.state (volume self.old)) (V.state (volume self.new)) self.new.kept F }
        ensures room { V.told → (F : Map) (n : ℕ) → Works (V.state (volume self.old)) self.old.kept F → TakesAtMost n (V.state (volume self.old)) → KeepsRoom (V.state (volume self.old)) (V.state (volume self.new)) F n }
        ensures map { V.told → OnOk result (outside (V.state (volume self.new)).held ≡ remove (outside (V.state (volume self.old)).held) name.now) }
        ensures others { V.told → OthersStay name.now (V.state (volume self.old)).held (V.state (volume self.new)).held }
        ensures passes { Passes (V.state (volume self.old)) (V.state (volume self.new)) }
        ensures fault { OnErr result (Rose (V.state (volume self.old)) (V.state (volume self.new))) }
        ensures only_fault { IfErr result (λ fault. fault ≡ OpFault.Fault) }
    {
        self.progress = Progress::Failed;
        self.vol.remove(name)?;
        self.progress = Progress::Working;
        Ok(())
    }

    /// The length of the name's bytes, or None where it isn't held.
    pub fn size(&mut self, name: &Name) -> Result<Option<u64>, Failed>
        ensures reference { self.new.vol.ghost_name ≡ self.old.vol.ghost_name }
        ensures kept { self.new.kept ≡ self.old.kept }
        ensures progress { self.new.progress ≡ self.old.progress }
        ensures value { V.told → IfOk result (λ n. n ≡ option_map length (get (V.state (volume self.old)).held name.now)) }
        ensures bytes { V.told → IfOk result (λ n. AreBytes (bytes_or_none (get (V.state (volume self.old)).held name.now))) }
        ensures stays { V.told → Stays (V.state (volume self.old)) (V.state (volume self.new)) }
        ensures still { V.told → StaysDirty (V.state (volume self.old)) (V.state (volume self.new)) }
        ensures moments { GoesOn (V.state (volume self.old)) (V.state (volume self.new)) (Images (V.state (volume self.old))) }
        ensures works { V.told → (F : Map) → Works (V.state (volume self.old)) self.old.kept F → Changes (V.state (volume self.old)) (V.state (volume self.new)) self.new.kept F }
        ensures can_go_back { V.told → (F : Map) → CanGoBack (V.state (volume self.old)) self.old.kept F → CanGoBack (V.state (volume self.new)) self.new.kept F }
        ensures room { V.told → (F : Map) (n : ℕ) → CanGoBack (V.state (volume self.old)) self.old.kept F → TakesAtMost n (V.state (volume self.old)) → KeepsRoom (V.state (volume self.old)) (V.state (volume self.new)) F n }
        ensures fault { OnErr result (Rose (V.state (volume self.old)) (V.state (volume self.new))) }
    {
        self.vol.size(name)
    }

    /// The name's bytes from `at`, at most `want`, and fewer only at the end.
    pub fn read(
        &mut self,
        alloc: Global,
        name: &Name,
        at: u64,
        want: usize,
    ) -> Result<Bytes, VolFault>
        requires { want ≤ PIECE }
        ensures reference { self.new.vol.ghost_name ≡ self.old.vol.ghost_name }
        ensures kept { self.new.kept ≡ self.old.kept }
        ensures progress { self.new.progress ≡ self.old.progress }
        ensures value { V.told → IfOk result (λ bytes. bytes ≡ take want (drop at (bytes_or_none (get (V.state (volume self.old)).held name.now)))) }
        ensures short { IfOk result (λ bytes. length bytes ≤ want) }
        ensures stays { V.told → Stays (V.state (volume self.old)) (V.state (volume self.new)) }
        ensures still { V.told → StaysDirty (V.state (volume self.old)) (V.state (volume self.new)) }
        ensures moments { GoesOn (V.state (volume self.old)) (V.state (volume self.new)) (Images (V.state (volume self.old))) }
        ensures works { V.told → (F : Map) → Works (V.state (volume self.old)) self.old.kept F → Changes (V.state (volume self.old)) (V.state (volume self.new)) self.new.kept F }
        ensures can_go_back { V.told → (F : Map) → CanGoBack (V.state (volume self.old)) self.old.kept F → CanGoBack (V.state (volume self.new)) self.new.kept F }
        ensures room { V.told → (F : Map) (n : ℕ) → CanGoBack (V.state (volume self.old)) self.old.kept F → TakesAtMost n (V.state (volume self.old)) → KeepsRoom (V.state (volume self.old)) (V.state (volume self.new)) F n }
        ensures fault { IsErrOf result VolFault.Failed → Rose (V.state (volume self.old)) (V.state (volume self.new)) }
    {
        self.vol.read(alloc, name, at, want)
    }

    /// How often the volume has failed.
    pub fn faults(&self) -> u64
        ensures { result ≡ (V.state (volume self.now)).faults }
    {
        self.vol.faults()
    }

    /// Makes what is held stay. Ok comes once the closed marker is on the disk; what is left of the
    /// area then is no fault. It takes no memory. After Before and Undoable the area may be gone
    /// back over; after the other answers it is over.
    pub fn commit(&mut self) -> Result<(), CommitFault>
        requires working { IsWorking self.old }
        requires works { V.told → (F : Map) × Works (V.state (volume self.old)) self.old.kept F }
        ensures reference { self.new.vol.ghost_name ≡ self.old.vol.ghost_name }
        ensures kept { self.new.kept ≡ self.old.kept }
        ensures before_live { IsErrOf result CommitFault.Before → IsLive self.new }
        ensures undoable_live { IsErrOf result CommitFault.Undoable → IsLive self.new }
        ensures commits { V.told → (F : Map) → Works (V.state (volume self.old)) self.old.kept F → Commits (V.state (volume self.old)) (V.state (volume self.new)) self.new.kept F (outside (V.state (volume self.old)).held) result }
        ensures room { V.told → (F : Map) (n : ℕ) → Works (V.state (volume self.old)) self.old.kept F → TakesAtMost n (V.state (volume self.old)) → CommitsRoom (V.state (volume self.old)) (V.state (volume self.new)) F n result }
        ensures passes { Passes (V.state (volume self.old)) (V.state (volume self.new)) }
        ensures before { IsErrOf result CommitFault.Before → Rose (V.state (volume self.old)) (V.state (volume self.new)) }
        ensures undoable { IsErrOf result CommitFault.Undoable → Rose (V.state (volume self.old)) (V.state (volume self.new)) }
        ensures unknown { IfUnknown result (CountsRise (V.state (volume self.old)) (V.state (volume self.new))) }
    {
        let result = commit_area(self.vol, &self.kept);
        self.progress = progress_after(&result);
        result
    }

    /// Puts every noted name back, and takes the area away. Faults that come once the old bytes are
    /// on the disk are no fault, and after an error the marker is open still. Full comes only where
    /// the former map and the area pass the capacity, and Ok only where they fit.
    pub fn back(self, alloc: Global) -> Result<(), BackFault>
        requires live { IsLive self }
        requires can_go_back { V.told → (F : Map) × CanGoBack (V.state (volume self)) self.kept F }
        ensures back { V.told → (F : Map) → CanGoBack (V.state self.entry.vol.now) self.entry.kept F → GoesBack (V.state self.entry.vol.now) (V.state self.exit.0.now) F result }
        ensures room { V.told → (F : Map) (n : ℕ) → CanGoBack (V.state self.entry.vol.now) self.entry.kept F → TakesAtMost n (V.state self.entry.vol.now) → GoesOnWithRoom (V.state self.entry.vol.now) (V.state self.exit.0.now) F n }
        ensures passes { Passes (V.state self.entry.vol.now) (V.state self.exit.0.now) }
        ensures fault { IsErrOf result BackFault.Fault → Rose (V.state self.entry.vol.now) (V.state self.exit.0.now) }
        ensures full { IsErrOf result BackFault.Full → V.told × IsSome (V.state self.entry.vol.now).capacity }
        ensures exceeds { V.told → (F : Map) → CanGoBack (V.state self.entry.vol.now) self.entry.kept F → IsErrOf result BackFault.Full → Exceeds (V.state self.entry.vol.now).capacity (size F + size (area_of (V.state self.entry.vol.now).held)) }
        ensures fits { V.told → (F : Map) → CanGoBack (V.state self.entry.vol.now) self.entry.kept F → OnOk result (Fits (V.state self.entry.vol.now).capacity (size F + size (area_of (V.state self.entry.vol.now).held))) }
    {
        let Open {
            vol,
            kept,
            progress: _,
        } = self;
        back_area(alloc, vol, &kept)
    }

    /// Ends the borrow of an area that is over, or leaves one to the next settling.
    pub fn end(self)
        ensures { self.exit.0.now ≡ self.entry.vol.now }
    {
        let Open {
            vol: _,
            kept: _,
            progress: _,
        } = self;
    }
}
