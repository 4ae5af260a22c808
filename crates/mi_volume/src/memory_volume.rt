//! A volume in memory as a volume.

ghost use Rattle.std.specs.Prelude.{◌≡◌, ◌⊎◌, ◌↔◌, IsTrue, ◌-◌, ◌^◌, ◌<◌, ◌≤◌, ◌++◌, length, take, drop, IfOk, IsErr, OnErr, IfSome, IsSome, IsErrOf};
ghost use Rattle.std.specs.Result.{is_err};
ghost use Rattle.std.specs.Option.{option_copied, option_map};
ghost use Rattle.std.specs.FinMap.{get, insert};
ghost use Rattle.mi_text.specs.Bytes.{AreBytes};
ghost use Rattle.mi_text.specs.Next.{next_name};
ghost use Rattle.mi_volume.specs.Maps.{size, bytes_or_none, IsAbove, Fits, Exceeds, HoldsByte};
ghost use Rattle.mi_volume.specs.State.{Images, ImagesOf, GoesOn, Stays, StaysDirty, Rose};
ghost use Rattle.mi_volume.specs.Calls.{Writes, Removes, Marks, Syncs};
ghost use Rattle.mi_volume.specs.Memory.{state_of, fails_now, looked, marked, removed, synced, written};
ghost use Rattle.mi_volume.specs.declared.call.CallKind.TheVariants.{Put, Append};

use crate::call::CallKind;
use crate::memory::MemVolume;
use crate::volume::{Failed, PIECE, PutFault, VolFault, Volume};
use mi_text::{Bytes, Name};
use std::alloc::Global;

impl Volume for MemVolume {
    ghost told = { Unit {0} };

    ghost state = { state_of };

    ghost counts_now = { λ told v t d le image. image };

    fn next(&mut self, alloc: Global, after: Option<&Name>) -> Result<Option<Name>, VolFault>
        ensures value { IfOk result (λ name. name ≡ next_name self.old.kept.held (option_copied after.entry)) }
        ensures above { IfOk result (λ name. IfSome name (IsAbove (option_copied after.entry))) }
        ensures stays { Stays (state_of self.old) (state_of self.new) }
        ensures still { StaysDirty (state_of self.old) (state_of self.new) }
        ensures moments { GoesOn (state_of self.old) (state_of self.new) (Images (state_of self.old)) }
        ensures failed { IsErrOf result VolFault.Failed → Rose (state_of self.old) (state_of self.new) }
        ensures leaves { self.new ≡ looked self.old }
        ensures fails { IsErrOf result VolFault.Failed ↔ IsTrue (fails_now self.old) }
    {
        if self.look() {
            return Err(VolFault::Failed);
        }
        match self.name_above(after) {
            None => Ok(None),
            Some(name) => Ok(Some(name.copy(alloc)?)),
        }
    }

    fn size(&mut self, name: &Name) -> Result<Option<u64>, Failed>
        ensures value { IfOk result (λ n. n ≡ option_map length (get self.old.kept.held name.now)) }
        ensures bytes { IfOk result (λ n. AreBytes (bytes_or_none (get self.old.kept.held name.now))) }
        ensures stays { Stays (state_of self.old) (state_of self.new) }
        ensures still { StaysDirty (state_of self.old) (state_of self.new) }
        ensures moments { GoesOn (state_of self.old) (state_of self.new) (Images (state_of self.old)) }
        ensures failed { OnErr result (Rose (state_of self.old) (state_of self.new)) }
        ensures leaves { self.new ≡ looked self.old }
        ensures fails { is_err result ≡ fails_now self.old }
    {
        if self.look() {
            return Err(Failed);
        }
        match self.bytes_of(name) {
            None => Ok(None),
            Some(bytes) => Ok(Some(length_of(bytes.as_slice()))),
        }
    }

    fn read(&mut self, alloc: Global, name: &Name, at: u64, want: usize) -> Result<Bytes, VolFault>
        requires { want ≤ PIECE }
        ensures value { IfOk result (λ bytes. bytes ≡ take want (drop at (bytes_or_none (get self.old.kept.held name.now)))) }
        ensures short { IfOk result (λ bytes. length bytes ≤ want) }
        ensures stays { Stays (state_of self.old) (state_of self.new) }
        ensures still { StaysDirty (state_of self.old) (state_of self.new) }
        ensures moments { GoesOn (state_of self.old) (state_of self.new) (Images (state_of self.old)) }
        ensures failed { IsErrOf result VolFault.Failed → Rose (state_of self.old) (state_of self.new) }
        ensures leaves { self.new ≡ looked self.old }
        ensures fails { IsErrOf result VolFault.Failed ↔ IsTrue (fails_now self.old) }
    {
        if self.look() {
            return Err(VolFault::Failed);
        }
        match self.bytes_of(name) {
            None => Ok(Bytes::new(alloc)),
            Some(bytes) => Ok(Bytes::copy_of(alloc, part(bytes.as_slice(), at, want))?),
        }
    }

    fn put(&mut self, alloc: Global, name: &Name, bytes: &[u8]) -> Result<(), PutFault>
        requires { length bytes.now ≤ PIECE }
        ensures writes { Writes name.now bytes.now (state_of self.old) (state_of self.new) result }
        ensures moments { GoesOn (state_of self.old) (state_of self.new) (ImagesOf name.now (state_of self.old)) }
        ensures failed { IsErrOf result PutFault.Failed → Rose (state_of self.old) (state_of self.new) }
        ensures full { IsErrOf result PutFault.Full → IsSome self.old.capacity }
        ensures full_first { Exceeds self.old.capacity (size (insert self.old.kept.held name.now bytes.now)) → IsErrOf result PutFault.Full ⊎ IsErrOf result PutFault.NoMemory }
        ensures leaves { self.new ≡ written Put name.now bytes.now self.old result }
        ensures fails_alone { IsErrOf result PutFault.Failed → IsTrue (fails_now self.old) }
        ensures fails { IsTrue (fails_now self.old) → IsErr result }
    {
        self.write(alloc, CallKind::Put, name, bytes)
    }

    fn append(&mut self, alloc: Global, name: &Name, bytes: &[u8]) -> Result<(), PutFault>
        requires { length bytes.now ≤ PIECE }
        ensures writes { Writes name.now (bytes_or_none (get self.old.kept.held name.now) ++ bytes.now) (state_of self.old) (state_of self.new) result }
        ensures moments { GoesOn (state_of self.old) (state_of self.new) (ImagesOf name.now (state_of self.old)) }
        ensures failed { IsErrOf result PutFault.Failed → Rose (state_of self.old) (state_of self.new) }
        ensures full { IsErrOf result PutFault.Full → IsSome self.old.capacity }
        ensures full_first { Exceeds self.old.capacity (size (insert self.old.kept.held name.now (bytes_or_none (get self.old.kept.held name.now) ++ bytes.now))) → IsErrOf result PutFault.Full ⊎ IsErrOf result PutFault.NoMemory }
        ensures leaves { self.new ≡ written Append name.now bytes.now self.old result }
        ensures fails_alone { IsErrOf result PutFault.Failed → IsTrue (fails_now self.old) }
        ensures fails { IsTrue (fails_now self.old) → IsErr result }
    {
        self.write(alloc, CallKind::Append, name, bytes)
    }

    fn mark(&mut self, name: &Name, byte: u8) -> Result<(), Failed>
        requires { HoldsByte self.old.kept.held name.now }
        ensures marks { Marks name.now byte (state_of self.old) (state_of self.new) result }
        ensures moments { GoesOn (state_of self.old) (state_of self.new) (ImagesOf name.now (state_of self.old)) }
        ensures failed { OnErr result (Rose (state_of self.old) (state_of self.new)) }
        ensures leaves { self.new ≡ marked name.now byte self.old }
        ensures fails { is_err result ≡ fails_now self.old }
    {
        self.replace_byte(name, byte)
    }

    fn remove(&mut self, name: &Name) -> Result<(), Failed>
        ensures removes { Removes name.now (state_of self.old) (state_of self.new) result }
        ensures moments { GoesOn (state_of self.old) (state_of self.new) (ImagesOf name.now (state_of self.old)) }
        ensures failed { OnErr result (Rose (state_of self.old) (state_of self.new)) }
        ensures leaves { self.new ≡ removed name.now self.old }
        ensures fails { is_err result ≡ fails_now self.old }
    {
        self.take_away(name)
    }

    fn sync(&mut self) -> Result<(), Failed>
        ensures syncs { Syncs (state_of self.old) (state_of self.new) result }
        ensures moments { GoesOn (state_of self.old) (state_of self.new) (Images (state_of self.old)) }
        ensures failed { OnErr result (Rose (state_of self.old) (state_of self.new)) }
        ensures leaves { self.new ≡ synced self.old }
        ensures fails { is_err result ≡ fails_now self.old }
    {
        self.make_clean()
    }

    fn free(&mut self) -> Result<Option<u64>, Failed>
        ensures value { IfOk result (λ n. n ≡ option_map (λ c. c - size self.old.kept.held) self.old.capacity) }
        ensures small { IfSome self.old.capacity (λ c. c < 2 ^ 64 - 1) }
        ensures fits { Fits self.old.capacity (size self.old.kept.held) }
        ensures stays { Stays (state_of self.old) (state_of self.new) }
        ensures still { StaysDirty (state_of self.old) (state_of self.new) }
        ensures moments { GoesOn (state_of self.old) (state_of self.new) (Images (state_of self.old)) }
        ensures failed { OnErr result (Rose (state_of self.old) (state_of self.new)) }
        ensures leaves { self.new ≡ looked self.old }
        ensures fails { is_err result ≡ fails_now self.old }
    {
        let room = self.room();
        if self.look() {
            return Err(Failed);
        }
        Ok(room)
    }

    fn faults(&self) -> u64
        ensures { result ≡ self.now.faults }
    {
        self.count()
    }
}

/// The bytes from `at`, at most `want`.
fn part(bytes: &[u8], at: u64, want: usize) -> &[u8]
    ensures { result.now ≡ take want (drop at bytes.now) }
{
    let from = at.min(bytes.len() as u64) as usize;
    let rest = &bytes[from..];
    &rest[..want.min(rest.len())]
}

/// The number of bytes.
fn length_of(bytes: &[u8]) -> u64
    ensures length { result ≡ length bytes.now }
    ensures bytes { AreBytes bytes.now }
{
    bytes.len() as u64
}
