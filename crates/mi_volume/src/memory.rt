//! A volume in memory.

ghost use Rattle.std.specs.Prelude.{◌≡◌, ◌⊎◌, ◌^◌, ◌-◌, ◌<◌, ◌≤◌, ℕ, true, Some, length, IfSome, IfNone, IfOk, OnOk, OnErr, IsErr, IsErrOf};
ghost use Rattle.std.specs.Result.{is_err};
ghost use Rattle.std.specs.Option.{option_copied, option_map};
ghost use Rattle.std.specs.FinMap.{get, insert};
ghost use Rattle.mi_text.specs.Next.{next_name};
ghost use Rattle.mi_volume.specs.Maps.{size, HoldsByte, Fits, Exceeds};
ghost use Rattle.mi_volume.specs.State.{Images};
ghost use Rattle.mi_volume.specs.Memory.{state_of, opened, reopened, fails_now, counted, looked, marked, removed, synced, with_piece, stored, written, HasRoomFor, HasNoRoomFor};

use crate::call::{Call, CallKind};
use crate::choice::{Choice, first_half};
use crate::failing::Failing;
use crate::fails::Fails;
use crate::room::{length_after, room_for, slot_size};
use crate::slots::Slots;
use crate::volume::{Failed, PIECE, PutFault, VolFault, Volume};
use mi_text::{Bytes, Name, NoMemory};
use std::alloc::Global;
use std::marker::Model;

/// A volume in memory, which tells its content and its capacity (this project's own).
#[derive(Drop)]
pub struct MemVolume {
    slots: Slots,
    capacity: Option<u64>,
    used: u64,
    fails: Failing,
    number: u64,
    faults: u64,
    calls: Vec<Call>,
}

impl Model for MemVolume {
    ghost use Rattle.std.specs.Coded.{codes};
    ghost use Rattle.mi_volume.specs.Kept.{kept_code};
    ghost use Rattle.mi_volume.specs.Memory.{Memory, HasRoom};

    ghost Value = { Memory };

    ghost coded = { Prim.hlevel (codes, kept_code) };

    ghost view = { λ m. record { kept = m.slots; capacity = m.capacity; listed = m.fails.fails.list.items; from = m.fails.fails.from; number = m.number; faults = m.faults; calls = m.calls.items } };

    ghost invariant = { λ m. HasRoom m.slots m.capacity m.used };
}

impl MemVolume {
    /// An empty volume of at most `capacity` bytes of names and contents, or without a bound. Its calls are numbered from
    /// 0, `faults` aside, and fail where `fails` says so; a `put` or `append` that would pass the capacity answers Full all
    /// the same.
    pub fn new(alloc: Global, capacity: Option<u64>, fails: Fails) -> Result<MemVolume, NoMemory>
        requires { IfSome capacity (λ c. c < 2 ^ 64 - 1) }
        ensures { IfOk result (λ m. m ≡ opened capacity fails.list.items fails.from) }
    {
        Ok(MemVolume {
            slots: Slots::new(alloc),
            capacity,
            used: 0,
            fails: Failing::new(alloc, fails)?,
            number: 0,
            faults: 0,
            calls: Vec::new(alloc),
        })
    }

    /// The puts and appends that were made, in order. One that was refused by Full or for want of memory isn't listed.
    pub fn calls(&self) -> &[Call]
        ensures { result.now ≡ self.now.calls }
    {
        self.calls.as_slice()
    }

    /// What a crash leaves, opened again: nothing is dirty, and no call fails. It is one of the maps that a crash may leave.
    pub fn image(&self, alloc: Global, choice: Choice) -> Result<MemVolume, NoMemory>
        ensures image { IfOk result (λ image. image ≡ reopened choice self.now) }
        ensures possible { IfOk result (λ image. Images (state_of self.now) image.kept.held) }
    {
        let none = Fails {
            list: Vec::new(alloc),
            from: None,
        };
        let slots = self.slots.image(alloc, choice)?;
        let used = slots.size();
        Ok(MemVolume {
            slots,
            capacity: self.capacity,
            used,
            fails: Failing::new(alloc, none)?,
            number: 0,
            faults: 0,
            calls: Vec::new(alloc),
        })
    }

    /// The least held name above `after`.
    pub(crate) fn name_above(&self, after: Option<&Name>) -> Option<&Name>
        ensures { option_copied result ≡ next_name self.now.kept.held (option_copied after.entry) }
    {
        self.slots.next_above(after)
    }

    /// What the name holds.
    pub(crate) fn bytes_of(&self, name: &Name) -> Option<&Bytes>
        ensures { option_copied result ≡ get self.now.kept.held name.now }
    {
        self.slots.get(name)
    }

    /// The number of bytes that the name holds.
    pub(crate) fn size_of(&self, name: &Name) -> Option<u64>
        ensures { result ≡ option_map length (get self.now.kept.held name.now) }
    {
        self.slots.size_of(name)
    }

    /// The capacity less the size of what is held.
    pub(crate) fn room(&self) -> Option<u64>
        ensures room { result ≡ option_map (λ c. c - size self.now.kept.held) self.now.capacity }
        ensures fits { Fits self.now.capacity (size self.now.kept.held) }
        ensures small { IfSome self.now.capacity (λ c. c < 2 ^ 64 - 1) }
    {
        match self.capacity {
            None => None,
            Some(capacity) => Some(capacity - self.used),
        }
    }

    /// How often the volume has failed.
    pub(crate) fn count(&self) -> u64
        ensures { result ≡ self.now.faults }
    {
        self.faults
    }

    /// Numbers a call that only looks, counts it where it fails, and tells whether it does.
    pub(crate) fn look(&mut self) -> bool
        ensures fails { result ≡ fails_now self.old }
        ensures leaves { self.new ≡ looked self.old }
        ensures later { self.old.faults ≤ self.new.faults }
    {
        let fails = self.number_call();
        if fails {
            self.count_fault();
        }
        fails
    }

    /// Numbers a call, and tells whether it fails.
    fn number_call(&mut self) -> bool
        ensures fails { result ≡ fails_now self.old }
        ensures leaves { self.new ≡ record self.old { number = counted self.old.number } }
    {
        let fails = self.fails.has(self.number);
        self.number = self.number.saturating_add(1);
        fails
    }

    /// Counts a call that failed.
    fn count_fault(&mut self)
        ensures leaves { self.new ≡ record self.old { faults = counted self.old.faults } }
        ensures later { self.old.faults ≤ self.new.faults }
    {
        self.faults = self.faults.saturating_add(1);
    }

    /// Replaces the one byte of the name; a call that fails makes the name dirty.
    pub(crate) fn replace_byte(&mut self, name: &Name, byte: u8) -> Result<(), Failed>
        requires { HoldsByte self.old.kept.held name.now }
        ensures fails { is_err result ≡ fails_now self.old }
        ensures leaves { self.new ≡ marked name.now byte self.old }
        ensures later { self.old.faults ≤ self.new.faults }
    {
        if self.look() {
            self.slots.touch(name);
            return Err(Failed);
        }
        self.slots.mark(name, byte);
        Ok(())
    }

    /// Takes the name away; a call that fails makes a held name dirty.
    pub(crate) fn take_away(&mut self, name: &Name) -> Result<(), Failed>
        ensures fails { is_err result ≡ fails_now self.old }
        ensures leaves { self.new ≡ removed name.now self.old }
        ensures later { self.old.faults ≤ self.new.faults }
    {
        if self.look() {
            self.slots.touch(name);
            return Err(Failed);
        }
        let gone = slot_size(name, self.slots.size_of(name));
        self.slots.remove(name);
        self.used = self.used.saturating_sub(gone);
        Ok(())
    }

    /// Makes all names clean; a call that fails leaves them dirty.
    pub(crate) fn make_clean(&mut self) -> Result<(), Failed>
        ensures fails { is_err result ≡ fails_now self.old }
        ensures leaves { self.new ≡ synced self.old }
        ensures fits { OnOk result (Fits self.new.capacity (size self.new.kept.held)) }
        ensures later { self.old.faults ≤ self.new.faults }
    {
        let failed = self.look();
        if failed {
            return Err(Failed);
        }
        self.slots.sync();
        Ok(())
    }

    /// Puts or appends; a call that fails has written the first half.
    pub(crate) fn write(
        &mut self,
        alloc: Global,
        kind: CallKind,
        name: &Name,
        bytes: &[u8],
    ) -> Result<(), PutFault>
        ensures leaves { self.new ≡ written kind name.now bytes.now self.old result }
        ensures later { self.old.faults ≤ self.new.faults }
        ensures failed { IsErrOf result PutFault.Failed → fails_now self.old ≡ true }
        ensures fails { fails_now self.old ≡ true → IsErr result }
        ensures exceeds { IsErrOf result PutFault.Full → Exceeds self.old.capacity (size (insert self.old.kept.held name.now (with_piece kind (get self.old.kept.held name.now) bytes.now))) }
        ensures fits { Exceeds self.old.capacity (size (insert self.old.kept.held name.now (with_piece kind (get self.old.kept.held name.now) bytes.now))) → IsErrOf result PutFault.Full ⊎ IsErrOf result PutFault.NoMemory }
    {
        let fails = self.number_call();
        let piece = if fails { first_half(bytes) } else { bytes };
        let Some(used) = self.room_with(kind, name, bytes.len(), piece.len()) else {
            return Err(PutFault::Full);
        };
        self.store(alloc, kind, name, piece, used)?;
        if fails {
            self.count_fault();
            return Err(PutFault::Failed);
        }
        Ok(())
    }

    /// The size once so many bytes of the `whole` are put or appended, or None where the whole passes the capacity.
    fn room_with(&self, kind: CallKind, name: &Name, whole: usize, part: usize) -> Option<u64>
        requires { part ≤ whole }
        ensures within { IfSome result (HasRoomFor self.now kind name.now whole part) }
        ensures passes { IfNone result (HasNoRoomFor self.now kind name.now whole) }
    {
        let old = self.slots.size_of(name);
        let (whole, part) = (whole as u64, part as u64);
        let new = length_after(kind, old, whole);
        room_for(
            self.capacity,
            self.used,
            slot_size(name, old),
            slot_size(name, Some(new)),
            whole - part,
        )
    }

    /// Keeps and lists a piece that is put or appended, where the size is known.
    fn store(
        &mut self,
        alloc: Global,
        kind: CallKind,
        name: &Name,
        piece: &[u8],
        used: u64,
    ) -> Result<(), NoMemory>
        requires { (c : ℕ) → self.old.capacity ≡ Some c → (used ≡ size (insert self.old.kept.held name.now (with_piece kind (get self.old.kept.held name.now) piece.now))) × (used ≤ c) }
        ensures ok { OnOk result (self.new ≡ stored kind name.now piece.now self.old) }
        ensures err { OnErr result (self.new ≡ self.old) }
    {
        let call = Call {
            kind,
            name: name.copy(alloc)?,
        };
        self.calls.push(call)?;
        if self.slots.store(alloc, kind, name, piece).is_err() {
            self.calls.pop();
            return Err(NoMemory);
        }
        self.used = used;
        Ok(())
    }
}
