//! What a name held at the last good sync.

ghost use Rattle.std.specs.Prelude.{◌≡◌};
ghost use Rattle.mi_volume.specs.Slots.{noted_as, saved_as, is_unnoted, now_of, clean_slot};

use mi_text::Bytes;

/// What a name held at the last good sync, in the room of its slot.
#[derive(Drop)]
pub enum Before {
    /// The name isn't dirty: it holds what it held.
    Clean,
    /// A call that failed made it dirty, and it holds what it held.
    Same,
    /// It wasn't held.
    Absent,
    /// It held this one byte.
    OneByte(u8),
    /// It held these bytes.
    Held(Bytes),
}

impl Before {
    /// Whether what was held has to be noted before the name changes.
    pub fn is_unnoted(&self) -> bool
        ensures { result ≡ is_unnoted self.now }
    {
        matches!(self, Before::Clean | Before::Same)
    }

    /// A note of what was held.
    pub fn saved(held: Option<Bytes>) -> Before
        ensures { result ≡ saved_as held }
    {
        match held {
            None => Before::Absent,
            Some(bytes) => Before::Held(bytes),
        }
    }
}

/// The slot of a name: a note, and how many good syncs had been made when it was written. The next good sync makes it
/// old: then it says nothing more.
#[derive(Drop)]
pub struct Slot {
    pub note: Before,
    pub syncs: u64,
}

impl Slot {
    /// A slot that notes nothing.
    pub fn clean() -> Slot
        ensures { result ≡ clean_slot }
    {
        Slot {
            note: Before::Clean,
            syncs: 0,
        }
    }

    /// Whether what was held has to be noted before the name changes, once so many good syncs were made.
    pub fn is_unnoted(&self, syncs: u64) -> bool
        ensures { result ≡ is_unnoted (now_of syncs self.now) }
    {
        self.syncs != syncs || self.note.is_unnoted()
    }

    /// Notes what was held, if it isn't noted yet.
    pub fn note(&mut self, syncs: u64, saved: Before)
        ensures notes { now_of syncs self.new ≡ noted_as saved (now_of syncs self.old) }
        ensures now { self.new.syncs ≡ syncs }
    {
        if self.is_unnoted(syncs) {
            *self = Slot { note: saved, syncs };
        }
    }
}
