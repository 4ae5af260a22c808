//! The names that a folder holds, as its listing and the changes since give them.
//!
//! What is kept, and why:
//!
//! - A place is that of one name, from the listing or its first write to the end of the process.
//!   All that is known of the name is kept there: whether it is held, its length, its bytes,
//!   whether its file was synced since it was written last, and the round of its last write. A good
//!   sync begins a new round. So a write marks its name, and no second collection of names is
//!   searched.
//! - Listed names are in byte order, and a later name that is above all of them joins them; one
//!   that comes out of order goes into a tree, and `next` takes the lesser of the two. A name that
//!   is taken away keeps its place in the order for a later write. While the tree is empty, places
//!   rise as names do, so a sync sorts its changes by places, and else by names.
//! - A search looks first at the name that was sought last and at the next one: the scan, the
//!   reading of old bytes and the writes of a run go through names in their order.
//! - `gap` is where the last search passed over names that aren't held, so that many of them cost
//!   the next search nothing.
//! - Files of at most 4,096 bytes that were read whole are kept, 4,194,304 bytes in all, until the
//!   name is written, marked or taken away, or a look finds another length: a run that scans the
//!   machine and then notes old bytes reads each short file once.
//! - A removal takes no memory: the listing and each put have taken the room to remember it by.

ghost use Rattle.std.specs.Prelude.{◌≤◌, IfOk, IfSome, IsTrue, length};
ghost use Rattle.std.specs.Option.{option_copied};
ghost use Rattle.mi_volume.specs.Maps.{IsAbove};

use mi_disk::{LONGEST_NAME, Trouble, sort_names};
use mi_text::{Name, NameError};
use std::alloc::Global;
use std::cmp::Ordering;
use std::collections::BTreeMap;
use std::ops::{Bound, Range};

/// The bytes of the longest file that is kept.
const LONGEST_KEPT: usize = 4_096;

/// The bytes of all files that are kept.
const MOST_KEPT: usize = 4_194_304;

// A name, and what is known of it.
#[derive(Drop)]
struct Known {
    name: String,
    // Whether it is held.
    is_held: bool,
    // The length of its file, where a look has found it since the last change of it.
    length: Option<u64>,
    // Where the bytes of its file begin among those that are kept, where they are kept, of which there are as many as its
    // length says.
    kept: Option<usize>,
    // The round in which it was written last; 0 where it wasn't.
    written: u64,
    // Whether its file was synced after it was written last.
    is_synced: bool,
    // The number of the list of what may not be synced that has it; 0 if none has.
    noted: u64,
}

/// A name that is written.
#[derive(Clone, Copy)]
pub struct Written {
    /// Its place.
    pub place: usize,
    /// Whether nothing stands at its path yet, as the listing and the changes since tell.
    pub is_new: bool,
}

/// The names that are held, and those that were written or taken away since the last good sync. A place is that of one name
/// as long as this value lives.
#[derive(Drop)]
pub struct Held {
    // The names by their places.
    known: Vec<Known>,
    // The places of the listed names, and of those that came later in their order, in byte order.
    sorted: Vec<usize>,
    // The places of the names that came later, out of this order.
    others: BTreeMap<String, usize>,
    // Whether nothing stands at the path of any other name.
    is_whole: bool,
    // Where in `sorted` the name stands that was sought last: the next one that is sought is mostly this one or the next.
    at: usize,
    // Where in `sorted` the names were passed over last, from one to before another, since none is held: where many were
    // taken away, the next search above them doesn't pass over each again.
    gap: Range<usize>,
    // What files hold, one behind another, as it was read; bytes of files that were changed since stand there too.
    bytes: Vec<u8>,
    // Room for the longest name.
    above: String,
    // The places of the names that were written since the last good sync, each once, and of those that were taken away,
    // with room for all.
    written: Vec<usize>,
    removed: Vec<usize>,
    // How many good syncs there were, and one.
    round: u64,
    // The number of the present list of what may not be synced.
    list: u64,
}

// Whether a name stands above another one, or above none.
fn is_above(after: Option<&Name>, name: &Name) -> bool
    ensures { IsTrue result → IsAbove (option_copied after.entry) name.now }
{
    match after {
        None => true,
        Some(after) => matches!(after.as_str().cmp(name.as_str()), Ordering::Less),
    }
}

// A listed name.
fn name_of(alloc: Global, text: &str) -> Result<Name, Trouble> {
    match Name::of(alloc, text) {
        Ok(name) => Ok(name),
        Err(NameError::NoMemory) => Err(Trouble::NoMemory),
        Err(NameError::Length) => Err(Trouble::Failed),
    }
}

// The name at a place.
fn text_at(known: &[Known], place: usize) -> &str {
    match known.get(place) {
        Some(known) => known.name.as_str(),
        None => "",
    }
}

// Whether the name at a place is held.
fn is_held(known: &[Known], place: usize) -> bool {
    match known.get(place) {
        Some(known) => known.is_held,
        None => false,
    }
}

// The place of the least held name above this one, or of the least one where this has no bytes.
fn least_above(known: &[Known], places: &BTreeMap<String, usize>, above: &String) -> Option<usize> {
    let from = if above.is_empty() {
        Bound::Unbounded
    } else {
        Bound::Excluded(above)
    };
    for (_, place) in places.range((from, Bound::Unbounded)) {
        if is_held(known, *place) {
            return Some(*place);
        }
    }
    None
}

impl Known {
    // Takes down the length of its file, or that it isn't known. What was kept of a file of another length isn't kept any
    // more.
    fn set_length(&mut self, length: Option<u64>) {
        if self.length != length {
            self.kept = None;
        }
        self.length = length;
    }

    // Takes down that its file changes.
    fn set_changed(&mut self) {
        self.set_length(None);
        self.is_synced = false;
    }

    // Whether a file of so many bytes may be kept whole.
    fn may_keep(&self, count: usize) -> bool {
        self.is_held && self.kept.is_none() && self.length == Some(count as u64)
    }
}

// The bytes from `at` on, at most `want` of them.
fn part_of(bytes: &[u8], at: u64, want: usize) -> &[u8]
    ensures { length result.now ≤ want }
{
    let from = at.min(bytes.len() as u64) as usize;
    let rest = &bytes[from..];
    &rest[..want.min(rest.len())]
}

// Puts places into the byte order of their names.
fn sort_places(known: &[Known], places: &mut Vec<usize>) {
    places.sort_unstable_by(|one, other| text_at(known, *one).cmp(text_at(known, *other)));
}

impl Held {
    /// These names, of which no length is known. `is_whole` says whether nothing stands at the path of any other name.
    pub fn of(alloc: Global, names: Vec<String>, is_whole: bool) -> Result<Held, Trouble> {
        let mut held = Held {
            known: Vec::new(alloc),
            sorted: Vec::new(alloc),
            others: BTreeMap::new(alloc),
            is_whole,
            at: 0,
            gap: 0..0,
            bytes: Vec::new(alloc),
            above: String::new(alloc),
            written: Vec::new(alloc),
            removed: Vec::new(alloc),
            round: 1,
            list: 1,
        };
        match held.fill(alloc, names) {
            Ok(()) => Ok(held),
            Err(trouble) => {
                drop(held);
                Err(trouble)
            }
        }
    }

    // Takes the room for so many names, and for the longest.
    fn take_room(&mut self, count: usize) -> Result<(), Trouble> {
        self.known.reserve(count)?;
        self.sorted.reserve(count)?;
        self.removed.reserve(count)?;
        self.above.reserve(LONGEST_NAME)?;
        Ok(())
    }

    // Adds these names, which are in no order, where there is none yet.
    fn fill(&mut self, alloc: Global, names: Vec<String>) -> Result<(), Trouble> {
        self.take_room(names.len())?;
        for name in sort_names(alloc, names)? {
            self.push(name)?;
        }
        self.at = 0;
        Ok(())
    }

    // Adds a name that is held, above all others. A folder that another program changes may be listed with a name twice.
    fn push(&mut self, name: String) -> Result<(), Trouble> {
        if self.is_at(self.at, name.as_str()) {
            return Ok(());
        }
        self.at = self.known.len();
        self.sorted.push(self.at)?;
        self.known.push(Known {
            name,
            is_held: true,
            length: None,
            kept: None,
            written: 0,
            is_synced: false,
            noted: 0,
        })?;
        Ok(())
    }

    /// The name at a place.
    pub fn text(&self, place: usize) -> &str {
        text_at(self.known.as_slice(), place)
    }

    // Whether this name stands there in the byte order.
    fn is_at(&self, at: usize, name: &str) -> bool {
        match self.sorted.get(at) {
            Some(place) => self.text(*place) == name,
            None => false,
        }
    }

    // Whether a name stands above all of `sorted`.
    fn is_last(&self, name: &str) -> bool {
        match self.sorted.last() {
            Some(place) => matches!(self.text(*place).cmp(name), Ordering::Less),
            None => true,
        }
    }

    // Where a name stands in the byte order, or would stand.
    fn seek(&self, name: &str) -> Result<usize, usize> {
        if self.is_last(name) {
            return Err(self.sorted.len());
        }
        self.sorted
            .binary_search_by(|place| self.text(*place).cmp(name))
    }

    // Where a name stands in the byte order, which is mostly behind the one that was sought last.
    fn seek_on(&self, name: &str) -> Option<usize> {
        let next = self.at.saturating_add(1);
        if self.is_at(next, name) {
            Some(next)
        } else {
            self.seek(name).ok()
        }
    }

    // The place of a name.
    fn place_of(&mut self, name: &str) -> Option<usize> {
        if !self.is_at(self.at, name) {
            match self.seek_on(name) {
                Some(at) => self.at = at,
                None => return self.others.get(name).copied(),
            }
        }
        self.sorted.get(self.at).copied()
    }

    // What is known of a name that is held.
    fn known(&mut self, name: &Name) -> Option<&mut Known> {
        let place = self.place_of(name.as_str())?;
        match self.known.get_mut(place) {
            Some(known) if known.is_held => Some(known),
            _ => None,
        }
    }

    // Where in the byte order the names above this one begin.
    fn begin_above(&self, after: Option<&Name>) -> usize {
        let Some(after) = after else {
            return 0;
        };
        if self.is_at(self.at, after.as_str()) {
            return self.at.saturating_add(1);
        }
        match self.seek(after.as_str()) {
            Ok(at) => at.saturating_add(1),
            Err(at) => at,
        }
    }

    // Where in the byte order the least held name above this one stands, of those that are there.
    fn sorted_above(&mut self, after: Option<&Name>) -> Option<usize> {
        let mut from = self.begin_above(after);
        if self.gap.contains(&from) {
            from = self.gap.end;
        } else {
            self.gap.start = from;
        }
        let rest = self.sorted.as_slice().get(from..)?;
        let known = self.known.as_slice();
        let passed = rest.iter().position(|place| is_held(known, *place));
        self.gap.end = from.saturating_add(passed.unwrap_or(rest.len()));
        passed.map(|_| self.gap.end)
    }

    // The place of the least held name above this one, of those that came out of order.
    fn other_above(&mut self, after: Option<&Name>) -> Result<Option<usize>, Trouble> {
        if self.others.is_empty() {
            return Ok(None);
        }
        self.above.clear();
        if let Some(after) = after {
            self.above.push_str(after.as_str())?;
        }
        Ok(least_above(self.known.as_slice(), &self.others, &self.above))
    }

    // The place of the least held name above this one.
    fn place_above(&mut self, after: Option<&Name>) -> Result<Option<usize>, Trouble> {
        let other = self.other_above(after)?;
        let Some(at) = self.sorted_above(after) else {
            return Ok(other);
        };
        let place = self.sorted.get(at).copied();
        match (place, other) {
            (Some(place), Some(other))
                if matches!(self.text(other).cmp(self.text(place)), Ordering::Less) => {
                Ok(Some(other))
            }
            _ => {
                self.at = at;
                Ok(place)
            }
        }
    }

    /// The least name above `after`, with its place. That it is above is looked at: names out of order are a failure.
    pub fn next(
        &mut self,
        alloc: Global,
        after: Option<&Name>,
    ) -> Result<Option<(Name, usize)>, Trouble>
        ensures { IfOk result (λ found. IfSome found (λ f. IsAbove (option_copied after.entry) f.0)) }
    {
        let Some(place) = self.place_above(after)? else {
            return Ok(None);
        };
        let name = name_of(alloc, self.text(place))?;
        if is_above(after, &name) {
            Ok(Some((name, place)))
        } else {
            Err(Trouble::Failed)
        }
    }

    /// What is known of a name's size, where it is: None where nothing stands at its path.
    pub fn size(&mut self, name: &Name) -> Option<Option<u64>> {
        let is_whole = self.is_whole;
        match self.known(name) {
            Some(known) => known.length.map(Some),
            None if is_whole => Some(None),
            None => None,
        }
    }

    /// Takes down the length at a place.
    pub fn set_length(&mut self, place: usize, length: u64) {
        if let Some(known) = self.known.get_mut(place) {
            known.set_length(Some(length));
        }
    }

    /// Takes down the length of a name, or that it isn't known.
    pub fn note_length(&mut self, name: &Name, length: Option<u64>) {
        if let Some(known) = self.known(name) {
            known.set_length(length);
        }
    }

    /// Takes down that the file of a name changes.
    pub fn note_changed(&mut self, name: &Name) {
        if let Some(known) = self.known(name) {
            known.set_changed();
        }
    }

    /// The place of a name that is held.
    pub fn held_place(&mut self, name: &Name) -> Option<usize> {
        let place = self.place_of(name.as_str())?;
        if is_held(self.known.as_slice(), place) {
            Some(place)
        } else {
            None
        }
    }

    /// Keeps what the file of the name at a place holds, where these are all of its bytes and there is room, so that it isn't
    /// read again as long as nothing changes it.
    pub fn keep(&mut self, place: usize, bytes: &[u8]) {
        let from = self.bytes.len();
        if bytes.len() > LONGEST_KEPT.min(MOST_KEPT.saturating_sub(from)) {
            return;
        }
        let Some(known) = self.known.get_mut(place) else {
            return;
        };
        if known.may_keep(bytes.len()) && self.bytes.extend_from_slice(bytes).is_ok() {
            known.kept = Some(from);
        }
    }

    /// The bytes of the file of the name at a place from `at`, at most `want` of them, where they are kept.
    pub fn kept(&self, place: usize, at: u64, want: usize) -> Option<&[u8]>
        ensures { IfSome result (λ bytes. length bytes.now ≤ want) }
    {
        let known = self.known.get(place)?;
        let (from, length) = (known.kept?, known.length?);
        let to = from.saturating_add(length as usize);
        let bytes = self.bytes.as_slice().get(from..to)?;
        Some(part_of(bytes, at, want))
    }

    // Adds a name that isn't known yet, and answers its place. After an error the names are as they were.
    fn add(&mut self, alloc: Global, name: &str) -> Result<usize, Trouble> {
        let place = self.known.len();
        self.known.reserve(1)?;
        let text = String::from_str(alloc, name)?;
        if self.is_last(name) {
            self.sorted.push(place)?;
            self.at = self.sorted.len().saturating_sub(1);
        } else {
            let text = String::from_str(alloc, name)?;
            self.others.insert(text, place)?;
        }
        self.known.push(Known {
            name: text,
            is_held: false,
            length: None,
            kept: None,
            written: 0,
            is_synced: false,
            noted: 0,
        })?;
        Ok(place)
    }

    // Ends the gap before the name that was sought last, which is held from now on.
    fn end_gap(&mut self) {
        if self.gap.contains(&self.at) {
            self.gap.end = self.at;
        }
    }

    // Takes down that the name at a place is written. There is room for it.
    fn write_at(&mut self, place: usize) -> Result<(), Trouble> {
        let Some(known) = self.known.get_mut(place) else {
            return Ok(());
        };
        known.is_held = true;
        known.set_changed();
        if known.written != self.round {
            known.written = self.round;
            self.written.push(place)?;
        }
        Ok(())
    }

    /// Takes down that a name is written: it is held, and its length isn't known. After an error the names are as they were.
    pub fn write(&mut self, alloc: Global, name: &Name) -> Result<Written, Trouble> {
        self.written.reserve(1)?;
        self.removed.reserve(self.known.len().saturating_add(1))?;
        let place = match self.place_of(name.as_str()) {
            Some(place) => place,
            None => self.add(alloc, name.as_str())?,
        };
        self.end_gap();
        let is_new = self.is_whole && !is_held(self.known.as_slice(), place);
        self.write_at(place)?;
        Ok(Written { place, is_new })
    }

    /// Takes down that the file of the name at a place is synced, as it was written last.
    pub fn note_synced(&mut self, place: usize) {
        if let Some(known) = self.known.get_mut(place) {
            known.is_synced = true;
        }
    }

    /// Whether the file of the name at a place was synced after it was written last.
    pub fn is_synced(&self, place: usize) -> bool {
        match self.known.get(place) {
            Some(known) => known.is_synced,
            None => false,
        }
    }

    /// Whether the list of what may not be synced has a name.
    pub fn is_noted(&mut self, name: &Name) -> bool {
        let list = self.list;
        match self.known(name) {
            Some(known) => known.noted == list,
            None => false,
        }
    }

    /// Takes down that the list of what may not be synced has a name.
    pub fn set_noted(&mut self, name: &Name) {
        let list = self.list;
        if let Some(known) = self.known(name) {
            known.noted = list;
        }
    }

    /// Takes down that this list is gone.
    pub fn forget_noted(&mut self) {
        self.list = self.list.saturating_add(1);
    }

    /// Whether a name was written since the last good sync.
    pub fn is_written(&mut self, name: &Name) -> bool {
        let round = self.round;
        match self.known(name) {
            Some(known) => known.written == round,
            None => false,
        }
    }

    /// Takes a name off. One that came out of order loses its place, so that no search passes over it.
    pub fn take_off(&mut self, name: &Name) {
        if let Some(known) = self.known(name) {
            known.is_held = false;
        }
        if !self.others.is_empty() {
            let _ = self.others.remove(name.as_str());
        }
    }

    /// Takes a name off, and keeps it among those that were taken away where there is room; false where it isn't kept.
    pub fn remove(&mut self, name: &Name) -> bool {
        let Some(place) = self.place_of(name.as_str()) else {
            return false;
        };
        self.take_off(name);
        self.removed.len() < self.removed.capacity() && self.removed.push(place).is_ok()
    }

    /// Takes down that something may stand at the path of another name.
    pub fn set_not_whole(&mut self) {
        self.is_whole = false;
    }

    /// Puts the names that were written and those that were taken away into byte order. Where no name came out of order,
    /// their places have that order.
    pub fn sort_changes(&mut self) {
        if self.others.is_empty() {
            self.written.sort_unstable();
            self.removed.sort_unstable();
            return;
        }
        sort_places(self.known.as_slice(), &mut self.written);
        sort_places(self.known.as_slice(), &mut self.removed);
    }

    /// The places of the names that were written since the last good sync.
    pub fn written(&self) -> &[usize] {
        self.written.as_slice()
    }

    /// The places of the names that were taken away since the last good sync.
    pub fn removed(&self) -> &[usize] {
        self.removed.as_slice()
    }

    /// Takes down that all is synced.
    pub fn set_synced(&mut self) {
        self.written.clear();
        self.removed.clear();
        self.round = self.round.saturating_add(1);
    }
}
