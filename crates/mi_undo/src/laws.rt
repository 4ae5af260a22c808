//! Laws of what a map stands for (this project's own).

ghost use Rattle.std.specs.Prelude.{◌≡◌, ◌≤◌, ◌<◌, ◌++◌, ℕ, true, false, List, [], length, None, Some, Option, Ok};
ghost use Rattle.std.specs.FinMap.{get};
ghost use Rattle.mi_volume.specs.Maps.{Map};
ghost use Rattle.mi_undo.specs.Names.{marker, gate_name, most_entries, is_inside};
ghost use Rattle.mi_undo.specs.Notes.{Note, note_of, all_notes, spelled, notes_of};
ghost use Rattle.mi_undo.specs.Stands.{StandsFor, is_one, noted, outside, put_over, stands};
ghost use Rattle.mi_undo.specs.Keeps.{Opened, AreNew};
ghost use Rattle.mi_undo.specs.Entry.{AllFit};
ghost use Rattle.mi_undo.specs.Reading.{IsUnread, first_shut};
ghost use Rattle.mi_undo.specs.Spelled.{SpellWhatIsRead, OnlyOpenAreRead, AllOpenAreRead, OnlyBadAreRefused, FirstBadIsRefused};

/// Notes whose lengths have room are read as they are spelled.
pub fn spelled_notes_are_read()
    ensures { (ns : List Note) → AllFit ns → notes_of (spelled ns) ≡ Some ns }
{}

/// A torn entry changes nothing, nor does any other that isn't read: whatever stands at the entries
/// from the first shut gate on, a map stands for the same.
pub fn an_unread_entry_changes_nothing()
    ensures { (d e : Map) → ((q : List ℕ) → ¬ IsUnread (first_shut d 0 most_entries) q → get e q ≡ get d q) → stands e ≡ stands d }
{}

/// Where the marker isn't open, a map stands for what is outside the area.
pub fn a_shut_area_changes_nothing()
    ensures { (d : Map) → is_one (get d marker) ≡ false → StandsFor (outside d) d }
{}

/// Open gates behind whole entries, up to a gate that is shut: their notes are read, in order.
pub fn entries_behind_open_gates_are_read()
    ensures { (d : Map) (parts : List (List Note)) → is_one (get d marker) ≡ true → Opened d 0 parts → AreNew [] parts → length parts ≤ most_entries
        → (length parts < most_entries → is_one (get d (gate_name (length parts))) ≡ false) → noted d ≡ Ok (all_notes parts) }
{}

/// Bytes that are read as notes are spelled so.
pub fn what_is_read_is_spelled_so()
    ensures { SpellWhatIsRead }
{}

/// The notes that are read are those of the entries behind open gates, up to the first gate that is
/// shut, and no others.
pub fn exactly_the_open_entries_are_read()
    ensures only { OnlyOpenAreRead }
    ensures all { AllOpenAreRead }
{}

/// A map stands for nothing exactly where behind an open gate, and spelled entries before it, no entry
/// stands that is spelled and new: the first of these is named.
pub fn exactly_the_first_bad_entry_is_refused()
    ensures only { OnlyBadAreRefused }
    ensures first { FirstBadIsRefused }
{}

/// In what a map stands for each noted name has its noted bytes or absence, each other is as in the
/// map, and none is inside the area.
pub fn noted_names_are_restored()
    ensures noted { (d F : Map) (ns : List Note) → noted d ≡ Ok ns → StandsFor F d → (q : List ℕ) (w : Option (List ℕ)) → note_of ns q ≡ Some w → get F q ≡ w }
    ensures others { (d F : Map) (ns : List Note) → noted d ≡ Ok ns → StandsFor F d → (q : List ℕ) → is_inside q ≡ false → note_of ns q ≡ None → get F q ≡ get d q }
    ensures inside { (d F : Map) → StandsFor F d → (q : List ℕ) → is_inside q ≡ true → get F q ≡ None }
{}

/// The first old bytes of a name stay, whatever is noted later.
pub fn the_first_old_bytes_stay()
    ensures { (d : Map) (ns later : List Note) (q : List ℕ) (w : Option (List ℕ)) → note_of ns q ≡ Some w → get (put_over (ns ++ later) d) q ≡ w }
{}
