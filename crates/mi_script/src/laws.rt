//! Laws of scripts and their written form.

ghost use Rattle.std.specs.Prelude.{◌≡◌, ◌<◌, ◌^◌, ◌∷◌, [], ℕ, List, Ok, length, true};
ghost use Rattle.std.specs.List.{AllByRecursion};
ghost use Rattle.mi_text.specs.Maps.{Map};
ghost use Rattle.mi_base.specs.declared.entry.Entry.{Entry};
ghost use Rattle.mi_base.specs.Machine.{Machine, volume_of};
ghost use Rattle.mi_changes.specs.Changes.{Change, written};
ghost use Rattle.mi_script.specs.Spelled.{writes_file, recorded, spelled, spelled_changes};
ghost use Rattle.mi_script.specs.declared.rec.Rec.{Rec as Record};
ghost use Rattle.mi_script.specs.Kept.{IsRec};
ghost use Rattle.mi_script.specs.Written.{written_script};
ghost use Rattle.mi_script.specs.Reading.{script_of};

/// A script is read from its written form. Each record is what the types of its fields say.
pub fn a_written_script_is_read_again()
    ensures { (recs : List Record) → length recs < 2 ^ 64 → AllByRecursion IsRec recs → script_of (written_script recs) ≡ Ok recs }
{}

/// What changes of a machine spell makes the map of the machine after them, whatever is left out.
pub fn spelled_changes_make_the_machine()
    ensures { (m : Machine) (changes : List (Change Entry)) → written (volume_of m) (spelled_changes (volume_of m) changes) ≡ volume_of (written m changes) }
{}

/// A file that is written is never left out.
pub fn a_written_file_is_spelled()
    ensures { (d : Map (List ℕ)) (c : Change Entry) → writes_file c.at c.after ≡ true → spelled d c ≡ recorded c ∷ [] }
{}
