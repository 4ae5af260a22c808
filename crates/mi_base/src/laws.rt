//! Laws of names, records and machines, which the crates above may use.

ghost use Rattle.std.specs.Prelude.{◌≡◌, ◌++◌, ℕ, List, Ok, IsTrue, false, codes};
ghost use Rattle.std.specs.FinMap.{get};
ghost use Rattle.mi_text.specs.Maps.{Name, Map};
ghost use Rattle.mi_base.specs.declared.entry.Entry.{Entry};
ghost use Rattle.mi_base.specs.Limits.{are_bytes};
ghost use Rattle.mi_base.specs.Spelling.{name_of, record_of};
ghost use Rattle.mi_base.specs.SpelledMaps.{is_area, spelled_at};
ghost use Rattle.mi_base.specs.Records.{entry_of, file_head_of};
ghost use Rattle.mi_base.specs.Machine.{Machine, Fits, IsMachine, volume_of, read_entry, machine_of, AgreeEverywhere, head_of_read};

/// An entry that has a record is read from its name and its record.
pub fn a_record_is_read_as_its_entry()
    ensures { (e : Entry) → Fits e → entry_of (name_of e) (record_of e) ≡ Ok e }
{}

/// What is read is spelled so: no other name and no other bytes are read as an entry.
pub fn what_is_read_is_spelled_so()
    ensures { (name : Name) (bytes : List ℕ) (e : Entry) → entry_of name bytes ≡ Ok e
        → (name_of e ≡ name) × (record_of e ≡ bytes) × Fits e }
{}

/// The head of a file is that of its entry, and its faults are those of the entry.
pub fn a_head_is_that_of_its_entry()
    ensures { (path bytes : List ℕ) → IsTrue (are_bytes bytes)
        → file_head_of (codes "f/" ++ path) bytes ≡ head_of_read (entry_of (codes "f/" ++ path) bytes) }
{}

/// The volume of a machine spells that machine.
pub fn a_machine_is_spelled_by_its_volume()
    ensures { (m : Machine) → IsMachine m → machine_of (volume_of m) ≡ Ok m }
{}

/// What a volume spells is a machine, whose volume is the former one outside the rollback area.
pub fn a_volume_spells_a_machine()
    ensures machine { (d : Map (List ℕ)) (m : Machine) → machine_of d ≡ Ok m → IsMachine m }
    ensures entries { (d : Map (List ℕ)) (m : Machine) → machine_of d ≡ Ok m → (q : Name) → get m q ≡ spelled_at read_entry d q }
    ensures volume { (d : Map (List ℕ)) (m : Machine) → machine_of d ≡ Ok m
        → (q : Name) → is_area q ≡ false → get (volume_of m) q ≡ get d q }
{}

/// Two machines that answer each typed look-up alike are the same.
pub fn machines_that_agree_are_the_same()
    ensures { (m n : Machine) → IsMachine m → IsMachine n → AgreeEverywhere m n → m ≡ n }
{}
