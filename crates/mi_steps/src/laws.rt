//! Laws by which steps join to rows, rows to a phase, and scripts to what they make.

ghost use Rattle.std.specs.Prelude.{◌≡◌, ◌∷◌, ◌++◌, [], List, Ok, Err};
ghost use Rattle.mi_base.specs.declared.entry.Entry.{Entry};
ghost use Rattle.mi_base.specs.declared.answers.Fault.{Fault};
ghost use Rattle.mi_base.specs.Machine.{Machine, volume_of};
ghost use Rattle.mi_source.specs.Paths.{Files};
ghost use Rattle.mi_changes.specs.Touches.{Touch};
ghost use Rattle.mi_script.specs.declared.rec.Rec.{Rec};
ghost use Rattle.mi_script.specs.Scripts.{after_script};
ghost use Rattle.mi_model.specs.World.{World, RowEffect, Effect};
ghost use Rattle.mi_model.specs.PhaseRows.{by_rows, phase_rows};
ghost use Rattle.mi_model.specs.Plans.{Plans};
ghost use Rattle.mi_steps.specs.Follows.{Follows};
ghost use Rattle.mi_steps.specs.Rows.{FollowsRows};

/// Steps one behind the other are steps of their touches one behind the other.
pub fn steps_join()
    ensures { (files : Files) (a b c : Machine) (h i j : List Rec) (ts us : List (Touch Entry)) → Follows files a b h i ts → Follows files b c i j us → Follows files a c h j (ts ++ us) }
{}

/// The records that steps add take the map of the machine before them to that of the machine after them.
pub fn steps_make_the_machine()
    ensures { (files : Files) (m n : Machine) (h i : List Rec) (ts : List (Touch Entry)) → (f : Follows files m n h i ts) → after_script files (volume_of m) f.records ≡ volume_of n }
{}

/// The steps of a row, behind those of the rows before it, are the steps of all these rows.
pub fn a_row_joins()
    ensures { (files : Files) (a b c : Machine) (h i j : List Rec) (effects : List RowEffect) (effect : RowEffect) (ts : List (Touch Entry)) → FollowsRows files a b h i effects → effect b ≡ Ok ts → Follows files b c i j ts → FollowsRows files a c h j (effects ++ effect ∷ []) }
{}

/// A row that is refused refuses its phase, whatever rows come behind it.
pub fn a_refused_row_refuses()
    ensures { (files : Files) (w : World) (effect : Effect) (b : Machine) (h i : List Rec) (effects more : List RowEffect) (row : RowEffect) (f : Fault) → effect w ≡ Ok (effects ++ row ∷ more) → FollowsRows files w.machine b h i effects → row b ≡ Err f → phase_rows effect w ≡ Err f }
{}

/// The steps of all rows of a phase are what its plan call has to make.
pub fn rows_are_planned()
    ensures { (files : Files) (w : World) (effect : Effect) (now : Machine) (had has : List Rec) (effects : List RowEffect) → effect w ≡ Ok effects → FollowsRows files w.machine now had has effects → Plans files effect w now had has }
{}
