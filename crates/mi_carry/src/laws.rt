//! Laws of planned walks that are carried out.

ghost use Rattle.std.specs.Prelude.{◌≡◌, List, Option, None, length};
ghost use Rattle.mi_text.specs.Maps.{Name};
ghost use Rattle.mi_volume.specs.Maps.{Map};
ghost use Rattle.mi_source.specs.Paths.{Files};
ghost use Rattle.mi_base.specs.Machine.{volume_of};
ghost use Rattle.mi_base.specs.declared.answers.Cause.{Cause as Why};
ghost use Rattle.mi_model.specs.World.{Given};
ghost use Rattle.mi_model.specs.Walk.{walk, last_machine};
ghost use Rattle.mi_model.specs.PackageOutcome.{kind_of, of_walk};
ghost use Rattle.mi_model.specs.Plans.{Planned};
ghost use Rattle.mi_model.specs.Planning.{IsPlan, kind_by};
ghost use Rattle.mi_carry.specs.Segments.{after_segments};

/// The map after the planned segments of a walk is that of the machine at the end of its last segment.
pub fn a_carried_walk_makes_its_last_machine()
    ensures { (files : Files) (g : Given) (names : List Name) (plans : List Planned) (refusal : Option Why) (F : Map)
        → IsPlan files (walk g) names plans refusal → F ≡ volume_of g.former
        → after_segments files F plans ≡ volume_of (last_machine (walk g)) }
{}

/// Where no capacity is told, the walk's own answer with its begun actions is the outcome of the walk.
pub fn a_carried_walk_is_answered_as_its_outcome()
    ensures kind { (files : Files) (g : Given) (names : List Name) (plans : List Planned) (refusal : Option Why)
        → IsPlan files (walk g) names plans refusal → kind_of (of_walk None (walk g)).end ≡ kind_by refusal }
    ensures reached { (files : Files) (g : Given) (names : List Name) (plans : List Planned) (refusal : Option Why)
        → IsPlan files (walk g) names plans refusal → (of_walk None (walk g)).reached ≡ length names }
{}
