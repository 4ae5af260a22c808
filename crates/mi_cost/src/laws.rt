//! The law of the cost.

ghost use Rattle.mi_cost.specs.CostLaw.{CostsTheSame, NothingIsWritten};

/// Where no row changes a name twice and the source has what the plans copy, what the planned scripts cost by what they state is what
/// the walk needs.
pub fn scripts_cost_what_the_walk_needs()
    ensures { CostsTheSame }
{}

/// Where no row of a walk touches a name, its planned scripts have no record, so that nothing is written.
pub fn a_walk_that_touches_nothing_has_no_records()
    ensures { NothingIsWritten }
{}
