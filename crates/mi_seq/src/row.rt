//! The next row of a walk.

ghost use Rattle.std.specs.Prelude.{◌≡◌, None, MatchOption, option_copied, slice_get};
ghost use Rattle.mi_schema.specs.RowsOf.{rows_in};
ghost use Rattle.mi_model.specs.Sequence.{next_row};
ghost use Rattle.mi_seq_rows.specs.Conditions.{holding};
ghost use Rattle.mi_seq.specs.Orders.{rows_at};
ghost use Rattle.mi_seq.specs.Turns.{IsNext};

use mi_base::Env;
use mi_schema::{InstallExecuteSequenceRow, Package};
use mi_seq_rows::if_holds;

/// A row that holds, its place in file order, from 0, and the places behind it in the sequence.
#[derive(Clone, Copy)]
pub struct Next<'p, 'a> {
    pub row: &'p InstallExecuteSequenceRow,
    pub place: usize,
    pub behind: &'a [usize],
}

/// The row at this place in file order.
pub fn row_at(loaded: &Package, place: usize) -> Option<&InstallExecuteSequenceRow>
    ensures { option_copied result ≡ slice_get (rows_in loaded.now).install_execute_sequence place }
{
    match loaded.install_execute_sequence.get_index(place) {
        Some((_, row)) => Some(row),
        None => None,
    }
}

/// The row at this place, if it holds. Takes no memory.
fn row_that_holds<'p, E: Env>(
    loaded: &'p Package,
    env: &E,
    place: usize,
) -> Option<&'p InstallExecuteSequenceRow>
    ensures { option_copied result ≡ holding (E.lookups env.now) (slice_get (rows_in loaded.now).install_execute_sequence place) }
{
    match row_at(loaded, place) {
        Some(row) => if_holds(row, env),
        None => None,
    }
}

/// The first row that holds among those at these places. Takes no memory.
pub fn next_row<'p, 'a, E: Env>(
    loaded: &'p Package,
    env: &E,
    places: &'a [usize],
) -> Option<Next<'p, 'a>>
    ensures { MatchOption result (next_row (E.lookups env.now) (rows_at (rows_in loaded.now).install_execute_sequence places.now) ≡ None) (IsNext loaded.now (E.lookups env.now) places.now) }
{
    let mut rest = places;
    while let Some((place, behind)) = rest.split_first() {
        let place = *place;
        if let Some(row) = row_that_holds(loaded, env, place) {
            return Some(Next { row, place, behind });
        }
        rest = behind;
    }
    None
}
