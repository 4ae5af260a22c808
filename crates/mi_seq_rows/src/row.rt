//! What a row of InstallExecuteSequence says (InstallExecuteSequence table).

ghost use Rattle.std.specs.Prelude.{◌≡◌, Some, MatchOption, true, false, option_copied};
ghost use Rattle.mi_model.specs.Conditions.{holds};
ghost use Rattle.mi_model.specs.Sequence.{has_seat, seat_of};
ghost use Rattle.mi_seq_rows.specs.Conditions.{holding};

use mi_base::Env;
use mi_schema::InstallExecuteSequenceRow;

/// Whether the condition of a row is null or true. Takes no memory.
fn holds<E: Env>(row: &InstallExecuteSequenceRow, env: &E) -> bool
    ensures { result ≡ holds (E.lookups env.now) row.now.condition }
{
    match &row.condition {
        Some(condition) => condition.value(env),
        None => true,
    }
}

/// The row, if it holds: its Condition is null or true over this environment. Takes no memory (InstallExecuteSequence table,
/// Condition; Conditional Statement Syntax).
pub fn if_holds<'p, E: Env>(
    row: &'p InstallExecuteSequenceRow,
    env: &E,
) -> Option<&'p InstallExecuteSequenceRow>
    ensures { option_copied result ≡ holding (E.lookups env.now) (Some row.now) }
{
    if holds(row, env) { Some(row) } else { None }
}

/// The Sequence and the Action of a row, if it is walked: its Sequence is no null and above 0. Takes no memory
/// (InstallExecuteSequence table, Sequence).
pub fn seat_of(row: &InstallExecuteSequenceRow) -> Option<(i32, &str)>
    ensures { MatchOption result (has_seat row.now ≡ false) (λ s. (has_seat row.now ≡ true) × ((s.0, s.1.now) ≡ seat_of row.now)) }
{
    match row.sequence {
        Some(sequence) if sequence > 0 => Some((sequence, row.action.as_str())),
        Some(_) | None => None,
    }
}
