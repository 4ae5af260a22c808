//! Rows of a sequence by their seats.

ghost use Rattle.std.specs.Prelude.{◌≡◌, List, IfOk, OnOk, Some, ◌+◌, map, slice_get};
ghost use Rattle.std.specs.BTreeMap.{insert_entry};
ghost use Rattle.mi_schema.specs.declared.typed_rows.InstallExecuteSequenceRow.{InstallExecuteSequenceRow as Row};
ghost use Rattle.mi_schema.specs.RowsOf.{rows_in};
ghost use Rattle.mi_model.specs.Sequence.{sequence};
ghost use Rattle.mi_seq.specs.Orders.{ordered};
ghost use Rattle.mi_seq.specs.Seats.{placed_cmp, AreSeated};

use crate::places::Order;
use crate::row::row_at;
use mi_base::NoMemory;
use mi_schema::{InstallExecuteSequenceRow, Package};
use mi_seq_rows::seat_of;
use std::alloc::Global;
use std::collections::BTreeMap;

/// Places of rows by their Sequence and their Action.
type Seats<'a> = BTreeMap<(i32, &'a str), usize>;

fn put<'a>(seats: &mut Seats<'a>, seat: (i32, &'a str), place: usize) -> Result<(), NoMemory>
    ensures { OnOk result (seats.new.entries ≡ insert_entry placed_cmp seats.old.entries seat.entry place) }
{
    seats.insert(seat, place)?;
    Ok(())
}

/// Seats a row by its place, if it is walked; it takes the seat of one that has the same.
fn seat_row<'a>(
    row: &'a InstallExecuteSequenceRow,
    place: usize,
    seats: &mut Seats<'a>,
) -> Result<(), NoMemory>
    ensures { OnOk result ((rows : List Row) → slice_get rows place ≡ Some row.now → AreSeated rows (place + 1) seats.old.entries → AreSeated rows place seats.new.entries) }
{
    match seat_of(row) {
        Some(seat) => put(seats, seat, place),
        None => Ok(()),
    }
}

/// Seats the row at this place.
fn seat<'a>(loaded: &'a Package, place: usize, seats: &mut Seats<'a>) -> Result<(), NoMemory>
    ensures { OnOk result (AreSeated (rows_in loaded.now).install_execute_sequence (place + 1) seats.old.entries → AreSeated (rows_in loaded.now).install_execute_sequence place seats.new.entries) }
{
    match row_at(loaded, place) {
        Some(row) => seat_row(row, place, seats),
        None => Ok(()),
    }
}

/// The seats of all rows. It goes from the last row to the first, so that of two of one seat the first has it.
fn seats_of(alloc: Global, loaded: &Package) -> Result<Seats<'_>, NoMemory>
    ensures { IfOk result (λ seats. AreSeated (rows_in loaded.now).install_execute_sequence 0 seats.entries) }
{
    let mut seats = BTreeMap::new(alloc);
    let mut place = loaded.install_execute_sequence.len();
    while place > 0 {
        place -= 1;
        seat(loaded, place, &mut seats)?;
    }
    Ok(seats)
}

/// The places in the order of the seats.
fn places_in(alloc: Global, seats: &Seats) -> Result<Vec<usize>, NoMemory>
    ensures { IfOk result (λ places. places.items ≡ map (λ e. e.1) seats.now.entries) }
{
    let places = seats.values().copied().collect(alloc)?;
    Ok(places)
}

/// The order of the rows of InstallExecuteSequence whose Sequence is above 0: by it, then by Action (InstallExecuteSequence
/// table; the order of equal numbers is this project's own).
pub fn order(alloc: Global, loaded: &Package) -> Result<Order, NoMemory>
    ensures { IfOk result (λ o. ordered loaded.now o ≡ sequence (rows_in loaded.now)) }
{
    let seats = seats_of(alloc, loaded)?;
    let places = places_in(alloc, &seats)?;
    Ok(Order { places })
}
