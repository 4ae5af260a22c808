//! Companions: rows of File whose files are written wherever those are that they follow (Companion Files; File table, Version).

ghost use Rattle.std.specs.Prelude.{◌≡◌, ◌<◌, ℕ, true, false, suc, IfOk, OnOk, IfSome, map, length, option_map, slice_index_or, slice_get, Some};
ghost use Rattle.mi_dirs.specs.Chains.{ends_in};
ghost use Rattle.mi_dirs.specs.Order.{parent_in, IsOrder};
ghost use Rattle.mi_schema.specs.Checks.{companion_of};
ghost use Rattle.mi_schema.specs.Lawful.{IsLawful};
ghost use Rattle.mi_schema.specs.RowsOf.{rows_in};
ghost use Rattle.mi_installs.specs.Leads.{place_of, leader_place, leaders_of, noted, asked_of, led_step, written_at, written_in, is_followed};

use crate::placed::Placed;
use mi_base::{NoMemory, Text, Version};
use mi_dirs::{DirError, order_of};
use mi_schema::{FileRow, Package, keys_stand};
use std::alloc::Global;

/// The key of the row that a row follows, where it is a companion (File table, Version).
pub(crate) fn companion_of(row: &FileRow) -> Option<&Text>
    ensures { option_map (λ key. key.now) result ≡ companion_of row.now.version }
{
    let version = row.version.as_ref()?;
    match Version::read(version.as_str()) {
        Ok(_) => None,
        Err(_) => Some(version),
    }
}

// The place in File of the row of a key, from 0.
fn place_of(loaded: &Package, key: &Text) -> Option<usize>
    requires { IsLawful loaded.now }
    ensures place { result ≡ place_of (rows_in loaded.now).file key.now }
    ensures within { IfSome result (λ place. place < length (rows_in loaded.now).file) }
{
    keys_stand(loaded);
    loaded.file.get_index_of(key)
}

// The place of the row that a row follows.
fn leader_of(loaded: &Package, row: &FileRow) -> Option<usize>
    requires { IsLawful loaded.now }
    ensures { result ≡ leader_place (rows_in loaded.now).file row.now }
{
    match companion_of(row) {
        Some(key) => place_of(loaded, key),
        None => None,
    }
}

// The places of the rows that the rows of File follow.
fn leaders(alloc: Global, loaded: &Package) -> Result<Vec<Option<usize>>, NoMemory>
    requires { IsLawful loaded.now }
    ensures { IfOk result (λ leaders. leaders.items ≡ leaders_of (rows_in loaded.now).file) }
{
    let mut leaders = Vec::with_capacity(alloc, loaded.file.len())?;
    for row in loaded.file.values() {
        leaders.push(leader_of(loaded, row))?;
    }
    Ok(leaders)
}

// The rows of File in an order in which each stands behind the one that it follows. In a lawful package each chain ends.
fn led_order(
    alloc: Global,
    loaded: &Package,
    leaders: &[Option<usize>],
) -> Result<Vec<usize>, NoMemory>
    requires lawful { IsLawful loaded.now }
    requires leaders { leaders.now ≡ leaders_of (rows_in loaded.now).file }
    ensures order { IfOk result (λ order. IsOrder (parent_in leaders.now) (length leaders.now) order.items) }
    ensures ends { OnOk result ((row : ℕ) → row < length leaders.now → ends_in (parent_in leaders.now) (suc (length leaders.now)) row ≡ true) }
{
    match order_of(alloc, leaders) {
        Ok(order) => Ok(order),
        Err(DirError::NoMemory) => Err(NoMemory),
        Err(DirError::Fault(_)) => unreachable!(),
    }
}

// Notes at its place in File what a coming row by itself asks for.
fn note(asked: &mut [Option<bool>], place: Option<usize>, called: bool)
    requires { IfSome place (λ place. place < length asked.old) }
    ensures { asked.new ≡ noted asked.old place called }
{
    if let Some(place) = place {
        asked[place] = Some(called);
    }
}

// What each row of File by itself asks for, and None where it doesn't come.
fn asked_by_place(
    alloc: Global,
    loaded: &Package,
    rows: &[Placed<'_>],
    called: &[bool],
) -> Result<Vec<Option<bool>>, NoMemory>
    requires lawful { IsLawful loaded.now }
    requires size { length called.now ≡ length rows.now }
    ensures asked { IfOk result (λ asked. asked.items ≡ asked_of (rows_in loaded.now).file rows.now called.now) }
    ensures size { IfOk result (λ asked. length asked.items ≡ length (rows_in loaded.now).file) }
{
    let mut asked = vec![in alloc; None; loaded.file.len()]?;
    for (i, placed) in rows.iter().enumerate() {
        note(&mut asked, place_of(loaded, &placed.row.file), called[i]);
    }
    Ok(asked)
}

// Whether the row at a place is written, by what the row asks for and whether the one that it follows is.
fn is_written(asked: Option<bool>, written: &[bool], leader: Option<usize>) -> bool
    requires { IfSome leader (λ place. place < length written.now) }
    ensures { result ≡ led_step asked (option_map (λ place. slice_index_or written.now place false) leader) }
{
    match (asked, leader) {
        (None, _) => false,
        (Some(called), None) => called,
        (Some(called), Some(place)) => called || written[place],
    }
}

// Which rows of File come and are written.
fn written_by_place(
    alloc: Global,
    leaders: &[Option<usize>],
    order: &[usize],
    asked: &[Option<bool>],
) -> Result<Vec<bool>, NoMemory>
    requires order { IsOrder (parent_in leaders.now) (length leaders.now) order.now }
    requires ends { (row : ℕ) → row < length leaders.now → ends_in (parent_in leaders.now) (suc (length leaders.now)) row ≡ true }
    requires size { length asked.now ≡ length leaders.now }
    ensures written { IfOk result (λ written. (row : ℕ) → row < length leaders.now → slice_get written.items row ≡ Some (written_at leaders.now asked.now row)) }
    ensures size { IfOk result (λ written. length written.items ≡ length leaders.now) }
{
    let mut written = vec![in alloc; false; leaders.len()]?;
    for row in order {
        let one = is_written(asked[*row], &written, leaders[*row]);
        written[*row] = one;
    }
    Ok(written)
}

// Whether the row of a key is written.
fn is_among(loaded: &Package, key: &Text, written: &[bool]) -> bool
    requires lawful { IsLawful loaded.now }
    requires size { length written.now ≡ length (rows_in loaded.now).file }
    ensures { result ≡ written_in (rows_in loaded.now).file written.now key.now }
{
    match place_of(loaded, key) {
        Some(place) => written[place],
        None => false,
    }
}

// Which of some rows are written.
fn of_rows(
    alloc: Global,
    loaded: &Package,
    rows: &[Placed<'_>],
    written: &[bool],
) -> Result<Vec<bool>, NoMemory>
    requires lawful { IsLawful loaded.now }
    requires size { length written.now ≡ length (rows_in loaded.now).file }
    ensures { IfOk result (λ all. all.items ≡ map (λ p. written_in (rows_in loaded.now).file written.now p.row.now.file) rows.now) }
{
    let mut all = Vec::with_capacity(alloc, rows.len())?;
    for placed in rows {
        all.push(is_among(loaded, &placed.row.file, written))?;
    }
    Ok(all)
}

/// Which of the coming rows are written, by what each asks for by itself: also those that follow, over rows that come, one that
/// asks for it (Companion Files). It costs a search for each row of File.
pub(crate) fn followed(
    alloc: Global,
    loaded: &Package,
    rows: &[Placed<'_>],
    called: &[bool],
) -> Result<Vec<bool>, NoMemory>
    requires lawful { IsLawful loaded.now }
    requires size { length called.now ≡ length rows.now }
    ensures { IfOk result (λ all. all.items ≡ map (λ p. is_followed (rows_in loaded.now).file rows.now called.now p.row.now.file) rows.now) }
{
    let leaders = leaders(alloc, loaded)?;
    let order = led_order(alloc, loaded, &leaders)?;
    let asked = asked_by_place(alloc, loaded, rows, called)?;
    let written = written_by_place(alloc, &leaders, &order, &asked)?;
    of_rows(alloc, loaded, rows, &written)
}
