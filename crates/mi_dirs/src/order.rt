//! Rows in an order in which each stands behind its parent.

ghost use Rattle.std.specs.Prelude.{◌≡◌, ◌<◌, ℕ, suc, true, false, Option, Some, length, IfOk, OnOk, MatchOption, List};
ghost use Rattle.mi_dirs.specs.Chains.{ends_in};
ghost use Rattle.mi_dirs.specs.Order.{parent_in, AreRows, IsOrder, IsFirstEndless};
ghost use Rattle.mi_dirs.specs.Paths.{IsWayUp, ArePlaced, Places};
ghost use Rattle.mi_dirs.specs.Faults.{row_number};
ghost use Rattle.mi_dirs.specs.Answers.{IfFault};

use crate::fault::{DirError, DirFault};
use crate::placing::Placing;
use mi_text::NoMemory;
use std::alloc::Global;

/// The number of a row in a refusal, from 1; the greatest u32 stands for every later row.
pub(crate) fn row_number(row: usize) -> u32
    ensures { result ≡ row_number row }
{
    if row < u32::MAX as usize {
        row as u32 + 1
    } else {
        u32::MAX
    }
}

// The rows from this one up to the first that is placed, or to a root row; None where there are more than there are
// rows, since the chain doesn't end then.
fn path_up(
    alloc: Global,
    parents: &[Option<usize>],
    placed: &[bool],
    row: usize,
) -> Result<Option<Vec<usize>>, NoMemory>
    requires rows { AreRows (parent_in parents.now) (length parents.now) }
    requires size { length placed.now ≡ length parents.now }
    requires is_row { row < length parents.now }
    ensures { IfOk result (λ o. MatchOption o (ends_in (parent_in parents.now) (suc (length parents.now)) row ≡ false) (λ path. IsWayUp (parent_in parents.now) (length parents.now) placed.now (Some row) path.items)) }
{
    let mut path = Vec::new(alloc);
    let mut at = Some(row);
    while let Some(next) = at {
        if placed[next] {
            break;
        }
        if path.len() > parents.len() {
            return Ok(None);
        }
        path.push(next)?;
        at = parents[next];
    }
    Ok(Some(path))
}

impl Placing {
    // Places the rows of a path, the last first.
    fn place(self, parents: &[Option<usize>], path: Vec<usize>) -> Result<Placing, NoMemory>
        requires rows { AreRows (parent_in parents.now) (length parents.now) }
        requires placed { ArePlaced (parent_in parents.now) (length parents.now) self }
        requires way { (first : Option ℕ) × IsWayUp (parent_in parents.now) (length parents.now) self.placed.items first path.items }
        ensures placed { IfOk result (λ p. ArePlaced (parent_in parents.now) (length parents.now) p) }
        ensures more { IfOk result (λ p. Places self p path.items) }
    {
        let Placing {
            mut order,
            mut placed,
        } = self;
        let mut path = path;
        let _count = parents.len();
        while let Some(row) = path.pop() {
            order.push(row)?;
            placed[row] = true;
        }
        Ok(Placing { order, placed })
    }
}

/// The rows in an order in which each stands exactly once and behind its parent; a row's parent is the number of a row
/// from 0, and None for a root row (Directory Table, Directory_Parent). Refused with `Cycle` of the first row whose chain
/// of parents doesn't end, and with nothing else.
pub fn order_of(alloc: Global, parents: &[Option<usize>]) -> Result<Vec<usize>, DirError>
    requires { AreRows (parent_in parents.now) (length parents.now) }
    ensures order { IfOk result (λ v. IsOrder (parent_in parents.now) (length parents.now) v.items) }
    ensures ends { OnOk result ((row : ℕ) → row < length parents.now → ends_in (parent_in parents.now) (suc (length parents.now)) row ≡ true) }
    ensures cycle { IfFault result (λ fault. (row : ℕ) × (fault ≡ DirFault.Cycle (row_number row)) × IsFirstEndless (parent_in parents.now) (length parents.now) row) }
{
    let mut placing = Placing {
        order: Vec::new(alloc),
        placed: vec![in alloc; false; parents.len()]?,
    };
    for row in 0..parents.len() {
        let Some(path) = path_up(alloc, parents, &placing.placed, row)? else {
            return Err(DirError::Fault(DirFault::Cycle(row_number(row))));
        };
        placing = placing.place(parents, path)?;
    }
    Ok(placing.order)
}
