//! Marks that rise from rows to their parents.

ghost use Rattle.std.specs.Prelude.{◌≡◌, ◌<◌, ℕ, length};
ghost use Rattle.mi_dirs.specs.Order.{parent_in, AreRows, IsOrder};
ghost use Rattle.mi_wishes.specs.Marks.{IsMarkedUp, with_parent};

/// Marks the parent of a marked row.
fn mark_parent(parents: &[Option<usize>], marks: &mut [bool], row: usize)
    requires rows { AreRows (parent_in parents.now) (length parents.now) }
    requires size { length marks.old ≡ length parents.now }
    requires is_row { row < length parents.now }
    ensures { marks.new ≡ with_parent (parent_in parents.now) marks.old row }
{
    if !marks[row] {
        return;
    }
    match parents[row] {
        Some(parent) => marks[parent] = true,
        None => {}
    }
}

/// Marks the rows above marked ones. The order has each row behind its parent.
pub fn mark_up(parents: &[Option<usize>], order: &[usize], marks: &mut [bool])
    requires rows { AreRows (parent_in parents.now) (length parents.now) }
    requires order { IsOrder (parent_in parents.now) (length parents.now) order.now }
    requires size { length marks.old ≡ length parents.now }
    ensures size { length marks.new ≡ length marks.old }
    ensures up { IsMarkedUp (parent_in parents.now) (length parents.now) marks.old marks.new }
{
    let mut left = order.len();
    while left > 0 {
        left -= 1;
        mark_parent(parents, marks, order[left]);
    }
}
