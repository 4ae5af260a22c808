//! The failing calls of a volume in memory, in an order in which a number is found without going through all.

ghost use Rattle.std.specs.Prelude.{◌≡◌, ◌==◌, ℕ};
ghost use Rattle.std.specs.BTreeSet.{contains};
ghost use Rattle.std.specs.List.{list_any};
ghost use Rattle.std.specs.Ordering.{nat_cmp};

use crate::fails::Fails;
use mi_text::NoMemory;
use std::alloc::Global;
use std::collections::BTreeSet;

/// The calls that fail, with their listed numbers in order.
#[derive(Drop)]
pub struct Failing {
    pub fails: Fails,
    pub numbers: BTreeSet<u64>,
    ghost listed: { (q : ℕ) → contains nat_cmp numbers q ≡ list_any (λ n. n == q) fails.list.items },
}

impl Failing {
    ghost use Rattle.std.specs.Prelude.{◌||◌, nat_le, false, IfOk};
    ghost use Rattle.std.specs.Option.{option_map_or};

    /// The calls that fail, indexed.
    pub fn new(alloc: Global, fails: Fails) -> Result<Failing, NoMemory>
        ensures { IfOk result (λ f. f.fails ≡ fails) }
    {
        let mut numbers = BTreeSet::new(alloc);
        for number in &fails.list {
            numbers.insert(*number)?;
        }
        Ok(Failing { fails, numbers })
    }

    /// Whether the call of this number fails.
    pub fn has(&self, number: u64) -> bool
        ensures { result ≡ (list_any (λ n. n == number) self.now.fails.list.items || option_map_or (λ n. nat_le n number) self.now.fails.from false) }
    {
        self.numbers.contains(&number) || self.fails.is_from(number)
    }
}
