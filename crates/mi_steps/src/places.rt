//! Places of a tree in byte order.

ghost use Rattle.std.specs.Prelude.{◌≡◌, List, ℕ, take};
ghost use Rattle.std.specs.Ordering.{nat_cmp};
ghost use Rattle.std.specs.Cmp.Lexicographic.{slice_cmp};
ghost use Rattle.mi_model.specs.Prune.{is_on_way};

use mi_base::Bytes;
use std::marker::Model;

/// Places of a tree, in byte order (this project's own).
#[derive(Drop)]
pub struct Places {
    sorted: Vec<Bytes>,
}

impl Model for Places {
    ghost use Rattle.std.specs.Prelude.{List, ℕ};
    ghost use Rattle.std.specs.List.Sorted.{IsSorted};
    ghost use Rattle.std.specs.Ordering.{nat_cmp};
    ghost use Rattle.std.specs.Cmp.Lexicographic.{slice_cmp};

    ghost Value = { List (List ℕ) };

    ghost view = { λ p. p.sorted.items };

    ghost invariant = { λ p. IsSorted (slice_cmp nat_cmp) p.sorted.items };
}

/// The first bytes, as many as these or all.
pub fn front(bytes: &[u8], size: usize) -> &[u8]
    ensures { result.now ≡ take size bytes.now }
{
    if bytes.len() <= size {
        bytes
    } else {
        &bytes[..size]
    }
}

impl Places {
    /// These places. No memory.
    pub fn of(places: Vec<Bytes>) -> Places
        ensures { (holder : List ℕ) → is_on_way result holder ≡ is_on_way places.items holder }
    {
        let mut sorted = places;
        sorted.sort_unstable();
        Places { sorted }
    }

    /// Whether one of the places is a holder, or lies below it. One search, and no memory.
    pub fn are_on_way(&self, holder: &[u8]) -> bool
        ensures { result ≡ is_on_way self.now holder.now }
    {
        let found = self
            .sorted
            .binary_search_by(|place| front(place.as_slice(), holder.len()).cmp(holder));
        match found {
            Ok(_) => true,
            Err(_) => false,
        }
    }
}
