//! How often a device has failed.

ghost use Rattle.std.specs.Prelude.{◌≡◌};
ghost use Rattle.mi_feeds.specs.Count.{Counts};

use std::marker::Model;

/// How often a device has failed (this project's own). It rises up to the greatest u64, and stays there.
#[derive(Drop)]
pub struct FaultCount {
    count: u64,
}

impl Model for FaultCount {
    ghost use Rattle.std.specs.Prelude.{ℕ};

    ghost Value = { ℕ };

    ghost view = { λ faults. faults.count };
}

impl FaultCount {
    /// No failure yet. Takes no memory.
    pub fn new() -> FaultCount
        ensures { result ≡ 0 }
    {
        FaultCount { count: 0 }
    }

    /// How often the device has failed.
    pub fn told(&self) -> u64
        ensures { result ≡ self.now }
    {
        self.count
    }

    /// Counts a failure.
    pub fn rise(&mut self)
        ensures { Counts self.old self.new }
    {
        let count = &mut self.count;
        *count = count.saturating_add(1);
    }
}
