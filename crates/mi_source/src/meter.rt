//! Which calls fail, and how many have failed.

ghost use Rattle.std.specs.Prelude.{◌≡◌, ◌≤◌, ◌||◌};
ghost use Rattle.std.specs.Bool.{OnTrue};
ghost use Rattle.mi_source.specs.Counts.{Rose};
ghost use Rattle.mi_source.specs.Memory.{fails_now, called};

/// Calls are numbered from 0.
#[derive(Drop)]
pub struct Meter {
    /// The numbers of the calls that fail.
    pub fails: Vec<u64>,
    /// The number of the next call.
    pub number: u64,
    /// How many calls have failed.
    pub faults: u64,
}

impl Meter {
    pub fn new(fails: Vec<u64>) -> Meter
        ensures { result ≡ record { fails = fails; number = 0; faults = 0 } }
    {
        Meter {
            fails,
            number: 0,
            faults: 0,
        }
    }

    /// Numbers a call, and tells whether it fails: where its number is listed, or for a cause of its own.
    pub fn fails_now(&mut self, cause: bool) -> bool
        ensures value { result ≡ (fails_now self.old || cause) }
        ensures next { self.new ≡ called result self.old }
        ensures counts { self.old.faults ≤ self.new.faults }
        ensures failed { OnTrue result (Rose self.old.faults self.new.faults) }
    {
        let listed = self.fails.contains(&self.number);
        self.number = self.number.saturating_add(1);
        let fails = listed || cause;
        if fails {
            self.faults = self.faults.saturating_add(1);
        }
        fails
    }
}
