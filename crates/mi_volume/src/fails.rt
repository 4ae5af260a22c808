//! Which calls of a volume in memory fail.

ghost use Rattle.std.specs.Prelude.{◌≡◌, nat_le, false};
ghost use Rattle.std.specs.Option.{option_map_or};

/// The calls that fail, numbered from 0 (this project's own).
#[derive(Drop)]
pub struct Fails {
    /// The numbers of calls that fail.
    pub list: Vec<u64>,
    /// From this number on all calls fail.
    pub from: Option<u64>,
}

impl Fails {
    /// Whether all calls from a number up to this one fail.
    pub(crate) fn is_from(&self, number: u64) -> bool
        ensures { result ≡ option_map_or (λ n. nat_le n number) self.now.from false }
    {
        match self.from {
            None => false,
            Some(from) => from <= number,
        }
    }
}
