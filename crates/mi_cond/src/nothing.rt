//! Surroundings in which nothing is known, in which a text is read to see whether it is a condition.

ghost use Rattle.std.specs.Prelude.{◌≡◌};
ghost use Rattle.mi_cond.specs.Truths.{nothing};

use mi_text::{Env, Sign};

/// Surroundings without a property, a variable, a file, a folder and a state.
pub struct Nothing;

impl Env for Nothing {
    ghost lookups = { λ _. nothing };

    fn property(&self, _name: &str) -> &str {
        ""
    }

    fn variable(&self, _name: &str) -> &str {
        ""
    }

    fn file(&self, _key: &str) -> &str {
        ""
    }

    fn folder(&self, _key: &str) -> &str {
        ""
    }

    fn state(&self, _sign: Sign, _key: &str) -> i32 {
        -1
    }
}
