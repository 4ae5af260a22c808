//! Words that set properties.

ghost use Rattle.std.specs.Prelude.{◌≡◌, ◌≤◌, length, Ok, Err, MatchResult};
ghost use Rattle.mi_model.specs.Assignments.{texts_of, assignments};
ghost use Rattle.mi_words.specs.Places.{kept_behind, given};

use crate::places::first_other;

/// Words that each set a public property, as NAME=VALUE, or are dropped (Public Properties). They lend the words.
#[derive(Clone, Copy)]
pub struct Assignments<'a> {
    words: &'a [String],
}

impl<'a> Assignments<'a> {
    /// The words, dropped ones among them. No memory.
    pub fn words(&self) -> &'a [String]
        ensures { result.now ≡ self.now.words.now }
    {
        self.words
    }
}

/// The words from a place on, where all of them that aren't dropped set properties, or the place of the first that
/// doesn't.
pub fn assignments_in(words: &[String], from: usize) -> Result<Assignments<'_>, u64>
    requires { from ≤ length words.now }
    ensures { MatchResult result (λ lent. assignments (kept_behind from (texts_of words.now)) ≡ Ok (given (texts_of lent.words.now))) (λ place. assignments (kept_behind from (texts_of words.now)) ≡ Err place) }
{
    match first_other(words, from) {
        Some(place) => Err(place as u64),
        None => Ok(Assignments {
            words: &words[from..],
        }),
    }
}
