//! Words by their places.

ghost use Rattle.std.specs.Prelude.{◌≡◌, ◌<◌, ◌≤◌, ◌+◌, [], ◌∷◌, length, MatchOption};
ghost use Rattle.mi_model.specs.Assignments.{texts_of};
ghost use Rattle.mi_words.specs.Places.{kept_behind, others_behind, word_at};

use crate::word::{is_dropped, is_property};

/// The place of the first word that isn't dropped, from a place on.
pub fn first_kept(words: &[String], from: usize) -> Option<usize>
    requires { from ≤ length words.now }
    ensures { MatchOption result (kept_behind from (texts_of words.now) ≡ []) (λ place. (place < length words.now) × (kept_behind from (texts_of words.now) ≡ word_at place (texts_of words.now) ∷ kept_behind (place + 1) (texts_of words.now))) }
{
    let mut place = from;
    while place < words.len() {
        if !is_dropped(words[place].as_str()) {
            return Some(place);
        }
        place += 1;
    }
    None
}

/// The place of the first word, from a place on, that neither sets a property nor is dropped.
pub fn first_other(words: &[String], from: usize) -> Option<usize>
    requires { from ≤ length words.now }
    ensures { MatchOption result (others_behind from (texts_of words.now) ≡ []) (λ place. (place < length words.now) × (others_behind from (texts_of words.now) ≡ word_at place (texts_of words.now) ∷ others_behind (place + 1) (texts_of words.now))) }
{
    let mut place = from;
    while place < words.len() {
        if !is_property(words[place].as_str()) {
            return Some(place);
        }
        place += 1;
    }
    None
}
