//! Look-ups whose names are bounded.

ghost use Rattle.std.specs.Prelude.{◌≡◌, ◌≤◌, ◌<◌, ℕ, List, [], length};
ghost use Rattle.mi_text.specs.Plain.{text_in};
ghost use Rattle.mi_format.specs.Bounds.{AreShort};

use mi_text::{Env, PlainEnv};

/// Look-ups that know how long their names are, so that the name in a bracket isn't put together where it is longer than any
/// that is held (this project's own).
pub trait BoundedEnv: Env {
    /// Every name of a property, a variable, a file or a folder that has so many bytes or more is looked up as the empty
    /// text. No memory.
    fn name_bound(&self) -> usize
        ensures { AreShort (Self.lookups self.now) result };
}

// The bytes of the longest name, and one more; 1 where there is no name.
fn bound_of(items: &[(String, String)]) -> usize
    ensures { (name : List ℕ) → result ≤ length name → text_in items.now name ≡ [] }
{
    let mut bound = 1;
    for item in items {
        bound = bound.max(item.0.len() + 1);
    }
    bound
}

impl BoundedEnv for PlainEnv {
    fn name_bound(&self) -> usize {
        let texts = bound_of(&self.properties).max(bound_of(&self.variables));
        let keys = bound_of(&self.files).max(bound_of(&self.folders));
        texts.max(keys)
    }
}
