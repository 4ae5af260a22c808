//! Patterns of file names (RemoveFile table; WildCardFilename).
#![tactic(auto)]

ghost use Rattle.std.specs.Prelude.{◌≡◌, IfOk, codes};
ghost use Rattle.std.specs.Str.{bytes_eq, chars};
ghost use Rattle.mi_text.specs.Fold.{folded};
ghost use Rattle.mi_model.specs.Patterns.{has_pattern};

use mi_text::{NoMemory, fold};
use std::alloc::Global;

mod walk;

use walk::matches;

// The whole pattern that is every name's, also those without a dot.
fn is_every(pattern: &str) -> bool
    ensures { result ≡ bytes_eq pattern.now (codes "*.*") }
{
    pattern == "*.*"
}

// The characters of a text, with its letters lower-case.
fn folded_chars(alloc: Global, text: &str) -> Result<Vec<char>, NoMemory>
    ensures { IfOk result (λ v. v.items ≡ chars (folded text.now)) }
{
    let text = fold(alloc, text)?;
    let all = text.as_str().chars().collect(alloc)?;
    Ok(all)
}

/// Whether a name is one of a pattern, in whichever case: `*` stands for any characters, none too, `?` for one,
/// and `*.*` is every name's (RemoveFile table; WildCardFilename). It takes at most so many steps as the pattern
/// has characters times those of the name.
pub fn has_pattern(alloc: Global, pattern: &str, name: &str) -> Result<bool, NoMemory>
    ensures { IfOk result (λ b. b ≡ has_pattern pattern.now name.now) }
{
    if is_every(pattern) {
        return Ok(true);
    }
    let pattern = folded_chars(alloc, pattern)?;
    let name = folded_chars(alloc, name)?;
    Ok(matches(pattern.as_slice(), name.as_slice()))
}
