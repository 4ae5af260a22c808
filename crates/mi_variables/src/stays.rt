//! When a row of Environment takes nothing of its variable (RemoveEnvironmentStrings Action).

ghost use Rattle.std.specs.Prelude.{◌≡◌, ◌&&◌, not};
ghost use Rattle.std.specs.BTreeSet.{contains};
ghost use Rattle.std.specs.Str.{bytes_eq};
ghost use Rattle.mi_text.specs.Maps.{name_cmp};

use mi_base::{Text, Variable};
use std::collections::BTreeSet;

/// Whether a row leaves and its variable, by the name under which it is held, is guarded. No memory (RemoveEnvironmentStrings Action;
/// guards are this project's own).
pub fn is_held_back(guards: &BTreeSet<Text>, leaving: bool, at: &Text) -> bool
    ensures { result ≡ (leaving && contains name_cmp guards.now at.now) }
{
    leaving && guards.contains(at)
}

/// Whether a variable has another value than this text, byte by byte. No memory (RemoveEnvironmentStrings Action; Environment table,
/// column Value).
pub fn has_another_value(variable: &Variable, text: &str) -> bool
    ensures { result ≡ not (bytes_eq variable.now.value text.now) }
{
    variable.value.as_str() != text
}
