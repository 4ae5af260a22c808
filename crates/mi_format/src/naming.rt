//! What a bracket names.

ghost use Rattle.std.specs.Prelude.{◌≡◌};
ghost use Rattle.std.specs.Option.{option_copied};
ghost use Rattle.mi_format.specs.Value.{named, property_named};

use mi_text::{Env, is_property_name};

fn property_named<'a, E: Env>(env: &'a E, name: &str) -> Option<&'a str>
    ensures { option_copied result ≡ property_named (E.lookups env.now) name.now }
{
    if is_property_name(name) {
        Some(env.property(name))
    } else {
        None
    }
}

/// The value that the expanded inside of a bracket names, and None where it names nothing.
pub(crate) fn named<'a, E: Env>(env: &'a E, inside: &str) -> Option<&'a str>
    ensures { option_copied result ≡ named (E.lookups env.now) inside.now }
{
    match inside.as_bytes() {
        [] => None,
        [b'~'] => Some("\0"),
        [_] => property_named(env, inside),
        [sign, _, ..] => match *sign {
            b'%' => Some(env.variable(&inside[1..])),
            b'#' | b'!' => Some(env.file(&inside[1..])),
            b'$' => Some(env.folder(&inside[1..])),
            _ => property_named(env, inside),
        },
    }
}
