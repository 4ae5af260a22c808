//! Bytes 0 at the front and at the end of a text.

ghost use Rattle.std.specs.Prelude.{◌≡◌};
ghost use Rattle.mi_regval.specs.Lists.{has_front, without_front, has_end, without_end};

/// Whether a byte 0 stands at the front, and the text without it.
pub fn split_front(text: &str) -> (bool, &str)
    ensures { (result.0 ≡ has_front text.now) × (result.1.now ≡ without_front text.now) }
{
    match text.strip_prefix('\0') {
        Some(rest) => (true, rest),
        None => (false, text),
    }
}

/// Whether a byte 0 stands at the end, and the text without it.
pub fn split_end(text: &str) -> (bool, &str)
    ensures { (result.0 ≡ has_end text.now) × (result.1.now ≡ without_end text.now) }
{
    match text.strip_suffix('\0') {
        Some(rest) => (true, rest),
        None => (false, text),
    }
}
