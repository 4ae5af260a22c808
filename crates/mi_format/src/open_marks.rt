//! Texts that no group and no escape begins in.

ghost use Rattle.std.specs.Prelude.{◌≡◌};
ghost use Rattle.mi_format.specs.OpenMarks.{has_open_mark};

/// Whether some byte of a text is an open mark; one without is its own expansion.
pub(crate) fn has_open_mark(text: &str) -> bool
    ensures { result ≡ has_open_mark text.now }
{
    text.as_bytes()
        .iter()
        .any(|byte| *byte == b'[' || *byte == b'{')
}
