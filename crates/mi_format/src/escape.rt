//! Characters and escapes of formatted text.

ghost use Rattle.std.specs.Prelude.{◌≡◌, ◌<◌, ◌≤◌, [], ◌∷◌, length, IfSome, MatchOption, option_map};
ghost use Rattle.std.specs.Str.{chars};
ghost use Rattle.mi_format.specs.Escape.{behind_close, escape_of};

/// The first character, and what follows it.
pub(crate) fn first_char(text: &str) -> Option<(char, &str)>
    ensures { MatchOption result (text.now ≡ []) (λ x. (chars text.now ≡ x.0 ∷ chars x.1.now) × (length x.1.now < length text.now)) }
{
    let mut rest = text.chars();
    match rest.next() {
        Some(first) => Some((first, rest.as_str())),
        None => None,
    }
}

// What follows the first mark, where that is `]`.
fn behind_close(text: &str) -> Option<&str>
    ensures value { option_map (λ r. chars r.now) result ≡ behind_close (chars text.now) }
    ensures shorter { IfSome result (λ r. length r.now ≤ length text.now) }
{
    let mut rest = text;
    while let Some((first, behind)) = first_char(rest) {
        rest = behind;
        match first {
            ']' => return Some(rest),
            '[' | '{' | '}' => return None,
            _ => {}
        }
    }
    None
}

/// The character that an escape is and what follows the escape, where this stands behind a `[`.
pub(crate) fn escape(text: &str) -> Option<(char, &str)>
    ensures value { option_map (λ e. (e.0, chars e.1.now)) result ≡ escape_of (chars text.now) }
    ensures shorter { IfSome result (λ e. length e.1.now ≤ length text.now) }
{
    let Some((first, behind)) = first_char(text) else {
        return None;
    };
    let Some((given, behind)) = first_char(behind) else {
        return None;
    };
    if first != '\\' {
        return None;
    }
    match behind_close(behind) {
        Some(after) => Some((given, after)),
        None => None,
    }
}
