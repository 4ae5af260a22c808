//! Characters, escapes and marks of formatted text.

/// The two kinds of groups.
#[derive(Clone, Copy, PartialEq, Eq)]
pub(crate) enum Kind {
    /// `[` and `]`
    Bracket,
    /// `{` and `}`
    Brace,
}

/// What a text is made of.
#[derive(Clone, Copy)]
pub(crate) enum Token {
    /// A character that is no mark.
    Char(char),
    /// An escape, which is the character in it.
    Escape(char),
    /// An open mark.
    Open(Kind),
    /// A closing mark.
    Close(Kind),
}
