//! Expanded text, and what the brackets directly in it name.

use mi_text::Text;

/// What the brackets directly in a text name, those of `[~]` aside.
#[derive(Clone, Copy)]
pub(crate) enum Brackets {
    /// None names anything.
    Unnamed,
    /// One or more name something, and none of the values is empty.
    Full,
    /// One of the values is empty.
    Empty,
}

/// What is known of any text: its first byte, and whether each of its bytes may stand in the name of a property.
#[derive(Clone, Copy)]
pub(crate) struct Look {
    pub first: Option<u8>,
    pub continues: bool,
}

/// An expanded text.
#[derive(Drop)]
pub(crate) enum Held {
    /// The text.
    Whole(Text),
    /// Of a text that is longer than is kept, what tells whether a bracket round it names something.
    Longer(Look),
}

/// What is kept of an expanded text.
#[derive(Drop)]
pub(crate) struct Kept {
    pub text: Held,
    pub brackets: Brackets,
}

/// How much is kept of a text.
#[derive(Clone, Copy)]
pub(crate) struct Room {
    /// The bytes of the longest text that is kept.
    pub most: usize,
    /// Whether each name that is looked up as some text has fewer bytes.
    pub names: bool,
}
