//! What is known of a text that isn't kept.

ghost use Rattle.std.specs.Prelude.{◌≡◌, encode_utf8};
ghost use Rattle.std.specs.List.{list_all};
ghost use Rattle.mi_text.specs.PropertyNames.{begins_name, continues_name};
ghost use Rattle.mi_format.specs.Kept.{first_byte, look_of, look_on, is_name};

use crate::part::Look;

const fn begins_name(byte: u8) -> bool
    ensures { result ≡ begins_name byte }
{
    byte.is_ascii_alphabetic() || byte == b'_'
}

const fn continues_name(byte: u8) -> bool
    ensures { result ≡ continues_name byte }
{
    byte.is_ascii_alphanumeric() || byte == b'_' || byte == b'.'
}

fn first_byte(text: &str) -> Option<u8>
    ensures { result ≡ first_byte text.now }
{
    match text.as_bytes() {
        [] => None,
        [first, ..] => Some(*first),
    }
}

fn all_continue(text: &str) -> bool
    ensures { result ≡ list_all continues_name text.now }
{
    text.as_bytes().iter().all(|byte| continues_name(*byte))
}

impl Look {
    /// Of a text.
    pub fn of(text: &str) -> Look
        ensures { result ≡ look_of text.now }
    {
        Look {
            first: first_byte(text),
            continues: all_continue(text),
        }
    }

    /// Of a text and another one.
    pub fn on(self, other: Look) -> Look
        ensures { result ≡ look_on self other }
    {
        Look {
            first: self.first.or(other.first),
            continues: self.continues && other.continues,
        }
    }

    /// Of a text and more, of which no byte is read where the text is no property name already.
    pub fn with(self, more: &str) -> Look
        ensures { result ≡ look_on self (look_of more.now) }
    {
        Look {
            first: self.first.or(first_byte(more)),
            continues: self.continues && all_continue(more),
        }
    }

    /// Of a text and a character.
    pub fn with_char(self, ch: char) -> Look
        ensures { result ≡ look_on self (look_of (encode_utf8 ch)) }
    {
        let mut buffer = [0; 4];
        self.with(ch.encode_utf8(&mut buffer))
    }

    /// Whether a bracket round such a text, of two bytes or more, is looked up.
    pub fn is_name(self) -> bool
        ensures { result ≡ is_name self }
    {
        match self.first {
            None => false,
            Some(b'%' | b'#' | b'!' | b'$') => true,
            Some(first) => begins_name(first) && self.continues,
        }
    }
}
