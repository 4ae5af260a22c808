//! Names that are composed without memory.

ghost use Rattle.std.specs.Prelude.{◌≡◌, ◌<◌, ◌+◌, ◌++◌, [], length};
ghost use Rattle.std.specs.Bool.{OnTrue, OnFalse};
ghost use Rattle.mi_text.specs.Fold.{folded};
ghost use Rattle.mi_text.specs.Guid.{guid_text};

use mi_base::Guid;
use std::marker::Model;
use std::str;
use uuid::Uuid;

/// The length of the longest name, in bytes.
const NAME_LIMIT: usize = 1024;

/// The front of a name, a text of at most 1,024 bytes.
#[derive(Drop)]
pub struct NameBuffer {
    bytes: [u8; 1024],
    len: usize,
}

impl Model for NameBuffer {
    ghost use Rattle.std.specs.Prelude.{◌≡◌, List, ℕ, ◌≤◌, take, true};
    ghost use Rattle.std.specs.Str.{is_utf8};

    ghost Value = { List ℕ };

    ghost view = { λ b. take b.len b.bytes };

    ghost invariant = { λ b. (b.len ≤ 1024) × (is_utf8 (take b.len b.bytes) ≡ true) };
}

impl NameBuffer {
    /// The empty text.
    pub fn new() -> NameBuffer
        ensures { result ≡ [] }
    {
        NameBuffer {
            bytes: [0; 1024],
            len: 0,
        }
    }

    /// The text so far.
    pub fn as_str(&self) -> &str
        ensures { result.now ≡ self.now }
    {
        match str::from_utf8(&self.bytes[..self.len]) {
            Ok(text) => text,
            Err(_) => unreachable!(),
        }
    }

    /// Adds a text, where there is room.
    pub fn push_str(&mut self, text: &str) -> bool
        ensures fits { OnTrue result (self.new ≡ self.old ++ text.now) }
        ensures full { OnFalse result (1024 < length self.old + length text.now) }
    {
        let text = text.as_bytes();
        let start = self.len;
        if text.len() > NAME_LIMIT - start {
            return false;
        }
        let end = start + text.len();
        self.bytes[start..end].copy_from_slice(text);
        self.len = end;
        true
    }

    /// Adds a text, folded, where there is room.
    pub fn push_folded(&mut self, text: &str) -> bool
        ensures fits { OnTrue result (self.new ≡ self.old ++ folded text.now) }
        ensures full { OnFalse result (1024 < length self.old + length text.now) }
    {
        let text = text.as_bytes();
        let start = self.len;
        if text.len() > NAME_LIMIT - start {
            return false;
        }
        let end = start + text.len();
        self.bytes[start..end].copy_from_slice(text);
        self.bytes[start..end].make_ascii_lowercase();
        self.len = end;
        true
    }

    /// Adds a code, where there is room.
    pub fn push_code(&mut self, code: Guid) -> bool
        ensures fits { OnTrue result (self.new ≡ self.old ++ guid_text code.number) }
        ensures full { OnFalse result (1024 < length self.old + length (guid_text code.number)) }
    {
        let mut buffer = Uuid::encode_buffer();
        let braced = Uuid::from_u128(code.number).braced();
        let text = braced.encode_upper(&mut buffer);
        self.push_str(text)
    }
}
