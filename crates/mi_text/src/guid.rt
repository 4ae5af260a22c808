//! Product and component codes.

ghost use Rattle.std.specs.Prelude.{◌≡◌, ◌<◌, ◌^◌, ◌++◌, ◌∷◌, [], IfOk, MatchResult, None, Some, option_map};
ghost use Rattle.std.specs.Int.{w128, from_be_bytes, to_be_bytes};
ghost use Rattle.mi_text.specs.Guid.{guid_of, guid_text};

use crate::text::{NoMemory, Text};
use std::alloc::Global;
use uuid::Uuid;

/// A product or component code (GUID): its sixteen bytes as one number, most significant first.
#[derive(Clone, Copy, PartialEq, Eq, PartialOrd, Ord)]
pub struct Guid {
    pub number: u128,
}

/// The text isn't a code in braces.
#[derive(Clone, Copy)]
pub struct NotGuid;

impl Guid {
    /// Reads 38 characters in braces with hexadecimal digits of either case. No memory.
    pub fn read(text: &str) -> Result<Guid, NotGuid>
        ensures { MatchResult result (λ g. guid_of text.now ≡ Some g.number) (λ _. guid_of text.now ≡ None) }
    {
        if text.len() != 38 {
            return Err(NotGuid);
        }
        match Uuid::try_parse(text) {
            Ok(id) => Ok(Guid {
                number: id.as_u128(),
            }),
            Err(_) => Err(NotGuid),
        }
    }

    /// The braced form in upper case.
    pub fn print(self, alloc: Global) -> Result<Text, NoMemory>
        ensures { IfOk result (λ t. t ≡ guid_text self.number) }
    {
        let mut buffer = Uuid::encode_buffer();
        let braced = Uuid::from_u128(self.number).braced();
        let text = braced.encode_upper(&mut buffer);
        Text::copy_of(alloc, text)
    }
}
