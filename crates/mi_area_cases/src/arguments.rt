//! The arguments of a call.

use crate::ill::Ill;
use std::str;

/// The field that stands for the text of the case.
const TEXT: &[u8] = b"<text>";

/// The fields behind a call's name, and the text of the case.
#[derive(Clone, Copy)]
pub struct Arguments<'a> {
    pub fields: &'a [Vec<u8>],
    pub text: &'a [u8],
}

impl<'a> Arguments<'a> {
    /// How many there are.
    pub fn len(&self) -> usize {
        self.fields.len()
    }

    /// The bytes of one.
    pub fn bytes(&self, place: usize) -> Result<&'a [u8], Ill> {
        match self.fields.get(place) {
            Some(field) if field.as_slice() == TEXT => Ok(self.text),
            Some(field) => Ok(field.as_slice()),
            None => Err(Ill::BadLine),
        }
    }

    /// The text of one.
    pub fn text(&self, place: usize) -> Result<&'a str, Ill> {
        Ok(str::from_utf8(self.bytes(place)?)?)
    }

    /// The number that one spells.
    pub fn number(&self, place: usize) -> Result<u64, Ill> {
        Ok(self.text(place)?.parse::<u64>()?)
    }

    /// The bytes of one, or none where it is missing.
    pub fn rest(&self, place: usize) -> &'a [u8] {
        self.bytes(place).unwrap_or(b"")
    }

    /// Other fields, and the same text of the case.
    pub fn of<'b>(&self, fields: &'b [Vec<u8>]) -> Arguments<'b>
    where
        'a: 'b,
    {
        Arguments {
            fields,
            text: self.text,
        }
    }

    /// Those from one place up to another.
    pub fn part(&self, from: usize, end: usize) -> Arguments<'a> {
        Arguments {
            fields: self.fields.get(from..end).unwrap_or(&[]),
            text: self.text,
        }
    }

    /// Those behind the first so many.
    pub fn behind(&self, count: usize) -> Arguments<'a> {
        Arguments {
            fields: self.fields.get(count..).unwrap_or(&[]),
            text: self.text,
        }
    }
}
