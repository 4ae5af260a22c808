//! Texts that are lists.

ghost use Rattle.std.specs.Prelude.{◌≡◌, IfOk};
ghost use Rattle.std.specs.List.{list_any};
ghost use Rattle.std.specs.Option.{option_copied};
ghost use Rattle.mi_regval.specs.Lists.{is_zero};
ghost use Rattle.mi_regval.specs.ListTexts.{side_of, list_in, list_text_of, added_of};

use crate::items::items_between;
use crate::marks::{split_end, split_front};
use mi_base::{NoMemory, Texts};
use std::alloc::Global;

/// Where the items of a text go beside a list that stood before (Registry table, column Value: `[~]`).
#[derive(Clone, Copy)]
pub enum Side {
    /// In its side: a byte 0 is a mark at both ends of the text, or at none.
    Instead,
    /// Behind its items: the mark is at the front alone.
    Behind,
    /// Before its items: the mark is at the end alone.
    Before,
}

/// A text of the Registry table that is a list (Registry table, column Value: `[~]`).
#[derive(Drop)]
pub struct ListText {
    pub side: Side,
    pub items: Texts,
}

impl ListText {
    /// The items that the text adds, where it extends a list: those that a row which leaves takes out again.
    pub fn added(&self) -> Option<&Texts>
        ensures { option_copied result ≡ added_of self.now }
    {
        match self.side {
            Side::Behind | Side::Before => Some(&self.items),
            Side::Instead => None,
        }
    }
}

const fn side_of(front: bool, end: bool) -> Side
    ensures { result ≡ side_of front end }
{
    match (front, end) {
        (true, false) => Side::Behind,
        (false, true) => Side::Before,
        (true, true) | (false, false) => Side::Instead,
    }
}

fn has_zero(bytes: &[u8]) -> bool
    ensures { result ≡ list_any is_zero bytes.now }
{
    bytes.iter().any(|byte| *byte == 0)
}

// The list that a text with a byte 0 is.
fn list_in(alloc: Global, text: &str) -> Result<ListText, NoMemory>
    ensures { IfOk result (λ t. t ≡ list_in text.now) }
{
    if text == "\0" {
        return Ok(ListText {
            side: Side::Instead,
            items: Texts::new(alloc),
        });
    }
    let (front, rest) = split_front(text);
    let (end, inside) = split_end(rest);
    let items = items_between(alloc, inside)?;
    Ok(ListText {
        side: side_of(front, end),
        items: Texts::from_vec(items),
    })
}

/// The list that a text of the Registry table is, and None where the text has no byte 0 (Registry table, column Value).
pub fn list_text(alloc: Global, text: &str) -> Result<Option<ListText>, NoMemory>
    ensures { IfOk result (λ t. t ≡ list_text_of text.now) }
{
    if !has_zero(text.as_bytes()) {
        return Ok(None);
    }
    Ok(Some(list_in(alloc, text)?))
}
