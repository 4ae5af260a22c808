//! What a run is asked for.

use crate::entry_read::{field, number_at, text_in};
use crate::ill::Ill;
use std::alloc::Global;

/// The words of a run, and its moment.
#[derive(Drop)]
pub struct Order {
    pub now: u64,
    pub words: Vec<String>,
}

fn words_of(alloc: Global, fields: &[Vec<u8>]) -> Result<Vec<String>, Ill> {
    let mut words = Vec::new(alloc);
    for field in fields {
        words.push(String::from_str(alloc, text_in(field.as_slice())?)?)?;
    }
    Ok(words)
}

/// The order of these fields: a moment, and words.
pub fn order_of(alloc: Global, fields: &[Vec<u8>]) -> Result<Order, Ill> {
    let now = number_at(fields, 0)?;
    field(fields, 0)?;
    let words = words_of(alloc, fields.get(1..).unwrap_or(&[]))?;
    Ok(Order { now, words })
}

/// The order of a recovery.
pub fn recovery(alloc: Global) -> Result<Order, Ill> {
    let mut words = Vec::new(alloc);
    words.push(String::from_str(alloc, "/recover")?)?;
    Ok(Order { now: 0, words })
}
