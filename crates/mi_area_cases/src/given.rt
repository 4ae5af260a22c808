//! What the calls of a case are given beside their arguments.

use crate::arguments::Arguments;
use crate::ill::Ill;
use mi_text::Text;
use std::alloc::Global;
use std::str;

/// What the calls of a case are given.
#[derive(Drop)]
pub struct Given {
    /// What the argument `<text>` stands for.
    pub text: Vec<u8>,
    /// The names that the volume holds.
    pub held: Vec<(Text, Vec<u8>)>,
    /// The volume's capacity.
    pub capacity: Option<u64>,
    /// The numbers of the calls that fail.
    pub fails: Vec<u64>,
}

fn push_held(
    alloc: Global,
    list: &mut Vec<(Text, Vec<u8>)>,
    args: &Arguments<'_>,
) -> Result<(), Ill> {
    let name = Text::copy_of(alloc, args.text(0)?)?;
    let bytes = Vec::from_slice(alloc, args.bytes(1)?)?;
    list.push((name, bytes))?;
    Ok(())
}

fn set_capacity(capacity: &mut Option<u64>, args: &Arguments<'_>) -> Result<(), Ill> {
    *capacity = Some(args.number(0)?);
    Ok(())
}

fn push_numbers(list: &mut Vec<u64>, args: &Arguments<'_>) -> Result<(), Ill> {
    for place in 0..args.len() {
        list.push(args.number(place)?)?;
    }
    Ok(())
}

/// Adds a text so many times.
fn push_repeated(text: &mut Vec<u8>, count: &[u8], piece: &[u8]) -> Result<(), Ill> {
    let count = str::from_utf8(count)?.parse::<u32>()?;
    if let [byte] = piece {
        let more = vec![in *text.allocator(); *byte; count as usize]?;
        text.extend_from_slice(more.as_slice())?;
        return Ok(());
    }
    for _ in 0..count {
        text.extend_from_slice(piece)?;
    }
    Ok(())
}

/// Makes a text of these texts, each so many times.
fn set_text(text: &mut Vec<u8>, fields: &[Vec<u8>]) -> Result<(), Ill> {
    text.clear();
    for pair in fields.chunks(2) {
        match pair {
            [count, piece] => push_repeated(text, count, piece)?,
            _ => return Err(Ill::BadLine),
        }
    }
    Ok(())
}

impl Given {
    /// Nothing.
    pub fn new(alloc: Global) -> Given {
        Given {
            text: Vec::new(alloc),
            held: Vec::new(alloc),
            capacity: None,
            fails: Vec::new(alloc),
        }
    }

    /// Takes away all that was given.
    pub fn clear(&mut self) {
        self.text.clear();
        self.held.clear();
        self.capacity = None;
        self.fails.clear();
    }

    /// Gives what these fields say of this kind.
    pub fn give(&mut self, alloc: Global, kind: &str, fields: &[Vec<u8>]) -> Result<(), Ill> {
        let args = Arguments {
            fields,
            text: self.text.as_slice(),
        };
        match kind {
            "text" => set_text(&mut self.text, fields),
            "held" => push_held(alloc, &mut self.held, &args),
            "fails" => push_numbers(&mut self.fails, &args),
            "capacity" => set_capacity(&mut self.capacity, &args),
            _ => Err(Ill::BadLine),
        }
    }
}
