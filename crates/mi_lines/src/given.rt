//! What the calls of a case are given of a volume, a source or a sink.

use crate::call::Call;
use crate::stop::Stop;
use mi_text::Text;
use std::alloc::Global;

/// What the calls of a case are given of a volume, a source or a sink.
#[derive(Drop)]
pub struct Given {
    /// The names that the volume holds, with their bytes.
    pub held: Vec<(Text, Vec<u8>)>,
    /// The volume's capacity.
    pub capacity: Option<u64>,
    /// The numbers of the calls that fail.
    pub fails: Vec<u64>,
}

/// Adds a text and bytes.
pub fn push_bytes(list: &mut Vec<(Text, Vec<u8>)>, call: &mut Call<'_>) -> Result<(), Stop> {
    let bytes = Vec::from_slice(call.alloc(), call.bytes(1))?;
    list.push((call.owned(0), bytes))?;
    Ok(())
}

fn push_numbers(list: &mut Vec<u64>, call: &mut Call<'_>) -> Result<(), Stop> {
    for place in 0..call.len() {
        list.push(call.number(place))?;
    }
    Ok(())
}

impl Given {
    /// Nothing.
    pub fn new(alloc: Global) -> Given {
        Given {
            held: Vec::new(alloc),
            capacity: None,
            fails: Vec::new(alloc),
        }
    }

    /// Takes away all that was given.
    pub fn clear(&mut self) {
        self.held.clear();
        self.capacity = None;
        self.fails.clear();
    }

    /// Gives what the arguments say of this kind: `held`, `capacity` or `fails`.
    pub fn give(&mut self, kind: &str, call: &mut Call<'_>) -> Result<(), Stop> {
        match kind {
            "held" => push_bytes(&mut self.held, call),
            "fails" => push_numbers(&mut self.fails, call),
            "capacity" => {
                self.capacity = Some(call.number(0));
                Ok(())
            }
            _ => Err(Stop::BadLine),
        }
    }
}
