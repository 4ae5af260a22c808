//! Line 1: the names of the columns.

ghost use Rattle.std.specs.Prelude.{◌≡◌, ◌<◌, ◌^◌, [], map, vec_len};
ghost use Rattle.mi_idt.specs.Index.{IsIndex};

use crate::table::IdtError;
use mi_text::IdtFault;
use std::alloc::Global;
use std::collections::BTreeMap;

/// The names of the columns in order, and their places from 0.
#[derive(Drop)]
pub struct Names<'a> {
    pub list: Vec<&'a str>,
    pub places: BTreeMap<&'a str, u32>,
    ghost indexed: { IsIndex places (map (λ b. b.now) list.items) },
}

impl<'a> Names<'a> {
    ghost use Rattle.mi_idt.specs.Columns.{place_of, names_fault};
    ghost use Rattle.mi_idt.specs.Steps.{ReadsPart};

    /// The names, where each is new and not empty.
    pub fn read(alloc: Global, list: Vec<&'a str>) -> Result<Names<'a>, IdtError>
        requires few { vec_len list < 2 ^ 32 }
        ensures { ReadsPart result (names_fault [] 1 (map (λ b. b.now) list.entry.items)) (λ n. n.list.items ≡ list.entry.items) }
    {
        let mut places = BTreeMap::new(alloc);
        for (i, name) in list.iter().enumerate() {
            let place = i as u32;
            if name.is_empty() || places.contains_key(*name) {
                return Err(IdtError::Fault(IdtFault::ColumnName(place + 1)));
            }
            places.insert(*name, place)?;
        }
        Ok(Names { list, places })
    }

    /// The place of the column of a name.
    pub fn place(&self, name: &str) -> Option<u32>
        ensures { result ≡ place_of (map (λ b. b.now) self.now.list.items) name.now }
    {
        self.places.get(name).copied()
    }
}
