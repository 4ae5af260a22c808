//! Line 3: an optional code page, the name of the table, and the key columns.

ghost use Rattle.std.specs.Prelude.{◌≡◌, [], Some, map};
ghost use Rattle.mi_text.specs.declared.answers.IdtFault.TheVariants.{KeyColumn};
ghost use Rattle.mi_idt.specs.Fields.{fields_of};
ghost use Rattle.mi_idt.specs.Head.{page_in, page_fault, named_fault, head_fault, keys_fault, places_of};
ghost use Rattle.mi_idt.specs.Columns.{place_of};
ghost use Rattle.mi_idt.specs.HeadIs.{NamedIs, HeadIs, PageReads, IsNewPlace};
ghost use Rattle.mi_idt.specs.Steps.{IsFirst, ReadsPart};

use crate::lines::{count_fields, text_fields};
use crate::names::Names;
use crate::number::numeral;
use crate::table::IdtError;
use mi_text::{IdtFault, Text};
use std::alloc::Global;

/// What line 3 says.
#[derive(Drop)]
pub struct Head<'a> {
    pub page: Option<u32>,
    pub name: &'a str,
    pub keys: Vec<u32>,
}

fn read_page(field: &str) -> Result<Option<u32>, IdtFault>
    ensures { PageReads result (page_in field.now) }
{
    match numeral(field.as_bytes()) {
        None => Ok(None),
        Some(page) => match page {
            0 | 1252 | 65001 => Ok(Some(page)),
            _ => Err(IdtFault::CodePage(page)),
        },
    }
}

fn no_key(alloc: Global) -> IdtError
    ensures { IsFirst result (Some (KeyColumn [])) }
{
    IdtError::Fault(IdtFault::KeyColumn(Text::new(alloc)))
}

fn wrong_key(alloc: Global, key: &str) -> IdtError
    ensures { IsFirst result (Some (KeyColumn key.now)) }
{
    match Text::copy_of(alloc, key) {
        Ok(key) => IdtError::Fault(IdtFault::KeyColumn(key)),
        Err(_) => IdtError::NoMemory,
    }
}

// The place of a key column that is known and new.
fn new_place(names: &Names<'_>, places: &[u32], key: &str) -> Option<u32>
    ensures { IsNewPlace result places.now key.now (place_of (map (λ b. b.now) names.now.list.items) key.now) }
{
    match names.place(key) {
        Some(place) => {
            if places.contains(&place) {
                None
            } else {
                Some(place)
            }
        }
        None => None,
    }
}

fn read_keys(alloc: Global, names: &Names<'_>, keys: &[&str]) -> Result<Vec<u32>, IdtError>
    ensures { ReadsPart result (keys_fault (map (λ b. b.now) names.now.list.items) [] (map (λ b. b.now) keys.now)) (λ places. places.items ≡ places_of (map (λ b. b.now) names.now.list.items) (map (λ b. b.now) keys.now)) }
{
    let mut places = Vec::new(alloc);
    for key in keys {
        match new_place(names, &places, key) {
            Some(place) => places.push(place)?,
            None => return Err(wrong_key(alloc, key)),
        }
    }
    Ok(places)
}

// The fields behind the code page: the name and the key columns.
fn read_named<'a>(
    alloc: Global,
    page: Option<u32>,
    fields: &[&'a str],
    names: &Names<'_>,
) -> Result<Head<'a>, IdtError>
    ensures { ReadsPart result (named_fault (map (λ b. b.now) names.now.list.items) (map (λ b. b.now) fields.now)) (λ h. NamedIs h page (map (λ b. b.now) names.now.list.items) (map (λ b. b.now) fields.now)) }
{
    match fields {
        [] | [_] => Err(no_key(alloc)),
        [name, keys @ ..] => {
            let keys = read_keys(alloc, names, keys)?;
            Ok(Head {
                page,
                name: *name,
                keys,
            })
        }
    }
}

/// Reads line 3.
pub fn read_head<'a>(alloc: Global, line: &'a str, names: &Names<'_>) -> Result<Head<'a>, IdtError>
    ensures { ReadsPart result (head_fault (map (λ b. b.now) names.now.list.items) (fields_of line.now)) (λ h. HeadIs h (map (λ b. b.now) names.now.list.items) (fields_of line.now)) }
{
    let fields = text_fields(alloc, line, count_fields(line.as_bytes()))?;
    let [first, rest @ ..] = fields.as_slice() else {
        return Err(no_key(alloc));
    };
    match read_page(first) {
        Err(fault) => Err(IdtError::Fault(fault)),
        Ok(None) => read_named(alloc, None, fields.as_slice(), names),
        Ok(Some(page)) => read_named(alloc, Some(page), rest, names),
    }
}
