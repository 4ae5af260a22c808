//! The rules that values meet beside their kind, and what is known of the rows of a table that were read before.

ghost use Rattle.std.specs.Prelude.{◌≡◌, ◌&&◌, ◌||◌, ◌++◌, ◌∷◌, not, pos, is_none, is_some, int_le, unwrap_or, [], List, OnOk};
ghost use Rattle.std.specs.Ordering.{int_eq};
ghost use Rattle.std.specs.Option.{option_copied};
ghost use Rattle.mi_text.specs.FileNames.{is_default_dir};
ghost use Rattle.mi_text.specs.Maps.{Name};
ghost use Rattle.mi_text.specs.PropertyNames.{is_property_name};
ghost use Rattle.mi_text.specs.Version.{version_of};
ghost use Rattle.mi_rows.specs.Fields.{field_value, values_of};
ghost use Rattle.mi_rows.specs.Texts.{are_languages, is_decimal, is_value_of};
ghost use Rattle.mi_rows.specs.Reads.{KnowsKeys, IsSeen};
ghost use Rattle.mi_rows.specs.Values.{Row, cell_at, code_at, text_in, number_in, is_new_code, is_root_below, is_root, lacks, meets, if_text, is_key_in};

use crate::column::Rule;
use crate::field::{
    Field, number_at, some_code, some_code_at, some_number, some_text, some_text_at, text_at,
};
use crate::text::{are_languages, is_decimal, is_value_of, is_version};
use mi_base::{NoMemory, is_default_dir, is_property_name};
use std::alloc::Global;
use std::collections::{BTreeSet, HashSet};

/// Whether a row of Directory is a root row, by its key and its parent.
pub fn is_root_below(own: &str, parent: Option<&str>) -> bool
    ensures { result ≡ is_root_below own.now (option_copied parent.entry) }
{
    parent.is_none_or(|parent| parent == own)
}

/// Whether a row of Directory is a root row: its parent is null or its own key (Directory table).
pub fn is_root(row: &[Field]) -> bool
    ensures { result ≡ is_root (values_of row.now) }
{
    is_root_below(text_at(row, 0), some_text_at(row, 1))
}

/// Whether none of these bits of a number is set, in two's complement.
pub fn lacks(bits: u32, number: i32) -> bool
    ensures { result ≡ lacks bits number }
{
    number.cast_unsigned() & bits == 0
}

fn is_within(low: i32, high: i32, field: &Field) -> bool
    ensures { result ≡ (is_none (field_value field.now) || (int_le low (number_in (field_value field.now)) && int_le (number_in (field_value field.now)) high)) }
{
    if field.text.is_empty() {
        return true;
    }
    let number = some_number(field).unwrap_or(0);
    low <= number && number <= high
}

fn counts_words(front: &[Field], field: &Field) -> bool
    ensures { result ≡ (not (int_eq (number_in (cell_at (values_of front.now) 0)) (pos 15)) || is_decimal (unwrap_or (text_in (field_value field.now)) [])) }
{
    if number_at(front, 0) != 15 {
        return true;
    }
    match some_text(field) {
        Some(text) => is_decimal(text),
        None => false,
    }
}

/// Whether a value meets a rule. `seen` knows the keys of the table and the rows before this one, and `front` is what
/// stands before the value in its row.
pub fn meets(rule: Rule, seen: &Seen, front: &[Field], field: &Field) -> bool
    ensures { (keys : List Name) (before : List Row) → KnowsKeys seen.now.keys keys → IsSeen seen.now before → result ≡ meets rule keys before (values_of front.now) (field_value field.now) }
{
    let text = some_text(field);
    match rule {
        Rule::PropertyName => text.is_none_or(|text| is_property_name(text)),
        Rule::PropertyValue => {
            let own = text_at(front, 0);
            text.is_none_or(|text| is_value_of(own, text))
        }
        Rule::OneRoot => !(is_root_below(text_at(front, 0), text) && seen.root),
        Rule::DefaultDir => is_root(front) || text.is_none_or(|text| is_default_dir(text)),
        Rule::NewCode => seen.is_new(field),
        Rule::Without(bits) => lacks(bits, some_number(field).unwrap_or(0)),
        Rule::Within(low, high) => is_within(low, high, field),
        Rule::VersionOrKey => text.is_none_or(|text| is_version(text) || seen.is_key(text)),
        Rule::Languages => text.is_none_or(|text| are_languages(text)),
        Rule::WordCount => counts_words(front, field),
        Rule::Free => true,
    }
}

/// The keys of a table; and of the rows before one: whether there is a root row of Directory among them, and the ids of
/// Component among them.
#[derive(Drop)]
pub struct Seen {
    pub keys: HashSet<String>,
    pub root: bool,
    codes: BTreeSet<u128>,
}

impl Seen {
    /// No rows.
    pub fn new(alloc: Global, keys: HashSet<String>) -> Seen
        ensures rows { IsSeen result [] }
        ensures keys { result.keys ≡ keys }
    {
        Seen {
            keys,
            root: false,
            codes: BTreeSet::new(alloc),
        }
    }

    /// Whether a text is a key of the table.
    pub fn is_key(&self, text: &str) -> bool
        ensures { (keys : List Name) → KnowsKeys self.now.keys keys → result ≡ is_key_in keys text.now }
    {
        self.keys.contains(text)
    }

    /// Whether no row has this code.
    pub fn is_new(&self, field: &Field) -> bool
        ensures { (before : List Row) → IsSeen self.now before → result ≡ is_new_code before (field_value field.now) }
    {
        match some_code(field) {
            Some(code) => !self.codes.contains(&code.number),
            None => true,
        }
    }

    /// One row more.
    pub fn add(&mut self, row: &[Field]) -> Result<(), NoMemory>
        ensures rows { OnOk result ((before : List Row) → IsSeen self.old before → IsSeen self.new (before ++ values_of row.now ∷ [])) }
        ensures keys { OnOk result (self.new.keys ≡ self.old.keys) }
    {
        if !self.root {
            self.root = is_root(row);
        }
        if let Some(code) = some_code_at(row, 1) {
            self.codes.insert(code.number)?;
        }
        Ok(())
    }
}
