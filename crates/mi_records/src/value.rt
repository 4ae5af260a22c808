//! The value that a text makes at a place.

ghost use Rattle.std.specs.Prelude.{◌≡◌, List, ℕ, Ok, IfOk, true, false, Some, None};
ghost use Rattle.std.specs.Option.{option_copied};
ghost use Rattle.std.specs.FinMap.{get};
ghost use Rattle.mi_text.specs.Maps.{Map};
ghost use Rattle.mi_text.specs.Fold.{folded};
ghost use Rattle.mi_base.specs.Limits.{fits};
ghost use Rattle.mi_image.specs.Items.{machine_over};
ghost use Rattle.mi_model.specs.WriteRegistryValues.{value_entry};
ghost use Rattle.mi_regval.specs.Changes.{change_of};
ghost use Rattle.mi_regval.specs.Values.{value_of};
ghost use Rattle.mi_records.specs.Values.{value_over, is_too_large, IsPlace, ReadsValue, KeepsSize, MakesValue};

use crate::place::RegistryPlace;
use crate::stop::{Stop, Why};
use mi_base::{Bytes, EncError, Entry, NoMemory, RegValue, Text, Texts, ValueKey, enc_entry, fold};
use mi_image::Image;
use mi_regval::{Change, ValueError, change_gives_the_value, read_value};
use std::alloc::Global;

// The longest record that a row writes.
const LONGEST_RECORD: usize = 16_777_216;

fn copy_texts(alloc: Global, texts: &[Text]) -> Result<Texts, NoMemory>
    ensures { IfOk result (λ copy. copy ≡ texts.now) }
{
    let mut copy = Texts::new(alloc);
    for text in texts {
        copy.push(Text::copy_of(alloc, text.as_str())?)?;
    }
    Ok(copy)
}

fn copy_value(alloc: Global, value: &RegValue) -> Result<RegValue, NoMemory>
    ensures { IfOk result (λ copy. copy ≡ value.now) }
{
    match value {
        RegValue::Text(text) => Ok(RegValue::Text(Text::copy_of(alloc, text.as_str())?)),
        RegValue::Expand(text) => Ok(RegValue::Expand(Text::copy_of(alloc, text.as_str())?)),
        RegValue::Int(number) => Ok(RegValue::Int(*number)),
        RegValue::Binary(bytes) => Ok(RegValue::Binary(Bytes::copy_of(alloc, bytes.as_slice())?)),
        RegValue::List(texts) => Ok(RegValue::List(copy_texts(alloc, texts.as_slice())?)),
    }
}

// The value that a change leaves.
fn after(alloc: Global, change: Change, old: Option<&RegValue>) -> Result<RegValue, NoMemory>
    ensures { (text : List ℕ) → change_of text (option_copied old.entry) ≡ Ok change → IfOk result (λ v. value_of text (option_copied old.entry) ≡ Ok v) }
{
    change_gives_the_value();
    match change {
        Change::Value(value) => Ok(value),
        Change::Unchanged => match old {
            Some(value) => copy_value(alloc, value),
            None => Err(NoMemory),
        },
    }
}

// The value that a text makes of the one that stands at a place.
fn new_value(
    alloc: Global,
    image: &Image,
    place: &RegistryPlace,
    text: &str,
) -> Result<RegValue, Stop>
    ensures { (held files : Map (List ℕ)) → ReadsValue (value_over (machine_over held files image.now) place.now text.now) result }
{
    change_gives_the_value();
    let old = image.value(place.root(), place.key(), place.name());
    match read_value(alloc, text, old) {
        Ok(change) => match after(alloc, change, old) {
            Ok(value) => Ok(value),
            Err(_) => Err(Stop::NoMemory),
        },
        Err(ValueError::NoMemory) => Err(Stop::NoMemory),
        Err(ValueError::Fault(_)) => Err(Stop::Refused(Why::BadValue)),
    }
}

fn value_key(alloc: Global, place: &RegistryPlace) -> Result<ValueKey, NoMemory>
    ensures right { IsPlace place.now }
    ensures key { IfOk result (λ k. k ≡ record { root = place.now.root; key = folded place.now.key; shown = place.now.name }) }
{
    let root = place.root();
    let key = place.key();
    let name = place.name();
    Ok(ValueKey {
        root,
        key: fold(alloc, key)?,
        shown: Text::copy_of(alloc, name)?,
    })
}

// The entry of a value at a place.
fn entry_of(alloc: Global, place: &RegistryPlace, value: RegValue) -> Result<Entry, NoMemory>
    ensures right { IsPlace place.now }
    ensures entry { IfOk result (λ e. e ≡ value_entry place.now value) }
{
    match value_key(alloc, place) {
        Ok(key) => Ok(Entry::Value(key, value)),
        Err(_) => {
            drop(value);
            Err(NoMemory)
        }
    }
}

// Whether an entry is larger than a row may write.
fn is_too_large(alloc: Global, entry: &Entry) -> Result<bool, NoMemory>
    requires { fits entry.now ≡ false → is_too_large entry.now ≡ true }
    ensures { IfOk result (λ large. is_too_large entry.now ≡ large) }
{
    match enc_entry(alloc, entry) {
        Ok((_, record)) => Ok(record.len() > LONGEST_RECORD),
        Err(EncError::NoMemory) => Err(NoMemory),
        Err(EncError::Field) => Ok(true),
    }
}

/// An entry, where its record has at most 16,777,216 bytes and its list at most 65,535 items. One that has no record is too
/// large.
pub fn small_enough(alloc: Global, entry: Entry) -> Result<Entry, Stop>
    requires { fits entry ≡ false → is_too_large entry ≡ true }
    ensures { KeepsSize entry result }
{
    match is_too_large(alloc, &entry) {
        Ok(false) => Ok(entry),
        Ok(true) => {
            drop(entry);
            Err(Stop::Refused(Why::BadValue))
        }
        Err(_) => {
            drop(entry);
            Err(Stop::NoMemory)
        }
    }
}

// The entry of a value at a place, where it isn't too large.
fn small_entry(alloc: Global, place: &RegistryPlace, value: RegValue) -> Result<Entry, Stop>
    ensures right { IsPlace place.now }
    ensures size { KeepsSize (value_entry place.now value) result }
{
    match entry_of(alloc, place, value) {
        Ok(entry) => small_enough(alloc, entry),
        Err(_) => Err(Stop::NoMemory),
    }
}

/// The entry that a text makes at a place, over the value that stands there (Registry table, column Value).
pub fn value_at(
    alloc: Global,
    image: &Image,
    place: &RegistryPlace,
    text: &str,
) -> Result<Entry, Stop>
    ensures { (held files : Map (List ℕ)) → MakesValue (machine_over held files image.now) place.now text.now result }
{
    match new_value(alloc, image, place, text) {
        Ok(value) => small_entry(alloc, place, value),
        Err(stop) => Err(stop),
    }
}
