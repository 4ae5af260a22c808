//! Expanded columns of a row.

ghost use Rattle.std.specs.Prelude.{◌≡◌, ℕ, List, Ok, Result, IfOk, true};
ghost use Rattle.mi_base.specs.declared.answers.Fault.{Fault};
ghost use Rattle.mi_base.specs.Limits.{is_key, is_value_name};
ghost use Rattle.mi_model.specs.Parents.{parts_of, key_text};
ghost use Rattle.mi_model.specs.Refusals.{expanded};
ghost use Rattle.mi_model.specs.RegistryRows.{good_key, good_name};
ghost use Rattle.mi_records.specs.Columns.{judged_name, key_of, name_of};
ghost use Rattle.mi_records.specs.Stops.{Answers, AnswersWithin};

use crate::parts::{is_key, is_value_name, without_empty_parts};
use crate::stop::{Stop, Why};
use mi_base::Text;
use mi_format::{BoundedEnv, LimitError, LimitFault, expand_within};
use std::alloc::Global;

// No longer text of a key or a value is put together.
const LONGEST_TEXT: usize = 67_108_864;

// The longest name of a value.
const LONGEST_NAME: usize = 500;

// An expanded text, where it has at most so many bytes (Formatted).
fn expanded<E: BoundedEnv>(
    alloc: Global,
    env: &E,
    text: &str,
    limit: usize,
) -> Result<Option<Text>, Stop>
    ensures { (table : List ℕ) (row : ℕ) → AnswersWithin limit table row (expanded (E.lookups env.now) table row text.now) result }
{
    match expand_within(alloc, text, env, limit) {
        Ok(text) => Ok(Some(text)),
        Err(LimitError::NoMemory) => Err(Stop::NoMemory),
        Err(LimitError::Fault(LimitFault::TooDeep)) => Err(Stop::Refused(Why::TooDeep)),
        Err(LimitError::Fault(LimitFault::TooLong)) => Ok(None),
    }
}

// The text, or want of memory where it is too long.
fn whole(text: Option<Text>) -> Result<Text, Stop>
    ensures { (limit : ℕ) (table : List ℕ) (row : ℕ) (does : Result (List ℕ) Fault) → AnswersWithin limit table row does (Ok text) → Answers table row does result }
{
    match text {
        Some(text) => Ok(text),
        None => Err(Stop::NoMemory),
    }
}

/// An expanded text. One of more than 67,108,864 bytes is want of memory.
pub fn whole_text<E: BoundedEnv>(alloc: Global, env: &E, text: &str) -> Result<Text, Stop>
    ensures { (table : List ℕ) (row : ℕ) → Answers table row (expanded (E.lookups env.now) table row text.now) result }
{
    match expanded(alloc, env, text, LONGEST_TEXT) {
        Ok(text) => whole(text),
        Err(stop) => Err(stop),
    }
}

// The key, where it is one.
fn good_key(key: Text) -> Result<Text, Stop>
    ensures value { (table text : List ℕ) (row : ℕ) → key ≡ key_text (parts_of text) → Answers table row (good_key table row text) result }
    ensures right { IfOk result (λ key. is_key key ≡ true) }
{
    if is_key(key.as_str()) {
        Ok(key)
    } else {
        Err(Stop::Refused(Why::BadKey))
    }
}

// The key that an expanded text is without its empty parts.
fn key_in(alloc: Global, text: &str) -> Result<Text, Stop>
    ensures value { (table : List ℕ) (row : ℕ) → Answers table row (good_key table row text.now) result }
    ensures right { IfOk result (λ key. is_key key ≡ true) }
{
    match without_empty_parts(alloc, text) {
        Ok(key) => good_key(key),
        Err(_) => Err(Stop::NoMemory),
    }
}

/// An expanded key without its empty parts (Registry table, column Key).
pub fn whole_key<E: BoundedEnv>(alloc: Global, env: &E, key: &str) -> Result<Text, Stop>
    ensures value { (table : List ℕ) (row : ℕ) → Answers table row (key_of (E.lookups env.now) table row key.now) result }
    ensures right { IfOk result (λ key. is_key key ≡ true) }
{
    match whole_text(alloc, env, key) {
        Ok(text) => key_in(alloc, text.as_str()),
        Err(stop) => Err(stop),
    }
}

// The name, where it is one.
fn judged(name: Text) -> Result<Text, Stop>
    ensures value { (table : List ℕ) (row : ℕ) → Answers table row (good_name table row name) result }
    ensures right { IfOk result (λ name. is_value_name name ≡ true) }
{
    if is_value_name(name.as_str()) {
        Ok(name)
    } else {
        Err(Stop::Refused(Why::BadKey))
    }
}

// The name, where it is one and isn't too long.
fn good_name(name: Option<Text>) -> Result<Text, Stop>
    ensures value { (table : List ℕ) (row : ℕ) (does : Result (List ℕ) Fault) → AnswersWithin 500 table row does (Ok name) → Answers table row (judged_name table row does) result }
    ensures right { IfOk result (λ name. is_value_name name ≡ true) }
{
    match name {
        Some(name) => judged(name),
        None => Err(Stop::Refused(Why::BadKey)),
    }
}

// The expanded name of a value.
fn some_name<E: BoundedEnv>(alloc: Global, env: &E, name: &str) -> Result<Text, Stop>
    ensures value { (table : List ℕ) (row : ℕ) → Answers table row (judged_name table row (expanded (E.lookups env.now) table row name.now)) result }
    ensures right { IfOk result (λ name. is_value_name name ≡ true) }
{
    match expanded(alloc, env, name, LONGEST_NAME) {
        Ok(name) => good_name(name),
        Err(stop) => Err(stop),
    }
}

/// The expanded name of a value, which is empty where it is null (Registry table, column Name).
pub fn whole_name<E: BoundedEnv>(alloc: Global, env: &E, name: &Option<Text>) -> Result<Text, Stop>
    ensures value { (table : List ℕ) (row : ℕ) → Answers table row (name_of (E.lookups env.now) table row name.now) result }
    ensures right { IfOk result (λ name. is_value_name name ≡ true) }
{
    match name {
        Some(name) => some_name(alloc, env, name.as_str()),
        None => judged(Text::new(alloc)),
    }
}
