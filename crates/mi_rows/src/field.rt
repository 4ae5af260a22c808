//! What a row holds: the texts of its fields, and the values that they are.

ghost use Rattle.std.specs.Prelude.{◌≡◌, None, option_map, IfSome, IfNone};
ghost use Rattle.std.specs.Option.{option_copied};
ghost use Rattle.mi_text.specs.Guid.{guid_of};
ghost use Rattle.mi_idt.specs.Means.{text_shown};
ghost use Rattle.mi_rows.specs.Fields.{field_value, values_of, number_of};
ghost use Rattle.mi_rows.specs.Typed.{some_number_in, some_code_in};
ghost use Rattle.mi_rows.specs.Values.{cell_at, text_in, text_at, number_at, code_of};
ghost use Rattle.mi_rows.specs.declared.field.FieldError.TheVariants.{NoMemory as no_memory};

use crate::column::Kind;
use mi_base::{Guid, NoMemory};
use mi_idt::integer_within;

/// A field of a row: what its column holds, its text, unescaped, which is empty where it is null, and where it begins in
/// the text of its table, in bytes.
#[derive(Clone, Copy)]
pub struct Field<'a> {
    pub kind: Kind,
    pub text: &'a str,
    pub start: usize,
}

/// Why a field isn't a value of its column.
#[derive(Clone, Copy)]
pub enum Bad {
    /// It isn't of the kind, or breaks the rule.
    Value,
    /// No condition goes on from this place.
    Condition(u64),
}

/// Why a field isn't read.
#[derive(Clone, Copy)]
pub enum FieldError {
    NoMemory,
    Bad(Bad),
}

impl From<NoMemory> for FieldError {
    ghost from_gives = { λ _ e. e ≡ no_memory };

    fn from(_e: NoMemory) -> FieldError {
        FieldError::NoMemory
    }
}

/// The text of a field that isn't null.
pub fn shown<'r>(field: &'r Field<'_>) -> Option<&'r str>
    ensures { option_copied result ≡ text_shown field.now.text.now }
{
    if field.text.is_empty() {
        None
    } else {
        Some(field.text)
    }
}

/// The integer that a text spells; 0 where it spells none.
fn integer_of(text: &str) -> i32
    ensures { result ≡ number_of text.now }
{
    match integer_within(text.as_bytes(), 2_147_483_647) {
        Some(number) => number as i32,
        None => 0,
    }
}

/// The code that a text is; all zeros where it is none.
fn code_of(text: &str) -> Guid
    ensures { result ≡ code_of (guid_of text.now) }
{
    match Guid::read(text) {
        Ok(code) => code,
        Err(_) => Guid { number: 0 },
    }
}

/// The text of a field, where its value is one.
pub fn some_text<'r>(field: &'r Field<'_>) -> Option<&'r str>
    ensures { option_copied result ≡ text_in (field_value field.now) }
{
    match field.kind {
        Kind::Integer | Kind::Code => None,
        _ => shown(field),
    }
}

/// The number of a field, where its value is one.
pub fn some_number(field: &Field) -> Option<i32>
    ensures { result ≡ some_number_in (field_value field.now) }
{
    match (field.kind, shown(field)) {
        (Kind::Integer, Some(text)) => Some(integer_of(text)),
        _ => None,
    }
}

/// The code of a field, where its value is one.
pub fn some_code(field: &Field) -> Option<Guid>
    ensures { result ≡ some_code_in (field_value field.now) }
{
    match (field.kind, shown(field)) {
        (Kind::Code, Some(text)) => Some(code_of(text)),
        _ => None,
    }
}

/// The field of a column of a row, from 0, where it is there.
fn field_at<'r, 'a>(row: &'r [Field<'a>], column: usize) -> Option<&'r Field<'a>>
    ensures some { IfSome result (λ f. cell_at (values_of row.now) column ≡ field_value f.now) }
    ensures none { IfNone result (cell_at (values_of row.now) column ≡ None) }
{
    if column < row.len() {
        Some(&row[column])
    } else {
        None
    }
}

/// The field of a column of a row, from 0, where its value is a text.
pub fn text_field_at<'r, 'a>(row: &'r [Field<'a>], column: usize) -> Option<&'r Field<'a>>
    ensures { option_map (λ f. f.text.now) (option_copied result) ≡ text_in (cell_at (values_of row.now) column) }
{
    match field_at(row, column) {
        Some(field) if some_text(field).is_some() => Some(field),
        _ => None,
    }
}

/// The text of a column of a row, from 0, where it has one.
pub fn some_text_at<'r>(row: &'r [Field<'_>], column: usize) -> Option<&'r str>
    ensures { option_copied result ≡ text_in (cell_at (values_of row.now) column) }
{
    match text_field_at(row, column) {
        Some(field) => Some(field.text),
        None => None,
    }
}

/// The text of a column of a row, from 0; empty where there is none.
pub fn text_at<'r>(row: &'r [Field<'_>], column: usize) -> &'r str
    ensures { result.now ≡ text_at (values_of row.now) column }
{
    some_text_at(row, column).unwrap_or("")
}

/// The number of a column of a row, from 0, where it has one.
pub fn some_number_at(row: &[Field], column: usize) -> Option<i32>
    ensures { result ≡ some_number_in (cell_at (values_of row.now) column) }
{
    match field_at(row, column) {
        Some(field) => some_number(field),
        None => None,
    }
}

/// The number of a column of a row, from 0; 0 where there is none.
pub fn number_at(row: &[Field], column: usize) -> i32
    ensures { result ≡ number_at (values_of row.now) column }
{
    some_number_at(row, column).unwrap_or(0)
}

/// The code of a column of a row, from 0, where it has one.
pub fn some_code_at(row: &[Field], column: usize) -> Option<Guid>
    ensures { result ≡ some_code_in (cell_at (values_of row.now) column) }
{
    match field_at(row, column) {
        Some(field) => some_code(field),
        None => None,
    }
}
