//! The values of the parts of a condition, without memory.

ghost use Rattle.std.specs.Prelude.{◌≡◌, not};
ghost use Rattle.mi_cond.specs.Value.{text_of, number_of, is_number, is_true, compare, combine, with_operand};
ghost use Rattle.mi_cond.specs.Steps.{negated_by};

use crate::compare::{compare_numbers, compare_texts, spelled_integer};
use crate::operand::{Comparison, Operator, Value};
use mi_text::Env;

impl<'t> Value<'t> {
    // The text of a side that is no integer and no state.
    fn text<'a, E: Env>(&'a self, env: &'a E) -> &'a [u8]
        ensures { result.now ≡ text_of (E.lookups env.now) self.now }
    {
        match self {
            Value::Property(name) => env.property(name.as_str()).as_bytes(),
            Value::Variable(name) => env.variable(name.as_str()).as_bytes(),
            Value::Literal(literal) => literal.as_bytes(),
            Value::State(_, _) | Value::Integer(_) => &[],
        }
    }

    fn number<E: Env>(&self, env: &E) -> Option<i32>
        ensures { result ≡ number_of (E.lookups env.now) self.now }
    {
        match self {
            Value::State(sign, name) => Some(env.state(*sign, name.as_str())),
            Value::Integer(integer) => Some(*integer),
            _ => spelled_integer(self.text(env)),
        }
    }

    fn is_number(&self) -> bool
        ensures { result ≡ is_number self.now }
    {
        matches!(self, Value::State(_, _) | Value::Integer(_))
    }

    /// Whether the value holds where it stands alone.
    pub fn is_true<E: Env>(&self, env: &E) -> bool
        ensures { result ≡ is_true (E.lookups env.now) self.now }
    {
        match self {
            Value::State(sign, name) => env.state(*sign, name.as_str()) != -1,
            Value::Integer(integer) => *integer != 0,
            _ => !self.text(env).is_empty(),
        }
    }
}

/// Whether a comparison holds.
pub fn compare<E: Env>(env: &E, comparison: Comparison, left: &Value, right: &Value) -> bool
    ensures { result ≡ compare (E.lookups env.now) comparison left.now right.now }
{
    let Comparison { relation, folds } = comparison;
    if left.is_number() || right.is_number() {
        compare_numbers(relation, left.number(env), right.number(env))
    } else {
        compare_texts(relation, folds, left.text(env), right.text(env))
    }
}

const fn combine(op: Operator, left: bool, right: bool) -> bool
    ensures { result ≡ combine op left right }
{
    match op {
        Operator::And => left && right,
        Operator::Or => left || right,
        Operator::Xor => left != right,
        Operator::Eqv => left == right,
        Operator::Imp => !left || right,
    }
}

/// A row of equal operators so far, and one operand more.
pub const fn with_operand(op: Operator, row: Option<bool>, next: bool) -> bool
    ensures { result ≡ with_operand op row next }
{
    match row {
        Some(row) => combine(op, row, next),
        None => next,
    }
}

/// A factor behind so many NOT.
pub fn negated(nots: u32, factor: bool) -> bool
    ensures { result ≡ negated_by not nots factor }
{
    let mut value = factor;
    for _ in 0..nots {
        value = !value;
    }
    value
}
