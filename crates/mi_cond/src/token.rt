//! The tokens of a condition.

ghost use Rattle.std.specs.Prelude.{◌≡◌, true};
ghost use Rattle.std.specs.Str.{bytes_eq};
ghost use Rattle.mi_text.specs.Fold.{folded};
ghost use Rattle.mi_cond.specs.Integer.{is_digit};
ghost use Rattle.mi_cond.specs.Lex.{is_blank, is_letter, is_name_byte, are_name_bytes, all_ops, operator_in, is_keyword};
ghost use Rattle.mi_cond.specs.Moves.{marked_by, relation_by, relation_with, begins_with, begins_operator, word, named};

use crate::operand::{Comparison, Name, Operator, Relation, Value};
use mi_text::Sign;

/// A token: a bracket, a keyword, an operator of comparison, or a value.
#[derive(Drop)]
pub enum Token<'t> {
    Open,
    Close,
    Negate,
    Join(Operator),
    Compare(Comparison),
    Operand(Value<'t>),
}

/// What stands before a name that is no property.
#[derive(Clone, Copy)]
pub enum Mark {
    Variable,
    State(Sign),
}

/// Whether a byte is a blank or a tab.
pub const fn is_blank(byte: u8) -> bool
    ensures { result ≡ is_blank byte }
{
    byte == b' ' || byte == b'\t'
}

/// Whether a byte is a decimal digit.
pub const fn is_digit(byte: u8) -> bool
    ensures { result ≡ is_digit byte }
{
    matches!(byte, b'0'..=b'9')
}

/// Whether a byte is a letter or `_`.
pub const fn is_letter(byte: u8) -> bool
    ensures { result ≡ is_letter byte }
{
    matches!(byte, b'A'..=b'Z' | b'a'..=b'z' | b'_')
}

/// Whether a byte may stand in a name.
pub const fn is_name_byte(byte: u8) -> bool
    ensures { result ≡ is_name_byte byte }
{
    is_letter(byte) || is_digit(byte) || byte == b'.'
}

/// The mark that a byte is.
pub const fn marked_by(byte: u8) -> Option<Mark>
    ensures { result ≡ marked_by byte }
{
    match byte {
        b'%' => Some(Mark::Variable),
        b'$' => Some(Mark::State(Sign::Action)),
        b'?' => Some(Mark::State(Sign::Installed)),
        b'&' => Some(Mark::State(Sign::FeatureAction)),
        b'!' => Some(Mark::State(Sign::FeatureInstalled)),
        _ => None,
    }
}

/// The operator that a byte begins.
pub const fn relation_by(byte: u8) -> Option<Relation>
    ensures { result ≡ relation_by byte }
{
    match byte {
        b'=' => Some(Relation::Equal),
        b'<' => Some(Relation::Less),
        b'>' => Some(Relation::Greater),
        _ => None,
    }
}

/// The longer operator.
pub const fn relation_with(relation: Relation, byte: u8) -> Option<Relation>
    ensures { result ≡ relation_with relation byte }
{
    match relation {
        Relation::Less => match byte {
            b'=' => Some(Relation::LessOrEqual),
            b'<' => Some(Relation::BeginsWith),
            b'>' => Some(Relation::NotEqual),
            _ => None,
        },
        Relation::Greater => match byte {
            b'=' => Some(Relation::GreaterOrEqual),
            b'<' => Some(Relation::Contains),
            b'>' => Some(Relation::EndsWith),
            _ => None,
        },
        _ => None,
    }
}

// Whether a text is this word, in either case.
fn is_word(text: &[u8], word: &[u8]) -> bool
    ensures { result ≡ bytes_eq (folded text.now) (folded word.now) }
{
    text.eq_ignore_ascii_case(word)
}

// Whether a word begins so, in either case.
fn begins_word(word: &[u8], front: &[u8]) -> bool
    ensures { result ≡ begins_with (folded word.now) (folded front.now) }
{
    front.len() <= word.len() && is_word(&word[..front.len()], front)
}

/// Whether some operator between conditions begins so, in either case.
pub fn begins_operator(front: &[u8]) -> bool
    ensures { result ≡ begins_operator all_ops (folded front.now) }
{
    begins_word(b"and", front)
        || begins_word(b"or", front)
        || begins_word(b"xor", front)
        || begins_word(b"eqv", front)
        || begins_word(b"imp", front)
}

// The operator between conditions that a name is.
fn operator_of(name: &[u8]) -> Option<Operator>
    ensures { result ≡ operator_in all_ops (folded name.now) }
{
    if is_word(name, b"and") {
        Some(Operator::And)
    } else if is_word(name, b"or") {
        Some(Operator::Or)
    } else if is_word(name, b"xor") {
        Some(Operator::Xor)
    } else if is_word(name, b"eqv") {
        Some(Operator::Eqv)
    } else if is_word(name, b"imp") {
        Some(Operator::Imp)
    } else {
        None
    }
}

/// Whether a name is a keyword.
pub fn is_keyword(name: &[u8]) -> bool
    ensures { result ≡ is_keyword name.now }
{
    is_word(name, b"not") || operator_of(name).is_some()
}

// A name as a text.
fn name_of(name: &[u8]) -> Name<'_>
    requires { are_name_bytes name.now ≡ true }
    ensures { result ≡ name.now }
{
    match str::from_utf8(name) {
        Ok(text) => Name::of(text),
        Err(_) => unreachable!(),
    }
}

/// A keyword, or a property.
pub fn word(name: &[u8]) -> Token<'_>
    requires { are_name_bytes name.now ≡ true }
    ensures { result ≡ word name.now }
{
    if is_word(name, b"not") {
        return Token::Negate;
    }
    match operator_of(name) {
        Some(operator) => Token::Join(operator),
        None => Token::Operand(Value::Property(name_of(name))),
    }
}

/// The value that a mark and a name are.
pub fn named(mark: Mark, name: &[u8]) -> Value<'_>
    requires { are_name_bytes name.now ≡ true }
    ensures { result ≡ named mark name.now }
{
    let name = name_of(name);
    match mark {
        Mark::Variable => Value::Variable(name),
        Mark::State(sign) => Value::State(sign, name),
    }
}
