//! What stands at the front of a text.

ghost use Rattle.std.specs.Prelude.{◌≡◌, ◌<◌, ◌≤◌, [], ◌&&◌, nat_lt, true, false, take, drop, length, slice_index, Some, None, MatchOption};
ghost use Rattle.mi_text.specs.Fold.{folded};
ghost use Rattle.mi_cond.specs.Lex.{is_letter, is_name_byte, all_ops};
ghost use Rattle.mi_cond.specs.Integer.{is_digit, signed};
ghost use Rattle.mi_cond.specs.Moves.{Grows, begin, begin_name, relation_by, relation_with, begins_operator, InWord, InSymbol, InLiteral, AfterMinus, AfterTilde, InComparison};
ghost use Rattle.mi_cond.specs.Fronts.{front_length, is_plain, begun, IsNamed, digits_front, Follows, IsAt, WantsValue, WantsOperator, ComparesValue, BehindValue, Stands};

use crate::operand::{Comparison, Literal, Relation, Value};
use crate::token::{
    Mark, Token, begins_operator, is_blank, is_digit, is_letter, is_name_byte, marked_by, named,
    relation_by, relation_with, word,
};
use memchr::memchr;

/// What stands at the front of a text, behind a part of a condition.
#[derive(Drop)]
pub enum Front<'t> {
    /// A blank or a tab.
    Blank,
    /// A bracket.
    Bracket(Token<'t>),
    /// Another token, of so many bytes, with which the next byte doesn't go on.
    Token(Token<'t>, usize),
    /// The first so many bytes begin a token that may stand here, and with the next byte none does.
    Dead(usize),
    /// With the first byte no token begins that may stand here.
    Refused,
}

/// What a byte begins that is no blank and no bracket.
#[derive(Clone, Copy)]
pub enum Begun {
    Quote,
    Minus,
    Tilde,
    Digit,
    Letter,
    Symbol(Mark),
    Comparison(Relation),
    Nothing,
}

// The largest integer.
const LARGEST: u64 = 2_147_483_647;

// What a byte begins where it is a digit, a letter, a mark or a sign of comparison.
fn begun_by_name(byte: u8) -> Begun
    ensures gives { begun result byte ≡ begin_name byte }
    ensures named { IsNamed result byte }
{
    if is_digit(byte) {
        return Begun::Digit;
    }
    if is_letter(byte) {
        return Begun::Letter;
    }
    match relation_by(byte) {
        Some(relation) => Begun::Comparison(relation),
        None => match marked_by(byte) {
            Some(mark) => Begun::Symbol(mark),
            None => Begun::Nothing,
        },
    }
}

// What a byte begins that is no blank and no bracket.
fn begun_by(byte: u8) -> Begun
    requires { is_plain byte ≡ true }
    ensures gives { begun result byte ≡ begin byte }
    ensures named { IsNamed result byte }
{
    match byte {
        b'"' => Begun::Quote,
        b'-' => Begun::Minus,
        b'~' => Begun::Tilde,
        _ => begun_by_name(byte),
    }
}

// How many bytes at the front may stand in a name.
fn name_length(text: &[u8]) -> usize
    ensures { result ≡ front_length is_name_byte text.now }
{
    for (i, byte) in text.iter().enumerate() {
        if !is_name_byte(*byte) {
            return i;
        }
    }
    text.len()
}

// A keyword or a property, where a value may stand.
fn word_at(rest: &[u8]) -> Front<'_>
    requires { 0 < front_length is_name_byte rest.now }
    ensures { Follows 1 (InWord (take 1 rest.now)) WantsValue rest.now result }
{
    let n = name_length(rest);
    let token = word(&rest[..n]);
    Front::Token(token, n)
}

// An operator between conditions, where no value may stand.
fn operator_at(rest: &[u8]) -> Front<'_>
    requires begins { 0 < front_length is_name_byte rest.now }
    requires stands { begins_operator all_ops (folded (take 1 rest.now)) ≡ true }
    ensures { Follows 1 (InWord (take 1 rest.now)) WantsOperator rest.now result }
{
    let n = name_length(rest);
    for i in 1..n {
        if !begins_operator(&rest[..i + 1]) {
            return Front::Dead(i);
        }
    }
    let token = word(&rest[..n]);
    Front::Token(token, n)
}

// A mark and its name.
fn symbol_at(mark: Mark, rest: &[u8]) -> Front<'_>
    requires { 0 < length rest.now }
    ensures { Follows 1 (InSymbol mark []) WantsValue rest.now result }
{
    let name = &rest[1..];
    let n = name_length(name);
    if n == 0 {
        return Front::Dead(1);
    }
    let value = named(mark, &name[..n]);
    Front::Token(Token::Operand(value), n + 1)
}

// What stands between two `"`.
fn literal_at(rest: &[u8]) -> Front<'_>
    requires { 0 < length rest.now }
    ensures { Follows 1 (InLiteral []) WantsValue rest.now result }
{
    let text = &rest[1..];
    match memchr(b'"', text) {
        Some(n) => {
            let literal = Literal::of(&text[..n]);
            Front::Token(Token::Operand(Value::Literal(literal)), n + 2)
        }
        None => Front::Dead(rest.len()),
    }
}

fn integer<'t>(negative: bool, size: u64, n: usize) -> Front<'t>
    requires { size ≤ 2147483647 }
    ensures { result ≡ Front.Token (Token.Operand (Value.Integer (signed negative size))) n }
{
    let size = size as i32;
    let integer = if negative { -size } else { size };
    Front::Token(Token::Operand(Value::Integer(integer)), n)
}

// Digits from the place `from` on.
fn digits_at(negative: bool, rest: &[u8], from: usize) -> Front<'_>
    requires { from ≤ length rest.now }
    ensures { result ≡ digits_front negative 0 from (drop from rest.now) }
{
    let mut size: u64 = 0;
    for (i, byte) in rest[from..].iter().enumerate() {
        if !is_digit(*byte) {
            return integer(negative, size, from + i);
        }
        size = 10 * size + (*byte - b'0') as u64;
        if size > LARGEST {
            return Front::Dead(from + i);
        }
    }
    integer(negative, size, rest.len())
}

fn is_digit_at(rest: &[u8], n: usize) -> bool
    ensures { result ≡ (nat_lt n (length rest.now) && is_digit (slice_index rest.now n)) }
{
    n < rest.len() && is_digit(rest[n])
}

// `-` and digits.
fn negative_at(rest: &[u8]) -> Front<'_>
    requires { 0 < length rest.now }
    ensures { Follows 1 AfterMinus WantsValue rest.now result }
{
    if is_digit_at(rest, 1) {
        digits_at(true, rest, 1)
    } else {
        Front::Dead(1)
    }
}

// The operator that the byte at the place `n` makes longer.
fn longer(relation: Relation, rest: &[u8], n: usize) -> Option<Relation>
    ensures { MatchOption result (n < length rest.now → relation_with relation (slice_index rest.now n) ≡ None) (λ r. (n < length rest.now) × (relation_with relation (slice_index rest.now n) ≡ Some r)) }
{
    if n < rest.len() {
        relation_with(relation, rest[n])
    } else {
        None
    }
}

// An operator of comparison of which `n` bytes are read.
fn comparison_at(folds: bool, relation: Relation, rest: &[u8], n: usize) -> Front<'_>
    requires some { 0 < n }
    requires within { n ≤ length rest.now }
    ensures { Follows n (InComparison (record { relation = relation; folds = folds })) ComparesValue rest.now result }
{
    match longer(relation, rest, n) {
        Some(relation) => Front::Token(Token::Compare(Comparison { relation, folds }), n + 1),
        None => Front::Token(Token::Compare(Comparison { relation, folds }), n),
    }
}

// The operator that the byte at the place `n` begins.
fn relation_at(rest: &[u8], n: usize) -> Option<Relation>
    ensures { MatchOption result (n < length rest.now → relation_by (slice_index rest.now n) ≡ None) (λ r. (n < length rest.now) × (relation_by (slice_index rest.now n) ≡ Some r)) }
{
    if n < rest.len() {
        relation_by(rest[n])
    } else {
        None
    }
}

// `~` and an operator of comparison.
fn tilde_at(rest: &[u8]) -> Front<'_>
    requires { 0 < length rest.now }
    ensures { Follows 1 AfterTilde ComparesValue rest.now result }
{
    match relation_at(rest, 1) {
        Some(relation) => comparison_at(true, relation, rest, 2),
        None => Front::Dead(1),
    }
}

// What stands at the front where a value may stand.
fn value_at(rest: &[u8]) -> Front<'_>
    requires some { 0 < length rest.now }
    requires plain { is_plain (slice_index rest.now 0) ≡ true }
    ensures { IsAt WantsValue rest.now result }
{
    match begun_by(rest[0]) {
        Begun::Quote => literal_at(rest),
        Begun::Minus => negative_at(rest),
        Begun::Digit => digits_at(false, rest, 0),
        Begun::Letter => word_at(rest),
        Begun::Symbol(mark) => symbol_at(mark, rest),
        Begun::Tilde => Front::Refused,
        Begun::Comparison(_) => Front::Refused,
        Begun::Nothing => Front::Refused,
    }
}

fn operator_behind(rest: &[u8]) -> Front<'_>
    requires some { 0 < length rest.now }
    requires letter { is_letter (slice_index rest.now 0) ≡ true }
    ensures { IsAt WantsOperator rest.now result }
{
    if begins_operator(&rest[..1]) {
        operator_at(rest)
    } else {
        Front::Refused
    }
}

fn tilde_behind(has: bool, rest: &[u8]) -> Front<'_>
    requires some { 0 < length rest.now }
    requires begins { begin (slice_index rest.now 0) ≡ Grows AfterTilde }
    ensures { IsAt (BehindValue has) rest.now result }
{
    if has { tilde_at(rest) } else { Front::Refused }
}

fn comparison_behind(has: bool, relation: Relation, rest: &[u8]) -> Front<'_>
    requires some { 0 < length rest.now }
    requires begins { begin (slice_index rest.now 0) ≡ Grows (InComparison (record { relation = relation; folds = false })) }
    ensures { IsAt (BehindValue has) rest.now result }
{
    if has {
        comparison_at(false, relation, rest, 1)
    } else {
        Front::Refused
    }
}

// What stands at the front where no value may stand.
fn behind_value(has: bool, rest: &[u8]) -> Front<'_>
    requires some { 0 < length rest.now }
    requires plain { is_plain (slice_index rest.now 0) ≡ true }
    ensures { IsAt (BehindValue has) rest.now result }
{
    match begun_by(rest[0]) {
        Begun::Letter => operator_behind(rest),
        Begun::Tilde => tilde_behind(has, rest),
        Begun::Comparison(relation) => comparison_behind(has, relation, rest),
        Begun::Quote => Front::Refused,
        Begun::Minus => Front::Refused,
        Begun::Digit => Front::Refused,
        Begun::Symbol(_) => Front::Refused,
        Begun::Nothing => Front::Refused,
    }
}

/// What stands at the front of a text, where `wants` says whether a value may stand there, and `has` whether an
/// operator of comparison may.
pub fn front_of(wants: bool, has: bool, rest: &[u8]) -> Front<'_>
    requires { 0 < length rest.now }
    ensures { IsAt (Stands wants has) rest.now result }
{
    let byte = rest[0];
    if is_blank(byte) {
        return Front::Blank;
    }
    if byte == b'(' {
        return Front::Bracket(Token::Open);
    }
    if byte == b')' {
        return Front::Bracket(Token::Close);
    }
    if wants {
        value_at(rest)
    } else {
        behind_value(has, rest)
    }
}
