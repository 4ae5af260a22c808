//! What stands between the operators of a condition, and the operators.

ghost use Rattle.std.specs.Prelude.{◌≡◌};

use mi_text::Sign;
use std::marker::Model;

/// An operator between conditions (Conditional Statement Syntax, "Logical Operators").
#[derive(Clone, Copy)]
pub enum Operator {
    And,
    Or,
    Xor,
    Eqv,
    Imp,
}

/// What a comparison asks of its two sides (Conditional Statement Syntax, "Comparison Operators",
/// "Substring Operators" and "Bitwise Numeric Operators").
#[derive(Clone, Copy)]
pub enum Relation {
    /// `=`
    Equal,
    /// `<>`
    NotEqual,
    /// `>`
    Greater,
    /// `>=`
    GreaterOrEqual,
    /// `<`
    Less,
    /// `<=`
    LessOrEqual,
    /// `><`: the left text contains the right one, or both numbers have a bit in common.
    Contains,
    /// `<<`: the left text begins with the right one, or the high half of the left number is the right one.
    BeginsWith,
    /// `>>`: the left text ends with the right one, or the low half of the left number is the right one.
    EndsWith,
}

/// An operator of comparison: what it asks, and whether it has `~` in front, which folds case.
#[derive(Clone, Copy)]
pub struct Comparison {
    pub relation: Relation,
    pub folds: bool,
}

/// A name, where it stands in the text of a condition.
#[derive(Drop)]
pub struct Name<'t> {
    text: &'t str,
}

impl<'t> Model for Name<'t> {
    ghost use Rattle.std.specs.Prelude.{List, ℕ};

    ghost Value = { List ℕ };

    ghost view = { λ n. n.text.now };
}

impl<'t> Name<'t> {
    /// The name that a text is.
    pub fn of(text: &'t str) -> Name<'t>
        ensures { result ≡ text.now }
    {
        Name { text }
    }

    /// The name as a text.
    pub fn as_str(&self) -> &'t str
        ensures { result.now ≡ self.now }
    {
        self.text
    }
}

/// What stands between two `"`, in UTF-8, where it stands in the text of a condition.
#[derive(Drop)]
pub struct Literal<'t> {
    bytes: &'t [u8],
}

impl<'t> Model for Literal<'t> {
    ghost use Rattle.std.specs.Prelude.{List, ℕ};

    ghost Value = { List ℕ };

    ghost view = { λ l. l.bytes.now };
}

impl<'t> Literal<'t> {
    /// The literal of these bytes.
    pub fn of(bytes: &'t [u8]) -> Literal<'t>
        ensures { result ≡ bytes.now }
    {
        Literal { bytes }
    }

    /// Its bytes.
    pub fn as_bytes(&self) -> &'t [u8]
        ensures { result.now ≡ self.now }
    {
        self.bytes
    }
}

/// A side of a comparison, or a value that stands alone.
#[derive(Drop)]
pub enum Value<'t> {
    /// A property by its name.
    Property(Name<'t>),
    /// `%` and the name of an environment variable.
    Variable(Name<'t>),
    /// `$`, `?`, `&` or `!` and the key of a component or a feature.
    State(Sign, Name<'t>),
    /// What stands between two `"`.
    Literal(Literal<'t>),
    Integer(i32),
}
