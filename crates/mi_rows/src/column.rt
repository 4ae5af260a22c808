//! How a table is described: its columns, what they hold, and the rules that their values meet.

/// What a column holds (Column Data Types).
#[derive(Clone, Copy)]
pub enum Kind {
    /// Any text.
    Text,
    /// The name of a file: a long name, or a short and a long one joined by `|` (Filename).
    Name,
    /// A name in which `*` and `?` may stand (WildCardFilename).
    Pattern,
    /// Formatted text, which is read when it is expanded (Formatted).
    Formatted,
    /// A condition (Condition).
    Condition,
    /// A code in braces (GUID).
    Code,
    /// An integer (Integer; DoubleInteger).
    Integer,
}

impl Kind {
    ghost use Rattle.std.specs.Prelude.{◌≡◌};
    ghost use Rattle.mi_rows.specs.Values.{takes_any};

    /// Whether each field that a column of this kind can hold is of it: any text, or an integer.
    pub(crate) fn takes_any(self) -> bool
        ensures { result ≡ takes_any self }
    {
        matches!(self, Kind::Text | Kind::Formatted | Kind::Integer)
    }
}

/// What the values of a column meet beside their kind. A null meets every rule but `OneRoot` and `WordCount`.
#[derive(Clone, Copy)]
pub enum Rule {
    /// No further rule.
    Free,
    /// The name of a property (Property table).
    PropertyName,
    /// A code that isn't all zeros for ProductCode, a version for ProductVersion, a number up to 65535 for
    /// ProductLanguage (Property table).
    PropertyValue,
    /// There is no second root row (Directory table).
    OneRoot,
    /// `target:source` or one part for both, each a name or `.`; a root row's isn't checked (Directory table).
    DefaultDir,
    /// A code that no earlier row has (this project's own).
    NewCode,
    /// An integer without these bits.
    Without(u32),
    /// An integer from the first to the second.
    Within(i32, i32),
    /// A version, or a key of the same table (File table).
    VersionOrKey,
    /// At most 65,535 numbers up to 65535 joined by `,` (Language).
    Languages,
    /// A decimal number for property 15 (Word Count Summary property).
    WordCount,
}

/// A column of a known table.
#[derive(Clone, Copy)]
pub struct Column {
    pub name: &'static str,
    pub kind: Kind,
    pub nullable: bool,
    pub key: bool,
    pub rule: Rule,
}

/// A table as this project knows it; one that is refused has no columns here.
#[derive(Clone, Copy)]
pub struct Layout {
    pub name: &'static str,
    pub columns: &'static [Column],
}
