//! Lists in public records, which contracts see as lists.

ghost use Rattle.std.specs.Prelude.{◌≡◌, ◌==◌, [], ◌∷◌, ◌++◌, OnOk, OnErr, length, nat_eq};
ghost use Rattle.std.proofs.Common.{rules};
ghost use Rattle.std.specs.Hash as fed;
ghost use Rattle.std.specs.Hash.{items_Alike};
ghost use Rattle.std.specs.Cmp.{partial_order_from_own_ties};
ghost use Rattle.std.specs.Cmp.Lexicographic.{pointwise, slice_cmp, lists_ties, texts_ties};
ghost use Rattle.std.specs.Cmp.Rules.{comparing, hashing};
ghost use Rattle.std.specs.Ordering.{nat_cmp, as_partial_cmp};

use mi_text::{NoMemory, Text};
use std::alloc::Global;
use std::cmp::Ordering;
use std::hash::{Hash, Hasher};
use std::marker::Model;

/// Texts in order.
#[derive(Drop)]
pub struct Texts {
    items: Vec<Text>,
}

impl Model for Texts {
    ghost use Rattle.std.specs.Prelude.{List, ℕ};

    ghost Value = { List (List ℕ) };

    ghost view = { λ t. t.items.items };
}

impl Texts {
    /// No texts, which takes no memory.
    pub fn new(alloc: Global) -> Texts
        ensures { result ≡ [] }
    {
        Texts {
            items: Vec::new(alloc),
        }
    }

    /// The texts of a vector, which is moved.
    pub fn from_vec(items: Vec<Text>) -> Texts
        ensures { result ≡ items.items }
    {
        Texts { items }
    }

    /// The vector of the texts, which is moved.
    pub fn into_vec(self) -> Vec<Text>
        ensures { result.items ≡ self }
    {
        self.items
    }

    /// The texts as a slice.
    pub fn as_slice(&self) -> &[Text]
        ensures { result.now ≡ self.now }
    {
        self.items.as_slice()
    }

    /// The number of texts.
    pub fn len(&self) -> usize
        ensures { result ≡ length self.now }
    {
        self.items.len()
    }

    /// Whether there are no texts.
    pub fn is_empty(&self) -> bool
        ensures { result ≡ (length self.now == 0) }
    {
        self.items.is_empty()
    }

    /// Adds a text at the end.
    pub fn push(&mut self, text: Text) -> Result<(), NoMemory>
        ensures ok { OnOk result (self.new ≡ self.old ++ text ∷ []) }
        ensures err { OnErr result (self.new ≡ self.old) }
    {
        self.items.push(text)?;
        Ok(())
    }
}

impl PartialEq for Texts {
    ghost eq = { pointwise (pointwise nat_eq) };

    ghost laws = { Prim.search (comparing, rules) };

    fn eq(&self, other: &Texts) -> bool {
        self.as_slice() == other.as_slice()
    }
}

impl Eq for Texts {
    ghost laws = { Prim.search (comparing, rules) };
}

impl PartialOrd for Texts {
    ghost partial_cmp = { as_partial_cmp (slice_cmp (slice_cmp nat_cmp)) };

    ghost laws = { partial_order_from_own_ties (Prim.search (comparing, rules)) (lists_ties (slice_cmp nat_cmp) texts_ties) };

    fn partial_cmp(&self, other: &Texts) -> Option<Ordering> {
        Some(self.cmp(other))
    }
}

impl Ord for Texts {
    ghost cmp = { slice_cmp (slice_cmp nat_cmp) };

    ghost total = { Prim.search (comparing, rules) };

    ghost matches_partial_cmp = { Prim.search (comparing, rules) };

    ghost matches_eq = { lists_ties (slice_cmp nat_cmp) texts_ties };

    fn cmp(&self, other: &Texts) -> Ordering {
        self.as_slice().cmp(other.as_slice())
    }
}

impl Hash for Texts {
    ghost hash_input = { fed.slice fed.str };

    ghost respects_eq = { (items_Alike {E = pointwise nat_eq} {F = fed.str} (record { fed = Prim.search (hashing, rules) })).fed };

    fn hash<H: Hasher>(&self, state: &mut H) {
        self.as_slice().hash(state);
    }
}

/// Languages in order (File table, column Language).
#[derive(Drop)]
pub struct Languages {
    items: Vec<u16>,
}

impl Model for Languages {
    ghost use Rattle.std.specs.Prelude.{List, ℕ};

    ghost Value = { List ℕ };

    ghost view = { λ l. l.items.items };
}

impl Languages {
    /// No languages, which takes no memory.
    pub fn new(alloc: Global) -> Languages
        ensures { result ≡ [] }
    {
        Languages {
            items: Vec::new(alloc),
        }
    }

    /// The languages of a vector, which is moved.
    pub fn from_vec(items: Vec<u16>) -> Languages
        ensures { result ≡ items.items }
    {
        Languages { items }
    }

    /// The vector of the languages, which is moved.
    pub fn into_vec(self) -> Vec<u16>
        ensures { result.items ≡ self }
    {
        self.items
    }

    /// The languages as a slice.
    pub fn as_slice(&self) -> &[u16]
        ensures { result.now ≡ self.now }
    {
        self.items.as_slice()
    }

    /// The number of languages.
    pub fn len(&self) -> usize
        ensures { result ≡ length self.now }
    {
        self.items.len()
    }

    /// Whether there are no languages.
    pub fn is_empty(&self) -> bool
        ensures { result ≡ (length self.now == 0) }
    {
        self.items.is_empty()
    }

    /// Adds a language at the end.
    pub fn push(&mut self, language: u16) -> Result<(), NoMemory>
        ensures ok { OnOk result (self.new ≡ self.old ++ language ∷ []) }
        ensures err { OnErr result (self.new ≡ self.old) }
    {
        self.items.push(language)?;
        Ok(())
    }
}

impl PartialEq for Languages {
    ghost eq = { pointwise nat_eq };

    ghost laws = { Prim.search (comparing, rules) };

    fn eq(&self, other: &Languages) -> bool {
        self.as_slice() == other.as_slice()
    }
}

impl Eq for Languages {
    ghost laws = { Prim.search (comparing, rules) };
}

impl PartialOrd for Languages {
    ghost partial_cmp = { as_partial_cmp (slice_cmp nat_cmp) };

    ghost laws = { partial_order_from_own_ties (Prim.search (comparing, rules)) (Prim.search (comparing, rules)) };

    fn partial_cmp(&self, other: &Languages) -> Option<Ordering> {
        Some(self.cmp(other))
    }
}

impl Ord for Languages {
    ghost cmp = { slice_cmp nat_cmp };

    ghost total = { Prim.search (comparing, rules) };

    ghost matches_partial_cmp = { Prim.search (comparing, rules) };

    ghost matches_eq = { Prim.search (comparing, rules) };

    fn cmp(&self, other: &Languages) -> Ordering {
        self.as_slice().cmp(other.as_slice())
    }
}

impl Hash for Languages {
    ghost hash_input = { fed.slice fed.u16 };

    ghost respects_eq = { Prim.search (hashing, rules) };

    fn hash<H: Hasher>(&self, state: &mut H) {
        self.as_slice().hash(state);
    }
}
