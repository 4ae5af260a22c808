//! A text that contracts see as a list of bytes. What it is kept in, a string of its own or a part of one that other
//! texts share, they don't see.

ghost use Rattle.std.specs.Prelude.{◌≡◌, ◌==◌, ◌≤◌, ◌++◌, [], IfOk, OnOk, OnErr, IsTrue, length, string_bytes, slice_range};
ghost use Rattle.std.specs.Str.{IsUtf8, IsCharBoundary};
ghost use Rattle.std.specs.Prelude.{nat_eq};
ghost use Rattle.std.proofs.Common.{rules};
ghost use Rattle.std.specs.Hash as fed;
ghost use Rattle.std.specs.Cmp.{partial_order_from_own_ties};
ghost use Rattle.std.specs.Cmp.Lexicographic.{pointwise, slice_cmp};
ghost use Rattle.std.specs.Cmp.Rules.{comparing, hashing};
ghost use Rattle.std.specs.Ordering.{nat_cmp, as_partial_cmp};
ghost use Rattle.mi_text.specs.Fold.{folded};

use std::alloc::{AllocError, AllocFailed, Global};
use std::cmp::Ordering;
use std::hash::{Hash, Hasher};
use std::marker::Model;
use std::rc::Rc;

/// Memory ran out.
#[derive(Clone, Copy)]
pub struct NoMemory;

impl From<AllocError> for NoMemory {
    fn from(_e: AllocError) -> NoMemory {
        NoMemory
    }
}

impl<T: Drop> From<AllocFailed<T>> for NoMemory {
    fn from(_e: AllocFailed<T>) -> NoMemory {
        NoMemory
    }
}

/// A string that other texts share, and the places in it, in bytes, from which to which a text stands.
#[derive(Drop)]
struct Part {
    whole: Rc<String>,
    start: usize,
    end: usize,
}

/// What a text is kept in. It has two words, so `Short` has a length of two bytes, and longer parts are boxed.
#[derive(Drop)]
enum Held {
    /// Nothing: an empty text.
    Nowhere,
    /// A string of its own.
    Own(Box<String>),
    /// So many bytes from a place on of a string that other texts share.
    Short(u16, u32, Rc<String>),
    /// A part that is longer, or lies further behind.
    Long(Box<Part>),
}

/// A text in UTF-8.
#[derive(Drop)]
pub struct Text {
    alloc: Global,
    held: Held,
}

impl Model for Text {
    ghost use Rattle.std.specs.Prelude.{List, ℕ};
    ghost use Rattle.mi_text.specs.Held.{bytes_held, IsHeld};

    ghost Value = { List ℕ };

    ghost view = { λ t. bytes_held t.held };

    ghost invariant = { λ t. IsHeld t.held };
}

/// Whether a text is that between two places of a longer one.
fn stands(whole: &str, start: usize, end: usize, text: &str) -> bool
    ensures order { IsTrue result → start ≤ end }
    ensures first { IsTrue result → IsCharBoundary whole.now start }
    ensures last { IsTrue result → IsCharBoundary whole.now end }
    ensures text { IsTrue result → slice_range whole.now start end ≡ text.now }
{
    start <= end
        && whole.is_char_boundary(start)
        && whole.is_char_boundary(end)
        && &whole[start..end] == text
}

impl Text {
    /// An empty text, which takes no memory.
    #[tactic(auto, unfolding(crate::specs::Held::bytes_held, crate::specs::Held::IsHeld))]
    pub fn new(alloc: Global) -> Text
        ensures { result ≡ [] }
    {
        Text {
            alloc,
            held: Held::Nowhere,
        }
    }

    /// The text of a string, which is moved.
    #[tactic(auto, unfolding(crate::specs::Held::bytes_held, crate::specs::Held::IsHeld))]
    pub fn from_string(alloc: Global, string: String) -> Result<Text, NoMemory>
        ensures { IfOk result (λ t. t ≡ string_bytes string) }
    {
        let held = Held::Own(Box::new(alloc, string)?);
        Ok(Text { alloc, held })
    }

    /// A copy of a text.
    pub fn copy_of(alloc: Global, text: &str) -> Result<Text, NoMemory>
        ensures { IfOk result (λ t. t ≡ text.now) }
    {
        if text.is_empty() {
            return Ok(Text::new(alloc));
        }
        let string = String::from_str(alloc, text)?;
        Text::from_string(alloc, string)
    }

    /// The text that stands in a string from a place on, in bytes: that part of the string, which stays as long as a text
    /// has part of it; a copy of the text where it doesn't stand there.
    #[tactic(auto, unfolding(crate::specs::Held::bytes_held, crate::specs::Held::IsHeld))]
    pub fn part_of(
        alloc: Global,
        whole: &Rc<String>,
        start: usize,
        text: &str,
    ) -> Result<Text, NoMemory>
        ensures { IfOk result (λ t. t ≡ text.now) }
    {
        let end = start.saturating_add(text.len());
        if !stands(whole.as_str(), start, end, text) {
            return Text::copy_of(alloc, text);
        }
        let whole = whole.clone()?;
        let held = if start <= u32::MAX as usize && text.len() <= u16::MAX as usize {
            Held::Short(text.len() as u16, start as u32, whole)
        } else {
            Held::Long(Box::new(alloc, Part { whole, start, end })?)
        };
        Ok(Text { alloc, held })
    }

    /// The text as a string slice.
    #[tactic(auto, unfolding(crate::specs::Held::bytes_held, crate::specs::Held::IsHeld))]
    pub fn as_str(&self) -> &str
        ensures { result.now ≡ self.now }
    {
        match &self.held {
            Held::Nowhere => "",
            Held::Own(string) => string.as_str(),
            Held::Short(length, start, whole) => {
                let start = *start as usize;
                &whole.as_str()[start..start + usize::from(*length)]
            }
            Held::Long(part) => &part.whole.as_str()[part.start..part.end],
        }
    }

    /// The text as bytes, which are UTF-8.
    pub fn as_bytes(&self) -> &[u8]
        ensures bytes { result.now ≡ self.now }
        ensures utf8 { IsUtf8 self.now }
    {
        self.as_str().as_bytes()
    }

    /// The number of bytes.
    pub fn len(&self) -> usize
        ensures { result ≡ length self.now }
    {
        self.as_str().len()
    }

    /// Whether there are no bytes.
    pub fn is_empty(&self) -> bool
        ensures { result ≡ (length self.now == 0) }
    {
        self.as_str().is_empty()
    }

    /// Adds a text at the end. A part of a string that others share becomes a string of its own first.
    #[tactic(auto, unfolding(crate::specs::Held::bytes_held, crate::specs::Held::IsHeld))]
    pub fn push_str(&mut self, text: &str) -> Result<(), NoMemory>
        ensures ok { OnOk result (self.new ≡ self.old ++ text.now) }
        ensures err { OnErr result (self.new ≡ self.old) }
    {
        if let Held::Own(string) = &mut self.held {
            string.push_str(text)?;
            return Ok(());
        }
        let mut string = String::from_str(self.alloc, self.as_str())?;
        string.push_str(text)?;
        *self = Text::from_string(self.alloc, string)?;
        Ok(())
    }
}

/// The text with ASCII upper-case letters made lower-case.
pub fn fold(alloc: Global, text: &str) -> Result<Text, NoMemory>
    ensures { IfOk result (λ t. t ≡ folded text.now) }
{
    let string = text.to_ascii_lowercase(alloc)?;
    Text::from_string(alloc, string)
}

impl PartialEq for Text {
    ghost eq = { pointwise nat_eq };

    ghost laws = { Prim.search (comparing, rules) };

    fn eq(&self, other: &Text) -> bool {
        self.as_str() == other.as_str()
    }
}

impl Eq for Text {
    ghost laws = { Prim.search (comparing, rules) };
}

impl PartialOrd for Text {
    ghost partial_cmp = { as_partial_cmp (slice_cmp nat_cmp) };

    ghost laws = { partial_order_from_own_ties (Prim.search (comparing, rules)) (Prim.search (comparing, rules)) };

    fn partial_cmp(&self, other: &Text) -> Option<Ordering> {
        Some(self.cmp(other))
    }
}

impl Ord for Text {
    ghost cmp = { slice_cmp nat_cmp };

    ghost total = { Prim.search (comparing, rules) };

    ghost matches_partial_cmp = { Prim.search (comparing, rules) };

    ghost matches_eq = { Prim.search (comparing, rules) };

    // As texts, which std compares eight bytes at a time.
    fn cmp(&self, other: &Text) -> Ordering {
        self.as_str().cmp(other.as_str())
    }
}

impl Hash for Text {
    ghost hash_input = { fed.str };

    ghost respects_eq = { Prim.search (hashing, rules) };

    fn hash<H: Hasher>(&self, state: &mut H) {
        self.as_str().hash(state);
    }
}
