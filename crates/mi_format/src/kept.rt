//! Growing expanded text.

ghost use Rattle.std.specs.Prelude.{◌≡◌, ◌+◌, ◌++◌, nat_le, ℕ, List, [], Some, None, IfOk, encode_utf8};
ghost use Rattle.mi_format.specs.Value.{named};
ghost use Rattle.mi_format.specs.State.{Part, both, of_value, plain, part_beside, part_bracket, part_brace, part_group};
ghost use Rattle.mi_format.specs.Kept.{kept, grown, joined, kept_part, kept_beside, IsRoom};

use crate::naming::named;
use crate::part::{Brackets, Held, Kept, Look, Room};
use crate::token::Kind;
use mi_text::{Env, NoMemory, Text};
use std::alloc::Global;

impl Brackets {
    const fn and(self, other: Brackets) -> Brackets
        ensures { result ≡ both self other }
    {
        match self {
            Brackets::Unnamed => other,
            Brackets::Empty => Brackets::Empty,
            Brackets::Full => match other {
                Brackets::Unnamed | Brackets::Full => Brackets::Full,
                Brackets::Empty => Brackets::Empty,
            },
        }
    }
}

fn of_value(value: &str) -> Brackets
    ensures { result ≡ of_value value.now }
{
    if value.is_empty() {
        Brackets::Empty
    } else {
        Brackets::Full
    }
}

// Whether so many bytes and so many more are at most so many.
const fn fits(most: usize, bytes: usize, more: usize) -> bool
    ensures { result ≡ nat_le (bytes + more) most }
{
    bytes <= most && more <= most - bytes
}

// Adds a text, where it fits.
fn push_str(text: Held, most: usize, more: &str) -> Result<Held, NoMemory>
    ensures { IfOk result (λ t. t ≡ grown most text more.now) }
{
    let mut text = match text {
        Held::Whole(text) => text,
        Held::Longer(look) => return Ok(Held::Longer(look.with(more))),
    };
    if !fits(most, text.len(), more.len()) {
        return Ok(Held::Longer(Look::of(text.as_str()).with(more)));
    }
    text.push_str(more)?;
    Ok(Held::Whole(text))
}

// Adds a character, where it fits.
fn push(text: Held, most: usize, ch: char) -> Result<Held, NoMemory>
    ensures { IfOk result (λ t. t ≡ grown most text (encode_utf8 ch)) }
{
    let text = match text {
        Held::Whole(text) => text,
        Held::Longer(look) => return Ok(Held::Longer(look.with_char(ch))),
    };
    if !fits(most, text.len(), ch.len_utf8()) {
        return Ok(Held::Longer(Look::of(text.as_str()).with_char(ch)));
    }
    let mut text = text;
    text.push_str(ch.encode_utf8(&mut [0; 4]))?;
    Ok(Held::Whole(text))
}

// Adds another text.
fn push_held(text: Held, most: usize, more: &Held) -> Result<Held, NoMemory>
    ensures { IfOk result (λ t. t ≡ joined most text more.now) }
{
    let look = match more {
        Held::Whole(more) => return push_str(text, most, more.as_str()),
        Held::Longer(look) => *look,
    };
    match text {
        Held::Whole(text) => Ok(Held::Longer(Look::of(text.as_str()).on(look))),
        Held::Longer(front) => Ok(Held::Longer(front.on(look))),
    }
}

// Adds a text between two others.
fn push_between(
    text: Held,
    most: usize,
    front: &str,
    inside: &Held,
    back: &str,
) -> Result<Held, NoMemory>
    ensures { IfOk result (λ t. t ≡ grown most (joined most (grown most text front.now) inside.now) back.now) }
{
    let text = push_str(text, most, front)?;
    let text = push_held(text, most, inside)?;
    push_str(text, most, back)
}

// Adds a brace with this expanded inside.
fn push_brace(text: Held, most: usize, inside: &Kept) -> Result<Held, NoMemory>
    ensures { (before : List ℕ) (p : Part) → text ≡ kept most before → inside.now ≡ kept_part most p → IfOk result (λ t. t ≡ kept most (before ++ part_brace p.text p.brackets)) }
{
    match inside.brackets {
        Brackets::Empty => Ok(text),
        Brackets::Full => push_held(text, most, &inside.text),
        Brackets::Unnamed => push_between(text, most, "{", &inside.text, "}"),
    }
}

impl Kept {
    /// No text, which takes no memory.
    pub fn new(alloc: Global) -> Kept
        ensures { (most : ℕ) → result ≡ kept_part most (plain []) }
    {
        Kept {
            text: Held::Whole(Text::new(alloc)),
            brackets: Brackets::Unnamed,
        }
    }

    /// Adds a character.
    pub fn with_char(self, most: usize, ch: char) -> Result<Kept, NoMemory>
        ensures { IfOk result (λ k. k ≡ kept_beside most self (plain (encode_utf8 ch))) }
    {
        let Kept { text, brackets } = self;
        let text = push(text, most, ch)?;
        Ok(Kept { text, brackets })
    }

    /// Adds another text.
    pub fn beside(self, most: usize, next: Kept) -> Result<Kept, NoMemory>
        ensures { IfOk result (λ k. k ≡ record { text = joined most self.text next.text; brackets = both self.brackets next.brackets }) }
    {
        let Kept { text, brackets } = self;
        let brackets = brackets.and(next.brackets);
        let text = push_held(text, most, &next.text)?;
        Ok(Kept { text, brackets })
    }

    // Adds a bracket that names this value.
    fn with_value(self, most: usize, inside: &str, value: &str) -> Result<Kept, NoMemory>
        ensures { IfOk result (λ k. k ≡ kept_beside most self (part_bracket inside.now (Some value.now))) }
    {
        let Kept { text, brackets } = self;
        let text = push_str(text, most, value)?;
        let brackets = if inside == "~" {
            brackets
        } else {
            brackets.and(of_value(value))
        };
        Ok(Kept { text, brackets })
    }

    // Adds a bracket that names nothing.
    fn with_text(self, most: usize, inside: &Held) -> Result<Kept, NoMemory>
        ensures { (q : Part) (x : List ℕ) → self ≡ kept_part most q → inside.now ≡ kept most x → IfOk result (λ k. k ≡ kept_part most (part_beside q (part_bracket x None))) }
    {
        let Kept { text, brackets } = self;
        let text = push_between(text, most, "[", inside, "]")?;
        Ok(Kept { text, brackets })
    }

    // Adds a bracket that names an empty text.
    fn with_nothing(self) -> Kept
        ensures { result ≡ record { text = self.text; brackets = both self.brackets Brackets.Empty } }
    {
        let Kept { text, brackets } = self;
        Kept {
            text,
            brackets: brackets.and(Brackets::Empty),
        }
    }

    // Adds a bracket with this expanded inside. No name is longer than what is kept; where that isn't told, no text is
    // either, since more bytes are kept than memory has.
    fn with_bracket<E: Env>(self, room: Room, env: &E, inside: &Held) -> Result<Kept, NoMemory>
        ensures { (q : Part) (x : List ℕ) → IsRoom (E.lookups env.now) room → self ≡ kept_part room.most q → inside.now ≡ kept room.most x
            → IfOk result (λ k. k ≡ kept_part room.most (part_beside q (part_bracket x (named (E.lookups env.now) x)))) }
    {
        match inside {
            Held::Whole(name) => match named(env, name.as_str()) {
                Some(value) => self.with_value(room.most, name.as_str(), value),
                None => self.with_text(room.most, inside),
            },
            Held::Longer(_) if !room.names => Err(NoMemory),
            Held::Longer(look) if look.is_name() => Ok(self.with_nothing()),
            Held::Longer(_) => self.with_text(room.most, inside),
        }
    }

    // Adds a brace with this expanded inside.
    fn with_brace(self, most: usize, inside: &Kept) -> Result<Kept, NoMemory>
        ensures { (q p : Part) → self ≡ kept_part most q → inside.now ≡ kept_part most p → IfOk result (λ k. k ≡ kept_part most (part_beside q (plain (part_brace p.text p.brackets)))) }
    {
        let Kept { text, brackets } = self;
        let text = push_brace(text, most, inside)?;
        Ok(Kept { text, brackets })
    }

    /// Adds a group with this expanded inside.
    pub fn with_group<E: Env>(
        self,
        room: Room,
        env: &E,
        kind: Kind,
        inside: &Kept,
    ) -> Result<Kept, NoMemory>
        ensures { (q p : Part) → IsRoom (E.lookups env.now) room → self ≡ kept_part room.most q → inside.now ≡ kept_part room.most p
            → IfOk result (λ k. k ≡ kept_part room.most (part_beside q (part_group (E.lookups env.now) kind p))) }
    {
        match kind {
            Kind::Brace => self.with_brace(room.most, inside),
            Kind::Bracket => self.with_bracket(room, env, &inside.text),
        }
    }
}
