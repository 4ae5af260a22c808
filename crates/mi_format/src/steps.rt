//! The steps of the scan.

ghost use Rattle.std.specs.Prelude.{◌≡◌, ℕ, IfOk, encode_utf8};
ghost use Rattle.mi_text.specs.Lookups.{Lookups};
ghost use Rattle.mi_format.specs.declared.token.Token.TheVariants.{Open, Close};
ghost use Rattle.mi_format.specs.Tokens.{open_of, close_of};
ghost use Rattle.mi_format.specs.Scan.{State, start, step, closed};
ghost use Rattle.mi_format.specs.State.{Part, parts, plain};
ghost use Rattle.mi_format.specs.Kept.{kept, kept_state, kept_beside, is_past, IsRoom};
ghost use Rattle.mi_format.specs.Marks.{frames_of, state_of};

use crate::part::{Held, Kept, Room};
use crate::scan::{OpenMark, Scan};
use crate::token::{Kind, Token};
use mi_text::{Env, NoMemory};
use std::alloc::Global;

const fn open_char(kind: Kind) -> char
    ensures { result ≡ open_of kind }
{
    match kind {
        Kind::Bracket => '[',
        Kind::Brace => '{',
    }
}

const fn close_char(kind: Kind) -> char
    ensures { result ≡ close_of kind }
{
    match kind {
        Kind::Bracket => ']',
        Kind::Brace => '}',
    }
}

impl Scan {
    /// Nothing is read.
    pub fn new(alloc: Global) -> Scan
        ensures { (L : Lookups) (most : ℕ) → state_of result ≡ kept_state most (start (parts L)) }
    {
        Scan {
            marks: Vec::new(alloc),
            current: Kept::new(alloc),
        }
    }

    fn open(self, alloc: Global, kind: Kind) -> Result<Scan, NoMemory>
        ensures { (L : Lookups) (most : ℕ) (full : State Part) → state_of self ≡ kept_state most full
            → IfOk result (λ s. state_of s ≡ kept_state most (step (parts L) full (Open kind))) }
    {
        let Scan { mut marks, current } = self;
        marks.push(OpenMark {
            kind,
            before: current,
        })?;
        Ok(Scan {
            marks,
            current: Kept::new(alloc),
        })
    }

    // Adds a character to the text behind the last open mark.
    fn text(self, most: usize, ch: char) -> Result<Scan, NoMemory>
        ensures { IfOk result (λ s. state_of s ≡ record { frames = frames_of self.marks.items; current = kept_beside most self.current (plain (encode_utf8 ch)) }) }
    {
        let Scan { marks, current } = self;
        let current = current.with_char(most, ch)?;
        Ok(Scan { marks, current })
    }

    fn close<E: Env>(self, room: Room, env: &E, kind: Kind) -> Result<Scan, NoMemory>
        ensures { (full : State Part) → IsRoom (E.lookups env.now) room → state_of self ≡ kept_state room.most full
            → IfOk result (λ s. state_of s ≡ kept_state room.most (step (parts (E.lookups env.now)) full (Close kind))) }
    {
        let Scan { mut marks, current } = self;
        let Some(mark) = marks.pop() else {
            return Scan { marks, current }.text(room.most, close_char(kind));
        };
        if mark.kind != kind {
            marks.push(mark)?;
            return Scan { marks, current }.text(room.most, close_char(kind));
        }
        let current = mark.before.with_group(room, env, kind, &current)?;
        Ok(Scan { marks, current })
    }

    /// Reads one more token.
    pub fn step<E: Env>(
        self,
        alloc: Global,
        room: Room,
        env: &E,
        token: Token,
    ) -> Result<Scan, NoMemory>
        ensures { (full : State Part) → IsRoom (E.lookups env.now) room → state_of self ≡ kept_state room.most full
            → IfOk result (λ s. state_of s ≡ kept_state room.most (step (parts (E.lookups env.now)) full token)) }
    {
        match token {
            Token::Char(ch) => self.text(room.most, ch),
            Token::Escape(ch) => self.text(room.most, ch),
            Token::Open(kind) => self.open(alloc, kind),
            Token::Close(kind) => self.close(room, env, kind),
        }
    }

    /// Whether no mark is open and the text is longer than so many bytes.
    pub fn is_past(&self, limit: usize) -> bool
        ensures { result ≡ is_past limit (state_of self.now) }
    {
        if !self.marks.is_empty() {
            return false;
        }
        match &self.current.text {
            Held::Whole(text) => text.len() > limit,
            Held::Longer(_) => true,
        }
    }

    /// The text at the end, where open marks are text.
    pub fn end(self, most: usize) -> Result<Held, NoMemory>
        ensures { (L : Lookups) (full : State Part) → state_of self ≡ kept_state most full
            → IfOk result (λ t. t ≡ kept most (closed (parts L) full.frames full.current).text) }
    {
        let Scan {
            mut marks,
            mut current,
        } = self;
        while let Some(mark) = marks.pop() {
            let before = mark.before.with_char(most, open_char(mark.kind))?;
            current = before.beside(most, current)?;
        }
        Ok(current.text)
    }
}
