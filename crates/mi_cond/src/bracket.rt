//! The rows of an open bracket.

ghost use Rattle.std.specs.Prelude.{◌≡◌};
ghost use Rattle.mi_cond.specs.declared.operand.Operator.TheVariants as op;
ghost use Rattle.mi_cond.specs.Lex.{all_ops};
ghost use Rattle.mi_cond.specs.Steps.{fresh, climbed_by, whole_by, level_of};
ghost use Rattle.mi_cond.specs.Brackets.{frame_of};
ghost use Rattle.mi_cond.specs.Value.{combine, with_operand};

use crate::evaluate::with_operand;
use crate::operand::Operator;

/// An open bracket, or the whole text: how many NOT stand before the next factor, and for each operator the value of its
/// row so far.
#[derive(Clone, Copy)]
pub struct Bracket {
    pub nots: u32,
    pub ands: Option<bool>,
    pub ors: Option<bool>,
    pub xors: Option<bool>,
    pub eqvs: Option<bool>,
    pub imps: Option<bool>,
}

impl Default for Bracket {
    fn default() -> Bracket {
        Bracket::new()
    }
}

impl Bracket {
    /// Where nothing has been read.
    pub fn new() -> Bracket
        ensures { frame_of result ≡ fresh }
    {
        Bracket {
            nots: 0,
            ands: None,
            ors: None,
            xors: None,
            eqvs: None,
            imps: None,
        }
    }

    // The row of AND ends.
    fn and(self, last: bool) -> bool
        ensures { result ≡ with_operand op.And self.ands last }
    {
        with_operand(Operator::And, self.ands, last)
    }

    // The rows up to that of OR end.
    fn or(self, last: bool) -> bool
        ensures { result ≡ with_operand op.Or self.ors (with_operand op.And self.ands last) }
    {
        with_operand(Operator::Or, self.ors, self.and(last))
    }

    // The rows up to that of XOR end.
    fn xor(self, last: bool) -> bool
        ensures { result ≡ with_operand op.Xor self.xors (with_operand op.Or self.ors (with_operand op.And self.ands last)) }
    {
        with_operand(Operator::Xor, self.xors, self.or(last))
    }

    // The rows up to that of EQV end.
    fn eqv(self, last: bool) -> bool
        ensures { result ≡ with_operand op.Eqv self.eqvs (with_operand op.Xor self.xors (with_operand op.Or self.ors (with_operand op.And self.ands last))) }
    {
        with_operand(Operator::Eqv, self.eqvs, self.xor(last))
    }

    /// All rows end.
    pub fn whole(self, last: bool) -> bool
        ensures { result ≡ whole_by combine all_ops (frame_of self).rows last }
    {
        with_operand(Operator::Imp, self.imps, self.eqv(last))
    }

    /// An operator behind an operand: the tighter rows end, and its own goes on.
    pub fn join(self, operator: Operator, last: bool) -> Bracket
        ensures { frame_of result ≡ record { nots = 0; rows = climbed_by combine (level_of operator) all_ops (frame_of self).rows last } }
    {
        let fresh = Bracket::new();
        match operator {
            Operator::And => Bracket {
                nots: 0,
                ands: Some(self.and(last)),
                ..self
            },
            Operator::Or => Bracket {
                nots: 0,
                ands: None,
                ors: Some(self.or(last)),
                ..self
            },
            Operator::Xor => Bracket {
                xors: Some(self.xor(last)),
                eqvs: self.eqvs,
                imps: self.imps,
                ..fresh
            },
            Operator::Eqv => Bracket {
                eqvs: Some(self.eqv(last)),
                imps: self.imps,
                ..fresh
            },
            Operator::Imp => Bracket {
                imps: Some(self.whole(last)),
                ..fresh
            },
        }
    }
}
