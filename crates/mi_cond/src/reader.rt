//! Reading a condition token by token, to its value.

ghost use Rattle.std.specs.Prelude.{◌≡◌, ◌≤◌, Bool, []};
ghost use Rattle.mi_cond.specs.Lex.{is_good};
ghost use Rattle.mi_cond.specs.Steps.{Forms, fresh, Wants, settled_by, step_by, end_by, depth_at, wants_value, has_value};
ghost use Rattle.mi_cond.specs.Outcome.{StepsTo};
ghost use Rattle.mi_cond.specs.Brackets.{depth_of};
ghost use Rattle.mi_cond.specs.Truths.{truths};
ghost use Rattle.mi_cond.specs.declared.token.Token.TheVariants.{Open, Close, Negate, Join, Compare, Operand};

use crate::bracket::Bracket;
use crate::evaluate::{compare, negated};
use crate::operand::{Comparison, Operator, Value};
use crate::token::{Token, is_keyword};
use arrayvec::ArrayVec;
use mi_text::Env;
use std::mem;

/// What stands before the next token in the innermost bracket.
#[derive(Drop)]
pub enum Stage<'t> {
    /// A factor is wanted.
    Wants,
    /// A value, which may be the left side of a comparison.
    Value(Value<'t>),
    /// The left side of a comparison and its operator.
    Compares(Value<'t>, Comparison),
    /// A factor, as whether it holds.
    Has(bool),
}

/// What has been read so far: the rows of the open brackets, and what stands in the innermost of them. A token is looked at
/// behind at most 65 levels of brackets and NOT, and may open one more.
#[derive(Drop)]
pub struct Reader<'t> {
    below: ArrayVec<Bracket, 66>,
    top: Bracket,
    depth: u32,
    stage: Stage<'t>,
    ghost counted: { depth ≡ depth_of below.items },
}

// Keywords aren't names. The bounds of integers were asked for digit by digit.
fn is_good(value: &Value) -> bool
    ensures { result ≡ is_good value.now }
{
    match value {
        Value::Variable(name) | Value::State(_, name) => !is_keyword(name.as_str().as_bytes()),
        Value::Property(_) | Value::Literal(_) => true,
        Value::Integer(integer) => *integer != i32::MIN,
    }
}

impl<'t> Reader<'t> {
    ghost use Rattle.mi_cond.specs.States.{state_of};

    pub fn new() -> Reader<'t>
        ensures { state_of result ≡ Wants [] fresh }
    {
        Reader {
            below: ArrayVec::new(),
            top: Bracket::new(),
            depth: 0,
            stage: Stage::Wants,
        }
    }

    /// How deep brackets and NOT nest here.
    #[tactic(auto, using(crate::proofs::Depths::depths))]
    pub fn depth(&self) -> u64
        ensures { result ≡ depth_at (state_of self.now) }
    {
        match &self.stage {
            Stage::Has(_) => self.depth as u64,
            Stage::Wants | Stage::Value(_) | Stage::Compares(_, _) => {
                self.depth as u64 + self.top.nots as u64
            }
        }
    }

    /// Whether a value may stand here.
    pub fn wants_value(&self) -> bool
        ensures { result ≡ wants_value (state_of self.now) }
    {
        match &self.stage {
            Stage::Wants | Stage::Compares(_, _) => true,
            Stage::Value(_) | Stage::Has(_) => false,
        }
    }

    /// Whether an operator of comparison may stand here.
    pub fn has_value(&self) -> bool
        ensures { result ≡ has_value (state_of self.now) }
    {
        match &self.stage {
            Stage::Value(_) => true,
            Stage::Wants | Stage::Compares(_, _) | Stage::Has(_) => false,
        }
    }

    // What stands in the innermost bracket; a factor is wanted then.
    fn take(&mut self) -> Stage<'t>
        ensures stage { result ≡ self.old.stage }
        ensures wants { self.new.stage ≡ Stage.Wants }
        ensures stays { (self.new.below ≡ self.old.below) × (self.new.top ≡ self.old.top) × (self.new.depth ≡ self.old.depth) }
    {
        mem::replace(&mut self.stage, Stage::Wants)
    }

    // The factor that has been read. None is left here then.
    fn settled<E: Env>(&mut self, env: &E) -> Option<bool>
        ensures gives { result ≡ settled_by (truths (E.lookups env.now)) (state_of self.old) }
        ensures wants { self.new.stage ≡ Stage.Wants }
        ensures stays { (self.new.below ≡ self.old.below) × (self.new.top ≡ self.old.top) × (self.new.depth ≡ self.old.depth) }
    {
        match self.take() {
            Stage::Value(value) => Some(negated(self.top.nots, value.is_true(env))),
            Stage::Has(factor) => Some(factor),
            Stage::Wants | Stage::Compares(_, _) => None,
        }
    }

    fn value<E: Env>(&mut self, env: &E, value: Value<'t>) -> Option<()>
        ensures { StepsTo result (step_by (truths (E.lookups env.now)) (state_of self.old) (Operand value.entry)) (state_of self.new) }
    {
        if !is_good(&value) {
            return None;
        }
        match self.take() {
            Stage::Wants => self.stage = Stage::Value(value),
            Stage::Compares(left, comparison) => {
                let holds = compare(env, comparison, &left, &value);
                self.stage = Stage::Has(negated(self.top.nots, holds));
            }
            Stage::Value(_) | Stage::Has(_) => return None,
        }
        Some(())
    }

    fn compare(&mut self, comparison: Comparison) -> Option<()>
        ensures { (by : Forms Bool) → StepsTo result (step_by by (state_of self.old) (Compare comparison)) (state_of self.new) }
    {
        match self.take() {
            Stage::Value(left) => {
                self.stage = Stage::Compares(left, comparison);
                Some(())
            }
            Stage::Wants | Stage::Compares(_, _) | Stage::Has(_) => None,
        }
    }

    fn join<E: Env>(&mut self, env: &E, operator: Operator) -> Option<()>
        ensures { StepsTo result (step_by (truths (E.lookups env.now)) (state_of self.old) (Join operator)) (state_of self.new) }
    {
        let last = self.settled(env)?;
        self.top = self.top.join(operator, last);
        Some(())
    }

    fn close<E: Env>(&mut self, env: &E) -> Option<()>
        ensures { StepsTo result (step_by (truths (E.lookups env.now)) (state_of self.old) Close) (state_of self.new) }
    {
        let last = self.settled(env)?;
        let outer = self.below.pop()?;
        self.depth = self.depth - outer.nots - 1;
        let inner = self.top.whole(last);
        self.top = outer;
        self.stage = Stage::Has(negated(outer.nots, inner));
        Some(())
    }

    #[tactic(auto, using(crate::proofs::Depths::depths))]
    fn open(&mut self) -> Option<()>
        requires { depth_at (state_of self.old) ≤ 65 }
        ensures { (by : Forms Bool) → StepsTo result (step_by by (state_of self.old) Open) (state_of self.new) }
    {
        let Stage::Wants = &self.stage else {
            return None;
        };
        let depth = self.depth + self.top.nots + 1;
        self.below.push(self.top);
        self.depth = depth;
        self.top = Bracket::new();
        Some(())
    }

    fn negate(&mut self) -> Option<()>
        requires { depth_at (state_of self.old) ≤ 65 }
        ensures { (by : Forms Bool) → StepsTo result (step_by by (state_of self.old) Negate) (state_of self.new) }
    {
        let Stage::Wants = &self.stage else {
            return None;
        };
        self.top.nots += 1;
        Some(())
    }

    /// Reads a token, where it may stand here.
    pub fn step<E: Env>(&mut self, env: &E, token: Token<'t>) -> Option<()>
        requires { depth_at (state_of self.old) ≤ 65 }
        ensures { StepsTo result (step_by (truths (E.lookups env.now)) (state_of self.old) token.entry) (state_of self.new) }
    {
        match token {
            Token::Operand(value) => self.value(env, value),
            Token::Compare(comparison) => self.compare(comparison),
            Token::Join(operator) => self.join(env, operator),
            Token::Open => self.open(),
            Token::Close => self.close(env),
            Token::Negate => self.negate(),
        }
    }

    /// Whether the condition holds, where the text may end here.
    pub fn end<E: Env>(&mut self, env: &E) -> Option<bool>
        ensures { result ≡ end_by (truths (E.lookups env.now)) (state_of self.old) }
    {
        let last = self.settled(env)?;
        if self.below.is_empty() {
            Some(self.top.whole(last))
        } else {
            None
        }
    }
}
