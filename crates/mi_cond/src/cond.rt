//! A condition that has been read.

ghost use Rattle.std.specs.Prelude.{◌≡◌, ℕ, IfOk, IfErr, Err, MatchOption};
ghost use Rattle.mi_cond.specs.Tree.{Tree};
ghost use Rattle.mi_cond.specs.Grammar.{Reads};
ghost use Rattle.mi_cond.specs.Place.{IsCause};
ghost use Rattle.mi_cond.specs.Value.{value};
ghost use Rattle.mi_cond.specs.Answer.{Answers, IsCondition, condition_of};

use crate::error::{CondError, CondFault};
use crate::nothing::Nothing;
use crate::read::read_value;
use mi_text::{Env, Text};
use std::alloc::Global;
use std::marker::Model;
use std::rc::Rc;

/// A condition (Conditional Statement Syntax), seen as its tree. It is kept as its text, and read anew where its value is
/// asked for.
#[derive(Drop)]
pub struct Cond {
    text: Text,
}

impl Model for Cond {
    ghost use Rattle.mi_cond.specs.Tree.{Tree};
    ghost use Rattle.mi_cond.specs.Code.{coded_tree};

    ghost Value = { Tree };

    ghost coded = { coded_tree };

    ghost use Rattle.mi_cond.specs.Answer.{tree_in, condition_of, IsCondition};

    ghost view = { λ c. tree_in (condition_of c.text) };

    ghost invariant = { λ c. IsCondition c.text };
}

// Why a text is no condition, if it isn't one.
fn fault_in(text: &str) -> Option<CondFault>
    ensures { MatchOption result (IsCondition text.now) (λ f. condition_of text.now ≡ Err f) }
{
    match read_value(&Nothing, text.as_bytes()) {
        Ok(_) => None,
        Err(fault) => Some(fault),
    }
}

impl Cond {
    /// Reads a condition whose brackets and NOT nest to 64 at most. A fault has the length in bytes of the
    /// longest front that begins such a condition.
    pub fn read(alloc: Global, text: &str) -> Result<Cond, CondError>
        ensures reads { IfOk result (λ c. Reads 64 text.now c) }
        ensures only { IfOk result (λ c. (n : ℕ) (t : Tree) → Reads n text.now t → t ≡ c) }
        ensures fault { IfErr result (λ e. IsCause e text.now) }

        // The same as one function of the text.
        ensures answer { Answers result text.now }
    {
        match fault_in(text) {
            None => Ok(Cond {
                text: Text::copy_of(alloc, text)?,
            }),
            Some(fault) => Err(CondError::Fault(fault)),
        }
    }

    /// The same of a text that stands in a string from a place on, in bytes. The condition is kept as a part of that
    /// string, where it stands there.
    pub fn read_part(
        alloc: Global,
        whole: &Rc<String>,
        start: usize,
        text: &str,
    ) -> Result<Cond, CondError>
        ensures reads { IfOk result (λ c. Reads 64 text.now c) }
        ensures only { IfOk result (λ c. (n : ℕ) (t : Tree) → Reads n text.now t → t ≡ c) }
        ensures fault { IfErr result (λ e. IsCause e text.now) }
        ensures answer { Answers result text.now }
    {
        match fault_in(text) {
            None => Ok(Cond {
                text: Text::part_of(alloc, whole, start, text)?,
            }),
            Some(fault) => Err(CondError::Fault(fault)),
        }
    }

    /// Whether the condition holds. Takes no memory.
    pub fn value<E: Env>(&self, env: &E) -> bool
        ensures { result ≡ value self.now (E.lookups env.now) }
    {
        match read_value(env, self.text.as_bytes()) {
            Ok(holds) => holds,
            Err(_) => unreachable!(),
        }
    }
}
