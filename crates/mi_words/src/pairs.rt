//! The properties that a command is run with.

ghost use Rattle.std.specs.Prelude.{◌≡◌, ◌++◌, ◌∷◌, [], IfOk, OnOk};
ghost use Rattle.mi_text.specs.Fold.{folded};
ghost use Rattle.mi_model.specs.Assignments.{assigned, texts_of};
ghost use Rattle.mi_model.specs.Words.{repair_sets};
ghost use Rattle.mi_words.specs.Asked.{of_words, set_by};
ghost use Rattle.mi_words.specs.Places.{given};

use crate::command::{PackageWords, Sets};
use crate::word::is_dropped;
use mi_text::{NoMemory, Text, fold};
use std::alloc::Global;

/// The name and the value of NAME=VALUE (Windows Installer command-line options).
fn pair_in(alloc: Global, word: &str) -> Result<(Text, Text), NoMemory>
    ensures { IfOk result (λ p. p ≡ assigned word.now) }
{
    match word.split_once('=') {
        Some((name, value)) => copy_pair(alloc, name, value),
        None => copy_pair(alloc, word, ""),
    }
}

fn copy_pair(alloc: Global, name: &str, value: &str) -> Result<(Text, Text), NoMemory>
    ensures { IfOk result (λ p. p ≡ (name.now, value.now)) }
{
    let name = Text::copy_of(alloc, name)?;
    let value = Text::copy_of(alloc, value)?;
    Ok((name, value))
}

fn push_pair(
    alloc: Global,
    pairs: &mut Vec<(Text, Text)>,
    name: &str,
    value: &str,
) -> Result<(), NoMemory>
    ensures { OnOk result (pairs.new.items ≡ pairs.old.items ++ (name.now, value.now) ∷ []) }
{
    pairs.push(copy_pair(alloc, name, value)?)?;
    Ok(())
}

/// Adds the properties of words, in their order.
fn push_words(
    alloc: Global,
    pairs: &mut Vec<(Text, Text)>,
    words: &[String],
) -> Result<(), NoMemory>
    ensures { OnOk result (pairs.new.items ≡ pairs.old.items ++ given (texts_of words.now)) }
{
    for word in words {
        if !is_dropped(word.as_str()) {
            pairs.push(pair_in(alloc, word.as_str())?)?;
        }
    }
    Ok(())
}

/// Adds what a repair sets.
fn push_repair(alloc: Global, pairs: &mut Vec<(Text, Text)>, letters: &str) -> Result<(), NoMemory>
    ensures { OnOk result (pairs.new.items ≡ pairs.old.items ++ repair_sets (folded letters.now)) }
{
    push_pair(alloc, pairs, "REINSTALL", "ALL")?;
    if letters.is_empty() {
        return Ok(());
    }
    let mode = fold(alloc, letters)?;
    push_pair(alloc, pairs, "REINSTALLMODE", mode.as_str())
}

/// Adds the properties that a command sets by itself.
fn push_sets(alloc: Global, pairs: &mut Vec<(Text, Text)>, sets: &Sets<'_>) -> Result<(), NoMemory>
    ensures { OnOk result (pairs.new.items ≡ pairs.old.items ++ set_by sets.now) }
{
    match sets {
        Sets::Nothing => Ok(()),
        Sets::Removal => push_pair(alloc, pairs, "REMOVE", "ALL"),
        Sets::Repair(letters) => push_repair(alloc, pairs, letters),
    }
}

impl<'a> PackageWords<'a> {
    /// The properties that the package is run with: those of the words, and behind them those that the command sets
    /// (Public Properties).
    pub fn properties(&self, alloc: Global) -> Result<Vec<(Text, Text)>, NoMemory>
        ensures { IfOk result (λ v. v.items ≡ of_words self.now.words ++ set_by self.now.sets) }
    {
        let mut pairs = Vec::new(alloc);
        push_words(alloc, &mut pairs, self.words.words())?;
        push_sets(alloc, &mut pairs, &self.sets)?;
        Ok(pairs)
    }
}
