//! The law of changes: they give the value that a text stands for.

ghost use Rattle.std.specs.Prelude.{◌≡◌, ℕ, List, Option, Ok, Err};
ghost use Rattle.std.specs.Result.{result_ok};
ghost use Rattle.mi_base.specs.declared.entry.RegValue.{RegValue};
ghost use Rattle.mi_regval.specs.declared.change.Change.TheVariants as change;
ghost use Rattle.mi_regval.specs.declared.error.ValueFault.{ValueFault};
ghost use Rattle.mi_regval.specs.Values.{value_of};
ghost use Rattle.mi_regval.specs.Changes.{change_of};

/// Where the old value stays it is what the text stands for, another value is what it stands for, and a fault is the text's.
pub const fn change_gives_the_value()
    ensures unchanged { (text : List ℕ) (old : Option RegValue) → change_of text old ≡ Ok change.Unchanged → result_ok (value_of text old) ≡ old }
    ensures value { (text : List ℕ) (old : Option RegValue) (v : RegValue) → change_of text old ≡ Ok (change.Value v) → value_of text old ≡ Ok v }
    ensures fault { (text : List ℕ) (old : Option RegValue) (f : ValueFault) → change_of text old ≡ Err f → value_of text old ≡ Err f }
{}
