//! The law of expansions: they are the values of whole groups.

ghost use Rattle.std.specs.Prelude.{◌≡◌, ℕ, List, Ok, Err};
ghost use Rattle.mi_text.specs.Lookups.{Lookups};
ghost use Rattle.mi_format.specs.declared.error.FormatFault.TheVariants.{TooDeep};
ghost use Rattle.mi_format.specs.Expansion.{IsExpansion, IsTooDeep, expanded};

/// A text has one expansion by whole groups and no other, and it has none exactly where some prefix of its tokens has more
/// than 64 open marks whose groups don't end in it.
pub const fn expansion_is_by_whole_groups()
    ensures some { (L : Lookups) (text x : List ℕ) → expanded L text ≡ Ok x → IsExpansion L text x }
    ensures shallow { (L : Lookups) (text x : List ℕ) → expanded L text ≡ Ok x → IsTooDeep text → ⊥ }
    ensures only { (L : Lookups) (text x : List ℕ) → IsExpansion L text x → (IsTooDeep text → ⊥) → expanded L text ≡ Ok x }
    ensures deep { (L : Lookups) (text : List ℕ) → expanded L text ≡ Err TooDeep → IsTooDeep text }
    ensures refused { (L : Lookups) (text : List ℕ) → IsTooDeep text → expanded L text ≡ Err TooDeep }
{}
