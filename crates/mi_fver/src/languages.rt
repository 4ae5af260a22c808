//! Sets of languages. Those of a record rise, so that one is found by halving; any other order is taken too. No two lists
//! are gone through language by language against each other.

ghost use Rattle.std.specs.Prelude.{◌≡◌, ◌<◌, ℕ, false, slice_index_or};
ghost use Rattle.std.specs.List.Sorted.{IsNonDecreasing};
ghost use Rattle.mi_fver.specs.Rules.{has, has_all};

pub fn has(languages: &[u16], language: u16) -> bool
    ensures { result ≡ has languages.now language }
{
    languages.contains(&language)
}

fn has_among_sorted(languages: &[u16], language: u16) -> bool
    requires { IsNonDecreasing languages.now }
    ensures { result ≡ has languages.now language }
{
    languages.binary_search(&language).is_ok()
}

fn sorted_has_all(all: &[u16], some: &[u16]) -> bool
    requires { IsNonDecreasing all.now }
    ensures { result ≡ has_all all.now some.now }
{
    some.iter().all(|language| has_among_sorted(all, *language))
}

/// How many languages there are.
const LANGUAGES: usize = 65_536;

// Which languages a list has.
fn marked(languages: &[u16]) -> [bool; LANGUAGES]
    ensures { (language : ℕ) → language < 65536 → slice_index_or result language false ≡ has languages.now language }
{
    let mut table = [false; LANGUAGES];
    for language in languages {
        table[*language as usize] = true;
    }
    table
}

fn is_marked(table: &[bool; LANGUAGES], language: u16) -> bool
    ensures { result ≡ slice_index_or table.now language false }
{
    table[language as usize]
}

// Whether all of some are there, in any order: by a table, since no memory is taken. It stands alone, so that only such
// lists take the room of the table.
#[inline(never)]
fn marked_has_all(all: &[u16], some: &[u16]) -> bool
    ensures { result ≡ has_all all.now some.now }
{
    let table = marked(all);
    some.iter().all(|language| is_marked(&table, *language))
}

/// Whether all of some are there.
pub fn has_all(all: &[u16], some: &[u16]) -> bool
    ensures { result ≡ has_all all.now some.now }
{
    if all.is_sorted() {
        sorted_has_all(all, some)
    } else {
        marked_has_all(all, some)
    }
}
