//! Items between the `;` of a variable's value (Environment table, column Value).

ghost use Rattle.std.specs.Prelude.{◌≡◌, map, IfOk};
ghost use Rattle.mi_text.specs.Fold.{folded};
ghost use Rattle.mi_text.specs.Maps.{same_name};
ghost use Rattle.mi_model.specs.ListItems.{without_first};
ghost use Rattle.mi_model.specs.WriteEnvironmentStrings.{items_of, has_part};
ghost use Rattle.mi_variables.specs.Lefts.{left};

use mi_base::{NoMemory, Text};
use std::alloc::Global;

// Whether two texts are one in whichever case.
fn same_folded(a: &str, b: &str) -> bool
    ensures { result ≡ same_name (folded a.now) (folded b.now) }
{
    a.eq_ignore_ascii_case(b)
}

/// Whether an item of a value has the folded text of a part. No memory.
pub fn has_part(part: &str, value: &str) -> bool
    ensures { result ≡ has_part part.now value.now }
{
    value.split(';').any(|item| same_folded(part, item))
}

fn items_of(alloc: Global, value: &str) -> Result<Vec<&str>, NoMemory>
    ensures { IfOk result (λ items. map (λ i. i.now) items.items ≡ items_of value.now) }
{
    let items = value.split(';').collect(alloc)?;
    Ok(items)
}

// Takes the first item out that equals a part.
fn take_first(items: &mut Vec<&str>, part: &str)
    ensures { map (λ i. i.now) items.new.items ≡ without_first part.now (map (λ i. i.now) items.old.items) }
{
    if let Some(place) = items.iter().position(|item| *item == part) {
        items.remove(place);
    }
}

// The items joined by `;`; None where there are none.
fn joined(alloc: Global, items: &[&str]) -> Result<Option<Text>, NoMemory>
    ensures { IfOk result (λ text. text ≡ left (map (λ i. i.now) items.now)) }
{
    if items.is_empty() {
        return Ok(None);
    }
    let text = items.join(alloc, ";")?;
    let joined = Text::from_string(alloc, text)?;
    Ok(Some(joined))
}

/// What is left of a value without its first item that equals a part; None where no item is left. It takes memory
/// (RemoveEnvironmentStrings Action; Environment table, column Value).
pub fn without_part(alloc: Global, part: &str, value: &str) -> Result<Option<Text>, NoMemory>
    ensures { IfOk result (λ text. text ≡ left (without_first part.now (items_of value.now))) }
{
    let mut items = items_of(alloc, value)?;
    take_first(&mut items, part);
    joined(alloc, items.as_slice())
}
