//! Items that are taken out of lists.

ghost use Rattle.std.specs.Prelude.{◌≡◌, ◌+◌, ◌-◌, ◌<◌, nat_lt, IfOk, OnOk, if◌then◌else◌, ◌&&◌, count_by};
ghost use Rattle.mi_text.specs.Maps.{Name, same_name};
ghost use Rattle.mi_model.specs.ListItems.{without_items};
ghost use Rattle.mi_records.specs.Removing.{count_at};

use mi_base::{NoMemory, Text, Texts};
use std::alloc::Global;
use std::collections::BTreeMap;

// How often each item is still to be taken out.
type Counts<'a> = BTreeMap<&'a str, usize>;

fn count_at(counts: &Counts, item: &str) -> usize
    ensures { result ≡ count_at counts.now item.now }
{
    match counts.get(item) {
        Some(count) => *count,
        None => 0,
    }
}

fn set<'a>(counts: &mut Counts<'a>, item: &'a str, count: usize) -> Result<(), NoMemory>
    ensures { OnOk result ((q : Name) → count_at counts.new q ≡ (if same_name q item.now then count else count_at counts.old q)) }
{
    counts.insert(item, count)?;
    Ok(())
}

// How often each of these items stands among them.
fn counted<'a>(alloc: Global, items: &'a [Text]) -> Result<Counts<'a>, NoMemory>
    ensures { IfOk result (λ counts. (q : Name) → count_at counts q ≡ count_by (same_name q) items.now) }
{
    let mut counts = BTreeMap::new(alloc);
    for item in items {
        let count = count_at(&counts, item.as_str());
        set(&mut counts, item.as_str(), count + 1)?;
    }
    Ok(counts)
}

// Whether an item is to be taken out; then it is to be once less.
fn is_taken<'a>(counts: &mut Counts<'a>, item: &'a str) -> Result<bool, NoMemory>
    ensures taken { IfOk result (λ taken. taken ≡ nat_lt 0 (count_at counts.old item.now)) }
    ensures less { IfOk result (λ taken. (q : Name) → count_at counts.new q ≡ (if taken && same_name q item.now then count_at counts.old q - 1 else count_at counts.old q)) }
{
    let count = count_at(counts, item);
    if count == 0 {
        return Ok(false);
    }
    set(counts, item, count - 1)?;
    Ok(true)
}

/// A list without the first item that equals each of these, one after the other. It costs a search for each item.
pub fn without_items<'a>(
    alloc: Global,
    items: &'a [Text],
    list: &'a [Text],
) -> Result<Texts, NoMemory>
    ensures { IfOk result (λ rest. rest ≡ without_items items.now list.now) }
{
    let mut counts = counted(alloc, items)?;
    let mut rest = Texts::new(alloc);
    for item in list {
        if !is_taken(&mut counts, item.as_str())? {
            rest.push(Text::copy_of(alloc, item.as_str())?)?;
        }
    }
    Ok(rest)
}
