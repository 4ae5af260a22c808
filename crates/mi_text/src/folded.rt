//! Look-ups by names in any case, in tables whose keys are folded.

ghost use Rattle.std.specs.Prelude.{◌≡◌};
ghost use Rattle.std.specs.Option.{option_copied};
ghost use Rattle.mi_text.specs.Fold.{folded};
ghost use Rattle.mi_text.specs.Maps.{name_cmp};
ghost use Rattle.mi_text.specs.Folded.{KeysRise, value_at_fold};

use crate::text::Text;
use std::cmp::Ordering;

/// Compares a key with the fold of a name, by bytes. No memory.
pub fn compare_folded(key: &str, name: &str) -> Ordering
    ensures { result ≡ name_cmp key.now (folded name.now) }
{
    let name = name.as_bytes();
    for (i, byte) in key.as_bytes().iter().enumerate() {
        if i >= name.len() {
            return Ordering::Greater;
        }
        let order = byte.cmp(&name[i].to_ascii_lowercase());
        if order != Ordering::Equal {
            return order;
        }
    }
    if key.len() < name.len() {
        Ordering::Less
    } else {
        Ordering::Equal
    }
}

/// What a table, whose keys rise by bytes, has at the fold of a name. No memory.
pub fn find_folded<'a>(items: &'a [(Text, Text)], name: &str) -> Option<&'a Text>
    requires { KeysRise items.now }
    ensures { option_copied result ≡ value_at_fold items.now name.now }
{
    match items.binary_search_by(|item| compare_folded(item.0.as_str(), name)) {
        Ok(place) => Some(&items[place].1),
        Err(_) => None,
    }
}
