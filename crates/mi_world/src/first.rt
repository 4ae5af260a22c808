//! The properties at the start of a run.

ghost use Rattle.std.specs.Prelude.{◌≡◌, List, ℕ, IfOk, OnOk, Some, None, map};
ghost use Rattle.mi_text.specs.Maps.{Map};
ghost use Rattle.mi_props.specs.Props.{start_fault};
ghost use Rattle.mi_props.specs.Starts.{IfFault};
ghost use Rattle.mi_image.specs.Items.{machine_over};
ghost use Rattle.mi_schema.specs.RowsOf.{rows_in};
ghost use Rattle.mi_model.specs.Properties.{first_properties, table_properties};
ghost use Rattle.mi_model.specs.Settings.{settings};
ghost use Rattle.mi_model.specs.World.{Given};
ghost use Rattle.mi_world.specs.Firsts.{Begins, property_pair};

use crate::properties::Properties;
use crate::rows::property_at;
use crate::system::settings;
use mi_base::{NoMemory, Text};
use mi_image::Image;
use mi_props::PropError;
use mi_schema::{Package, PropertyRow};
use std::alloc::Global;

fn property_pair(alloc: Global, row: &PropertyRow) -> Result<(Text, Text), NoMemory>
    ensures { IfOk result (λ p. p ≡ property_pair row.now) }
{
    let name = Text::copy_of(alloc, row.property.as_str())?;
    let value = Text::copy_of(alloc, row.value.as_str())?;
    Ok((name, value))
}

// The rows of Property.
fn table_pairs(alloc: Global, loaded: &Package) -> Result<Vec<(Text, Text)>, NoMemory>
    ensures { IfOk result (λ v. v.items ≡ table_properties (rows_in loaded.now)) }
{
    let mut pairs = Vec::new(alloc);
    for place in 0..loaded.property.len() {
        match property_at(loaded, place) {
            Some(row) => {
                pairs.push(property_pair(alloc, row)?)?;
            }
            None => {}
        }
    }
    Ok(pairs)
}

/// The properties before any action: a name has the system's value, else that of the command line's words, else that of the
/// Property table. The system's are those of the machine that the image stands for, `Installed` where it has the product, and
/// `UILevel` 2 (Order of Property Precedence; Installed and UILevel Properties).
///
/// Refused with `PrivateName` where a word's name isn't public, and with `BadName` where a name of the system or of the table is no
/// property name; the list that stands first decides.
pub fn first_props(
    alloc: Global,
    loaded: &Package,
    image: &Image,
    words: &[(Text, Text)],
) -> Result<Properties, PropError>
    ensures first { (held files : Map (List ℕ)) (g : Given) → Begins g loaded.now (machine_over held files image.now) words.now → IfOk result (λ p. p ≡ first_properties g) }
    ensures accepted { (held files : Map (List ℕ)) (g : Given) → Begins g loaded.now (machine_over held files image.now) words.now → OnOk result (start_fault (settings g) g.words (table_properties g.rows) ≡ None) }
    ensures refused { (held files : Map (List ℕ)) (g : Given) → Begins g loaded.now (machine_over held files image.now) words.now → IfFault result (λ fault. start_fault (settings g) g.words (table_properties g.rows) ≡ Some fault) }
{
    let system = settings(alloc, loaded, image)?;
    let table = table_pairs(alloc, loaded)?;
    Properties::start(alloc, &system, words, &table)
}
