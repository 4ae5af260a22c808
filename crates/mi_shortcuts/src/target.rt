//! What a shortcut starts (Shortcut table, column Target).

ghost use Rattle.std.specs.Prelude.{◌≡◌, [], Ok, is_some};
ghost use Rattle.std.specs.Option.{option_map_or};
ghost use Rattle.mi_model.specs.World.{World};
ghost use Rattle.mi_model.specs.ClientRows.{recorded_path};
ghost use Rattle.mi_model.specs.Shortcuts.{target_text};
ghost use Rattle.mi_schema.specs.Lawful.{IsLawful};
ghost use Rattle.mi_schema.specs.RowsOf.{rows_in};
ghost use Rattle.mi_schema.specs.TableRows.{component_row_of, feature_row_of};
ghost use Rattle.mi_records.specs.Choices.{IsAsked};
ghost use Rattle.mi_records.specs.Meaning.{numbered};
ghost use Rattle.mi_records.specs.Stops.{Tells};

use mi_base::Text;
use mi_files::component_row;
use mi_records::{PlanError, Sees, recorded_path};
use mi_row_steps::expanded;
use mi_schema::{Package, ShortcutRow, keys_stand};
use mi_shortcut_rows::component_to_start;
use std::alloc::Global;

// Whether a row of Feature has this key.
fn is_feature(loaded: &Package, key: &Text) -> bool
    requires { IsLawful loaded.now }
    ensures { result ≡ is_some (feature_row_of (rows_in loaded.now) key.now) }
{
    keys_stand(loaded);
    loaded.feature.contains_key(key)
}

// The key path of the component of a key; empty where there is none.
fn component_path<S: Sees>(alloc: Global, seen: &S, key: &Text) -> Result<Text, PlanError>
    requires { IsLawful (S.rows seen.now) }
    ensures { (w : World) → IsAsked (S.lookups seen.now) (S.choices seen.now) (S.rows seen.now) w → Tells (option_map_or (recorded_path w) (component_row_of (rows_in (S.rows seen.now)) key.now) (Ok [])) result }
{
    match component_row(seen.package(), key) {
        Some(row) => match recorded_path(alloc, seen, row) {
            Ok(path) => copied(alloc, path),
            Err(error) => Err(error),
        },
        None => Ok(Text::new(alloc)),
    }
}

fn copied(alloc: Global, path: &str) -> Result<Text, PlanError>
    ensures { Tells (Ok path.now) result }
{
    match Text::copy_of(alloc, path) {
        Ok(text) => Ok(text),
        Err(_) => Err(PlanError::NoMemory),
    }
}

/// What the shortcut of the row with this number, from 1, starts: where Target is a key of Feature the key path of the component, as
/// ProcessComponents records it, and else the expanded Target. Refused with `BadPath` of the row of File whose path is past the
/// limits, or with `TooDeep`.
pub fn target_text<S: Sees>(
    alloc: Global,
    seen: &S,
    number: u32,
    row: &ShortcutRow,
) -> Result<Text, PlanError>
    requires { IsLawful (S.rows seen.now) }
    ensures { (w : World) → IsAsked (S.lookups seen.now) (S.choices seen.now) (S.rows seen.now) w → Tells (target_text w (numbered number row.now)) result }
{
    match component_to_start(row, is_feature(seen.package(), &row.target)) {
        Some(component) => component_path(alloc, seen, component),
        None => expanded(alloc, seen, "Shortcut", number, row.target.as_str()),
    }
}
