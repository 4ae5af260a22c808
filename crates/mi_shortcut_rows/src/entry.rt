//! What a shortcut is (Shortcut table, all but Directory_, Target and Arguments).

ghost use Rattle.std.specs.Prelude.{◌≡◌, [], pos, negsuc, IfOk, IfSome, unwrap_or};
ghost use Rattle.std.specs.Option.{option_map_or};
ghost use Rattle.mi_schema.specs.Laws.{IsWithin};
ghost use Rattle.mi_model.specs.World.{World};
ghost use Rattle.mi_model.specs.Asked.{lookups};
ghost use Rattle.mi_model.specs.Shortcuts.{natural, shortcut_entry};
ghost use Rattle.mi_shortcut_rows.specs.Entries.{HasNumbers, IsShortcutAt};

use mi_base::{Entry, NoMemory, PathText, Shortcut, Text};
use mi_format::BoundedEnv;
use mi_schema::ShortcutRow;
use std::alloc::Global;

// A number of a column that has none below 0.
fn natural(number: Option<i32>, default: u16) -> u16
    requires { IfSome number (IsWithin (pos 0) (pos 65535)) }
    ensures { result ≡ natural (unwrap_or number (pos default)) }
{
    match number {
        Some(number) => number as u16,
        None => default,
    }
}

fn icon_index(number: Option<i32>) -> i16
    requires { IfSome number (IsWithin (negsuc 32766) (pos 32767)) }
    ensures { result ≡ unwrap_or number (pos 0) }
{
    match number {
        Some(number) => number as i16,
        None => 0,
    }
}

fn text_or_empty(alloc: Global, text: &Option<Text>) -> Result<Text, NoMemory>
    ensures { IfOk result (λ t. t ≡ unwrap_or text.now []) }
{
    match text {
        Some(text) => Text::copy_of(alloc, text.as_str()),
        None => Ok(Text::new(alloc)),
    }
}

// The value of the property that WkDir names.
fn folder_text<E: BoundedEnv>(alloc: Global, env: &E, dir: &Option<Text>) -> Result<Text, NoMemory>
    ensures { IfOk result (λ t. t ≡ option_map_or (E.lookups env.now).property dir.now []) }
{
    match dir {
        Some(dir) => Text::copy_of(alloc, env.property(dir.as_str())),
        None => Ok(Text::new(alloc)),
    }
}

// The description, the icon and the working folder.
fn texts_of<E: BoundedEnv>(
    alloc: Global,
    env: &E,
    row: &ShortcutRow,
) -> Result<(Text, Text, Text), NoMemory>
    ensures description { IfOk result (λ t. t.0 ≡ unwrap_or row.now.description []) }
    ensures icon { IfOk result (λ t. t.1 ≡ unwrap_or row.now.icon []) }
    ensures folder { IfOk result (λ t. t.2 ≡ option_map_or (E.lookups env.now).property row.now.wk_dir []) }
{
    let description = text_or_empty(alloc, &row.description)?;
    let icon = text_or_empty(alloc, &row.icon)?;
    let folder = folder_text(alloc, env, &row.wk_dir)?;
    Ok((description, icon, folder))
}

/// The shortcut of a row with its path, its target and its arguments, whose numbers are in the ranges of their columns: WkDir is the
/// value of the property that it names, null texts are empty, null numbers are 0, and a null ShowCmd is 1. It takes memory (Shortcut
/// table).
pub fn shortcut_entry<E: BoundedEnv>(
    alloc: Global,
    env: &E,
    row: &ShortcutRow,
    shown: PathText,
    target: Text,
    arguments: Text,
) -> Result<Entry, NoMemory>
    requires { HasNumbers row.now }
    ensures entry { (w : World) → lookups w ≡ E.lookups env.now → IfOk result (λ e. e ≡ shortcut_entry w row.now shown target arguments) }
    ensures at { IfOk result (IsShortcutAt shown) }
{
    match texts_of(alloc, env, row) {
        Ok((description, icon, folder)) => Ok(Entry::Shortcut(Shortcut {
            shown,
            target,
            arguments,
            description,
            hotkey: natural(row.hotkey, 0),
            icon,
            icon_index: icon_index(row.icon_index),
            show: natural(row.show_cmd, 1),
            folder,
        })),
        Err(_) => {
            drop(shown);
            drop(target);
            drop(arguments);
            Err(NoMemory)
        }
    }
}
