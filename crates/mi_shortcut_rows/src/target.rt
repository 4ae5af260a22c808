//! What a shortcut starts (Shortcut table, column Target).

ghost use Rattle.std.specs.Prelude.{◌≡◌};
ghost use Rattle.std.specs.Option.{option_copied};
ghost use Rattle.mi_shortcut_rows.specs.Targets.{component_to_start};

use mi_base::Text;
use mi_schema::ShortcutRow;

/// The key of the component whose key path the shortcut of a row starts, by whether the row's Target is a key of Feature: that of
/// Component_ where it is, and None where it isn't, as the Target is then a text (Shortcut table, Target and Component_).
pub fn component_to_start(row: &ShortcutRow, is_feature: bool) -> Option<&Text>
    ensures { option_copied result ≡ component_to_start is_feature row.now }
{
    if is_feature {
        Some(&row.component)
    } else {
        None
    }
}
