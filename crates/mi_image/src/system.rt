//! The properties of the system (Property Reference).

ghost use Rattle.std.specs.Prelude.{◌≡◌, List, ℕ};
ghost use Rattle.std.specs.Option.{option_copied};
ghost use Rattle.mi_text.specs.Maps.{Map};
ghost use Rattle.mi_base.specs.System.{default_system, value_named, system_read};
ghost use Rattle.mi_image.specs.Items.{machine_over};

use crate::image::Image;
use crate::kinds::as_system;
use crate::names::system_name;

// The value of a property where none is held; the values are this project's own.
#[tactic(auto, unfolding(mi_base::specs::System::default_system))]
fn default_value(property: &str) -> Option<&'static str>
    ensures { option_copied result ≡ value_named property.now default_system }
{
    match property {
        "VersionNT" | "VersionNT64" => Some("603"),
        "Privileged" | "AdminUser" => Some("1"),
        "UserLanguageID" | "SystemLanguageID" => Some("1033"),
        "WindowsFolder" => Some("C:\\Windows\\"),
        "SystemFolder" => Some("C:\\Windows\\System32\\"),
        "ProgramFilesFolder" | "ProgramFiles64Folder" => Some("C:\\Program Files\\"),
        "CommonFilesFolder" => Some("C:\\Program Files\\Common Files\\"),
        "CommonAppDataFolder" => Some("C:\\ProgramData\\"),
        "AppDataFolder" => Some("C:\\Users\\User\\AppData\\Roaming\\"),
        "LocalAppDataFolder" => Some("C:\\Users\\User\\AppData\\Local\\"),
        "DesktopFolder" => Some("C:\\Users\\User\\Desktop\\"),
        "StartMenuFolder" => Some("C:\\ProgramData\\Start Menu\\"),
        "ProgramMenuFolder" => Some("C:\\ProgramData\\Start Menu\\Programs\\"),
        "TempFolder" => Some("C:\\Temp\\"),
        _ => None,
    }
}

impl Image {
    /// The value of a property of the system (Property Reference). Where the machine holds none at all, the default
    /// values are read.
    pub fn system(&self, property: &str) -> Option<&str>
        ensures { (held files : Map (List ℕ)) → option_copied result ≡ system_read (machine_over held files self.now) property.now }
    {
        if !self.has_system() {
            return default_value(property);
        }
        let value = as_system(self.whole_at(system_name(property))?)?;
        Some(value.as_str())
    }
}
