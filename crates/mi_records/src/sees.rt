//! What phases ask of what an action sees.

ghost use Rattle.std.specs.Prelude.{◌≡◌, IfOk, IfSome};
ghost use Rattle.std.specs.Option.{option_copied};
ghost use Rattle.mi_dirs.specs.Views.{IsFolder};
ghost use Rattle.mi_dirs.specs.Places.{target_of, source_of};
ghost use Rattle.mi_records.specs.Choices.{Choices};
ghost use Rattle.mi_schema.specs.declared.package.Package.{Package as Rows};

use mi_base::{NoMemory, PathText, Text};
use mi_format::BoundedEnv;
use mi_fver::Mode;
use mi_schema::Package;
use std::alloc::Global;

/// What an action of the walk sees, as far as phases ask: look-ups, the package, and by their names which components come, leave,
/// are kept, are made local or taken away and were present before the run, what CostFinalize found, and the directories as they
/// stand (Component table; Feature table; Directory table; REINSTALLMODE property). Calls that answer with `Result` take memory.
pub trait Sees: BoundedEnv {
    /// The answers as functions.
    ghost choices: { Self → Choices };

    /// The package as it is loaded.
    ghost rows: { Self → Rows };

    /// The package.
    fn package(&self) -> &Package
        ensures { result.now ≡ rows self.now };

    /// Whether the run installs a component.
    fn comes(&self, component: &str) -> bool
        ensures { result ≡ (choices self.now).coming component.now };

    /// Whether the run removes a component.
    fn leaves(&self, component: &str) -> bool
        ensures { result ≡ (choices self.now).leaving component.now };

    /// Whether the things of a component stay.
    fn keeps(&self, component: &str) -> bool
        ensures { result ≡ (choices self.now).kept component.now };

    /// Whether the action of a component is to make it local.
    fn is_local(&self, component: &str) -> bool
        ensures { result ≡ (choices self.now).local component.now };

    /// Whether the action of a component is to take it away.
    fn is_absent(&self, component: &str) -> bool
        ensures { result ≡ (choices self.now).absent component.now };

    /// Whether a component was present before the run.
    fn was_present(&self, component: &str) -> bool
        ensures { result ≡ (choices self.now).present component.now };

    /// The letters of REINSTALLMODE as CostFinalize read them.
    fn mode(&self) -> Mode
        ensures { result ≡ (choices self.now).mode };

    /// The key path of a component as CostFinalize found it; empty for what is no component.
    fn found_path(&self, component: &str) -> &str
        ensures { result.now ≡ (choices self.now).found component.now };

    /// The features that are local after the run, in byte order.
    fn local_after(&self, alloc: Global) -> Result<Vec<Text>, NoMemory>
        ensures { IfOk result (λ names. names.items ≡ (choices self.now).local_after) };

    /// The target of a directory, a folder's path, and None where no row has this key or CostFinalize wasn't carried out.
    fn target(&self, directory: &str) -> Option<&PathText>
        ensures target { option_copied result ≡ target_of (choices self.now).dirs directory.now }
        ensures folder { IfSome result (λ path. IsFolder path.now) };

    /// The folder of a directory in the source, and None where no row has this key or CostFinalize wasn't carried out.
    fn source(&self, alloc: Global, directory: &str) -> Result<Option<Text>, NoMemory>
        ensures { IfOk result (λ source. source ≡ source_of (choices self.now).dirs directory.now) };

    /// The moment that new files carry, in seconds.
    fn moment(&self) -> u64
        ensures { result ≡ (choices self.now).moment };

    /// The folders that properties of the system name.
    fn system_folders(&self) -> &[PathText]
        ensures folders { result.now ≡ (choices self.now).system };
}
