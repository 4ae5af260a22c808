//! What texts and conditions may ask of the surroundings.

ghost use Rattle.std.specs.Prelude.{◌≡◌};
ghost use Rattle.mi_text.specs.Lookups.{Lookups};

/// Which state is asked for (Conditional Statement Syntax, "Access Prefixes").
#[derive(Clone, Copy)]
pub enum Sign {
    /// `$`, the action of a component.
    Action,
    /// `?`, the installed state of a component.
    Installed,
    /// `&`, the action of a feature.
    FeatureAction,
    /// `!`, the installed state of a feature.
    FeatureInstalled,
}

/// Look-ups by name (Formatted; Conditional Statement Syntax). An unset text is empty, and an unknown
/// state is -1. No call takes memory.
pub trait Env {
    /// The look-ups as functions.
    ghost lookups: { Self → Lookups };

    /// The value of a property, and the empty text where it isn't set.
    fn property(&self, name: &str) -> &str
        ensures { result.now ≡ (lookups self.now).property name.now };

    /// The value of an environment variable, and the empty text where it isn't set.
    fn variable(&self, name: &str) -> &str
        ensures { result.now ≡ (lookups self.now).variable name.now };

    /// The path of a File key, and the empty text where there is none.
    fn file(&self, key: &str) -> &str
        ensures { result.now ≡ (lookups self.now).file key.now };

    /// The folder of a Component key, and the empty text where there is none.
    fn folder(&self, key: &str) -> &str
        ensures { result.now ≡ (lookups self.now).folder key.now };

    /// A state as its number: 2 is absent, 3 is local, and -1 is unknown.
    fn state(&self, sign: Sign, key: &str) -> i32
        ensures { result ≡ (lookups self.now).state sign key.now };
}
