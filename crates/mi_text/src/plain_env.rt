//! Surroundings for tests.

ghost use Rattle.std.specs.Prelude.{◌≡◌};
ghost use Rattle.mi_text.specs.Plain.{text_in, state_in};

use crate::env::{Env, Sign};

/// Look-ups in lists. The first item of a name counts.
#[derive(Drop)]
pub struct PlainEnv {
    pub properties: Vec<(String, String)>,
    pub variables: Vec<(String, String)>,
    pub files: Vec<(String, String)>,
    pub folders: Vec<(String, String)>,
    pub states: Vec<(Sign, String, i32)>,
}

fn text_in<'a>(items: &'a [(String, String)], name: &str) -> &'a str
    ensures { result.now ≡ text_in items.now name.now }
{
    for item in items {
        if item.0.as_str() == name {
            return item.1.as_str();
        }
    }
    ""
}

fn state_in(items: &[(Sign, String, i32)], sign: Sign, key: &str) -> i32
    ensures { result ≡ state_in items.now sign key.now }
{
    for item in items {
        if item.0 == sign && item.1.as_str() == key {
            return item.2;
        }
    }
    -1
}

impl Env for PlainEnv {
    ghost lookups = { λ s. record { property = text_in s.properties.items; variable = text_in s.variables.items; file = text_in s.files.items; folder = text_in s.folders.items; state = state_in s.states.items } };

    fn property(&self, name: &str) -> &str {
        text_in(&self.properties, name)
    }

    fn variable(&self, name: &str) -> &str {
        text_in(&self.variables, name)
    }

    fn file(&self, key: &str) -> &str {
        text_in(&self.files, key)
    }

    fn folder(&self, key: &str) -> &str {
        text_in(&self.folders, key)
    }

    fn state(&self, sign: Sign, key: &str) -> i32 {
        state_in(&self.states, sign, key)
    }
}
