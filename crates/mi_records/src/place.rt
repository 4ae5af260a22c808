//! What a row of Registry or RemoveRegistry names.

ghost use Rattle.std.specs.Prelude.{◌≡◌, ◌<◌, ◌≤ℤ◌, pos, negsuc, ℕ, List, true};
ghost use Rattle.mi_base.specs.Limits.{is_key, is_value_name};
ghost use Rattle.mi_model.specs.RegistryRows.{root_of, place_in};
ghost use Rattle.mi_records.specs.Columns.{name_of, named_at};
ghost use Rattle.mi_records.specs.Stops.{Answers};
ghost use Rattle.mi_schema.specs.Laws.{IsWithin};

use crate::stop::Stop;
use crate::text::{whole_key, whole_name};
use mi_base::{Env, Text};
use mi_format::BoundedEnv;
use std::alloc::Global;
use std::marker::Model;

/// Where a value stands: its root, 0 HKCR, 1 HKCU, 2 HKLM, 3 HKU, its key without empty parts, and its name, both as they are
/// shown (Registry table, columns Root, Key and Name).
#[derive(Drop)]
pub struct RegistryPlace {
    root: u8,
    key: Text,
    name: Text,
}

impl Model for RegistryPlace {
    ghost use Rattle.std.specs.Prelude.{◌≡◌, ◌<◌, true};
    ghost use Rattle.mi_base.specs.Limits.{is_key, is_value_name};
    ghost use Rattle.mi_model.specs.RegistryRows.{RegistryPlace};

    ghost Value = { RegistryPlace };

    ghost view = { λ p. record { root = p.root; key = p.key; name = p.name } };

    ghost invariant = { λ p. (p.root < 4) × (is_key p.key ≡ true) × (is_value_name p.name ≡ true) };
}

impl RegistryPlace {
    /// The root: 0 HKCR, 1 HKCU, 2 HKLM, 3 HKU.
    pub fn root(&self) -> u8
        ensures root { result ≡ self.now.root }
        ensures right { self.now.root < 4 }
    {
        self.root
    }

    /// The key, as it is shown.
    pub fn key(&self) -> &str
        ensures key { result.now ≡ self.now.key }
        ensures right { is_key self.now.key ≡ true }
    {
        self.key.as_str()
    }

    /// The name, as it is shown.
    pub fn name(&self) -> &str
        ensures name { result.now ≡ self.now.name }
        ensures right { is_value_name self.now.name ≡ true }
    {
        self.name.as_str()
    }
}

/// The root that column Root means: -1 is the machine's where ALLUSERS is `1`, else the user's.
pub fn root_of<E: Env>(env: &E, root: i32) -> u8
    requires { IsWithin (negsuc 0) (pos 3) root }
    ensures value { result ≡ root_of (E.lookups env.now) root }
    ensures right { result < 4 }
{
    match root {
        0 => 0,
        1 => 1,
        2 => 2,
        3 => 3,
        _ => if env.property("ALLUSERS") == "1" {
            2
        } else {
            1
        },
    }
}

// The place of a root and a key, with this name.
fn with_name<E: BoundedEnv>(
    alloc: Global,
    env: &E,
    root: u8,
    key: Text,
    name: &Option<Text>,
) -> Result<RegistryPlace, Stop>
    requires root { root < 4 }
    requires key { is_key key ≡ true }
    ensures { (table : List ℕ) (row : ℕ) → Answers table row (named_at root key (name_of (E.lookups env.now) table row name.now)) result }
{
    match whole_name(alloc, env, name) {
        Ok(name) => Ok(RegistryPlace { root, key, name }),
        Err(stop) => {
            drop(key);
            Err(stop)
        }
    }
}

/// What the columns Root, Key and Name of a row name.
pub fn place_in<E: BoundedEnv>(
    alloc: Global,
    env: &E,
    root: i32,
    key: &str,
    name: &Option<Text>,
) -> Result<RegistryPlace, Stop>
    requires { IsWithin (negsuc 0) (pos 3) root }
    ensures { (table : List ℕ) (row : ℕ) → Answers table row (place_in (E.lookups env.now) table row root key.now name.now) result }
{
    let root = root_of(env, root);
    match whole_key(alloc, env, key) {
        Ok(key) => with_name(alloc, env, root, key, name),
        Err(stop) => Err(stop),
    }
}
