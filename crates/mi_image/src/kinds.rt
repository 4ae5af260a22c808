//! What an entry is, by its kind.

ghost use Rattle.std.specs.Prelude.{◌≡◌, Some, is_some};
ghost use Rattle.std.specs.Option.{option_copied, option_map};
ghost use Rattle.mi_base.specs.Machine.{as_folder, as_key, as_value, as_shortcut, as_variable, as_client, as_product, as_system};

use mi_base::{Client, Entry, PathText, Product, RegValue, Shortcut, Text, Variable};

pub fn is_folder(entry: &Entry) -> bool
    ensures { result ≡ is_some (as_folder (Some entry.now)) }
{
    matches!(entry, Entry::Folder(_))
}

pub fn as_folder(entry: &Entry) -> Option<&PathText>
    ensures { option_copied result ≡ as_folder (Some entry.now) }
{
    match entry {
        Entry::Folder(shown) => Some(shown),
        _ => None,
    }
}

pub fn is_key(entry: &Entry) -> bool
    ensures { result ≡ is_some (as_key (Some entry.now)) }
{
    matches!(entry, Entry::Key(_, _))
}

pub fn as_key(entry: &Entry) -> Option<&Text>
    ensures { option_copied result ≡ as_key (Some entry.now) }
{
    match entry {
        Entry::Key(_, shown) => Some(shown),
        _ => None,
    }
}

pub fn as_value(entry: &Entry) -> Option<&RegValue>
    ensures { option_copied result ≡ option_map (λ v. v.1) (as_value (Some entry.now)) }
{
    match entry {
        Entry::Value(_, value) => Some(value),
        _ => None,
    }
}

pub fn as_shortcut(entry: &Entry) -> Option<&Shortcut>
    ensures { option_copied result ≡ as_shortcut (Some entry.now) }
{
    match entry {
        Entry::Shortcut(shortcut) => Some(shortcut),
        _ => None,
    }
}

pub fn as_variable(entry: &Entry) -> Option<&Variable>
    ensures { option_copied result ≡ as_variable (Some entry.now) }
{
    match entry {
        Entry::Variable(variable) => Some(variable),
        _ => None,
    }
}

pub fn as_client(entry: &Entry) -> Option<&Client>
    ensures { option_copied result ≡ as_client (Some entry.now) }
{
    match entry {
        Entry::Client(client) => Some(client),
        _ => None,
    }
}

pub fn as_product(entry: &Entry) -> Option<&Product>
    ensures { option_copied result ≡ as_product (Some entry.now) }
{
    match entry {
        Entry::Product(product) => Some(product),
        _ => None,
    }
}

pub fn as_system(entry: &Entry) -> Option<&Text>
    ensures { option_copied result ≡ as_system (Some entry.now) }
{
    match entry {
        Entry::System(_, value) => Some(value),
        _ => None,
    }
}
