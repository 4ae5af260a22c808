//! Names of properties.

ghost use Rattle.std.specs.Prelude.{◌≡◌};
ghost use Rattle.std.specs.List.{list_all};
ghost use Rattle.mi_text.specs.PropertyNames.{begins_name, continues_name, is_property_name, begins_public_name, continues_public_name, is_public_name};

const fn begins_name(byte: u8) -> bool
    ensures { result ≡ begins_name byte }
{
    byte.is_ascii_alphabetic() || byte == b'_'
}

const fn continues_name(byte: u8) -> bool
    ensures { result ≡ continues_name byte }
{
    byte.is_ascii_alphanumeric() || byte == b'_' || byte == b'.'
}

fn all_continue_name(bytes: &[u8]) -> bool
    ensures { result ≡ list_all continues_name bytes.now }
{
    bytes.iter().all(|byte| continues_name(*byte))
}

/// Whether this is a property name: an ASCII letter or `_`, then letters, digits, `_` and `.`
/// (Restrictions on Property Names). No memory.
pub fn is_property_name(name: &str) -> bool
    ensures { result ≡ is_property_name name.now }
{
    match name.as_bytes() {
        [] => false,
        [first, others @ ..] => begins_name(*first) && all_continue_name(others),
    }
}

const fn begins_public_name(byte: u8) -> bool
    ensures { result ≡ begins_public_name byte }
{
    byte.is_ascii_uppercase() || byte == b'_'
}

const fn continues_public_name(byte: u8) -> bool
    ensures { result ≡ continues_public_name byte }
{
    byte.is_ascii_uppercase() || byte.is_ascii_digit() || byte == b'_' || byte == b'.'
}

fn all_continue_public_name(bytes: &[u8]) -> bool
    ensures { result ≡ list_all continues_public_name bytes.now }
{
    bytes.iter().all(|byte| continues_public_name(*byte))
}

/// Whether this is the name of a public property, which a word `NAME=VALUE` may set: an upper-case ASCII
/// letter or `_`, then upper-case letters, digits, `_` and `.` (Public Properties). No memory.
pub fn is_public_name(name: &str) -> bool
    ensures { result ≡ is_public_name name.now }
{
    match name.as_bytes() {
        [] => false,
        [first, others @ ..] => begins_public_name(*first) && all_continue_public_name(others),
    }
}
