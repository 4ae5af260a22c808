//! The column Name of a row of Environment: prefixes out of `= + - ! *`, then the variable (Environment table, column Name).

ghost use Rattle.std.specs.Prelude.{◌≡◌, codes, count_by};
ghost use Rattle.std.specs.List.{list_any, prefix_len};
ghost use Rattle.mi_base.specs.Limits.{is_variable_name};
ghost use Rattle.mi_model.specs.EnvironmentRows.{is_any_of, prefixes_of, variable_in, has_prefix, sets, creates, removes, clears, is_of_system, repeats, is_bad_name};

use mi_records::lacks_zero;

// ---- prefixes

const fn is_prefix(byte: u8) -> bool
    ensures { result ≡ is_any_of (codes "=+-!*") byte }
{
    matches!(byte, b'=' | b'+' | b'-' | b'!' | b'*')
}

// Whether a prefix says what is done; `*` says whose variable it is.
const fn acts(byte: u8) -> bool
    ensures { result ≡ is_any_of (codes "=+!-") byte }
{
    matches!(byte, b'=' | b'+' | b'!' | b'-')
}

// Whether it is one of those of which only one may stand.
const fn excludes(byte: u8) -> bool
    ensures { result ≡ is_any_of (codes "=+!") byte }
{
    matches!(byte, b'=' | b'+' | b'!')
}

// How many prefixes a Name begins with.
fn prefix_count(name: &[u8]) -> usize
    ensures { result ≡ prefix_len (is_any_of (codes "=+-!*")) name.now }
{
    let mut count = 0;
    for byte in name {
        if !is_prefix(*byte) {
            return count;
        }
        count += 1;
    }
    count
}

fn prefixes(name: &str) -> &[u8]
    ensures { result.now ≡ prefixes_of name.now }
{
    let bytes = name.as_bytes();
    let (front, _) = bytes.split_at(prefix_count(bytes));
    front
}

/// The variable that a Name names: what stands behind its prefixes (Environment table, column Name).
pub fn variable_in(name: &str) -> &str
    ensures { result.now ≡ variable_in name.now }
{
    let count = prefix_count(name.as_bytes());
    name.split_at(count).1
}

// Whether a byte is among these.
fn is_any_of(bytes: &[u8], byte: u8) -> bool
    ensures { result ≡ is_any_of bytes.now byte }
{
    bytes.iter().any(|other| byte == *other)
}

// Whether one of these says what is done.
fn act(prefixes: &[u8]) -> bool
    ensures { result ≡ list_any (is_any_of (codes "=+!-")) prefixes.now }
{
    prefixes.iter().any(|byte| acts(*byte))
}

// Whether a Name has a prefix; one that says nothing of what is done has `=` and `-`.
fn has_prefix(name: &str, prefix: u8) -> bool
    ensures { result ≡ has_prefix prefix name.now }
{
    let prefixes = prefixes(name);
    let has = is_any_of(prefixes, prefix);
    let acting = act(prefixes);
    let stands_for_none = is_any_of(b"=-", prefix);
    has || (!acting && stands_for_none)
}

/// Whether a row sets its variable.
pub fn sets(name: &str) -> bool
    ensures { result ≡ sets name.now }
{
    has_prefix(name, b'=')
}

/// Whether a row sets its variable where there is none.
pub fn creates(name: &str) -> bool
    ensures { result ≡ creates name.now }
{
    has_prefix(name, b'+')
}

/// Whether a row takes its variable away with its component: `-`, or none of `= + ! -` (Environment table, column Name).
pub fn removes(name: &str) -> bool
    ensures { result ≡ removes name.now }
{
    has_prefix(name, b'-')
}

/// Whether a row takes its variable away before its component is installed: `!` (Environment table, column Name).
pub fn clears(name: &str) -> bool
    ensures { result ≡ clears name.now }
{
    has_prefix(name, b'!')
}

/// Whether the variable is the system's, else the user's: `*` (Environment table, column Name).
pub fn is_of_system(name: &str) -> bool
    ensures { result ≡ is_of_system name.now }
{
    is_any_of(prefixes(name), b'*')
}

// ---- bad names

// Whether a byte stands twice.
fn repeats(bytes: &[u8]) -> bool
    ensures { result ≡ repeats bytes.now }
{
    for (place, byte) in bytes.iter().enumerate() {
        if is_any_of(&bytes[place + 1..], *byte) {
            return true;
        }
    }
    false
}

// How many prefixes exclude one another.
fn exclusive_count(bytes: &[u8]) -> usize
    ensures { result ≡ count_by (is_any_of (codes "=+!")) bytes.now }
{
    bytes.iter().filter(|byte| excludes(**byte)).count()
}

// Whether a text names a variable: 1 to 500 bytes without a byte 0.
#[tactic(auto, unfolding(mi_base::specs::Limits::is_variable_name))]
fn is_variable_name(text: &str) -> bool
    ensures { result ≡ is_variable_name text.now }
{
    let some = !text.is_empty();
    let short = text.len() <= 500;
    let no_zero = lacks_zero(text);
    some && short && no_zero
}

/// Whether a Name is none: a prefix stands twice, two of `= + !` stand together, or the variable is empty, longer than 500 bytes or
/// has a byte 0 (Environment table, column Name).
pub fn is_bad_name(name: &str) -> bool
    ensures { result ≡ is_bad_name name.now }
{
    let prefixes = prefixes(name);
    let twice = repeats(prefixes);
    let several = exclusive_count(prefixes) > 1;
    twice || several || !is_variable_name(variable_in(name))
}
