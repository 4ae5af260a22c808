//! The settings that properties hold.

ghost use Rattle.std.specs.Prelude.{◌≡◌, codes, Ok};
ghost use Rattle.mi_base.specs.declared.answers.Fault.TheVariants.{BadProperty as bad_property};
ghost use Rattle.mi_idt.specs.Fields.{number_within};
ghost use Rattle.mi_model.specs.Selecting.{above_zero, install_level_of, reinstall_mode_of, setting};
ghost use Rattle.mi_wishes.specs.Answers.{Refuses, Gives};

use mi_base::{Env, Fault, Text};
use mi_fver::Mode;
use mi_wishes::SelectError;
use std::alloc::Global;

/// The greatest INSTALLLEVEL.
const LEVEL_LIMIT: u32 = 32767;

fn number_of(digits: &[u8]) -> Option<u32>
    ensures { result ≡ number_within 32767 digits.now }
{
    if digits.is_empty() {
        return None;
    }
    let mut number = 0;
    for digit in digits {
        if !digit.is_ascii_digit() {
            return None;
        }
        number = number * 10 + u32::from(*digit - b'0');
        if number > LEVEL_LIMIT {
            return None;
        }
    }
    Some(number)
}

fn above_zero(number: Option<u32>) -> Option<u32>
    ensures { result ≡ above_zero number }
{
    match number {
        Some(0) => None,
        Some(number) => Some(number),
        None => None,
    }
}

/// The value of INSTALLLEVEL, a number from 1 to 32767, which is 1 where it isn't set.
fn install_level_of(text: &str) -> Option<u32>
    ensures { result ≡ install_level_of text.now }
{
    if text.is_empty() {
        Some(1)
    } else {
        above_zero(number_of(text.as_bytes()))
    }
}

/// The value of REINSTALLMODE, letters, which are `omus` where it isn't set.
fn reinstall_mode_of(text: &str) -> Option<Mode>
    ensures { result ≡ reinstall_mode_of text.now }
{
    let letters = if text.is_empty() { "omus" } else { text };
    match Mode::read(letters) {
        Ok(mode) => Some(mode),
        Err(_) => None,
    }
}

fn bad_property(alloc: Global, name: &str) -> SelectError
    ensures { Refuses result (bad_property name.now) }
{
    match Text::copy_of(alloc, name) {
        Ok(name) => SelectError::Fault(Fault::BadProperty(name)),
        Err(_) => SelectError::NoMemory,
    }
}

/// INSTALLLEVEL, or its refusal (INSTALLLEVEL Property).
pub fn install_level<E: Env>(alloc: Global, env: &E) -> Result<u32, SelectError>
    ensures { Gives result (λ level. level) (setting install_level_of (E.lookups env.now) (codes "INSTALLLEVEL")) }
{
    match install_level_of(env.property("INSTALLLEVEL")) {
        Some(level) => Ok(level),
        None => Err(bad_property(alloc, "INSTALLLEVEL")),
    }
}

/// REINSTALLMODE, or its refusal (REINSTALLMODE Property).
pub fn reinstall_mode<E: Env>(alloc: Global, env: &E) -> Result<Mode, SelectError>
    ensures { Gives result (λ mode. mode) (setting reinstall_mode_of (E.lookups env.now) (codes "REINSTALLMODE")) }
{
    match reinstall_mode_of(env.property("REINSTALLMODE")) {
        Some(mode) => Ok(mode),
        None => Err(bad_property(alloc, "REINSTALLMODE")),
    }
}
