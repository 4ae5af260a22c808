//! The product, as the rows of the Property table state it.

ghost use Rattle.std.specs.Prelude.{◌≡◌, ◌≤◌, IfOk, IfSome, codes, unwrap_or};
ghost use Rattle.mi_text.specs.Guid.{guid_of};
ghost use Rattle.mi_text.specs.Version.{version_of};
ghost use Rattle.mi_idt.specs.Fields.{number_within};
ghost use Rattle.mi_base.specs.declared.entry.Entry.TheVariants.{Product as ProductEntry};
ghost use Rattle.mi_model.specs.PublishProduct.{no_version, product_entry};
ghost use Rattle.mi_schema.specs.Lawful.{IsLawful};
ghost use Rattle.mi_schema.specs.RowsOf.{rows_in};
ghost use Rattle.mi_schema.specs.TableRows.{product_code, table_value};

use crate::sees::Sees;
use mi_base::{Guid, NoMemory, Product, Text, Texts, Version};
use mi_schema::{Package, keys_stand};
use std::alloc::Global;

// The greatest number of a language.
const LANGUAGE_LIMIT: u32 = 65535;

/// The version of a product that states none.
pub const NO_VERSION: Version = Version {
    major: 0,
    minor: 0,
    build: 0,
    revision: 0,
};

fn table_value<'a>(loaded: &'a Package, name: &Text) -> &'a str
    requires { IsLawful loaded.now }
    ensures { result.now ≡ table_value (rows_in loaded.now) name.now }
{
    keys_stand(loaded);
    match loaded.property.get(name) {
        Some(row) => row.value.as_str(),
        None => "",
    }
}

// What a row of the Property table states, whatever the property was set to; empty where there is none.
fn stated(alloc: Global, loaded: &Package, name: &str) -> Result<Text, NoMemory>
    requires { IsLawful loaded.now }
    ensures { IfOk result (λ text. text ≡ table_value (rows_in loaded.now) name.now) }
{
    let name = Text::copy_of(alloc, name)?;
    Text::copy_of(alloc, table_value(loaded, &name))
}

fn code_in(text: &str) -> Guid
    ensures { result.number ≡ unwrap_or (guid_of text.now) 0 }
{
    match Guid::read(text) {
        Ok(code) => code,
        Err(_) => Guid { number: 0 },
    }
}

/// The code of the product (ProductCode property).
pub fn product_code(alloc: Global, loaded: &Package) -> Result<Guid, NoMemory>
    requires { IsLawful loaded.now }
    ensures { IfOk result (λ code. code.number ≡ product_code (rows_in loaded.now)) }
{
    let text = stated(alloc, loaded, "ProductCode")?;
    Ok(code_in(text.as_str()))
}

fn version_in(text: &str) -> Version
    ensures { result ≡ unwrap_or (version_of text.now) no_version }
{
    match Version::read(text) {
        Ok(version) => version,
        Err(_) => NO_VERSION,
    }
}

fn product_version(alloc: Global, loaded: &Package) -> Result<Version, NoMemory>
    requires { IsLawful loaded.now }
    ensures { IfOk result (λ version. version ≡ unwrap_or (version_of (table_value (rows_in loaded.now) (codes "ProductVersion"))) no_version) }
{
    let text = stated(alloc, loaded, "ProductVersion")?;
    Ok(version_in(text.as_str()))
}

/// The number of a language that digits spell, up to 65,535, and None where they spell no such number (ProductLanguage property;
/// File table, Language).
pub fn language_of(digits: &[u8]) -> Option<u32>
    ensures value { result ≡ number_within 65535 digits.now }
    ensures bound { IfSome result (λ number. number ≤ 65535) }
{
    if digits.is_empty() {
        return None;
    }
    let mut number = 0u32;
    for digit in digits {
        if !digit.is_ascii_digit() {
            return None;
        }
        number = number * 10 + u32::from(*digit - b'0');
        if number > LANGUAGE_LIMIT {
            return None;
        }
    }
    Some(number)
}

fn language_in(text: &str) -> u16
    ensures { result ≡ unwrap_or (number_within 65535 text.now) 0 }
{
    match language_of(text.as_bytes()) {
        Some(number) => number as u16,
        None => 0,
    }
}

/// The language that the rows of the Property table state, whatever the property was set to (ProductLanguage property).
pub fn product_language(alloc: Global, loaded: &Package) -> Result<u16, NoMemory>
    requires { IsLawful loaded.now }
    ensures { IfOk result (λ language. language ≡ unwrap_or (number_within 65535 (table_value (rows_in loaded.now) (codes "ProductLanguage"))) 0) }
{
    let text = stated(alloc, loaded, "ProductLanguage")?;
    Ok(language_in(text.as_str()))
}

/// The record of the product: its code, name, version and language as the rows of the Property table state them, and the features
/// that are local after the run (ProductCode, ProductName, ProductVersion and ProductLanguage properties).
pub fn product_seen<S: Sees>(alloc: Global, seen: &S) -> Result<Product, NoMemory>
    requires { IsLawful (S.rows seen.now) }
    ensures { IfOk result (λ product. ProductEntry product ≡ product_entry (rows_in (S.rows seen.now)) (S.choices seen.now).local_after) }
{
    let code = product_code(alloc, seen.package())?;
    let version = product_version(alloc, seen.package())?;
    let language = product_language(alloc, seen.package())?;
    let name = stated(alloc, seen.package(), "ProductName")?;
    let features = seen.local_after(alloc)?;
    Ok(Product {
        code,
        name,
        version,
        language,
        features: Texts::from_vec(features),
    })
}
