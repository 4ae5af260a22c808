//! The line of each entry that isn't of the registry.

ghost use Rattle.std.specs.Prelude.{◌≡◌, ◌++◌, ◌∷◌, [], OnOk, codes, if◌then◌else◌};
ghost use Rattle.std.specs.List.{flat_map};
ghost use Rattle.std.specs.Fmt.{decimal, signed_decimal};
ghost use Rattle.mi_print.specs.Texts.{field, quoted, two_digits};
ghost use Rattle.mi_print.specs.Lines.{product_front, product_line, version_or_none, attributes_text, details_front, head_details, shortcut_front, shortcut_icon, folder_line, shortcut_line, variable_line, client_line, system_line};

use crate::texts::{
    push_code, push_digits, push_field, push_number, push_quoted, push_signed, push_version,
    push_word,
};
use mi_base::{Client, FileHead, NoMemory, Product, Shortcut, Text, Variable, Version};
use std::alloc::Global;

// Adds a title and a text.
fn push_titled(out: &mut Vec<u8>, title: &str, text: &str) -> Result<(), NoMemory>
    ensures { OnOk result (out.new.items ≡ out.old.items ++ title.now ++ field text.now) }
{
    push_word(out, title)?;
    push_field(out, text)
}

// Adds a title and a number.
fn push_counted(alloc: Global, out: &mut Vec<u8>, title: &str, number: u64) -> Result<(), NoMemory>
    ensures { OnOk result (out.new.items ≡ out.old.items ++ title.now ++ decimal number) }
{
    push_word(out, title)?;
    push_number(alloc, out, number)
}

fn push_features(out: &mut Vec<u8>, features: &[Text]) -> Result<(), NoMemory>
    ensures { OnOk result (out.new.items ≡ out.old.items ++ flat_map (λ f. 32 ∷ quoted f) features.now) }
{
    for feature in features {
        out.push(b' ')?;
        push_quoted(out, feature.as_str())?;
    }
    Ok(())
}

// Adds the line of a product up to its name.
fn push_product_front(alloc: Global, out: &mut Vec<u8>, product: &Product) -> Result<(), NoMemory>
    ensures { OnOk result (out.new.items ≡ out.old.items ++ product_front product.now) }
{
    push_code(alloc, out, product.code)?;
    out.push(b'\t')?;
    push_version(alloc, out, product.version)?;
    push_counted(alloc, out, "\tlanguage ", u64::from(product.language))?;
    push_titled(out, "\t", product.name.as_str())
}

/// Adds the line of a product.
#[tactic(auto, unfolding(crate::specs::Lines::product_line))]
pub fn push_product(alloc: Global, out: &mut Vec<u8>, product: &Product) -> Result<(), NoMemory>
    ensures { OnOk result (out.new.items ≡ out.old.items ++ product_line product.now) }
{
    push_product_front(alloc, out, product)?;
    push_word(out, "\tfeatures")?;
    push_features(out, product.features.as_slice())?;
    out.push(b'\n')?;
    Ok(())
}

fn push_version_or_none(
    alloc: Global,
    out: &mut Vec<u8>,
    version: Option<Version>,
) -> Result<(), NoMemory>
    ensures { OnOk result (out.new.items ≡ out.old.items ++ version_or_none version) }
{
    match version {
        Some(version) => push_version(alloc, out, version),
        None => push_word(out, "-"),
    }
}

fn push_languages(alloc: Global, out: &mut Vec<u8>, languages: &[u16]) -> Result<(), NoMemory>
    ensures { OnOk result (out.new.items ≡ out.old.items ++ flat_map (λ l. decimal l ++ 32 ∷ []) languages.now) }
{
    for language in languages {
        push_number(alloc, out, u64::from(*language))?;
        out.push(b' ')?;
    }
    Ok(())
}

#[tactic(auto, unfolding(crate::specs::Lines::attributes_text))]
fn push_attributes(out: &mut Vec<u8>, attributes: u32) -> Result<(), NoMemory>
    ensures { OnOk result (out.new.items ≡ out.old.items ++ attributes_text attributes) }
{
    out.push(if attributes % 2 == 1 { b'r' } else { b'-' })?;
    out.push(if attributes / 2 % 2 == 1 { b'h' } else { b'-' })?;
    out.push(if attributes / 4 % 2 == 1 { b's' } else { b'-' })?;
    Ok(())
}

// Adds the size, the version and the languages of a file.
fn push_details_front(alloc: Global, out: &mut Vec<u8>, head: &FileHead) -> Result<(), NoMemory>
    ensures { OnOk result (out.new.items ≡ out.old.items ++ details_front head.now) }
{
    push_counted(alloc, out, "\t", head.length)?;
    push_word(out, " bytes\tversion ")?;
    push_version_or_none(alloc, out, head.version)?;
    push_word(out, "\tlanguages ")?;
    push_languages(alloc, out, head.languages.as_slice())
}

// Adds the attributes and the moments of a file behind that.
fn push_details_middle(alloc: Global, out: &mut Vec<u8>, head: &FileHead) -> Result<(), NoMemory>
    ensures { OnOk result (out.new.items ≡ out.old.items ++ 9 ∷ attributes_text head.now.attributes ++ codes "\tcreated " ++ decimal head.now.created ++ codes "\tmodified " ++ decimal head.now.modified) }
{
    out.push(b'\t')?;
    push_attributes(out, head.attributes)?;
    push_counted(alloc, out, "\tcreated ", head.created)?;
    push_counted(alloc, out, "\tmodified ", head.modified)
}

/// Adds what stands behind the path of a file, by its head and the MD5 of its bytes: size in bytes, version, languages,
/// attributes, both moments in seconds since 1970 and the MD5, with a line feed.
#[tactic(auto, unfolding(crate::specs::Lines::head_details))]
pub fn push_details(
    alloc: Global,
    out: &mut Vec<u8>,
    head: &FileHead,
    hash: &[u8],
) -> Result<(), NoMemory>
    ensures { OnOk result (out.new.items ≡ out.old.items ++ head_details head.now hash.now) }
{
    push_details_front(alloc, out, head)?;
    push_details_middle(alloc, out, head)?;
    push_word(out, "\tmd5 ")?;
    push_digits(out, hash)?;
    out.push(b'\n')?;
    Ok(())
}

/// Adds the line of a folder.
#[tactic(auto, unfolding(crate::specs::Lines::folder_line))]
pub fn push_folder(out: &mut Vec<u8>, shown: &str) -> Result<(), NoMemory>
    ensures { OnOk result (out.new.items ≡ out.old.items ++ folder_line shown.now) }
{
    push_field(out, shown)?;
    out.push(b'\n')?;
    Ok(())
}

// Adds the line of a shortcut up to its folder.
#[tactic(auto, unfolding(crate::specs::Lines::shortcut_front))]
fn push_shortcut_front(out: &mut Vec<u8>, shortcut: &Shortcut) -> Result<(), NoMemory>
    ensures { OnOk result (out.new.items ≡ out.old.items ++ shortcut_front shortcut.now) }
{
    push_field(out, shortcut.shown.as_str())?;
    push_titled(out, "\ttarget ", shortcut.target.as_str())?;
    push_titled(out, "\targuments ", shortcut.arguments.as_str())?;
    push_titled(out, "\tfolder ", shortcut.folder.as_str())
}

// Adds a tab and a number.
fn push_index(alloc: Global, out: &mut Vec<u8>, index: &i16) -> Result<(), NoMemory>
    ensures { OnOk result (out.new.items ≡ out.old.items ++ 9 ∷ signed_decimal index.now) }
{
    out.push(b'\t')?;
    push_signed(alloc, out, *index)
}

// Adds its description and its icon behind that.
#[tactic(auto, unfolding(crate::specs::Lines::shortcut_icon))]
fn push_shortcut_icon(alloc: Global, out: &mut Vec<u8>, shortcut: &Shortcut) -> Result<(), NoMemory>
    ensures { OnOk result (out.new.items ≡ out.old.items ++ shortcut_icon shortcut.now) }
{
    push_titled(out, "\tdescription ", shortcut.description.as_str())?;
    push_titled(out, "\ticon ", shortcut.icon.as_str())?;
    push_index(alloc, out, &shortcut.icon_index)?;
    Ok(())
}

/// Adds the line of a shortcut.
#[tactic(auto, unfolding(crate::specs::Lines::shortcut_line))]
pub fn push_shortcut(alloc: Global, out: &mut Vec<u8>, shortcut: &Shortcut) -> Result<(), NoMemory>
    ensures { OnOk result (out.new.items ≡ out.old.items ++ shortcut_line shortcut.now) }
{
    push_shortcut_front(out, shortcut)?;
    push_shortcut_icon(alloc, out, shortcut)?;
    push_counted(alloc, out, "\tkey ", u64::from(shortcut.hotkey))?;
    push_counted(alloc, out, "\tshow ", u64::from(shortcut.show))?;
    out.push(b'\n')?;
    Ok(())
}

fn owner(system: bool) -> &'static str
    ensures { result.now ≡ (if system then codes "system\t" else codes "user\t") }
{
    if system { "system\t" } else { "user\t" }
}

/// Adds the line of an environment variable.
#[tactic(auto, unfolding(crate::specs::Lines::variable_line))]
pub fn push_variable(out: &mut Vec<u8>, variable: &Variable) -> Result<(), NoMemory>
    ensures { OnOk result (out.new.items ≡ out.old.items ++ variable_line variable.now) }
{
    push_titled(out, owner(variable.system), variable.name.as_str())?;
    push_titled(out, "\t", variable.value.as_str())?;
    out.push(b'\n')?;
    Ok(())
}

/// Adds the line of a client.
#[tactic(auto, unfolding(crate::specs::Lines::client_line))]
pub fn push_client(alloc: Global, out: &mut Vec<u8>, client: &Client) -> Result<(), NoMemory>
    ensures { OnOk result (out.new.items ≡ out.old.items ++ client_line client.now) }
{
    push_code(alloc, out, client.component)?;
    out.push(b'\t')?;
    push_code(alloc, out, client.product)?;
    push_titled(out, "\t", client.key_path.as_str())?;
    out.push(b'\n')?;
    Ok(())
}

/// Adds the line of a property of the system.
#[tactic(auto, unfolding(crate::specs::Lines::system_line))]
pub fn push_system(out: &mut Vec<u8>, property: &str, value: &str) -> Result<(), NoMemory>
    ensures { OnOk result (out.new.items ≡ out.old.items ++ system_line property.now value.now) }
{
    push_field(out, property)?;
    push_titled(out, "\t", value)?;
    out.push(b'\n')?;
    Ok(())
}
