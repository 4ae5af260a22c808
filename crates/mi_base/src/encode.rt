//! The name and the record of an entry.

ghost use Rattle.std.specs.Prelude.{◌≡◌, ◌<◌, ◌==◌, ◌↔◌, ◌++◌, ◌∷◌, [], IfOk, OnOk, IsErrOf, true, false, length};
ghost use Rattle.mi_text.specs.Fold.{folded, IsNameLength};
ghost use Rattle.mi_text.specs.Guid.{guid_text};
ghost use Rattle.mi_base.specs.declared.entry.Entry.TheVariants.{File, Shortcut as ShortcutEntry, Product as ProductEntry};
ghost use Rattle.mi_base.specs.Names.{digit, four_digits, file_name, folder_name, key_name, value_name, shortcut_name, variable_name, client_name, product_name, system_name};
ghost use Rattle.mi_base.specs.Fields.{string, payload};
ghost use Rattle.mi_base.specs.Limits.{fits, fits_value, is_short, is_value_name, is_variable_name};
ghost use Rattle.mi_base.specs.Spelling.{name_of, head_of, head_bytes, shortcut_bytes, product_bytes, record_of};

use crate::entry::{Client, Entry, FileEntry, Product, RegValue, Shortcut, ValueKey, Variable};
use crate::limits::fits;
use crate::rec_error::EncError;
use crate::writing::{
    put_bytes, put_four_numbers, put_i16, put_numbers, put_texts, put_u16, put_u32, put_u64,
    put_value, put_version,
};
use mi_text::{Bytes, Guid, Name, NoMemory, Text, fold};
use std::alloc::Global;

const fn digit_text(number: u16) -> &'static str
    requires { number < 10 }
    ensures { result.now ≡ digit number ∷ [] }
{
    match number {
        0 => "0",
        1 => "1",
        2 => "2",
        3 => "3",
        4 => "4",
        5 => "5",
        6 => "6",
        7 => "7",
        8 => "8",
        _ => "9",
    }
}

fn push_folded(name: &mut Text, alloc: Global, text: &str) -> Result<(), NoMemory>
    ensures { OnOk result (name.new ≡ name.old ++ folded text.now) }
{
    let folded = fold(alloc, text)?;
    let pushed = name.push_str(folded.as_str());
    drop(folded);
    pushed
}

fn push_code(name: &mut Text, alloc: Global, code: Guid) -> Result<(), NoMemory>
    ensures { OnOk result (name.new ≡ name.old ++ guid_text code.number) }
{
    let printed = code.print(alloc)?;
    let pushed = name.push_str(printed.as_str());
    drop(printed);
    pushed
}

// A kind and its slash, and a folded text.
fn push_name(name: &mut Text, alloc: Global, kind: &str, text: &str) -> Result<(), NoMemory>
    ensures { OnOk result (name.new ≡ name.old ++ kind.now ++ folded text.now) }
{
    name.push_str(kind)?;
    push_folded(name, alloc, text)
}

#[tactic(auto, unfolding(crate::specs::Names::key_name))]
fn push_key(name: &mut Text, alloc: Global, root: u8, key: &str) -> Result<(), NoMemory>
    requires { root < 4 }
    ensures { OnOk result (name.new ≡ name.old ++ key_name root key.now) }
{
    name.push_str("k/")?;
    name.push_str(digit_text(u16::from(root)))?;
    push_folded(name, alloc, key)
}

fn push_four_digits(name: &mut Text, number: u16) -> Result<(), NoMemory>
    ensures { OnOk result (name.new ≡ name.old ++ four_digits number) }
{
    name.push_str(digit_text(number / 1000 % 10))?;
    name.push_str(digit_text(number / 100 % 10))?;
    name.push_str(digit_text(number / 10 % 10))?;
    name.push_str(digit_text(number % 10))
}

fn push_counted(name: &mut Text, text: &str) -> Result<(), NoMemory>
    requires { length text.now < 65536 }
    ensures { OnOk result (name.new ≡ name.old ++ four_digits (length text.now) ++ text.now) }
{
    push_four_digits(name, text.len() as u16)?;
    name.push_str(text)
}

fn push_counted_fold(name: &mut Text, alloc: Global, text: &str) -> Result<(), NoMemory>
    requires { length text.now < 65536 }
    ensures { OnOk result (name.new ≡ name.old ++ four_digits (length (folded text.now)) ++ folded text.now) }
{
    let folded = fold(alloc, text)?;
    let pushed = push_counted(name, folded.as_str());
    drop(folded);
    pushed
}

#[tactic(auto, unfolding(crate::specs::Names::value_name))]
fn push_value(name: &mut Text, alloc: Global, key: &ValueKey) -> Result<(), NoMemory>
    requires root { key.now.root < 4 }
    requires key { length key.now.key < 65536 }
    ensures { OnOk result (name.new ≡ name.old ++ value_name key.now.root key.now.key key.now.shown) }
{
    name.push_str("v/")?;
    name.push_str(digit_text(u16::from(key.root)))?;
    push_counted_fold(name, alloc, key.key.as_str())?;
    push_folded(name, alloc, key.shown.as_str())
}

#[tactic(auto, unfolding(crate::specs::Names::variable_name))]
fn push_variable(name: &mut Text, alloc: Global, variable: &Variable) -> Result<(), NoMemory>
    ensures { OnOk result (name.new ≡ name.old ++ variable_name variable.now.system variable.now.name) }
{
    let kind = if variable.system { "n/1" } else { "n/0" };
    push_name(name, alloc, kind, variable.name.as_str())
}

#[tactic(auto, unfolding(crate::specs::Names::client_name))]
fn push_client(name: &mut Text, alloc: Global, client: &Client) -> Result<(), NoMemory>
    ensures { OnOk result (name.new ≡ name.old ++ client_name client.now.component.number client.now.product.number) }
{
    name.push_str("c/")?;
    push_code(name, alloc, client.component)?;
    push_code(name, alloc, client.product)
}

#[tactic(auto, unfolding(crate::specs::Names::product_name))]
fn push_product(name: &mut Text, alloc: Global, code: Guid) -> Result<(), NoMemory>
    ensures { OnOk result (name.new ≡ name.old ++ product_name code.number) }
{
    name.push_str("p/")?;
    push_code(name, alloc, code)
}

#[tactic(auto, unfolding(crate::specs::Names::system_name))]
fn push_system(name: &mut Text, property: &str) -> Result<(), NoMemory>
    ensures { OnOk result (name.new ≡ name.old ++ system_name property.now) }
{
    name.push_str("y/")?;
    name.push_str(property)
}

#[tactic(auto, unfolding(crate::specs::Names::file_name, crate::specs::Names::folder_name, crate::specs::Names::shortcut_name, crate::specs::Limits::fits, crate::specs::Limits::is_key))]
fn push_entry_name(name: &mut Text, alloc: Global, entry: &Entry) -> Result<(), NoMemory>
    requires { fits entry.now ≡ true }
    ensures { OnOk result (name.new ≡ name.old ++ name_of entry.now) }
{
    match entry {
        Entry::File(file) => push_name(name, alloc, "f/", file.shown.as_str()),
        Entry::Folder(shown) => push_name(name, alloc, "d/", shown.as_str()),
        Entry::Value(key, _) => push_value(name, alloc, key),
        Entry::Key(root, shown) => push_key(name, alloc, *root, shown.as_str()),
        Entry::Shortcut(shortcut) => push_name(name, alloc, "s/", shortcut.shown.as_str()),
        Entry::Variable(variable) => push_variable(name, alloc, variable),
        Entry::Client(client) => push_client(name, alloc, client),
        Entry::Product(product) => push_product(name, alloc, product.code),
        Entry::System(property, _) => push_system(name, property.as_str()),
    }
}

// A text of the length of names is one.
fn named(alloc: Global, text: &str) -> Result<Name, NoMemory>
    requires { IsNameLength text.now }
    ensures { IfOk result (λ n. n ≡ text.now) }
{
    match Name::of(alloc, text) {
        Ok(name) => Ok(name),
        Err(_) => Err(NoMemory),
    }
}

#[tactic(auto, unfolding(crate::specs::Spelling::head_bytes, crate::specs::Limits::fits), using(crate::proofs::FoldLemmas::file_short))]
fn put_head(out: &mut Vec<u8>, file: &FileEntry) -> Result<(), NoMemory>
    requires { fits (File file.now) ≡ true }
    ensures { OnOk result (out.new.items ≡ out.old.items ++ head_bytes (head_of file.now)) }
{
    put_bytes(out, file.shown.as_str().as_bytes())?;
    put_version(out, &file.version)?;
    put_numbers(out, file.languages.as_slice())?;
    put_u64(out, file.created)?;
    put_u64(out, file.modified)?;
    put_u32(out, file.attributes)
}

#[tactic(auto, unfolding(crate::specs::Spelling::shortcut_bytes, crate::specs::Limits::fits), using(crate::proofs::FoldLemmas::file_short))]
fn put_shortcut(out: &mut Vec<u8>, shortcut: &Shortcut) -> Result<(), NoMemory>
    requires { fits (ShortcutEntry shortcut.now) ≡ true }
    ensures { OnOk result (out.new.items ≡ out.old.items ++ shortcut_bytes shortcut.now) }
{
    put_bytes(out, shortcut.shown.as_str().as_bytes())?;
    put_bytes(out, shortcut.target.as_bytes())?;
    put_bytes(out, shortcut.arguments.as_bytes())?;
    put_bytes(out, shortcut.description.as_bytes())?;
    put_u16(out, shortcut.hotkey)?;
    put_bytes(out, shortcut.icon.as_bytes())?;
    put_i16(out, shortcut.icon_index)?;
    put_u16(out, shortcut.show)?;
    put_bytes(out, shortcut.folder.as_bytes())
}

#[tactic(auto, unfolding(crate::specs::Spelling::product_bytes, crate::specs::Limits::fits))]
fn put_product(out: &mut Vec<u8>, product: &Product) -> Result<(), NoMemory>
    requires { fits (ProductEntry product.now) ≡ true }
    ensures { OnOk result (out.new.items ≡ out.old.items ++ product_bytes product.now) }
{
    put_bytes(out, product.name.as_bytes())?;
    put_four_numbers(out, &product.version)?;
    put_u16(out, product.language)?;
    put_texts(out, product.features.as_slice())
}

fn put_file(out: &mut Vec<u8>, file: &FileEntry) -> Result<(), NoMemory>
    requires { fits (File file.now) ≡ true }
    ensures { OnOk result (out.new.items ≡ out.old.items ++ head_bytes (head_of file.now) ++ file.now.bytes) }
{
    put_head(out, file)?;
    out.extend_from_slice(file.bytes.as_slice())?;
    Ok(())
}

#[tactic(auto, unfolding(crate::specs::Limits::is_value_name))]
fn put_named_value(out: &mut Vec<u8>, name: &Text, value: &RegValue) -> Result<(), NoMemory>
    requires name { is_value_name name.now ≡ true }
    requires value { fits_value value.now ≡ true }
    ensures { OnOk result (out.new.items ≡ out.old.items ++ string name.now ++ payload value.now) }
{
    put_bytes(out, name.as_bytes())?;
    put_value(out, value)
}

#[tactic(auto, unfolding(crate::specs::Limits::is_variable_name))]
fn put_variable(out: &mut Vec<u8>, variable: &Variable) -> Result<(), NoMemory>
    requires name { is_variable_name variable.now.name ≡ true }
    requires value { is_short variable.now.value ≡ true }
    ensures { OnOk result (out.new.items ≡ out.old.items ++ string variable.now.name ++ string variable.now.value) }
{
    put_bytes(out, variable.name.as_bytes())?;
    put_bytes(out, variable.value.as_bytes())
}

#[tactic(auto, unfolding(crate::specs::Spelling::record_of, crate::specs::Limits::fits, crate::specs::Limits::is_key), using(crate::proofs::FoldLemmas::folder_short))]
fn put_record(out: &mut Vec<u8>, entry: &Entry) -> Result<(), NoMemory>
    requires { fits entry.now ≡ true }
    ensures { OnOk result (out.new.items ≡ out.old.items ++ record_of entry.now) }
{
    match entry {
        Entry::File(file) => put_file(out, file),
        Entry::Folder(shown) => put_bytes(out, shown.as_str().as_bytes()),
        Entry::Value(key, value) => put_named_value(out, &key.shown, value),
        Entry::Key(_, shown) => put_bytes(out, shown.as_bytes()),
        Entry::Shortcut(shortcut) => put_shortcut(out, shortcut),
        Entry::Variable(variable) => put_variable(out, variable),
        Entry::Client(client) => put_bytes(out, client.key_path.as_bytes()),
        Entry::Product(product) => put_product(out, product),
        Entry::System(_, text) => put_bytes(out, text.as_bytes()),
    }
}

#[tactic(auto, using(crate::proofs::NameLemmas::name_length))]
fn entry_name(alloc: Global, entry: &Entry) -> Result<Name, NoMemory>
    requires { fits entry.now ≡ true }
    ensures { IfOk result (λ n. n ≡ name_of entry.now) }
{
    let mut text = Text::new(alloc);
    match push_entry_name(&mut text, alloc, entry) {
        Ok(()) => {
            let name = named(alloc, text.as_str());
            drop(text);
            name
        }
        Err(error) => {
            drop(text);
            Err(error)
        }
    }
}

fn entry_record(alloc: Global, entry: &Entry) -> Result<Bytes, NoMemory>
    requires { fits entry.now ≡ true }
    ensures { IfOk result (λ b. b ≡ record_of entry.now) }
{
    let mut record = Vec::new(alloc);
    match put_record(&mut record, entry) {
        Ok(()) => Ok(Bytes::from_vec(record)),
        Err(error) => {
            drop(record);
            Err(error)
        }
    }
}

/// The name and the record of an entry. `Field` comes exactly where the entry breaks a limit or rule
/// of its record. The spelling is this project's own.
pub fn enc_entry(alloc: Global, entry: &Entry) -> Result<(Name, Bytes), EncError>
    ensures name { IfOk result (λ x. x.0 ≡ name_of entry.now) }
    ensures record { IfOk result (λ x. x.1 ≡ record_of entry.now) }
    ensures field { IsErrOf result EncError.Field ↔ (fits entry.now ≡ false) }
{
    if !fits(entry) {
        return Err(EncError::Field);
    }
    let name = entry_name(alloc, entry)?;
    match entry_record(alloc, entry) {
        Ok(record) => Ok((name, record)),
        Err(_) => {
            drop(name);
            Err(EncError::NoMemory)
        }
    }
}
