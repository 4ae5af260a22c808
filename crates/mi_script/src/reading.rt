//! Reading a written script.

ghost use Rattle.std.specs.Prelude.{◌≡◌, None, IfOk, true};
ghost use Rattle.std.specs.Int.{w16};
ghost use Rattle.mi_text.specs.Fold.{IsNameLength};
ghost use Rattle.mi_text.specs.Path.{is_path};
ghost use Rattle.mi_base.specs.declared.entry.FileHead.{FileHead};
ghost use Rattle.mi_base.specs.Reading.{Gives, number_at, items_at};
ghost use Rattle.mi_script.specs.declared.rec.Rec.TheVariants.{Copy};
ghost use Rattle.mi_script.specs.Reading.{is_name, text_at, in_any_order, long_at, text_where, long_numbers_at, head_in, head_at, put_at, copy_behind, copy_at, dup_at, kind_at, rec_at, script_of};

use crate::rec::Rec;
use crate::script::Script;
use mi_base::{
    Bytes, FileHead, Languages, Name, NoMemory, PathText, RecError, RecFault, Text, is_file_path,
    is_folder_path, u16_at, u32_at, u64_at, version_at,
};
use std::alloc::Global;
use std::str;

const SHORT: RecError = RecError::Fault(RecFault::Short);

const EXTRA: RecError = RecError::Fault(RecFault::Extra);

const FIELD: RecError = RecError::Fault(RecFault::Field);

// A length, and as many bytes.
#[tactic(auto, unfolding(crate::specs::Reading::long_at))]
fn long_at(bytes: &[u8]) -> Result<(&[u8], &[u8]), RecError>
    ensures { Gives (λ x. (x.0.now, x.1.now)) result (long_at bytes.now) }
{
    let (len, rest) = u64_at(bytes)?;
    if (rest.len() as u64) < len {
        return Err(SHORT);
    }
    Ok(rest.split_at(len as usize))
}

fn is_name(text: &str) -> bool
    ensures { result ≡ is_name text.now }
{
    !text.is_empty() && text.len() <= 1024
}

#[tactic(auto, unfolding(mi_text::specs::Path::is_path))]
fn is_path(text: &str) -> bool
    ensures { result ≡ is_path text.now }
{
    is_folder_path(text) || is_file_path(text)
}

// A text.
#[tactic(auto, unfolding(crate::specs::Reading::text_at))]
fn text_at(bytes: &[u8]) -> Result<(&str, &[u8]), RecError>
    ensures { Gives (λ x. (x.0.now, x.1.now)) result (text_at bytes.now) }
{
    let (text, rest) = long_at(bytes)?;
    match str::from_utf8(text) {
        Ok(text) => Ok((text, rest)),
        Err(_) => Err(FIELD),
    }
}

// The text of a name.
#[tactic(auto, unfolding(crate::specs::Reading::text_where))]
fn name_at(bytes: &[u8]) -> Result<(&str, &[u8]), RecError>
    ensures gives { Gives (λ x. (x.0.now, x.1.now)) result (text_where is_name bytes.now) }
    ensures name { IfOk result (λ x. IsNameLength x.0.now) }
{
    let (text, rest) = text_at(bytes)?;
    if !is_name(text) {
        return Err(FIELD);
    }
    Ok((text, rest))
}

// The text of a path.
#[tactic(auto, unfolding(crate::specs::Reading::text_where))]
fn path_at(bytes: &[u8]) -> Result<(&str, &[u8]), RecError>
    ensures gives { Gives (λ x. (x.0.now, x.1.now)) result (text_where is_path bytes.now) }
    ensures path { IfOk result (λ x. is_path x.0.now ≡ true) }
{
    let (text, rest) = text_at(bytes)?;
    if !is_path(text) {
        return Err(FIELD);
    }
    Ok((text, rest))
}

fn many_numbers_at(alloc: Global, count: u64, bytes: &[u8]) -> Result<(Languages, &[u8]), RecError>
    ensures { Gives (λ x. (x.0, x.1.now)) result (items_at (number_at w16) in_any_order None count bytes.now) }
{
    let mut items = Vec::new(alloc);
    let mut rest = bytes;
    for _ in 0..count {
        let (number, after) = u16_at(rest)?;
        items.push(number)?;
        rest = after;
    }
    Ok((Languages::from_vec(items), rest))
}

// A count, and as many numbers.
#[tactic(auto, unfolding(crate::specs::Reading::long_numbers_at))]
fn numbers_at(alloc: Global, bytes: &[u8]) -> Result<(Languages, &[u8]), RecError>
    ensures { Gives (λ x. (x.0, x.1.now)) result (long_numbers_at bytes.now) }
{
    let (count, rest) = u64_at(bytes)?;
    many_numbers_at(alloc, count, rest)
}

// The path that a text spells.
fn path_of(alloc: Global, text: &str) -> Result<PathText, NoMemory>
    requires { is_path text.now ≡ true }
    ensures { IfOk result (λ p. p ≡ text.now) }
{
    match PathText::of(Text::copy_of(alloc, text)?) {
        Some(path) => Ok(path),
        None => unreachable!(),
    }
}

// The name that a text is.
fn name_of(alloc: Global, text: &str) -> Result<Name, NoMemory>
    requires { IsNameLength text.now }
    ensures { IfOk result (λ n. n ≡ text.now) }
{
    match Name::of(alloc, text) {
        Ok(name) => Ok(name),
        Err(_) => Err(NoMemory),
    }
}

// The head that all of these bytes are.
#[tactic(auto, unfolding(crate::specs::Reading::head_in))]
fn head_in(alloc: Global, bytes: &[u8]) -> Result<FileHead, RecError>
    ensures { Gives (λ h. h) result (head_in bytes.now) }
{
    let (shown, rest) = path_at(bytes)?;
    let (version, rest) = version_at(rest)?;
    let (languages, rest) = numbers_at(alloc, rest)?;
    let (created, rest) = u64_at(rest)?;
    let (modified, rest) = u64_at(rest)?;
    let (attributes, rest) = u32_at(rest)?;
    let (length, rest) = u64_at(rest)?;
    if !rest.is_empty() {
        return Err(EXTRA);
    }
    Ok(FileHead {
        shown: path_of(alloc, shown)?,
        version,
        languages,
        created,
        modified,
        attributes,
        length,
    })
}

// A length, and a head of as many bytes.
#[tactic(auto, unfolding(crate::specs::Reading::head_at))]
fn head_at(alloc: Global, bytes: &[u8]) -> Result<(FileHead, &[u8]), RecError>
    ensures { Gives (λ x. (x.0, x.1.now)) result (head_at bytes.now) }
{
    let (part, rest) = long_at(bytes)?;
    let head = head_in(alloc, part)?;
    Ok((head, rest))
}

// What a Put has behind its name.
fn put_at<'a>(alloc: Global, name: &str, bytes: &'a [u8]) -> Result<(Rec, &'a [u8]), RecError>
    requires { IsNameLength name.now }
    ensures { Gives (λ x. (x.0, x.1.now)) result (put_at (name.now, bytes.now)) }
{
    let (value, rest) = long_at(bytes)?;
    let value = Bytes::copy_of(alloc, value)?;
    let name = name_of(alloc, name)?;
    Ok((Rec::Put(name, value), rest))
}

// The name of a Copy, and what it has behind its head.
fn copy_texts<'a>(
    alloc: Global,
    name: &str,
    bytes: &'a [u8],
) -> Result<((Name, Text, Text, u64), &'a [u8]), RecError>
    requires { IsNameLength name.now }
    ensures { (head : FileHead) → Gives (λ x. (Copy x.0.0 head x.0.1 x.0.2 x.0.3, x.1.now)) result (copy_behind name.now head bytes.now) }
{
    let (file, rest) = text_at(bytes)?;
    let (path, rest) = text_at(rest)?;
    let (length, rest) = u64_at(rest)?;
    let name = name_of(alloc, name)?;
    let Ok(file) = Text::copy_of(alloc, file) else {
        drop(name);
        return Err(RecError::NoMemory);
    };
    let Ok(path) = Text::copy_of(alloc, path) else {
        drop(name);
        drop(file);
        return Err(RecError::NoMemory);
    };
    Ok(((name, file, path, length), rest))
}

// What a Copy has behind its name.
fn copy_at<'a>(alloc: Global, name: &str, bytes: &'a [u8]) -> Result<(Rec, &'a [u8]), RecError>
    requires { IsNameLength name.now }
    ensures { Gives (λ x. (x.0, x.1.now)) result (copy_at (name.now, bytes.now)) }
{
    let (head, rest) = head_at(alloc, bytes)?;
    let ((name, file, path, length), rest) = match copy_texts(alloc, name, rest) {
        Ok(read) => read,
        Err(error) => {
            drop(head);
            return Err(error);
        }
    };
    let copy = Rec::Copy {
        name,
        head,
        file,
        path,
        length,
    };
    Ok((copy, rest))
}

// What a Dup has behind its name.
fn dup_at<'a>(alloc: Global, name: &str, bytes: &'a [u8]) -> Result<(Rec, &'a [u8]), RecError>
    requires { IsNameLength name.now }
    ensures { Gives (λ x. (x.0, x.1.now)) result (dup_at (name.now, bytes.now)) }
{
    let (head, rest) = head_at(alloc, bytes)?;
    let (from, rest) = name_at(rest)?;
    let dup = Rec::Dup {
        name: name_of(alloc, name)?,
        head,
        from: name_of(alloc, from)?,
    };
    Ok((dup, rest))
}

// A record, and what stands behind it.
#[tactic(auto, unfolding(crate::specs::Reading::rec_at))]
fn rec_at(alloc: Global, bytes: &[u8]) -> Result<(Rec, &[u8]), RecError>
    ensures { Gives (λ x. (x.0, x.1.now)) result (rec_at bytes.now) }
{
    match bytes {
        [] => Err(SHORT),
        [1, rest @ ..] => {
            let (name, rest) = name_at(rest)?;
            put_at(alloc, name, rest)
        }
        [2, rest @ ..] => {
            let (name, rest) = name_at(rest)?;
            Ok((Rec::Drop(name_of(alloc, name)?), rest))
        }
        [3, rest @ ..] => {
            let (name, rest) = name_at(rest)?;
            copy_at(alloc, name, rest)
        }
        [4, rest @ ..] => {
            let (name, rest) = name_at(rest)?;
            dup_at(alloc, name, rest)
        }
        [_, ..] => Err(FIELD),
    }
}

fn recs_at(alloc: Global, count: u64, bytes: &[u8]) -> Result<(Vec<Rec>, &[u8]), RecError>
    ensures { Gives (λ x. (x.0.items, x.1.now)) result (items_at rec_at in_any_order None count bytes.now) }
{
    let mut recs = Vec::new(alloc);
    let mut rest = bytes;
    for _ in 0..count {
        let (rec, after) = rec_at(alloc, rest)?;
        recs.push(rec)?;
        rest = after;
    }
    Ok((recs, rest))
}

/// The script that bytes are in its written form. `Short` comes where they end early, `Extra` where bytes follow the
/// last record or the fields of a head, and `Field` where a kind, a name, a path or a text isn't one: of these the
/// first from the left (this project's own).
#[tactic(auto, unfolding(crate::specs::Reading::script_of))]
pub fn read_script(alloc: Global, bytes: &[u8]) -> Result<Script, RecError>
    ensures { Gives (λ s. s) result (script_of bytes.now) }
{
    let (count, rest) = u64_at(bytes)?;
    let (recs, rest) = recs_at(alloc, count, rest)?;
    if !rest.is_empty() {
        drop(recs);
        return Err(EXTRA);
    }
    Ok(Script::from_vec(recs))
}
