//! What the types of a record's fields say of it, by which it is read again from its written form.

ghost use Rattle.std.specs.Prelude.{◌≡◌, ◌<◌, ◌^◌, Ok, length};
ghost use Rattle.std.specs.List.{AllByRecursion};
ghost use Rattle.mi_base.specs.Limits.{IsVersion, IsVersionOrNone};
ghost use Rattle.mi_script.specs.Kept.{IsLong, IsText, IsNameText, IsHead, IsRec};
ghost use Rattle.mi_script.specs.Written.{written_head, written_rec, written_script};
ghost use Rattle.mi_script.specs.Reading.{script_of};

use mi_base::{Bytes, FileHead, Name, Text, Version};
use mi_script::Rec;

fn name_is_known(name: &Name)
    ensures { IsNameText name.now }
{
    let _ = name.as_bytes();
}

fn str_is_known(text: &str)
    ensures { IsText text.now }
{
    let _ = text;
}

fn text_is_known(text: &Text)
    ensures { IsText text.now }
{
    str_is_known(text.as_str());
}

fn bytes_are_known(bytes: &Bytes)
    ensures { IsLong bytes.now }
{
    let _ = bytes.len();
}

fn number_is_known(number: u64)
    ensures { number < 2 ^ 64 }
{
    let _ = number;
}

fn attributes_are_known(attributes: u32)
    ensures { attributes < 2 ^ 32 }
{
    let _ = attributes;
}

fn version_is_known(version: Version)
    ensures { IsVersion version }
{
    let _ = version;
}

fn version_or_none_is_known(version: Option<Version>)
    ensures { IsVersionOrNone version }
{
    match version {
        None => {}
        Some(version) => version_is_known(version),
    }
}

fn languages_are_known(languages: &[u16])
    ensures each { AllByRecursion (λ l. l < 2 ^ 16) languages.now }
    ensures few { length languages.now < 2 ^ 64 }
{
    let _ = languages;
}

fn head_is_known(head: &FileHead)
    ensures { IsLong (written_head head.now) → IsHead head.now }
{
    str_is_known(head.shown.as_str());
    version_or_none_is_known(head.version);
    languages_are_known(head.languages.as_slice());
    number_is_known(head.created);
    number_is_known(head.modified);
    attributes_are_known(head.attributes);
    number_is_known(head.length);
}

fn rec_is_known(rec: &Rec)
    ensures { IsLong (written_rec rec.now) → IsRec rec.now }
{
    match rec {
        Rec::Put(name, bytes) => {
            name_is_known(name);
            bytes_are_known(bytes);
        }
        Rec::Drop(name) => name_is_known(name),
        Rec::Copy {
            name,
            head,
            file,
            path,
            length,
        } => {
            name_is_known(name);
            head_is_known(head);
            text_is_known(file);
            text_is_known(path);
            number_is_known(*length);
        }
        Rec::Dup { name, head, from } => {
            name_is_known(name);
            head_is_known(head);
            name_is_known(from);
        }
    }
}

/// The written form of records is read as these records.
pub fn reads_again(recs: &[Rec], bytes: &[u8])
    requires { bytes.now ≡ written_script recs.now }
    ensures { script_of bytes.now ≡ Ok recs.now }
{
    for rec in recs {
        rec_is_known(rec);
    }
}
