//! Laws of the File Versioning Rules.

ghost use Rattle.std.specs.Prelude.{◌≡◌, Some, None, true, false, ◌||◌};
ghost use Rattle.mi_fver.specs.Rules.{replaces_of, IsAbove, IsChangedByUser};

use crate::mode::Mode;
use crate::new_file::NewFile;
use mi_base::FileHead;

/// Without a and d a higher version is never replaced by a lower one.
pub fn versions_stay(
    mode: Mode,
    old: &FileHead,
    new: &NewFile,
    product_language: u16,
    same_hash: bool,
)
    requires a { mode.a ≡ false }
    requires d { mode.d ≡ false }
    requires above { IsAbove old.now.version new.now.version }
    ensures { replaces_of mode (Some old.now) new.now product_language same_hash ≡ false }
{}

/// Without a an unversioned file that the user changed stays where the new one has no version either.
pub fn user_changes_stay(
    mode: Mode,
    old: &FileHead,
    new: &NewFile,
    product_language: u16,
    same_hash: bool,
)
    requires a { mode.a ≡ false }
    requires changed { IsChangedByUser old.now }
    requires unversioned { new.now.version ≡ None }
    ensures { replaces_of mode (Some old.now) new.now product_language same_hash ≡ false }
{}

/// Under a each file is replaced. Under p alone, and without any of the five letters, no present file is, and an absent
/// one is replaced exactly under one of the five.
pub fn replaced_always_or_never(
    mode: Mode,
    old: &FileHead,
    new: &NewFile,
    product_language: u16,
    same_hash: bool,
)
    ensures always { mode.a ≡ true → replaces_of mode (Some old.now) new.now product_language same_hash ≡ true }
    ensures never { (mode.o || mode.e || mode.d || mode.a) ≡ false → replaces_of mode (Some old.now) new.now product_language same_hash ≡ false }
    ensures absent { replaces_of mode None new.now product_language same_hash ≡ (mode.p || mode.o || mode.e || mode.d || mode.a) }
{}
