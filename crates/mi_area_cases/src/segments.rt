//! Steps that carry out a segment over an open rollback area.

ghost use Rattle.std.specs.Prelude.{◌≡◌, ◌≢◌, ◌+◌, ◌<◌, ◌≤◌, true, false, [], IfOk, OnOk};
ghost use Rattle.std.specs.List.{All};
ghost use Rattle.mi_base.specs.declared.entry.Entry.TheVariants as entry;
ghost use Rattle.mi_base.specs.Limits.{fits};
ghost use Rattle.mi_base.specs.Records.{with_bytes};
ghost use Rattle.mi_base.specs.Spelling.{name_of as spelled_name};
ghost use Rattle.mi_source.specs.MemSource.{files_in, faults_of};
ghost use Rattle.mi_image.specs.Items.{HeadMayStand};
ghost use Rattle.mi_undo.specs.Names.{is_inside};
ghost use Rattle.mi_undo.specs.Area.{AreOutside, entry_count};
ghost use Rattle.mi_runner.specs.Records.{MayCarry};
ghost use Rattle.mi_area_cases.specs.Areas.{CanGoOn, Leaves};

use crate::answer::{say, say_word};
use crate::areas::{Next, is_within};
use crate::arguments::Arguments;
use crate::ill::Ill;
use crate::scripts::rec;
use mi_base::{
    Bytes, EncError, Entry, FileEntry, FileHead, Languages, Name, NoMemory, Text, enc_entry,
};
use mi_runner::RunFault;
use mi_script::{Rec, Script, touched};
use mi_source::{Failed, MemSource, Source, SrcFault};
use mi_undo::Open;
use mi_volume::Volume;
use std::alloc::Global;

/// The word between the parts of a segment.
const NEXT: &[u8] = b";";

/// A source in memory that tells nothing of what it holds.
#[derive(Drop)]
pub struct QuietSource {
    inner: MemSource,
}

impl Source for QuietSource {
    ghost told = { ⊥ };

    ghost files = { λ s. files_in s.inner };

    ghost faults = { λ s. faults_of s.inner };

    fn names(&mut self, alloc: Global, folder: &str) -> Result<Vec<Text>, SrcFault> {
        self.inner.names(alloc, folder)
    }

    fn size(&mut self, path: &str) -> Result<Option<u64>, Failed> {
        self.inner.size(path)
    }

    fn read(&mut self, alloc: Global, path: &str, at: u64, want: usize) -> Result<Bytes, SrcFault> {
        self.inner.read(alloc, path, at, want)
    }
}

/// Adds a part: a file of the source, or a record.
fn push_part(
    alloc: Global,
    script: &mut Script,
    source: &mut MemSource,
    part: &Arguments<'_>,
) -> Result<(), Ill> {
    if part.text(0)? == "source" {
        source.add(alloc, part.text(1)?, part.bytes(2)?)?;
        return Ok(());
    }
    script.push(rec(alloc, part)?)?;
    Ok(())
}

/// Adds the parts of a step, between which stands the word `;`.
fn push_parts(
    alloc: Global,
    script: &mut Script,
    source: &mut MemSource,
    step: &Arguments<'_>,
) -> Result<(), Ill> {
    let mut from = 1;
    for place in 1..step.len() {
        if step.bytes(place)? == NEXT {
            push_part(alloc, script, source, &step.part(from, place))?;
            from = place + 1;
        }
    }
    push_part(alloc, script, source, &step.part(from, step.len()))
}

/// The file of a head, without a byte.
fn empty_file(alloc: Global, head: &FileHead) -> Result<FileEntry, NoMemory>
    ensures { IfOk result (λ file. file ≡ with_bytes head.now []) }
{
    Ok(FileEntry {
        shown: head.shown.copy(alloc)?,
        version: head.version,
        languages: Languages::from_vec(Vec::from_slice(alloc, head.languages.as_slice())?),
        created: head.created,
        modified: head.modified,
        attributes: head.attributes,
        bytes: Bytes::new(alloc),
    })
}

/// Whether an entry has a record, and this name.
fn is_named(alloc: Global, name: &Name, file: &Entry) -> Result<bool, Ill>
    ensures { IfOk result (λ b. b ≡ true → (spelled_name file.now ≡ name.now) × (fits file.now ≡ true)) }
{
    match enc_entry(alloc, file) {
        Ok((own, record)) => {
            drop(record);
            let same = own.as_str() == name.as_str();
            drop(own);
            Ok(same)
        }
        Err(EncError::NoMemory) => Err(Ill::NoMemory),
        Err(EncError::Field) => Err(Ill::BadLine),
    }
}

/// Refuses a head that may not stand at this name.
fn check_head(alloc: Global, name: &Name, head: &FileHead) -> Result<(), Ill>
    ensures { OnOk result (HeadMayStand name.now head.now) }
{
    let file = Entry::File(empty_file(alloc, head)?);
    let named = is_named(alloc, name, &file);
    drop(file);
    if named? {
        return Ok(());
    }
    Err(Ill::BadLine)
}

/// Refuses a copy with another length than its head states.
fn check_copy(alloc: Global, name: &Name, head: &FileHead, length: u64) -> Result<(), Ill>
    ensures { OnOk result (HeadMayStand name.now head.now × (head.now.length ≡ length)) }
{
    if head.length != length {
        return Err(Ill::BadLine);
    }
    check_head(alloc, name, head)?;
    Ok(())
}

/// Refuses a duplicate of itself or of a name inside the area.
fn check_dup(alloc: Global, name: &Name, head: &FileHead, from: &Name) -> Result<(), Ill>
    ensures { OnOk result (HeadMayStand name.now head.now × (from.now ≢ name.now) × (is_inside from.now ≡ false)) }
{
    if is_within(from) {
        return Err(Ill::BadLine);
    }
    if from.as_str() == name.as_str() {
        return Err(Ill::BadLine);
    }
    check_head(alloc, name, head)?;
    Ok(())
}

/// Refuses a record that may not be carried out.
fn check_record(alloc: Global, rec: &Rec) -> Result<(), Ill>
    ensures { OnOk result (MayCarry rec.now) }
{
    match rec {
        Rec::Put(_, _) => Ok(()),
        Rec::Drop(_) => Ok(()),
        Rec::Copy {
            name,
            head,
            length,
            ..
        } => check_copy(alloc, name, head, *length),
        Rec::Dup { name, head, from } => check_dup(alloc, name, head, from),
    }
}

fn check_records(alloc: Global, recs: &[Rec]) -> Result<(), Ill>
    ensures { OnOk result (All MayCarry recs.now) }
{
    for rec in recs {
        check_record(alloc, rec)?;
    }
    Ok(())
}

/// Refuses names inside the area.
fn check_outside(names: &[Name]) -> Result<(), Ill>
    ensures { OnOk result (AreOutside names.now) }
{
    for name in names {
        if is_within(name) {
            return Err(Ill::BadLine);
        }
    }
    Ok(())
}

fn say_run_fault(fault: &RunFault, out: &mut Vec<u8>) -> Result<(), Ill> {
    let alloc = *out.allocator();
    match fault {
        RunFault::NoMemory => Err(Ill::NoMemory),
        RunFault::Source => say_word(out, "Source"),
        RunFault::Volume => say_word(out, "Fault"),
        RunFault::Full => say_word(out, "Full"),
        RunFault::SizeDiffers {
            file,
            stated,
            found,
        } => {
            let key = file.as_str();
            let line = format!(in alloc; "SizeDiffers {key} {stated} {found}")?;
            say(out, line.as_bytes())
        }
    }
}

/// Carries out the records of a script that was read.
fn carry<V: Volume>(
    alloc: Global,
    area: &mut Open<'_, V>,
    noted: &mut Vec<Name>,
    script: &Script,
    source: &mut QuietSource,
    out: &mut Vec<u8>,
) -> Result<Next, Ill>
    requires goes_on { CanGoOn V.told V.state area.old noted.old.items }
    requires few { entry_count area.old < 1000000 }
    ensures leaves { IfOk result (λ next. Leaves V.told V.state next area.new noted.new.items) }
    ensures entries { IfOk result (λ next. entry_count area.new ≤ entry_count area.old + 1) }
{
    check_records(alloc, script.recs())?;
    let mut names = touched(alloc, script)?;
    check_outside(names.as_slice())?;
    match mi_runner::segment(alloc, area, script, source) {
        Ok(()) => {
            noted.append(&mut names)?;
            say_word(out, "Ok")?;
            Ok(Next::On)
        }
        Err(fault) => {
            drop(names);
            say_run_fault(&fault, out)?;
            Ok(Next::Back)
        }
    }
}

/// Carries out the segment whose records, and the source's files, a step gives.
pub fn segment<V: Volume>(
    alloc: Global,
    area: &mut Open<'_, V>,
    noted: &mut Vec<Name>,
    step: &Arguments<'_>,
    out: &mut Vec<u8>,
) -> Result<Next, Ill>
    requires goes_on { CanGoOn V.told V.state area.old noted.old.items }
    requires few { entry_count area.old < 1000000 }
    ensures leaves { IfOk result (λ next. Leaves V.told V.state next area.new noted.new.items) }
    ensures entries { IfOk result (λ next. entry_count area.new ≤ entry_count area.old + 1) }
{
    let mut script = Script::new(alloc);
    let mut inner = MemSource::new(alloc, Vec::new(alloc))?;
    push_parts(alloc, &mut script, &mut inner, step)?;
    let mut source = QuietSource { inner };
    let next = carry(alloc, area, noted, &script, &mut source, out);
    drop(source);
    drop(script);
    next
}
