//! Calls of a rollback area over the volume that holds the names which are given.

ghost use Rattle.std.specs.Prelude.{◌≡◌, ◌+◌, ◌<◌, ◌≤◌, ◌++◌, false, Contains, IfOk, OnOk, length, []};
ghost use Rattle.mi_undo.specs.Names.{is_inside};
ghost use Rattle.mi_undo.specs.Keeps.{IsFree};
ghost use Rattle.mi_undo.specs.Area.{AreOutside, entry_count, volume};
ghost use Rattle.mi_area_cases.specs.Areas.{CanGoOn, CanEnd, Leaves};

use crate::answer::{say, say_number, say_word};
use crate::arguments::Arguments;
use crate::given::Given;
use crate::ill::Ill;
use crate::segments::segment;
use crate::volumes::{holding, name_of, say_count, say_held, say_read, say_settled};
use mi_lines::fields;
use mi_text::Name;
use mi_undo::{BackFault, CommitFault, OpFault, Open, Refused, begin, settle};
use mi_volume::{PIECE, Volume};
use std::alloc::Global;

/// The most steps that are made over one area.
const MOST: usize = 1_000_000;

/// What comes behind a step.
#[derive(Clone, Copy)]
pub enum Next {
    /// A further step.
    On,
    /// Going back.
    Back,
    /// The end of the area.
    Over,
}

/// The steps that were made over an area, and what comes behind them.
#[derive(Clone, Copy)]
struct Made {
    steps: usize,
    next: Next,
}

fn say_op_fault(fault: OpFault, out: &mut Vec<u8>) -> Result<(), Ill> {
    match fault {
        OpFault::NoMemory => Err(Ill::NoMemory),
        OpFault::Fault => say_word(out, "Fault"),
        OpFault::Full => say_word(out, "Full"),
    }
}

fn say_back(answer: Result<(), BackFault>, out: &mut Vec<u8>) -> Result<(), Ill> {
    match answer {
        Ok(()) => say_word(out, "Ok"),
        Err(BackFault::NoMemory) => Err(Ill::NoMemory),
        Err(BackFault::Fault) => say_word(out, "Fault"),
        Err(BackFault::Full) => say_word(out, "Full"),
    }
}

/// Whether a name stands inside the area.
pub fn is_within(name: &Name) -> bool
    ensures { result ≡ is_inside name.now }
{
    matches!(name.as_bytes(), [b'j', b'/', ..])
}

/// The names that these words spell.
fn outside_names(alloc: Global, words: &Arguments<'_>) -> Result<Vec<Name>, Ill>
    ensures { IfOk result (λ names. AreOutside names.items) }
{
    let mut names = Vec::new(alloc);
    for place in 0..words.len() {
        let name = name_of(alloc, words.text(place)?)?;
        if is_within(&name) {
            return Err(Ill::BadLine);
        }
        names.push(name)?;
    }
    Ok(names)
}

/// The noted name of this text.
fn found<'n>(noted: &'n [Name], text: &str) -> Result<&'n Name, Ill>
    ensures { IfOk result (λ name. Contains noted.now name.now) }
{
    for name in noted {
        if name.as_str() == text {
            return Ok(name);
        }
    }
    Err(Ill::BadLine)
}

/// Notes names.
fn note<V: Volume>(
    alloc: Global,
    area: &mut Open<'_, V>,
    noted: &mut Vec<Name>,
    step: &Arguments<'_>,
    out: &mut Vec<u8>,
) -> Result<Next, Ill>
    requires goes_on { CanGoOn V.told V.state area.old noted.old.items }
    requires few { entry_count area.old < 1000000 }
    ensures leaves { IfOk result (λ next. Leaves V.told V.state next area.new noted.new.items) }
    ensures entries { IfOk result (λ next. entry_count area.new ≤ entry_count area.old + 1) }
{
    let mut names = outside_names(alloc, &step.behind(1))?;
    match area.note(alloc, names.as_slice()) {
        Ok(()) => {
            noted.append(&mut names)?;
            say_word(out, "Ok")?;
            Ok(Next::On)
        }
        Err(fault) => {
            drop(names);
            say_op_fault(fault, out)?;
            Ok(Next::Back)
        }
    }
}

/// Gives a noted name bytes.
fn put<V: Volume>(
    alloc: Global,
    area: &mut Open<'_, V>,
    noted: &[Name],
    step: &Arguments<'_>,
    out: &mut Vec<u8>,
) -> Result<Next, Ill>
    requires goes_on { CanGoOn V.told V.state area.old noted.now }
    ensures leaves { IfOk result (λ next. Leaves V.told V.state next area.new noted.now) }
    ensures kept { area.new.kept ≡ area.old.kept }
{
    let name = found(noted, step.text(1)?)?;
    let bytes = step.bytes(2)?;
    if bytes.len() > PIECE {
        return Err(Ill::BadLine);
    }
    match area.put(alloc, name, bytes) {
        Ok(()) => {
            say_word(out, "Ok")?;
            Ok(Next::On)
        }
        Err(fault) => {
            say_op_fault(fault, out)?;
            Ok(Next::Back)
        }
    }
}

/// Adds bytes to a noted name.
fn append<V: Volume>(
    alloc: Global,
    area: &mut Open<'_, V>,
    noted: &[Name],
    step: &Arguments<'_>,
    out: &mut Vec<u8>,
) -> Result<Next, Ill>
    requires goes_on { CanGoOn V.told V.state area.old noted.now }
    ensures leaves { IfOk result (λ next. Leaves V.told V.state next area.new noted.now) }
    ensures kept { area.new.kept ≡ area.old.kept }
{
    let name = found(noted, step.text(1)?)?;
    let bytes = step.bytes(2)?;
    if bytes.len() > PIECE {
        return Err(Ill::BadLine);
    }
    match area.append(alloc, name, bytes) {
        Ok(()) => {
            say_word(out, "Ok")?;
            Ok(Next::On)
        }
        Err(fault) => {
            say_op_fault(fault, out)?;
            Ok(Next::Back)
        }
    }
}

/// Takes a noted name away.
fn remove<V: Volume>(
    area: &mut Open<'_, V>,
    noted: &[Name],
    step: &Arguments<'_>,
    out: &mut Vec<u8>,
) -> Result<Next, Ill>
    requires goes_on { CanGoOn V.told V.state area.old noted.now }
    ensures leaves { IfOk result (λ next. Leaves V.told V.state next area.new noted.now) }
    ensures kept { area.new.kept ≡ area.old.kept }
{
    let name = found(noted, step.text(1)?)?;
    match area.remove(name) {
        Ok(()) => {
            say_word(out, "Ok")?;
            Ok(Next::On)
        }
        Err(fault) => {
            say_op_fault(fault, out)?;
            Ok(Next::Back)
        }
    }
}

/// Tells the length of a name's bytes.
fn size<V: Volume>(
    alloc: Global,
    area: &mut Open<'_, V>,
    noted: &[Name],
    step: &Arguments<'_>,
    out: &mut Vec<u8>,
) -> Result<Next, Ill>
    requires goes_on { CanGoOn V.told V.state area.old noted.now }
    ensures leaves { IfOk result (λ next. Leaves V.told V.state next area.new noted.now) }
    ensures kept { area.new.kept ≡ area.old.kept }
{
    let name = name_of(alloc, step.text(1)?)?;
    let size = area.size(&name);
    drop(name);
    say_count(size, out)?;
    Ok(Next::On)
}

/// Reads a piece of a name's bytes.
fn read<V: Volume>(
    alloc: Global,
    area: &mut Open<'_, V>,
    noted: &[Name],
    step: &Arguments<'_>,
    out: &mut Vec<u8>,
) -> Result<Next, Ill>
    requires goes_on { CanGoOn V.told V.state area.old noted.now }
    ensures leaves { IfOk result (λ next. Leaves V.told V.state next area.new noted.now) }
    ensures kept { area.new.kept ≡ area.old.kept }
{
    let at = step.number(2)?;
    let want = step.text(3)?.parse::<usize>()?;
    if want > PIECE {
        return Err(Ill::BadLine);
    }
    let name = name_of(alloc, step.text(1)?)?;
    let bytes = area.read(alloc, &name, at, want);
    drop(name);
    let said = say_read(&bytes, out);
    drop(bytes);
    said?;
    Ok(Next::On)
}

/// Commits what is held.
fn commit<V: Volume>(area: &mut Open<'_, V>, noted: &[Name], out: &mut Vec<u8>) -> Result<Next, Ill>
    requires goes_on { CanGoOn V.told V.state area.old noted.now }
    ensures leaves { IfOk result (λ next. Leaves V.told V.state next area.new noted.now) }
    ensures kept { area.new.kept ≡ area.old.kept }
{
    match area.commit() {
        Ok(()) => {
            say_word(out, "Ok")?;
            Ok(Next::Over)
        }
        Err(CommitFault::Before) => {
            say_word(out, "Before")?;
            Ok(Next::Back)
        }
        Err(CommitFault::Undoable) => {
            say_word(out, "Undoable")?;
            Ok(Next::Back)
        }
        Err(CommitFault::Unknown(_, _)) => {
            say_word(out, "Unknown")?;
            Ok(Next::Over)
        }
    }
}

/// Makes a step that changes no note.
fn make_other<V: Volume>(
    alloc: Global,
    area: &mut Open<'_, V>,
    noted: &[Name],
    step: &Arguments<'_>,
    out: &mut Vec<u8>,
) -> Result<Next, Ill>
    requires goes_on { CanGoOn V.told V.state area.old noted.now }
    ensures leaves { IfOk result (λ next. Leaves V.told V.state next area.new noted.now) }
    ensures kept { area.new.kept ≡ area.old.kept }
{
    match step.text(0)? {
        "put" => put(alloc, area, noted, step, out),
        "append" => append(alloc, area, noted, step, out),
        "remove" => remove(area, noted, step, out),
        "size" => size(alloc, area, noted, step, out),
        "read" => read(alloc, area, noted, step, out),
        "commit" => commit(area, noted, out),
        "end" => Ok(Next::Over),
        _ => Err(Ill::BadLine),
    }
}

/// Makes a step.
fn make<V: Volume>(
    alloc: Global,
    area: &mut Open<'_, V>,
    noted: &mut Vec<Name>,
    step: &Arguments<'_>,
    out: &mut Vec<u8>,
) -> Result<Next, Ill>
    requires goes_on { CanGoOn V.told V.state area.old noted.old.items }
    requires few { entry_count area.old < 1000000 }
    ensures leaves { IfOk result (λ next. Leaves V.told V.state next area.new noted.new.items) }
    ensures entries { IfOk result (λ next. entry_count area.new ≤ entry_count area.old + 1) }
{
    match step.text(0)? {
        "note" => note(alloc, area, noted, step, out),
        "segment" => segment(alloc, area, noted, step, out),
        "back" => Ok(Next::Back),
        _ => make_other(alloc, area, noted.as_slice(), step, out),
    }
}

/// Makes the step that a field spells.
fn make_field<V: Volume>(
    alloc: Global,
    area: &mut Open<'_, V>,
    noted: &mut Vec<Name>,
    steps: &Arguments<'_>,
    place: usize,
    out: &mut Vec<u8>,
) -> Result<Next, Ill>
    requires goes_on { CanGoOn V.told V.state area.old noted.old.items }
    requires few { entry_count area.old < 1000000 }
    ensures on { IfOk result (λ next. next ≡ Next.On → CanGoOn V.told V.state area.new noted.new.items) }
    ensures back { IfOk result (λ next. next ≡ Next.Back → CanEnd V.told V.state area.new) }
    ensures entries { IfOk result (λ next. entry_count area.new ≤ entry_count area.old + 1) }
{
    let words = fields(alloc, steps.bytes(place)?)?;
    let next = make(alloc, area, noted, &steps.of(words.as_slice()), out);
    drop(words);
    next
}

/// Says that an area is begun, and makes steps up to one that ends it, or all of them.
fn make_steps<V: Volume>(
    alloc: Global,
    area: &mut Open<'_, V>,
    noted: &mut Vec<Name>,
    steps: &Arguments<'_>,
    out: &mut Vec<u8>,
) -> Result<Made, Ill>
    requires goes_on { CanGoOn V.told V.state area.old noted.old.items }
    requires none { entry_count area.old ≡ 0 }
    ensures { IfOk result (λ made. made.next ≡ Next.Back → CanEnd V.told V.state area.new) }
{
    say_word(out, "Ok")?;
    for place in 0..steps.len().min(MOST) {
        match make_field(alloc, area, noted, steps, place, out)? {
            Next::On => {}
            Next::Back => {
                return Ok(Made {
                    steps: place + 1,
                    next: Next::Back,
                });
            }
            Next::Over => {
                return Ok(Made {
                    steps: place + 1,
                    next: Next::Over,
                });
            }
        }
    }
    Ok(Made {
        steps: steps.len(),
        next: Next::Over,
    })
}

/// Goes back over an area, or ends it.
fn finish<V: Volume>(
    alloc: Global,
    area: Open<'_, V>,
    next: Next,
    out: &mut Vec<u8>,
) -> Result<(), Ill>
    requires { next ≡ Next.Back → CanEnd V.told V.state area }
{
    match next {
        Next::Back => say_back(area.back(alloc), out),
        Next::On | Next::Over => {
            area.end();
            Ok(())
        }
    }
}

/// Begins an area, and makes steps over it.
fn begin_area<V: Volume>(
    alloc: Global,
    vol: &mut V,
    steps: &Arguments<'_>,
    out: &mut Vec<u8>,
) -> Result<usize, Ill>
    requires { V.told → IsFree (V.state vol.old) }
{
    match begin(alloc, vol) {
        Ok(area) => over(alloc, area, steps, out),
        Err(Refused { vol: _, fault }) => {
            say_op_fault(fault, out)?;
            Ok(steps.len())
        }
    }
}

/// Makes steps over an area that was begun.
fn over<V: Volume>(
    alloc: Global,
    area: Open<'_, V>,
    steps: &Arguments<'_>,
    out: &mut Vec<u8>,
) -> Result<usize, Ill>
    requires goes_on { CanGoOn V.told V.state area [] }
    requires none { entry_count area ≡ 0 }
{
    let mut area = area;
    let mut noted = Vec::new(alloc);
    let made = make_steps(alloc, &mut area, &mut noted, steps, out);
    drop(noted);
    match made {
        Ok(made) => {
            finish(alloc, area, made.next, out)?;
            Ok(made.steps)
        }
        Err(ill) => {
            area.end();
            Err(ill)
        }
    }
}

/// Settles, then makes steps over an area up to its end. Says how many steps were made.
fn settle_and_make<V: Volume>(
    alloc: Global,
    vol: &mut V,
    steps: &Arguments<'_>,
    out: &mut Vec<u8>,
) -> Result<usize, Ill> {
    let settled = settle(alloc, vol);
    let said = say_settled(&settled, out);
    match settled {
        Ok(_) => {
            said?;
            begin_area(alloc, vol, steps, out)
        }
        Err(error) => {
            drop(error);
            said?;
            Ok(steps.len())
        }
    }
}

fn make_areas<V: Volume>(
    alloc: Global,
    vol: &mut V,
    args: &Arguments<'_>,
    out: &mut Vec<u8>,
) -> Result<(), Ill> {
    let mut left = *args;
    for _ in 0..args.len() {
        if left.len() > 0 {
            let made = settle_and_make(alloc, vol, &left, out)?;
            left = left.behind(made);
        }
    }
    Ok(())
}

fn say_areas<V: Volume>(
    alloc: Global,
    vol: &mut V,
    args: &Arguments<'_>,
    out: &mut Vec<u8>,
) -> Result<(), Ill> {
    make_areas(alloc, vol, args, out)?;
    say_held(alloc, vol, out)
}

/// Makes steps over areas of the volume that holds what is given, and tells what it holds then.
pub fn say_area(
    alloc: Global,
    given: &Given,
    args: &Arguments<'_>,
    out: &mut Vec<u8>,
) -> Result<(), Ill> {
    let mut volume = holding(alloc, given)?;
    let said = say_areas(alloc, &mut volume, args, out);
    drop(volume);
    said
}
