//! The steps of a script.

use crate::entry_read::{entry_of, field, number_at, text_at};
use crate::found::{Findings, push_findings};
use crate::held::{Held, IMAGES};
use crate::ill::Ill;
use crate::lies::Lies;
use crate::machine::Machine;
use crate::orders::{Order, order_of, recovery};
use crate::printed::{names_of, push_called, push_count, push_held, push_machine, push_told};
use crate::record::bytes_of;
use crate::room::{came_by, push_room};
use crate::runs::Setting;
use crate::source::{Files, letters, use_base};
use crate::table;
use crate::told::Told;
use crate::trial::{Bench, Device, Try, bench_of, faults, pairs, sound, stops};
use crate::waiting::{Wait, Waiting, kind_of};
use mi_base::{Entry, enc_entry};
use mi_lines::{Carrier, Stop, push_escaped, push_line, push_step};
use mi_text::{Bytes, Name};
use mi_volume::Choice;
use std::alloc::Global;
use std::collections::BTreeMap;
use std::mem;

/// A script between two of its lines.
#[derive(Drop)]
pub struct Script {
    rt: HostRuntime,
    files: Files,
    machine: Machine,
    waiting: Waiting,
    lies: Lies,
}

/// The fields from a place on.
fn from(fields: &[Vec<u8>], place: usize) -> &[Vec<u8>] {
    fields.get(place..).unwrap_or(&[])
}

/// That a step has so many fields.
fn has_fields(fields: &[Vec<u8>], count: usize) -> Result<(), Ill> {
    if fields.len() == count {
        Ok(())
    } else {
        Err(Ill::Bad)
    }
}

/// The first field behind the step's name, or nothing.
fn prefix(fields: &[Vec<u8>]) -> Result<&[u8], Ill> {
    if fields.len() > 2 {
        return Err(Ill::Bad);
    }
    match fields.get(1) {
        Some(field) => Ok(field.as_slice()),
        None => Ok(&[]),
    }
}

/// A place that a number names.
fn place_at(fields: &[Vec<u8>], place: usize) -> Result<usize, Ill> {
    usize::try_from(number_at(fields, place)?).map_err(|_| Ill::Bad)
}

/// The image that a word names.
fn choice_of(word: &str) -> Result<Choice, Ill> {
    match word {
        "old" => Ok(Choice::Old),
        "new" => Ok(Choice::New),
        "torn" => Ok(Choice::Torn),
        "gone" => Ok(Choice::Gone),
        _ => Err(Ill::Bad),
    }
}

/// The device that a word names.
fn device_of(word: &str) -> Option<Device> {
    match word {
        "volume" => Some(Device::Volume),
        "source" => Some(Device::Source),
        "sink" => Some(Device::Sink),
        _ => None,
    }
}

/// The capacity that a word names.
fn capacity_of(fields: &[Vec<u8>]) -> Result<Option<u64>, Ill> {
    if text_at(fields, 1)? == "none" {
        return Ok(None);
    }
    match number_at(fields, 1)? {
        u64::MAX => Err(Ill::Bad),
        capacity => Ok(Some(capacity)),
    }
}

/// The name and the record of an entry.
fn spelled(alloc: Global, entry: Entry) -> Result<(Name, Bytes), Ill> {
    let spelled = enc_entry(alloc, &entry);
    drop(entry);
    Ok(spelled?)
}

fn wait_of(alloc: Global, fields: &[Vec<u8>], fails: bool) -> Result<Wait, Ill> {
    let kind = kind_of(text_at(fields, 1)?)?;
    let name = match fields.get(2) {
        Some(name) => Some(Vec::from_slice(alloc, name.as_slice())?),
        None => None,
    };
    Ok(Wait { fails, kind, name })
}

fn tried(
    alloc: Global,
    bench: &mut Bench,
    tried: Try<'_>,
    which: &str,
    findings: &mut Findings,
) -> Result<(), Ill> {
    match which {
        "stops" => stops(alloc, bench, tried, findings),
        "pairs" => pairs(alloc, bench, tried, findings),
        device => {
            let device = device_of(device).ok_or(Ill::Bad)?;
            faults(alloc, bench, tried, device, findings)
        }
    }
}

/// Adds what trials of a run find.
fn push_trials(
    alloc: Global,
    out: &mut Vec<u8>,
    order: &Order,
    setting: Setting<'_>,
    which: &str,
) -> Result<(), Ill> {
    let run = Try { order, setting };
    let mut bench = bench_of(alloc, run)?;
    let done = push_tried(alloc, out, &mut bench, run, which);
    drop(bench);
    done
}

fn push_tried(
    alloc: Global,
    out: &mut Vec<u8>,
    bench: &mut Bench,
    run: Try<'_>,
    which: &str,
) -> Result<(), Ill> {
    let mut findings = BTreeMap::new(alloc);
    tried(alloc, bench, run, which, &mut findings)?;
    push_findings(out, &findings)
}

/// Adds what recovery over one image answers, and how much it leaves.
fn push_image(
    alloc: Global,
    out: &mut Vec<u8>,
    name: &str,
    order: &Order,
    setting: Setting<'_>,
) -> Result<(), Ill> {
    let (told, held) = sound(alloc, order, setting)?;
    out.extend_from_slice(name.as_bytes())?;
    out.extend_from_slice(b": ")?;
    push_escaped(out, told.text.as_slice())?;
    out.extend_from_slice(b", ")?;
    push_count(alloc, out, held.as_slice(), b"")
}

/// A case that begins: an empty source, an empty volume, and no faults.
fn begun(rt: HostRuntime) -> Result<Script, Ill> {
    Ok(Script {
        machine: Machine::new(rt.alloc())?,
        files: Files::new(rt.alloc()),
        waiting: Waiting::new(rt.alloc()),
        lies: Lies::new(rt.alloc()),
        rt,
    })
}

impl Script {
    /// A script at its beginning.
    pub fn new(rt: HostRuntime) -> Result<Script, Ill> {
        begun(rt)
    }

    fn begin(&mut self, fields: &[Vec<u8>]) -> Result<(), Ill> {
        has_fields(fields, 2)?;
        *self = begun(self.rt)?;
        Ok(())
    }

    /// A step on the rows of a table.
    fn edit(&mut self, alloc: Global, verb: &str, fields: &[Vec<u8>]) -> Result<(), Ill> {
        let name = text_at(fields, 1)?;
        let files = &mut self.files;
        match verb {
            "table" => table::begin(self.rt, files, name),
            "row" => table::row(self.rt, files, name, from(fields, 2)),
            "without" => table::without(alloc, files, name, field(fields, 2)?),
            "cell" => {
                has_fields(fields, 5)?;
                let (key, column) = (field(fields, 2)?, field(fields, 3)?);
                table::cell(alloc, files, name, key, column, field(fields, 4)?)
            }
            "line" => table::line(alloc, files, name, place_at(fields, 2)?, from(fields, 3)),
            _ => table::drop_table(alloc, files, name),
        }
    }

    /// A step on the files of the source.
    fn supply(&mut self, alloc: Global, verb: &str, fields: &[Vec<u8>]) -> Result<(), Ill> {
        let path = text_at(fields, 1)?;
        match verb {
            "in" => self.files.enter(alloc, path),
            "source" => {
                has_fields(fields, 3)?;
                let bytes = Vec::from_slice(alloc, field(fields, 2)?)?;
                self.files.put(alloc, path, bytes)
            }
            "fill" => {
                let bytes = letters(alloc, place_at(fields, 2)?)?;
                self.files.put(alloc, path, bytes)
            }
            "nosource" => self.files.remove(path),
            _ => {
                has_fields(fields, 4)?;
                use_base(self.rt, &mut self.files, path, text_at(fields, 3)?)
            }
        }
    }

    fn has(&mut self, alloc: Global, fields: &[Vec<u8>]) -> Result<(), Ill> {
        let (name, bytes) = spelled(alloc, entry_of(alloc, from(fields, 1))?)?;
        self.machine.hold(alloc, name.as_str(), bytes.as_slice())
    }

    fn lacks(&mut self, alloc: Global, fields: &[Vec<u8>]) -> Result<(), Ill> {
        let held = self.machine.held(alloc)?;
        for name in names_of(alloc, held.as_slice(), from(fields, 1))?.iter() {
            self.machine.unhold(alloc, name)?;
        }
        Ok(())
    }

    /// A step on the machine.
    fn change(&mut self, alloc: Global, verb: &str, fields: &[Vec<u8>]) -> Result<(), Ill> {
        match verb {
            "has" => self.has(alloc, fields),
            "lacks" => self.lacks(alloc, fields),
            "hold" => {
                let bytes = bytes_of(alloc, from(fields, 2))?;
                self.machine
                    .hold(alloc, text_at(fields, 1)?, bytes.as_slice())
            }
            "unhold" => self.machine.unhold(alloc, text_at(fields, 1)?),
            "capacity" => self.machine.set_capacity(alloc, capacity_of(fields)?),
            _ => self
                .machine
                .take_image(alloc, choice_of(text_at(fields, 1)?)?),
        }
    }

    /// A step on the devices of the next run.
    fn wait(&mut self, alloc: Global, verb: &str, fields: &[Vec<u8>]) -> Result<(), Ill> {
        match verb {
            "fail" => self.waiting.waits.push(wait_of(alloc, fields, true)?)?,
            "pass" => self.waiting.waits.push(wait_of(alloc, fields, false)?)?,
            "fail-source" => self.waiting.source.push(number_at(fields, 1)?)?,
            _ => self.waiting.sink.push(number_at(fields, 1)?)?,
        }
        Ok(())
    }

    fn run(&mut self, alloc: Global, order: &Order) -> Result<Told, Ill> {
        let told = self.machine.run(alloc, order, &self.files, &self.waiting)?;
        self.waiting = Waiting::new(alloc);
        Ok(told)
    }

    /// Tries the run that this came of with just the room that it needs.
    fn try_room<'a>(
        &'a mut self,
        alloc: Global,
        order: &'a Order,
        before: &'a [Held],
        told: Told,
        out: &mut Vec<u8>,
    ) -> Result<(), Ill> {
        let after = self.machine.held(alloc)?;
        let plain = came_by(alloc, told, after.as_slice())?;
        let setting = self.setting(before);
        push_room(alloc, out, Try { order, setting }, &plain)
    }

    fn print_run(
        &mut self,
        alloc: Global,
        fields: &[Vec<u8>],
        whole: bool,
        out: &mut Vec<u8>,
    ) -> Result<(), Ill> {
        let order = order_of(alloc, from(fields, 1))?;
        let tries_room = self.machine.capacity().is_none() && self.waiting.is_empty();
        let before = self.machine.held(alloc)?;
        let told = self.run(alloc, &order)?;
        push_told(alloc, out, &told, whole)?;
        if tries_room {
            return self.try_room(alloc, &order, before.as_slice(), told, out);
        }
        Ok(())
    }

    fn setting<'a>(&'a self, held: &'a [Held]) -> Setting<'a> {
        Setting {
            files: &self.files,
            held,
            capacity: self.machine.capacity(),
        }
    }

    fn print_trials(
        &mut self,
        alloc: Global,
        which: &str,
        fields: &[Vec<u8>],
        out: &mut Vec<u8>,
    ) -> Result<(), Ill> {
        let order = order_of(alloc, fields)?;
        let held = self.machine.held(alloc)?;
        push_trials(alloc, out, &order, self.setting(held.as_slice()), which)
    }

    /// A run over a volume that lies. Nothing is known of what it answers, but that it does.
    fn print_lied(
        &mut self,
        alloc: Global,
        fields: &[Vec<u8>],
        out: &mut Vec<u8>,
    ) -> Result<(), Ill> {
        let order = order_of(alloc, from(fields, 1))?;
        let lies = mem::replace(&mut self.lies, Lies::new(alloc));
        let told = lies.run(alloc, &order, &self.files)?;
        drop(told);
        out.extend_from_slice(b"returned\n")?;
        Ok(())
    }

    fn print_images(&mut self, alloc: Global, out: &mut Vec<u8>) -> Result<(), Ill> {
        let order = recovery(alloc)?;
        for (name, choice) in IMAGES {
            let held = self.machine.left(alloc, choice)?;
            push_image(alloc, out, name, &order, self.setting(held.as_slice()))?;
        }
        Ok(())
    }

    /// A step that prints what is held, or what the last run wrote.
    fn print(
        &mut self,
        alloc: Global,
        verb: &str,
        fields: &[Vec<u8>],
        out: &mut Vec<u8>,
    ) -> Result<(), Ill> {
        let held = self.machine.held(alloc)?;
        match verb {
            "machine" => push_machine(alloc, out, held.as_slice(), from(fields, 1)),
            "held" => push_held(out, held.as_slice(), prefix(fields)?),
            "count" => push_count(alloc, out, held.as_slice(), prefix(fields)?),
            "written" => push_called(alloc, out, self.machine.calls(), prefix(fields)?, false),
            _ => push_called(alloc, out, self.machine.calls(), prefix(fields)?, true),
        }
    }

    /// A step that runs and prints.
    fn tell(
        &mut self,
        alloc: Global,
        verb: &str,
        fields: &[Vec<u8>],
        out: &mut Vec<u8>,
    ) -> Result<(), Ill> {
        match verb {
            "run" => self.print_run(alloc, fields, false, out),
            "log" => self.print_run(alloc, fields, true, out),
            "lies" => self.print_lied(alloc, fields, out),
            "images" => self.print_images(alloc, out),
            "stops" => self.print_trials(alloc, verb, from(fields, 1), out),
            "faults" => self.print_trials(alloc, text_at(fields, 1)?, from(fields, 2), out),
            _ => self.print(alloc, verb, fields, out),
        }
    }

    /// A step that prints nothing.
    fn set(&mut self, alloc: Global, verb: &str, fields: &[Vec<u8>]) -> Result<(), Ill> {
        match verb {
            "table" | "row" | "without" | "cell" | "line" | "drop" => {
                self.edit(alloc, verb, fields)
            }
            "use" | "in" | "source" | "fill" | "nosource" => self.supply(alloc, verb, fields),
            "has" | "lacks" | "hold" | "unhold" | "capacity" | "image" => {
                self.change(alloc, verb, fields)
            }
            "fail" | "pass" | "fail-source" | "fail-sink" => self.wait(alloc, verb, fields),
            "lie-size" | "lie-read" | "lie-name" => self.lies.add(alloc, verb, fields),
            _ => Err(Ill::Bad),
        }
    }

    fn carry(
        &mut self,
        alloc: Global,
        line: &[u8],
        fields: &[Vec<u8>],
        out: &mut Vec<u8>,
    ) -> Result<(), Ill> {
        let verb = text_at(fields, 0)?;
        match verb {
            "case" => {
                push_line(out, line)?;
                self.begin(fields)
            }
            "machine"
            | "held"
            | "count"
            | "written"
            | "appended"
            | "run"
            | "log"
            | "lies"
            | "images"
            | "stops"
            | "faults" => {
                push_step(out, line)?;
                self.tell(alloc, verb, fields, out)
            }
            _ => self.set(alloc, verb, fields),
        }
    }
}

impl Carrier for Script {
    fn step(
        &mut self,
        alloc: Global,
        line: &[u8],
        fields: &[Vec<u8>],
        out: &mut Vec<u8>,
    ) -> Result<(), Stop> {
        match self.carry(alloc, line, fields, out) {
            Ok(()) => Ok(()),
            Err(ill) => Err(Stop::from(ill)),
        }
    }
}
