//! A source in memory.

ghost use Rattle.std.specs.Prelude.{◌≡◌, ◌≤◌, ◌↔◌, IsTrue, IfOk, OnOk, OnErr, IsErrOf, length, take, drop};
ghost use Rattle.std.specs.Result.{is_err};
ghost use Rattle.std.specs.Option.{option_copied, option_map};
ghost use Rattle.std.specs.FinMap.{empty, get, insert, keys};
ghost use Rattle.mi_source.specs.Paths.{bytes_or_none, name_in, names_in};
ghost use Rattle.mi_source.specs.Counts.{Rose};
ghost use Rattle.mi_source.specs.Memory.{files_of, fails_now, called};
ghost use Rattle.mi_source.specs.MemSource.{files_in, meter_of, faults_of};

use crate::fault::{Failed, SrcFault};
use crate::meter::Meter;
use crate::source::{PIECE, Source};
use mi_text::{Bytes, NoMemory, Text};
use std::alloc::Global;
use std::collections::BTreeMap;

/// A source in memory, which tells what it holds.
#[derive(Drop)]
pub struct MemSource {
    files: BTreeMap<String, Bytes>,
    meter: Meter,
}

impl MemSource {
    /// A source without files. Its calls, `add` aside, are numbered from 0, and those of these numbers fail.
    pub fn new(alloc: Global, fails: Vec<u64>) -> Result<MemSource, NoMemory>
        ensures files { IfOk result (λ s. files_in s ≡ empty) }
        ensures meter { IfOk result (λ s. meter_of s ≡ record { fails = fails; number = 0; faults = 0 }) }
    {
        Ok(MemSource {
            files: BTreeMap::new(alloc),
            meter: Meter::new(fails),
        })
    }

    /// Gives the path these bytes, also where it is there already. The source is unchanged after want of memory.
    pub fn add(&mut self, alloc: Global, path: &str, bytes: &[u8]) -> Result<(), NoMemory>
        ensures ok { OnOk result (files_in self.new ≡ insert (files_in self.old) path.now bytes.now) }
        ensures err { OnErr result (files_in self.new ≡ files_in self.old) }
        ensures meter { meter_of self.new ≡ meter_of self.old }
    {
        let path = String::from_str(alloc, path)?;
        let bytes = Bytes::copy_of(alloc, bytes)?;
        self.files.insert(path, bytes)?;
        Ok(())
    }
}

/// The name of the file, where it lies directly in the folder.
fn name_of<'a>(folder: &str, path: &'a str) -> Option<&'a str>
    ensures { option_copied result ≡ name_in folder.now path.now }
{
    let inside = path.strip_prefix(folder)?;
    let name = inside.strip_prefix("/")?;
    if name.as_bytes().contains(&b'/') {
        return None;
    }
    Some(name)
}

/// The names of the files directly in the folder, in byte order.
fn names_of(
    alloc: Global,
    files: &BTreeMap<String, Bytes>,
    folder: &str,
) -> Result<Vec<Text>, NoMemory>
    ensures { IfOk result (λ names. names.items ≡ names_in (files_of files.now.entries) folder.now) }
{
    let mut names = Vec::new(alloc);
    for path in files.keys() {
        if let Some(name) = name_of(folder, path.as_str()) {
            names.push(Text::copy_of(alloc, name)?)?;
        }
    }
    Ok(names)
}

/// The bytes of a file, and none where it isn't there.
fn bytes_at<'a>(files: &'a BTreeMap<String, Bytes>, path: &str) -> Option<&'a Bytes>
    ensures { option_copied result ≡ get (files_of files.now.entries) path.now }
{
    files.get(path)
}

impl Source for MemSource {
    ghost told = { Unit {0} };

    ghost files = { files_in };

    ghost faults = { faults_of };

    /// The names of the files directly in the folder. It fails exactly where its number is listed.
    fn names(&mut self, alloc: Global, folder: &str) -> Result<Vec<Text>, SrcFault>
        ensures value { IfOk result (λ names. names.items ≡ names_in (files_in self.old) folder.now) }
        ensures fails { IsErrOf result SrcFault.Failed ↔ IsTrue (fails_now (meter_of self.old)) }
        ensures stays { files_in self.new ≡ files_in self.old }
        ensures meter { meter_of self.new ≡ called (fails_now (meter_of self.old)) (meter_of self.old) }
        ensures counts { faults_of self.old ≤ faults_of self.new }
        ensures failed { IsErrOf result SrcFault.Failed → Rose (faults_of self.old) (faults_of self.new) }
    {
        if self.meter.fails_now(false) {
            return Err(SrcFault::Failed);
        }
        let names = names_of(alloc, &self.files, folder)?;
        Ok(names)
    }

    /// The length of the file's bytes. It fails exactly where its number is listed.
    fn size(&mut self, path: &str) -> Result<Option<u64>, Failed>
        ensures value { IfOk result (λ n. n ≡ option_map length (get (files_in self.old) path.now)) }
        ensures fails { is_err result ≡ fails_now (meter_of self.old) }
        ensures stays { files_in self.new ≡ files_in self.old }
        ensures meter { meter_of self.new ≡ called (fails_now (meter_of self.old)) (meter_of self.old) }
        ensures counts { faults_of self.old ≤ faults_of self.new }
        ensures failed { OnErr result (Rose (faults_of self.old) (faults_of self.new)) }
    {
        if self.meter.fails_now(false) {
            return Err(Failed);
        }
        match bytes_at(&self.files, path) {
            Some(bytes) => Ok(Some(bytes.len() as u64)),
            None => Ok(None),
        }
    }

    /// The file's bytes from `at`, at most `want`. It fails exactly where its number is listed.
    fn read(&mut self, alloc: Global, path: &str, at: u64, want: usize) -> Result<Bytes, SrcFault>
        requires { want ≤ PIECE }
        ensures value { IfOk result (λ bytes. bytes ≡ take want (drop at (bytes_or_none (get (files_in self.old) path.now)))) }
        ensures short { IfOk result (λ bytes. length bytes ≤ want) }
        ensures fails { IsErrOf result SrcFault.Failed ↔ IsTrue (fails_now (meter_of self.old)) }
        ensures stays { files_in self.new ≡ files_in self.old }
        ensures meter { meter_of self.new ≡ called (fails_now (meter_of self.old)) (meter_of self.old) }
        ensures counts { faults_of self.old ≤ faults_of self.new }
        ensures failed { IsErrOf result SrcFault.Failed → Rose (faults_of self.old) (faults_of self.new) }
    {
        if self.meter.fails_now(false) {
            return Err(SrcFault::Failed);
        }
        match bytes_at(&self.files, path) {
            Some(bytes) => {
                let piece = Bytes::copy_of(alloc, piece_of(bytes.as_slice(), at, want))?;
                Ok(piece)
            }
            None => Ok(Bytes::new(alloc)),
        }
    }
}

/// The bytes from `at`, at most `want`, and fewer only at the end.
fn piece_of(bytes: &[u8], at: u64, want: usize) -> &[u8]
    ensures { result.now ≡ take want (drop at bytes.now) }
{
    if at >= bytes.len() as u64 {
        return &[];
    }
    let rest = &bytes[at as usize..];
    &rest[..want.min(rest.len())]
}
