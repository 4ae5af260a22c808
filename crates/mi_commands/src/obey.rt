//! Carrying out a command on a settled volume whose machine is read.

ghost use Rattle.std.specs.Prelude.{◌≡◌, ◌≤◌, ◌++◌, List, [], ℕ, IfOk, IsOk, Ok, codes, false};
ghost use Rattle.mi_text.specs.Maps.{Map};
ghost use Rattle.mi_volume.specs.State.{Passes};
ghost use Rattle.mi_source.specs.Counts.{Rose};
ghost use Rattle.mi_source.specs.Paths.{Files};
ghost use Rattle.mi_undo.specs.Keeps.{IsFree};
ghost use Rattle.mi_undo.specs.Stands.{settled as found_in};
ghost use Rattle.mi_base.specs.Machine.{Machine, machine_of, volume_of};
ghost use Rattle.mi_image.specs.Items.{machine_over, AreThere as HasContents};
ghost use Rattle.mi_model.specs.Listings.{clients_text_of, products_text_of};
ghost use Rattle.mi_model.specs.Outcome.{Handed, free_room, of_command};
ghost use Rattle.mi_model.specs.PackageOutcome.{of_package};
ghost use Rattle.mi_model.specs.Words.{Installs, Package, Selftest as Tests};
ghost use Rattle.mi_words.specs.Asked.{asked as commanded, of_words};
ghost use Rattle.mi_commands.specs.Answers.{IsTold, SourceFails};
ghost use Rattle.mi_commands.specs.Asked.{MayAsk, MayTest};
ghost use Rattle.mi_commands.specs.Calls.{ArePublic, sets_of};
ghost use Rattle.mi_commands.specs.Replies.{IsHanded, Lists, Serves, log_in};

use crate::ending::stopped;
use crate::package::prepare;
use crate::reply::{Reply, logged, out_of_memory, told};
use crate::walk::carry;
use mi_base::{Bytes, Kind, NoMemory, Settled};
use mi_gen::package_of;
use mi_image::Image;
use mi_report::{clients_text, products_text};
use mi_source::Source;
use mi_volume::Volume;
use mi_words::{Command, PackageWords, Sets, TestWords};
use std::alloc::Global;

/// Carries out a command on a settled volume, of which this is the image, at a moment in seconds.
pub fn obey<S: Source, V: Volume>(
    alloc: Global,
    command: &Command<'_>,
    settled: Settled,
    image: Image,
    now: u64,
    src: &mut S,
    vol: &mut V,
) -> Reply
    requires words { MayAsk command.now }
    requires free { V.told → IsFree (V.state vol.old) }
    requires spelled { V.told → IsOk (machine_of (V.state vol.old).held) }
    requires machine { V.told → (files : Files) → volume_of (machine_over (V.state vol.old).held files image) ≡ (V.state vol.old).held }
    requires contents { V.told → (files : Files) → HasContents (V.state vol.old).held files image }
    ensures serves { (h : Handed) (m : Machine) → IsHanded V.told h (S.files src.old) (V.state vol.old).capacity now settled → (V.told → (files : Files) → machine_over (V.state vol.old).held files image ≡ m)
        → Serves V.told (IsTold V.told S.told (Ok (commanded command.now))) (V.state vol.old) (V.state vol.new) (of_command h (free_room h.capacity (V.state vol.old).held) m (found_in h.held) (commanded command.now)) (commanded command.now) (λ s. s ≡ settled) (SourceFails (Ok (commanded command.now)) (S.faults src.old) (S.faults src.new)) result.kind result.reached (log_in result) }
    ensures unread { (Installs (Ok (commanded command.now)) → ⊥) → src.new ≡ src.old }
    ensures passes { Passes (V.state vol.old) (V.state vol.new) }
    ensures counts { S.faults src.old ≤ S.faults src.new }
{
    match command {
        Command::Package(request) => install(alloc, request, settled, image, now, src, vol),
        Command::Selftest(request) => test(alloc, request, settled, image, now, vol),
        Command::Clients => list_clients(alloc, &image),
        Command::Products => list_products(alloc, &image),
        Command::Recover => logged(alloc, Kind::Recovered(settled), settled, false),
    }
}

/// Carries out the package of a folder on a settled volume.
fn install<S: Source, V: Volume>(
    alloc: Global,
    asked: &PackageWords<'_>,
    settled: Settled,
    image: Image,
    now: u64,
    src: &mut S,
    vol: &mut V,
) -> Reply
    requires public { ArePublic asked.now }
    requires free { V.told → IsFree (V.state vol.old) }
    requires spelled { V.told → IsOk (machine_of (V.state vol.old).held) }
    requires machine { V.told → volume_of (machine_over (V.state vol.old).held (S.files src.old) image) ≡ (V.state vol.old).held }
    requires contents { V.told → HasContents (V.state vol.old).held (S.files src.old) image }
    ensures serves { Serves V.told (IsTold V.told S.told (Ok (Package asked.now.recorded asked.now.folder.now (sets_of asked.now)))) (V.state vol.old) (V.state vol.new) (of_package (S.files src.old) (free_room (V.state vol.old).capacity (V.state vol.old).held) now (machine_over (V.state vol.old).held (S.files src.old) image) asked.now.recorded asked.now.folder.now (sets_of asked.now)) (Package asked.now.recorded asked.now.folder.now (sets_of asked.now)) (λ s. s ≡ settled) (Rose (S.faults src.old) (S.faults src.new)) result.kind result.reached (log_in result) }
    ensures passes { Passes (V.state vol.old) (V.state vol.new) }
    ensures counts { S.faults src.old ≤ S.faults src.new }
{
    match prepare(alloc, asked, image, now, src, vol) {
        Ok(plan) => carry(alloc, plan, settled, src, vol),
        Err(stop) => logged(alloc, stopped(stop), settled, true),
    }
}

/// Carries out the package that is made for tests, from a source of its own.
fn test<V: Volume>(
    alloc: Global,
    asked: &TestWords<'_>,
    settled: Settled,
    image: Image,
    now: u64,
    vol: &mut V,
) -> Reply
    requires words { MayTest asked.now }
    requires free { V.told → IsFree (V.state vol.old) }
    requires spelled { V.told → IsOk (machine_of (V.state vol.old).held) }
    requires machine { V.told → (files : Files) → volume_of (machine_over (V.state vol.old).held files image) ≡ (V.state vol.old).held }
    requires contents { V.told → (files : Files) → HasContents (V.state vol.old).held files image }
    ensures serves { (h : Handed) (m : Machine) (files : Files) (n : ℕ) → IsHanded V.told h files (V.state vol.old).capacity now settled → (V.told → (from : Files) → machine_over (V.state vol.old).held from image ≡ m)
        → Serves V.told (IsTold V.told ⊥ (Ok (Tests asked.now.files (of_words asked.now.words)))) (V.state vol.old) (V.state vol.new) (of_command h (free_room h.capacity (V.state vol.old).held) m (found_in h.held) (Tests asked.now.files (of_words asked.now.words))) (Tests asked.now.files (of_words asked.now.words)) (λ s. s ≡ settled) (SourceFails (Ok (Tests asked.now.files (of_words asked.now.words))) n n) result.kind result.reached (log_in result) }
    ensures passes { Passes (V.state vol.old) (V.state vol.new) }
{
    match package_of(alloc, asked.files) {
        Ok(mut made) => install_made(alloc, asked, settled, image, now, &mut made, vol),
        Err(_) => {
            drop(image);
            out_of_memory(alloc, true)
        }
    }
}

/// Carries out the package that a source has in the folder `self`.
fn install_made<S: Source, V: Volume>(
    alloc: Global,
    asked: &TestWords<'_>,
    settled: Settled,
    image: Image,
    now: u64,
    src: &mut S,
    vol: &mut V,
) -> Reply
    requires words { MayTest asked.now }
    requires free { V.told → IsFree (V.state vol.old) }
    requires spelled { V.told → IsOk (machine_of (V.state vol.old).held) }
    requires machine { V.told → volume_of (machine_over (V.state vol.old).held (S.files src.old) image) ≡ (V.state vol.old).held }
    requires contents { V.told → HasContents (V.state vol.old).held (S.files src.old) image }
    ensures serves { Serves V.told (IsTold V.told S.told (Ok (Package false (codes "self") (of_words asked.now.words ++ [])))) (V.state vol.old) (V.state vol.new) (of_package (S.files src.old) (free_room (V.state vol.old).capacity (V.state vol.old).held) now (machine_over (V.state vol.old).held (S.files src.old) image) false (codes "self") (of_words asked.now.words ++ [])) (Package false (codes "self") (of_words asked.now.words ++ [])) (λ s. s ≡ settled) (Rose (S.faults src.old) (S.faults src.new)) result.kind result.reached (log_in result) }
    ensures passes { Passes (V.state vol.old) (V.state vol.new) }
{
    let package = PackageWords {
        recorded: false,
        folder: "self",
        words: asked.words,
        sets: Sets::Nothing,
    };
    install(alloc, &package, settled, image, now, src, vol)
}

/// The list of the clients of a machine.
fn list_clients(alloc: Global, image: &Image) -> Reply
    ensures { (held files : Map (List ℕ)) → Lists (clients_text_of (machine_over held files image.now)) result }
{
    listed(alloc, clients_text(alloc, image))
}

/// The list of the products of a machine.
fn list_products(alloc: Global, image: &Image) -> Reply
    ensures { (held files : Map (List ℕ)) → Lists (products_text_of (machine_over held files image.now)) result }
{
    listed(alloc, products_text(alloc, image))
}

/// The answer of a listing.
fn listed(alloc: Global, text: Result<Bytes, NoMemory>) -> Reply
    ensures { (lines : List ℕ) → IfOk text (λ bytes. bytes ≡ lines) → Lists lines result }
{
    match text {
        Ok(text) => told(Kind::Listed, text),
        Err(_) => out_of_memory(alloc, false),
    }
}
