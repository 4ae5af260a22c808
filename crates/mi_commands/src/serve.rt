//! Serving a command: settling the volume, reading its machine, and then the command.

ghost use Rattle.std.specs.Prelude.{◌≡◌, ◌≤◌, List, Ok};
ghost use Rattle.mi_volume.specs.State.{Passes};
ghost use Rattle.mi_undo.specs.Keeps.{IsFree};
ghost use Rattle.mi_base.specs.Machine.{machine_of};
ghost use Rattle.mi_model.specs.Outcome.{ComesTo, Handed, of_machine};
ghost use Rattle.mi_model.specs.PackageOutcome.{Outcome};
ghost use Rattle.mi_model.specs.Texts.{Text};
ghost use Rattle.mi_model.specs.TopCall.{handed};
ghost use Rattle.mi_model.specs.Words.{Installs, command_of};
ghost use Rattle.mi_words.specs.Asked.{asked as commanded};
ghost use Rattle.mi_commands.specs.Answers.{IsTold, SourceFails};
ghost use Rattle.mi_commands.specs.Asked.{MayAsk};
ghost use Rattle.mi_commands.specs.Replies.{IsHanded, Serves, Leaves, Runs, log_in};

use crate::command::is_walk;
use crate::ending::{unscanned, unsettled};
use crate::obey::obey;
use crate::reply::{Reply, logged};
use mi_base::Settled;
use mi_image::Image;
use mi_source::Source;
use mi_undo::settle;
use mi_volume::Volume;
use mi_words::Command;
use std::alloc::Global;

/// Settles the volume, reads its machine and carries out a command, at a moment in seconds.
pub fn serve<S: Source, V: Volume>(
    alloc: Global,
    command: &Command<'_>,
    now: u64,
    src: &mut S,
    vol: &mut V,
) -> Reply
    requires words { MayAsk command.now }
    ensures runs { (words : List Text) (out : Outcome) → command_of words ≡ Ok (commanded command.now) → ComesTo (handed words (S.files src.old) (V.state vol.old) now) out
        → Runs V.told (IsTold V.told S.told (Ok (commanded command.now))) (V.state vol.old) (V.state vol.new) out (Ok (commanded command.now)) (SourceFails (Ok (commanded command.now)) (S.faults src.old) (S.faults src.new)) result.kind result.reached (log_in result) }
    ensures leaves { Leaves V.told (V.state vol.old) (V.state vol.new) (Ok (commanded command.now)) result.kind }
    ensures unread { (Installs (Ok (commanded command.now)) → ⊥) → src.new ≡ src.old }
    ensures passes { Passes (V.state vol.old) (V.state vol.new) }
    ensures counts { S.faults src.old ≤ S.faults src.new }
{
    match settle(alloc, vol) {
        Ok(settled) => serve_settled(alloc, command, settled, now, src, vol),
        Err(error) => unsettled(alloc, error, is_walk(command)),
    }
}

/// Reads the machine of a settled volume and carries out a command.
fn serve_settled<S: Source, V: Volume>(
    alloc: Global,
    command: &Command<'_>,
    settled: Settled,
    now: u64,
    src: &mut S,
    vol: &mut V,
) -> Reply
    requires words { MayAsk command.now }
    requires free { V.told → IsFree (V.state vol.old) }
    ensures serves { (h : Handed) → IsHanded V.told h (S.files src.old) (V.state vol.old).capacity now settled → Serves V.told (IsTold V.told S.told (Ok (commanded command.now))) (V.state vol.old) (V.state vol.new) (of_machine h (V.state vol.old).held (commanded command.now) (machine_of (V.state vol.old).held)) (commanded command.now) (λ s. s ≡ settled) (SourceFails (Ok (commanded command.now)) (S.faults src.old) (S.faults src.new)) result.kind result.reached (log_in result) }
    ensures unread { (Installs (Ok (commanded command.now)) → ⊥) → src.new ≡ src.old }
    ensures passes { Passes (V.state vol.old) (V.state vol.new) }
    ensures counts { S.faults src.old ≤ S.faults src.new }
{
    match Image::scan(alloc, vol) {
        Ok(image) => obey(alloc, command, settled, image, now, src, vol),
        Err(error) => logged(alloc, unscanned(error), settled, is_walk(command)),
    }
}
