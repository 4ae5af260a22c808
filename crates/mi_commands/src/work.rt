//! What the words of a command line ask for.

ghost use Rattle.std.specs.Prelude.{◌≡◌, ◌≤◌, ℕ, Err};
ghost use Rattle.mi_volume.specs.State.{Passes};
ghost use Rattle.mi_model.specs.Assignments.{texts_of};
ghost use Rattle.mi_model.specs.Outcome.{ComesTo};
ghost use Rattle.mi_model.specs.PackageOutcome.{Outcome};
ghost use Rattle.mi_model.specs.TopCall.{handed, IsTold};
ghost use Rattle.mi_model.specs.Words.{Installs, command_of};
ghost use Rattle.mi_commands.specs.Answers.{SourceFails};
ghost use Rattle.mi_commands.specs.Replies.{Leaves, Runs, log_in};

use crate::reply::{Reply, logged};
use crate::serve::serve;
use mi_base::{Cause, Kind, Settled};
use mi_source::Source;
use mi_volume::Volume;
use mi_words::read_words;
use std::alloc::Global;

/// Does what the words ask for, at a moment in seconds: settles the volume, reads its machine, and carries out the command
/// (Windows Installer command-line options). Its log is made and not yet written. Want of memory is an answer of the reply.
pub fn reply_to<S: Source, V: Volume>(
    alloc: Global,
    words: &[String],
    now: u64,
    src: &mut S,
    vol: &mut V,
) -> Reply
    ensures runs { (o : Outcome) → ComesTo (handed (texts_of words.now) (S.files src.old) (V.state vol.old) now) o
        → Runs V.told (IsTold V.told S.told (texts_of words.now)) (V.state vol.old) (V.state vol.new) o (command_of (texts_of words.now)) (SourceFails (command_of (texts_of words.now)) (S.faults src.old) (S.faults src.new)) result.kind result.reached (log_in result) }
    ensures leaves { Leaves V.told (V.state vol.old) (V.state vol.new) (command_of (texts_of words.now)) result.kind }
    ensures untouched { (place : ℕ) → command_of (texts_of words.now) ≡ Err place → vol.new ≡ vol.old }
    ensures no_package { (Installs (command_of (texts_of words.now)) → ⊥) → src.new ≡ src.old }
    ensures passes { Passes (V.state vol.old) (V.state vol.new) }
    ensures counts { S.faults src.old ≤ S.faults src.new }
{
    match read_words(words) {
        Ok(command) => serve(alloc, &command, now, src, vol),
        Err(place) => logged(
            alloc,
            Kind::Refused(Cause::BadWords(place)),
            Settled::Clean,
            false,
        ),
    }
}
