//! The top call.

ghost use Rattle.std.specs.Prelude.{◌≡◌, ◌≤◌, ◌++◌, ℕ, List, Ok, Err, false};
ghost use Rattle.std.specs.Bool.{OnTrue};
ghost use Rattle.mi_volume.specs.Maps.{Map};
ghost use Rattle.mi_volume.specs.State.{NothingDirty, GoesOn, Passes};
ghost use Rattle.mi_volume.specs.State as volume;
ghost use Rattle.mi_source.specs.Counts.{Rose};
ghost use Rattle.mi_undo.specs.Stands.{stands, settled};
ghost use Rattle.mi_undo.specs.Keeps.{Each};
ghost use Rattle.mi_undo.specs.Room.{NeverShort};
ghost use Rattle.mi_undo.specs.Short.{IsShort};
ghost use Rattle.mi_model.specs.Assignments.{texts_of};
ghost use Rattle.mi_model.specs.Causes.{BelowCount, SameCount, AnswersWords, Caused, Completes, Reaches};
ghost use Rattle.mi_model.specs.Leaves.{MayStand, AtExit, ReadsAfter, Cleans};
ghost use Rattle.mi_model.specs.Logs.{IsLog, WritesFront, Logs};
ghost use Rattle.mi_model.specs.PackageOutcome.{Outcome};
ghost use Rattle.mi_model.specs.Outcome.{ComesTo};
ghost use Rattle.mi_model.specs.TopCall.{handed, IsTold, IsStill};
ghost use Rattle.mi_model.specs.Words.{Installs, command_of, walks};
ghost use Rattle.mi_report.specs.WalkLogs.{log_text};
ghost use Rattle.mi_carry.specs.OneMap.{LeavesOne};
ghost use Rattle.mi_commands.specs.Begun.{HasBegun};

use crate::answer::Answer;
use mi_commands::{Reply, reply_to};
use mi_report::Log;
use mi_source::{Sink, Source};
use mi_volume::Volume;
use std::alloc::Global;

/// Carries out the words of a command line on a volume, and writes the log to a sink: settles the volume, reads its
/// machine, and then carries out the whole walk of a package over its InstallExecuteSequence, lists the clients or the
/// products, or is done (Installation; Rollback Installation). On a volume that tells a capacity a walk is refused before its first write
/// where it needs more room than is free. `now` is the moment in seconds that new files carry. What is told by the source, the volume and
/// the sink is claimed where they tell it. A package that is made for tests has a source of its own.
pub fn run<S: Source, V: Volume, K: Sink>(
    alloc: Global,
    words: &[String],
    src: &mut S,
    vol: &mut V,
    out: &mut K,
    now: u64,
) -> Answer
    // Which answers the words allow. Refused words leave both devices alone, and a command without a package the
    // source.
    ensures words { AnswersWords (command_of (texts_of words.now)) result.kind }
    ensures untouched { (place : ℕ) → command_of (texts_of words.now) ≡ Err place → vol.new ≡ vol.old }
    ensures no_package { (Installs (command_of (texts_of words.now)) → ⊥) → src.new ≡ src.old }

    // What follows holds of each outcome that the run comes to. An answer comes only for its cause.
    ensures caused { (o : Outcome) → ComesTo (handed (texts_of words.now) (S.files src.old) (V.state vol.old) now) o
        → Caused (V.state vol.old).faults (V.state vol.new).faults V.told (IsTold V.told S.told (texts_of words.now)) o (volume.Rose (V.state vol.old) (V.state vol.new)) (Rose (S.faults src.old) (S.faults src.new)) result.kind }

    // Where no count rises, the answer is the outcome's own, or want of memory.
    ensures complete { (o : Outcome) → ComesTo (handed (texts_of words.now) (S.files src.old) (V.state vol.old) now) o → V.told → SameCount (V.state vol.old).faults (V.state vol.new).faults
        → IsStill S.told (texts_of words.now) (S.faults src.old) (S.faults src.new) → Completes o result.kind result.reached }

    // What a crash leaves, at every moment of the call and at its end: the former map F, or that of the machine after.
    ensures stops { (o : Outcome) → ComesTo (handed (texts_of words.now) (S.files src.old) (V.state vol.old) now) o → V.told → NothingDirty (V.state vol.old) → (F : Map) → stands (V.state vol.old).held ≡ Ok F
        → GoesOn (V.state vol.old) (V.state vol.new) (MayStand (IsTold V.told S.told (texts_of words.now)) F o (BelowCount (V.state vol.old).faults (V.state vol.new).faults) result.kind) }
    ensures leaves { (o : Outcome) → ComesTo (handed (texts_of words.now) (S.files src.old) (V.state vol.old) now) o → V.told → NothingDirty (V.state vol.old) → (F : Map) → stands (V.state vol.old).held ≡ Ok F
        → Each (V.state vol.new) (AtExit (IsTold V.told S.told (texts_of words.now)) F o result.kind) }
    // The same whatever the source reports: the former map F, or one and the same other map A.
    ensures one_map { V.told → NothingDirty (V.state vol.old) → (F : Map) → stands (V.state vol.old).held ≡ Ok F → (A : Map) × LeavesOne (V.state vol.old) (V.state vol.new) F A result.kind }
    ensures unread { V.told → NothingDirty (V.state vol.old) → (bad : List ℕ) → stands (V.state vol.old).held ≡ Err bad → GoesOn (V.state vol.old) (V.state vol.new) (λ d. d ≡ (V.state vol.old).held) }

    // What a crash leaves has room for its recovery, where what is handed in has.
    ensures recovers { V.told → NothingDirty (V.state vol.old) → ((name : List ℕ) → ¬ IsShort (V.state vol.old).capacity (V.state vol.old).held name) → GoesOn (V.state vol.old) (V.state vol.new) (NeverShort (V.state vol.old).capacity) }

    // What reads give after the call.
    ensures reads { (o : Outcome) → ComesTo (handed (texts_of words.now) (S.files src.old) (V.state vol.old) now) o → V.told → (F : Map) → stands (V.state vol.old).held ≡ Ok F → ReadsAfter (IsTold V.told S.told (texts_of words.now)) (V.state vol.old).held F o result.kind (V.state vol.new).held }
    ensures unread_stays { V.told → (bad : List ℕ) → stands (V.state vol.old).held ≡ Err bad → (V.state vol.new).held ≡ (V.state vol.old).held }
    ensures clean { V.told → Cleans (V.state vol.old) (V.state vol.new) result.kind }
    ensures passes { Passes (V.state vol.old) (V.state vol.new) }
    ensures counts { S.faults src.old ≤ S.faults src.new }
    ensures reached { (o : Outcome) → ComesTo (handed (texts_of words.now) (S.files src.old) (V.state vol.old) now) o → (IsTold V.told S.told (texts_of words.now)) → Reaches o result.reached result.kind }

    // How many actions are begun, also if a count rose: all, none, or those at the end of a segment.
    ensures begun { (o : Outcome) → ComesTo (handed (texts_of words.now) (S.files src.old) (V.state vol.old) now) o → (IsTold V.told S.told (texts_of words.now)) → HasBegun o result.reached result.kind }

    // The log.
    ensures log { (o : Outcome) → ComesTo (handed (texts_of words.now) (S.files src.old) (V.state vol.old) now) o → K.told
        → Logs (IsLog V.told (IsTold V.told S.told (texts_of words.now)) (λ found. V.told → found ≡ settled (V.state vol.old).held) (walks (command_of (texts_of words.now))) o result.kind result.reached) result.kind result.log_lost (K.written out.old) (K.written out.new) }
    ensures log_lost { OnTrue result.log_lost (Rose (K.faults out.old) (K.faults out.new)) }
{
    let reply = reply_to(alloc, words, now, src, vol);
    let log_lost = tell(out, &reply.log);
    let Reply {
        kind,
        reached,
        log: _,
    } = reply;
    Answer {
        kind,
        reached,
        log_lost,
    }
}

/// Writes a log, up to the first piece that fails, and says whether one did.
fn tell<K: Sink>(out: &mut K, log: &Log) -> bool
    ensures written { K.told → result ≡ false → K.written out.new ≡ K.written out.old ++ log_text log.now }
    ensures front { K.told → WritesFront (log_text log.now) (K.written out.old) (K.written out.new) }
    ensures counts { K.faults out.old ≤ K.faults out.new }
    ensures failed { OnTrue result (Rose (K.faults out.old) (K.faults out.new)) }
{
    if write_piece(out, log.front.as_slice()) {
        return true;
    }
    write_piece(out, log.line.as_slice())
}

/// Writes a piece of the log, unless it is empty, and says whether the sink failed.
fn write_piece<K: Sink>(out: &mut K, piece: &[u8]) -> bool
    ensures written { K.told → result ≡ false → K.written out.new ≡ K.written out.old ++ piece.now }
    ensures front { K.told → WritesFront piece.now (K.written out.old) (K.written out.new) }
    ensures counts { K.faults out.old ≤ K.faults out.new }
    ensures failed { OnTrue result (Rose (K.faults out.old) (K.faults out.new)) }
{
    if piece.is_empty() {
        return false;
    }
    out.write(piece).is_err()
}
