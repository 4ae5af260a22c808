//! The answers of steps that stop a run.

ghost use Rattle.std.specs.Prelude.{◌≡◌};
ghost use Rattle.mi_text.specs.declared.answers.Settled.TheVariants.{Clean};
ghost use Rattle.mi_commands.specs.Replies.{Replies};
ghost use Rattle.mi_commands.specs.Endings.{kind_unscanned, kind_stopped, RepliesUnsettled};

use crate::reply::{Reply, logged, out_of_memory};
use crate::stop::Stop;
use mi_base::{Cause, Kind, Settled};
use mi_image::ImageError;
use mi_undo::UndoError;
use std::alloc::Global;

/// The answer of a run that didn't settle its volume, with its log. It isn't known then what settling would have found.
pub fn unsettled(alloc: Global, error: UndoError, walks: bool) -> Reply
    ensures { RepliesUnsettled walks error result }
{
    match error {
        UndoError::NoMemory => out_of_memory(alloc, walks),
        UndoError::Fault => refused_before(alloc, Cause::VolumeFault, walks),
        UndoError::BadRollback(name) => refused_before(alloc, Cause::BadRollback(name), walks),
        UndoError::Full(name) => refused_before(alloc, Cause::RecoveryFull(name), walks),
    }
}

/// A refusal before the volume is settled.
fn refused_before(alloc: Global, cause: Cause, walks: bool) -> Reply
    ensures { Replies walks Clean (Kind.Refused cause) result }
{
    logged(alloc, Kind::Refused(cause), Settled::Clean, walks)
}

/// The answer of a run that didn't read its machine.
pub fn unscanned(error: ImageError) -> Kind
    ensures { result ≡ kind_unscanned error }
{
    match error {
        ImageError::NoMemory => Kind::NoMemory,
        ImageError::Fault => Kind::Refused(Cause::VolumeFault),
        ImageError::BadImage(name) => Kind::Refused(Cause::BadImage(name)),
    }
}

/// The answer of a run that stops before its package is walked over.
pub fn stopped(stop: Stop) -> Kind
    ensures { result ≡ kind_stopped stop }
{
    match stop {
        Stop::NoMemory => Kind::NoMemory,
        Stop::Refuse(cause) => Kind::Refused(cause),
    }
}
