//! The status with which a program ends.

ghost use Rattle.std.specs.Prelude.{◌≡◌, if◌then◌else◌};
ghost use Rattle.mi_engine.specs.Codes.{code_of, cause_code, place_code};

use crate::answer::Answer;
use mi_base::{Cause, Kind, Place};

/// The status of an answer (this project's own). It takes no memory.
pub fn answer_code(answer: &Answer) -> u8
    ensures { result ≡ code_of answer.now }
{
    match &answer.kind {
        Kind::Done => 0,
        Kind::Listed => listed_code(answer.log_lost),
        Kind::Recovered(_) => 0,
        Kind::Refused(cause) => code_of_cause(cause),
        Kind::Suspended(pause) => code_of_place(pause.place),
        Kind::NoMemory => 40,
    }
}

fn listed_code(log_lost: bool) -> u8
    ensures { result ≡ (if log_lost then 41 else 0) }
{
    if log_lost { 41 } else { 0 }
}

fn code_of_cause(cause: &Cause) -> u8
    ensures { result ≡ cause_code cause.now }
{
    match cause {
        Cause::BadWords(_) => 10,
        Cause::Table(_) => 11,
        Cause::UnknownProduct(_) => 12,
        Cause::Launch(_) => 13,
        Cause::ErrorAction(_, _) => 14,
        Cause::Full(_, _) => 15,
        Cause::SourceFault => 16,
        Cause::VolumeFault => 17,
        Cause::BadImage(_) => 18,
        Cause::BadRollback(_) => 19,
        Cause::RecoveryFull(_) => 20,
    }
}

fn code_of_place(place: Place) -> u8
    ensures { result ≡ place_code place }
{
    match place {
        Place::InRollback => 30,
        Place::InCommit => 31,
    }
}
