//! Calls of the log.

use crate::causes::cause;
use mi_base::{Kind, NoMemory, Pause, Place, Settled, Texts};
use mi_lines::Call;
use mi_report::{Outcome, report};

fn suspended(place: Place) -> Kind {
    Kind::Suspended(Pause {
        place,
        why: None,
        begun: 0,
        again: 1,
    })
}

fn refused(call: &mut Call<'_>) -> Option<Kind> {
    call.skip(1);
    match cause(call) {
        Some(cause) => Some(Kind::Refused(cause)),
        None => None,
    }
}

fn suspended_at(call: &mut Call<'_>) -> Option<Kind> {
    match call.text(1) {
        "InRollback" => Some(suspended(Place::InRollback)),
        "InCommit" => Some(suspended(Place::InCommit)),
        _ => None,
    }
}

/// What a run answers.
fn kind(call: &mut Call<'_>) -> Option<Kind> {
    match call.text(0) {
        "Done" => Some(Kind::Done),
        "Listed" => Some(Kind::Listed),
        "NoMemory" => Some(Kind::NoMemory),
        "Clean" => Some(Kind::Recovered(Settled::Clean)),
        "Undone" => Some(Kind::Recovered(Settled::Undone(call.number(1)))),
        "Suspended" => suspended_at(call),
        "Refused" => refused(call),
        _ => None,
    }
}

fn push_begun(begun: &mut Texts, name: &str, call: &mut Call<'_>) {
    if !name.is_empty() && begun.push(call.copy(name)).is_err() {
        call.no_memory();
    }
}

/// The begun actions, which are joined by `,`.
fn begun(call: &mut Call<'_>) -> Texts {
    let mut begun = Texts::new(call.alloc());
    for name in call.text(3).split(',') {
        push_begun(&mut begun, name, call);
    }
    begun
}

/// What settling gave: the number of names that were put back, or `-`.
fn settled(call: &mut Call<'_>) -> Settled {
    match call.text(1) {
        "-" => Settled::Clean,
        _ => Settled::Undone(call.number(1)),
    }
}

/// Adds the log of an outcome.
pub fn say_outcome(outcome: &Outcome, reached: u32, call: &mut Call<'_>) {
    match &report(call.alloc(), outcome, reached) {
        Ok(log) => call.push(log.as_slice()),
        Err(NoMemory) => call.no_memory(),
    }
}

fn outcome(call: &mut Call<'_>) -> Option<Outcome> {
    let settled = settled(call);
    let walks = call.text(0) == "walks";
    let begun = begun(call);
    call.skip(4);
    match kind(call) {
        Some(kind) => Some(Outcome {
            kind,
            settled,
            walks,
            begun,
        }),
        None => None,
    }
}

fn say_spelled(outcome: &Option<Outcome>, reached: u32, call: &mut Call<'_>) {
    match outcome {
        Some(outcome) => say_outcome(outcome, reached, call),
        None => call.bad_line(),
    }
}

/// Adds the log of the outcome that the arguments spell.
pub fn say_report(call: &mut Call<'_>) {
    let reached = call.small(2);
    let outcome = outcome(call);
    say_spelled(&outcome, reached, call);
    drop(outcome);
}
