//! How the answers of volumes and of settling are printed.

use mi_lines::Call;
use mi_text::{Bytes, Name, Settled};
use mi_undo::UndoError;
use mi_volume::{Failed, PutFault, VolFault};

/// Adds what a put or an append answers.
pub fn say_put(answer: Result<(), PutFault>, call: &mut Call<'_>) {
    match answer {
        Ok(()) => call.say_word("Ok"),
        Err(PutFault::Failed) => call.say_word("Failed"),
        Err(PutFault::Full) => call.say_word("Full"),
        Err(PutFault::NoMemory) => call.no_memory(),
    }
}

/// Adds what a call without a value answers.
pub fn say_done(answer: Result<(), Failed>, call: &mut Call<'_>) {
    match answer {
        Ok(()) => call.say_word("Ok"),
        Err(Failed) => call.say_word("Failed"),
    }
}

/// Adds a number, or that there is none.
pub fn say_count(answer: Result<Option<u64>, Failed>, call: &mut Call<'_>) {
    match answer {
        Ok(Some(number)) => call.say_number("Ok", number),
        Ok(None) => call.say_word("none"),
        Err(Failed) => call.say_word("Failed"),
    }
}

fn say_fault(fault: VolFault, call: &mut Call<'_>) {
    match fault {
        VolFault::Failed => call.say_word("Failed"),
        VolFault::NoMemory => call.no_memory(),
    }
}

/// Adds the bytes that were read.
pub fn say_read(answer: &Result<Bytes, VolFault>, call: &mut Call<'_>) {
    match answer {
        Ok(bytes) => call.say(bytes.as_slice()),
        Err(fault) => say_fault(*fault, call),
    }
}

/// Adds the next name, or that there is none.
pub fn say_next(answer: &Result<Option<Name>, VolFault>, call: &mut Call<'_>) {
    match answer {
        Ok(Some(name)) => call.say(name.as_bytes()),
        Ok(None) => call.say_word("none"),
        Err(fault) => say_fault(*fault, call),
    }
}

/// Adds what settling answers.
pub fn say_settled(settled: &Result<Settled, UndoError>, call: &mut Call<'_>) {
    match settled {
        Ok(Settled::Clean) => call.say_word("Clean"),
        Ok(Settled::Undone(notes)) => call.say_number("Undone", *notes),
        Err(UndoError::NoMemory) => call.no_memory(),
        Err(UndoError::Fault) => call.say_word("Fault"),
        Err(UndoError::BadRollback(name)) => call.say_two(b"BadRollback", name.as_bytes()),
        Err(UndoError::Full(name)) => call.say_two(b"Full", name.as_bytes()),
    }
}
