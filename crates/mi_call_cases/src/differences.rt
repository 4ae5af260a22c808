//! Calls of what differs between two machines.

use mi_lines::{Call, Given, Stop, holding, push_bytes};
use mi_show::{DiffError, diff};
use mi_text::{Bytes, Text};
use mi_volume::Volume;

// Takes pairs of arguments for names and their bytes.
fn take_pairs(held: &mut Vec<(Text, Vec<u8>)>, call: &mut Call<'_>) -> Result<(), Stop> {
    for _ in 0..call.len().div_ceil(2) {
        push_bytes(held, call)?;
        call.skip(2);
    }
    Ok(())
}

// What the volume that is compared with holds, by the arguments.
fn other_of(call: &mut Call<'_>) -> Given {
    let mut other = Given::new(call.alloc());
    if let Err(stop) = take_pairs(&mut other.held, call) {
        call.stop(stop);
    }
    other
}

fn say_different(different: &Result<Bytes, DiffError>, call: &mut Call<'_>) {
    match different {
        Ok(text) => call.push(text.as_slice()),
        Err(DiffError::NoMemory) => call.no_memory(),
        Err(DiffError::Fault) => call.say_word("Fault"),
        Err(DiffError::BadImage(name)) => call.say_two(b"BadImage", name.as_bytes()),
        Err(DiffError::OtherFault) => call.say_word("OtherFault"),
        Err(DiffError::BadOther(name)) => call.say_two(b"BadOther", name.as_bytes()),
    }
}

fn compare<V: Volume>(volume: &mut V, other: &Given, call: &mut Call<'_>) {
    match &mut holding(call.alloc(), other) {
        Ok(other) => say_different(&diff(call.alloc(), volume, other), call),
        Err(stop) => call.stop(*stop),
    }
}

/// Tells what differs from the machine of the names in the arguments, each before its bytes, to that of the given names.
pub fn say_differences(given: &Given, call: &mut Call<'_>) {
    let other = other_of(call);
    match &mut holding(call.alloc(), given) {
        Ok(volume) => compare(volume, &other, call),
        Err(stop) => call.stop(*stop),
    }
}
