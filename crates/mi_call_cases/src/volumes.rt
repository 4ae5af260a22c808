//! Calls of a volume in memory, and of settling.

use crate::answers::{say_count, say_done, say_next, say_put, say_read, say_settled};
use mi_lines::{Call, Given, empty_volume, holding, name_of, say_held};
use mi_text::{Name, NoMemory};
use mi_undo::settle;
use mi_volume::{CallKind, Choice, MemVolume, PIECE, Volume};

/// Adds a line for a crash image.
fn say_choice(volume: &MemVolume, choice: Choice, word: &str, call: &mut Call<'_>) {
    call.push(word.as_bytes());
    match &mut volume.image(call.alloc(), choice) {
        Ok(image) => say_held(image, b"\t", b"", call),
        Err(NoMemory) => call.no_memory(),
    }
    call.push(b"\n");
}

fn say_images(volume: &MemVolume, call: &mut Call<'_>) {
    say_choice(volume, Choice::Old, "old", call);
    say_choice(volume, Choice::New, "new", call);
    say_choice(volume, Choice::Torn, "torn", call);
    say_choice(volume, Choice::Gone, "gone", call);
}

fn read_piece<V: Volume>(volume: &mut V, name: &Name, step: &mut Call<'_>) {
    let at = step.number(2);
    let want = step.size(3);
    if want > PIECE {
        step.bad_line();
    } else {
        say_read(&volume.read(step.alloc(), name, at, want), step);
    }
}

/// The bytes of a step, which are none where it has no further word.
fn piece<'a>(step: &mut Call<'a>) -> &'a [u8] {
    if step.len() == 2 { b"" } else { step.bytes(2) }
}

fn put<V: Volume>(volume: &mut V, name: &Name, step: &mut Call<'_>) {
    let bytes = piece(step);
    if bytes.len() > PIECE {
        step.bad_line();
    } else {
        say_put(volume.put(step.alloc(), name, bytes), step);
    }
}

fn append<V: Volume>(volume: &mut V, name: &Name, step: &mut Call<'_>) {
    let bytes = piece(step);
    if bytes.len() > PIECE {
        step.bad_line();
    } else {
        say_put(volume.append(step.alloc(), name, bytes), step);
    }
}

/// Makes a call of a name.
fn make_named<V: Volume>(volume: &mut V, name: &Name, step: &mut Call<'_>) {
    match step.text(0) {
        "put" => put(volume, name, step),
        "append" => append(volume, name, step),
        "remove" => say_done(volume.remove(name), step),
        "size" => say_count(volume.size(name), step),
        "read" => read_piece(volume, name, step),
        "next" => say_next(&volume.next(step.alloc(), Some(name)), step),
        _ => step.bad_line(),
    }
}

fn make_of_name<V: Volume>(volume: &mut V, step: &mut Call<'_>) {
    let text = step.text(1);
    match &name_of(step.alloc(), text) {
        Ok(name) => make_named(volume, name, step),
        Err(stop) => step.stop(*stop),
    }
}

fn make_bare<V: Volume>(volume: &mut V, step: &mut Call<'_>) {
    match step.text(0) {
        "sync" => say_done(volume.sync(), step),
        "free" => say_count(volume.free(), step),
        "faults" => step.say_number("Ok", volume.faults()),
        "next" => say_next(&volume.next(step.alloc(), None), step),
        _ => step.bad_line(),
    }
}

/// Makes a call, and adds its answer.
fn make_step<V: Volume>(volume: &mut V, place: usize, call: &mut Call<'_>) {
    let words = call.words(place);
    let mut step = call.with(words.as_slice());
    if words.len() == 1 {
        make_bare(volume, &mut step);
    } else {
        make_of_name(volume, &mut step);
    }
    call.resume(step);
}

fn make_all<V: Volume>(volume: &mut V, call: &mut Call<'_>) {
    for place in 0..call.len() {
        make_step(volume, place, call);
    }
}

/// Adds the puts and appends that were made.
fn say_calls(volume: &MemVolume, call: &mut Call<'_>) {
    call.push(b"calls");
    for made in volume.calls() {
        call.push(match made.kind {
            CallKind::Put => b"\tput ",
            CallKind::Append => b"\tappend ",
        });
        call.field(made.name.as_bytes());
    }
    call.push(b"\n");
}

fn say_made(volume: &mut MemVolume, call: &mut Call<'_>) {
    make_all(volume, call);
    say_calls(volume, call);
    say_images(volume, call);
}

/// Makes calls of an empty volume, and tells its crash images.
pub fn say_volume(given: &Given, call: &mut Call<'_>) {
    match &mut empty_volume(call.alloc(), given, 0) {
        Ok(volume) => say_made(volume, call),
        Err(stop) => call.stop(*stop),
    }
}

fn settle_all<V: Volume>(volume: &mut V, call: &mut Call<'_>) {
    say_settled(&settle(call.alloc(), volume), call);
    say_held(volume, b"", b"\n", call);
}

/// Settles the volume that holds what is given, and tells what it holds then.
pub fn say_settling(given: &Given, call: &mut Call<'_>) {
    match &mut holding(call.alloc(), given) {
        Ok(volume) => settle_all(volume, call),
        Err(stop) => call.stop(*stop),
    }
}
