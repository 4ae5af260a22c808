//! Calls of records.

ghost use Rattle.std.specs.Prelude.{◌≤◌, length, min};

use mi_base::{
    Bytes, EncError, Entry, FileHead, Name, RecError, RecFault, dec_entry, dec_file_head, enc_entry,
};
use mi_lines::{Call, entry, push_head};

/// The longest head, in bytes.
const LONGEST_HEAD: usize = 131_364;

fn say_error(error: RecError, call: &mut Call<'_>) {
    match error {
        RecError::NoMemory => call.no_memory(),
        RecError::Fault(RecFault::Short) => call.say_word("Short"),
        RecError::Fault(RecFault::Extra) => call.say_word("Extra"),
        RecError::Fault(RecFault::Field) => call.say_word("Field"),
    }
}

fn say_encoded(encoded: &Result<(Name, Bytes), EncError>, call: &mut Call<'_>) {
    match encoded {
        Ok((name, record)) => call.say_two(name.as_bytes(), record.as_slice()),
        Err(EncError::NoMemory) => call.no_memory(),
        Err(EncError::Field) => call.say_word("Field"),
    }
}

fn say_spelled(entry: &Entry, call: &mut Call<'_>) {
    say_encoded(&enc_entry(call.alloc(), entry), call);
}

fn say_read(read: &Result<Entry, RecError>, call: &mut Call<'_>) {
    match read {
        Ok(entry) => say_spelled(entry, call),
        Err(error) => say_error(*error, call),
    }
}

/// Reads a record and writes it again.
pub fn say_record(call: &mut Call<'_>) {
    let (name, record) = (call.text(0), call.bytes(1));
    let read = dec_entry(call.alloc(), name, record);
    say_read(&read, call);
    drop(read);
}

fn say_fields(head: &FileHead, call: &mut Call<'_>) {
    push_head(head, call);
    call.push(b"\n");
}

fn say_read_head(name: &str, front: &[u8], record_len: u64, call: &mut Call<'_>)
    requires within { length front.now ≤ record_len }
    requires enough { min record_len 131364 ≤ length front.now }
{
    match &dec_file_head(call.alloc(), name, front, record_len) {
        Ok(head) => say_fields(head, call),
        Err(error) => say_error(*error, call),
    }
}

/// Reads the head of a file from so many bytes of its record as the longest head has, or from all of them.
pub fn say_head(call: &mut Call<'_>) {
    let (name, record) = (call.text(0), call.bytes(1));
    let record_len = record.len() as u64;
    match record.get(..LONGEST_HEAD) {
        Some(front) => say_read_head(name, front, record_len, call),
        None => say_read_head(name, record, record_len, call),
    }
}

fn say_found(entry: &Option<Entry>, call: &mut Call<'_>) {
    match entry {
        Some(entry) => say_spelled(entry, call),
        None => call.bad_line(),
    }
}

/// Adds the name and the record of an entry.
pub fn say_entry(call: &mut Call<'_>) {
    let entry = entry(call);
    say_found(&entry, call);
    drop(entry);
}
