//! Lines and their fields.

ghost use Rattle.std.specs.Prelude.{◌≡◌, ◌==◌, ◌++◌, IfOk, OnOk, length, map, count_by};
ghost use Rattle.std.specs.List.{slice_split};
ghost use Rattle.std.specs.Str.Lines.{lines, strip_carriage_return};
ghost use Rattle.mi_idt.specs.Fields.{fields_of, is_ascii};

use memchr::{memchr, memchr_iter};
use std::alloc::{AllocError, Global};

/// The parts between the bytes that equal `mark`, with room for `room` of them.
pub fn parts(alloc: Global, bytes: &[u8], mark: u8, room: usize) -> Result<Vec<&[u8]>, AllocError>
    ensures { IfOk result (λ v. map (λ b. b.now) v.items ≡ slice_split (λ b. b == mark) bytes.now) }
{
    let mut parts = Vec::with_capacity(alloc, room)?;
    let mut rest = bytes;
    while let Some(at) = memchr(mark, rest) {
        let (part, behind) = rest.split_at(at);
        parts.push(part)?;
        rest = &behind[1..];
    }
    parts.push(rest)?;
    Ok(parts)
}

/// Adds the fields of a line that is text.
pub fn push_fields<'a>(fields: &mut Vec<&'a str>, line: &'a str) -> Result<(), AllocError>
    ensures { OnOk result (map (λ b. b.now) fields.new.items ≡ map (λ b. b.now) fields.old.items ++ fields_of line.now) }
{
    let mut start = 0;
    for (i, byte) in line.as_bytes().iter().enumerate() {
        if *byte == b'\t' {
            fields.push(&line[start..i])?;
            start = i + 1;
        }
    }
    fields.push(&line[start..])?;
    Ok(())
}

/// The fields of a line that is text, with room for `count` of them.
pub fn text_fields(alloc: Global, line: &str, count: usize) -> Result<Vec<&str>, AllocError>
    ensures { IfOk result (λ v. map (λ b. b.now) v.items ≡ fields_of line.now) }
{
    let mut fields = Vec::with_capacity(alloc, count)?;
    push_fields(&mut fields, line)?;
    Ok(fields)
}

/// How many bytes equal `mark`. They are passed one by one, since so the search skips what lies between them.
pub fn count(bytes: &[u8], mark: u8) -> usize
    ensures { result ≡ count_by (λ b. b == mark) bytes.now }
{
    let mut marks = 0;
    for _ in memchr_iter(mark, bytes) {
        marks += 1;
    }
    marks
}

/// How many fields a line has.
pub fn count_fields(line: &[u8]) -> usize
    ensures { result ≡ length (fields_of line.now) }
{
    count(line, b'\t') + 1
}

/// Whether all bytes are below 128.
pub fn all_ascii(line: &[u8]) -> bool
    ensures { result ≡ is_ascii line.now }
{
    let mut ascii = true;
    for byte in line {
        ascii &= *byte < 128;
    }
    ascii
}

fn without_return(line: &[u8]) -> &[u8]
    ensures { result.now ≡ strip_carriage_return line.now }
{
    match line {
        [front @ .., b'\r'] => front,
        _ => line,
    }
}

fn drop_returns(lines: &mut Vec<&[u8]>)
    ensures { map (λ b. b.now) lines.new.items ≡ map strip_carriage_return (map (λ b. b.now) lines.old.items) }
{
    for i in 0..lines.len() {
        lines[i] = without_return(lines[i]);
    }
}

/// The lines: LF ends a line, a CR just before it is dropped, and the last end may be missing. There is room for `room`.
pub fn lines_of(alloc: Global, bytes: &[u8], room: usize) -> Result<Vec<&[u8]>, AllocError>
    ensures { IfOk result (λ v. map (λ b. b.now) v.items ≡ lines bytes.now) }
{
    let mut lines = parts(alloc, bytes, b'\n', room)?;
    let Some(last) = lines.pop() else {
        return Ok(lines);
    };
    drop_returns(&mut lines);
    if last.is_empty() {
        return Ok(lines);
    }
    lines.push(last)?;
    Ok(lines)
}
