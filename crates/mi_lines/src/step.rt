//! The lines and steps of a script.

use crate::escape::unescape;
use std::alloc::{AllocError, Global};

/// The lines of a text, without their line feeds. What stands behind the last line feed is a line where it isn't empty.
pub fn lines(alloc: Global, text: &[u8]) -> Result<Vec<&[u8]>, AllocError> {
    let mut lines = Vec::new(alloc);
    let text = text.strip_suffix(b"\n").unwrap_or(text);
    if text.is_empty() {
        return Ok(lines);
    }
    for line in text.split(|byte| *byte == b'\n') {
        lines.push(line)?;
    }
    Ok(lines)
}

/// Whether a line is a step: it isn't empty and doesn't begin with `#`.
pub fn is_step(line: &[u8]) -> bool {
    !matches!(line, [] | [b'#', ..])
}

/// The bytes of one field.
fn field_of(alloc: Global, text: &[u8]) -> Result<Vec<u8>, AllocError> {
    if matches!(text, b"<>") {
        return Ok(Vec::new(alloc));
    }
    unescape(alloc, text)
}

/// The fields of a step, unescaped: what stands between tabs, or, where the line has no tab, between blanks. The field `<>`
/// is empty.
pub fn fields(alloc: Global, line: &[u8]) -> Result<Vec<Vec<u8>>, AllocError> {
    let mark = if line.contains(&b'\t') { b'\t' } else { b' ' };
    let mut fields = Vec::new(alloc);
    for text in line.split(|byte| *byte == mark) {
        fields.push(field_of(alloc, text)?)?;
    }
    Ok(fields)
}

/// Adds a line as it stands and its line feed.
pub fn push_line(out: &mut Vec<u8>, line: &[u8]) -> Result<(), AllocError> {
    out.extend_from_slice(line)?;
    out.push(b'\n')?;
    Ok(())
}

/// Adds a step that prints: a mark, its line and its line feed.
pub fn push_step(out: &mut Vec<u8>, line: &[u8]) -> Result<(), AllocError> {
    out.extend_from_slice(b"> ")?;
    push_line(out, line)
}
