//! What was written beside what was expected, case by case.

use crate::step::{lines, push_line};
use std::alloc::{AllocError, Global};

/// What a comparison found.
#[derive(Drop)]
pub struct Verdict {
    /// How many cases were written.
    pub cases: usize,
    /// Whether all is as expected.
    pub same: bool,
    /// For each case that differs its name, the first line that differs, and both texts.
    pub text: Vec<u8>,
}

/// Whether a line begins a case.
fn begins(line: &[u8]) -> bool {
    line.starts_with(b"case ")
}

/// Adds the place at which this case begins, where there are lines of one.
fn push_start(starts: &mut Vec<usize>, place: usize, line: &[u8]) -> Result<(), AllocError> {
    if place == 0 || begins(line) {
        starts.push(place)?;
    }
    Ok(())
}

/// The lines at which cases begin, and the first line.
fn starts_of(alloc: Global, lines: &[&[u8]]) -> Result<Vec<usize>, AllocError> {
    let mut starts = Vec::new(alloc);
    for (place, line) in lines.iter().enumerate() {
        push_start(&mut starts, place, line)?;
    }
    Ok(starts)
}

/// The lines of a case, by the places at which cases begin; none behind the last.
fn part<'s, 'a>(lines: &'s [&'a [u8]], starts: &[usize], number: usize) -> &'s [&'a [u8]] {
    let next = starts.get(number.saturating_add(1)).copied();
    let to = next.unwrap_or(lines.len()).min(lines.len());
    let from = starts.get(number).copied().unwrap_or(to).min(to);
    &lines[from..to]
}

fn line_at<'a>(lines: &[&'a [u8]], place: usize) -> &'a [u8] {
    match lines.get(place) {
        Some(line) => line,
        None => b"",
    }
}

/// The place of the first line that differs, or the number of lines where none does.
fn first_difference(made: &[&[u8]], wanted: &[&[u8]]) -> usize {
    let most = made.len().max(wanted.len());
    for place in 0..most {
        if made.get(place).is_none()
            || wanted.get(place).is_none()
            || line_at(made, place) != line_at(wanted, place)
        {
            return place;
        }
    }
    most
}

fn push_lines(out: &mut Vec<u8>, head: &[u8], lines: &[&[u8]]) -> Result<(), AllocError> {
    push_line(out, head)?;
    for line in lines {
        push_line(out, line)?;
    }
    Ok(())
}

/// Adds how two cases differ, and says whether they do.
fn push_difference(
    alloc: Global,
    out: &mut Vec<u8>,
    made: &[&[u8]],
    wanted: &[&[u8]],
) -> Result<bool, AllocError> {
    let place = first_difference(made, wanted);
    if place == made.len() && place == wanted.len() {
        return Ok(false);
    }
    let name = if wanted.is_empty() {
        line_at(made, 0)
    } else {
        line_at(wanted, 0)
    };
    push_line(out, name)?;
    let number = place.saturating_add(1);
    let head = format!(in alloc; "line {number} differs; written:")?;
    push_lines(out, head.as_bytes(), made)?;
    push_lines(out, b"expected:", wanted)?;
    Ok(true)
}

fn push_differences(
    alloc: Global,
    out: &mut Vec<u8>,
    made: &[&[u8]],
    wanted: &[&[u8]],
    made_starts: &[usize],
    wanted_starts: &[usize],
) -> Result<bool, AllocError> {
    let mut same = true;
    for number in 0..made_starts.len().max(wanted_starts.len()) {
        let made = part(made, made_starts, number);
        let wanted = part(wanted, wanted_starts, number);
        if push_difference(alloc, out, made, wanted)? {
            same = false;
        }
    }
    Ok(same)
}

fn compare_lines(
    alloc: Global,
    out: &mut Vec<u8>,
    made: &[&[u8]],
    wanted: &[&[u8]],
) -> Result<(usize, bool), AllocError> {
    let made_starts = starts_of(alloc, made)?;
    let wanted_starts = starts_of(alloc, wanted)?;
    let same = push_differences(
        alloc,
        out,
        made,
        wanted,
        made_starts.as_slice(),
        wanted_starts.as_slice(),
    )?;
    Ok((made_starts.len(), same))
}

/// Compares what was written with the expected text, case by case: the first with the first, and so on.
pub fn compare(alloc: Global, made: &[u8], wanted: &[u8]) -> Result<Verdict, AllocError> {
    let mut text = Vec::new(alloc);
    let made = lines(alloc, made)?;
    let wanted = lines(alloc, wanted)?;
    let (cases, same) = compare_lines(alloc, &mut text, made.as_slice(), wanted.as_slice())?;
    Ok(Verdict { cases, same, text })
}
