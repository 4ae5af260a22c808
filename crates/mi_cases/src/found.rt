//! What trials find, by answer.

use crate::ill::Ill;
use crate::told::Told;
use mi_lines::push_escaped;
use std::alloc::Global;
use std::collections::BTreeMap;

/// Which machines were found: the former one, the one after, any other.
#[derive(Clone, Copy)]
pub struct Found {
    pub former: bool,
    pub after: bool,
    pub neither: bool,
}

impl Found {
    /// Nothing is found yet.
    pub const NOTHING: Found = Found {
        former: false,
        after: false,
        neither: false,
    };

    /// Another machine than those two is found.
    pub const NEITHER: Found = Found {
        former: false,
        after: false,
        neither: true,
    };

    /// What is found together.
    pub fn with(self, other: Found) -> Found {
        Found {
            former: self.former || other.former,
            after: self.after || other.after,
            neither: self.neither || other.neither,
        }
    }
}

/// What was found by answer; an answer ends with a colon, so that lines are in byte order.
pub type Findings = BTreeMap<Vec<u8>, Found>;

/// What is wrong with a run of a trial.
#[derive(Clone, Copy)]
pub struct Wrong {
    /// Its log isn't a front of the log without faults.
    pub log: bool,
    /// The volume's count of faults isn't that of the calls that failed, or what a suspended run says of it is out of order.
    pub counts: bool,
}

fn push_if(answer: &mut Vec<u8>, said: bool, words: &[u8]) -> Result<(), Ill> {
    if said {
        answer.extend_from_slice(words)?;
    }
    Ok(())
}

/// The answer of a run as trials print it.
pub fn answer_of(alloc: Global, told: &Told, wrong: Wrong) -> Result<Vec<u8>, Ill> {
    let mut answer = Vec::new(alloc);
    push_escaped(&mut answer, told.text.as_slice())?;
    push_if(&mut answer, told.marks.log_lost, b", log lost")?;
    push_if(&mut answer, wrong.log, b", log wrong")?;
    push_if(&mut answer, wrong.counts, b", counts wrong")?;
    answer.push(b':')?;
    Ok(answer)
}

/// Notes what was found with an answer.
pub fn note(findings: &mut Findings, answer: Vec<u8>, found: Found) -> Result<(), Ill> {
    let before = match findings.get(answer.as_slice()) {
        Some(before) => *before,
        None => Found::NOTHING,
    };
    findings.insert(answer, before.with(found))?;
    Ok(())
}

fn push_word(out: &mut Vec<u8>, said: bool, word: &[u8]) -> Result<(), Ill> {
    if said {
        out.push(b' ')?;
        out.extend_from_slice(word)?;
    }
    Ok(())
}

/// Adds a line for each answer.
pub fn push_findings(out: &mut Vec<u8>, findings: &Findings) -> Result<(), Ill> {
    for (answer, found) in findings.iter() {
        out.extend_from_slice(answer.as_slice())?;
        push_word(out, found.former, b"former")?;
        push_word(out, found.after, b"after")?;
        push_word(out, found.neither, b"neither")?;
        out.push(b'\n')?;
    }
    Ok(())
}
