//! A call that a step makes: its arguments, and what it answers.

use crate::escape::push_field;
use crate::step::fields;
use crate::stop::Stop;
use mi_text::{NoMemory, Text};
use std::alloc::{AllocError, Global};
use std::{mem, str};

/// The field that stands for the text of the case.
const TEXT: &[u8] = b"<text>";

/// A call that a step makes. What goes wrong with it is kept, as a formatter keeps it, so that its parts go on without an
/// exit each: an argument that is missing or isn't of its form is empty, what memory is wanting for isn't added, and
/// `end` refuses the call.
#[derive(Drop)]
pub struct Call<'a> {
    fields: &'a [Vec<u8>],
    case_text: &'a [u8],
    answer: Vec<u8>,
    stop: Option<Stop>,
}

fn push_say(answer: &mut Vec<u8>, field: &[u8]) -> Result<(), AllocError> {
    push_field(answer, field)?;
    answer.push(b'\n')?;
    Ok(())
}

fn push_number(answer: &mut Vec<u8>, word: &str, number: u64) -> Result<(), AllocError> {
    let alloc = *answer.allocator();
    let line = format!(in alloc; "{word} {number}\n")?;
    answer.extend_from_slice(line.as_bytes())
}

impl<'a> Call<'a> {
    /// A call with these arguments, in a case of this text, that has answered nothing.
    pub fn new(alloc: Global, fields: &'a [Vec<u8>], case_text: &'a [u8]) -> Call<'a> {
        Call {
            fields,
            case_text,
            answer: Vec::new(alloc),
            stop: None,
        }
    }

    /// Adds what was answered, unless the call can't be made.
    pub fn end(self, out: &mut Vec<u8>) -> Result<(), Stop> {
        match self.stop {
            None => Ok(out.extend_from_slice(self.answer.as_slice())?),
            Some(stop) => Err(stop),
        }
    }

    /// A call of other arguments in the same case, which goes on with this one's answer; `resume` takes it back.
    pub fn with<'b>(&mut self, fields: &'b [Vec<u8>]) -> Call<'b>
    where
        'a: 'b,
    {
        let none = Vec::new(self.alloc());
        Call {
            fields,
            case_text: self.case_text,
            answer: mem::replace(&mut self.answer, none),
            stop: self.stop,
        }
    }

    /// Goes on where a call that was made with other arguments has come to.
    pub fn resume(&mut self, call: Call<'_>) {
        self.answer = call.answer;
        self.stop = call.stop;
    }

    /// The words that an argument is, read as the fields of a line.
    pub fn words(&mut self, place: usize) -> Vec<Vec<u8>> {
        match fields(self.alloc(), self.bytes(place)) {
            Ok(words) => words,
            Err(AllocError) => {
                self.no_memory();
                Vec::new(self.alloc())
            }
        }
    }

    /// Leaves the first so many arguments.
    pub fn skip(&mut self, count: usize) {
        self.fields = self.fields.get(count..).unwrap_or(&[]);
    }

    /// What memory is asked of.
    pub fn alloc(&self) -> Global {
        *self.answer.allocator()
    }

    /// How many arguments there are.
    pub fn len(&self) -> usize {
        self.fields.len()
    }

    /// Whether nothing went wrong.
    pub fn is_good(&self) -> bool {
        self.stop.is_none()
    }

    /// The call can't be made, for this reason, unless another stood before.
    pub fn stop(&mut self, stop: Stop) {
        self.stop = self.stop.or(Some(stop));
    }

    /// The call can't be made: memory ran out.
    pub fn no_memory(&mut self) {
        self.stop(Stop::NoMemory);
    }

    /// The call can't be made: it isn't of its form, or names what isn't there.
    pub fn bad_line(&mut self) {
        self.stop(Stop::BadLine);
    }

    /// The bytes of an argument; `<text>` stands for the text of the case.
    pub fn bytes(&mut self, place: usize) -> &'a [u8] {
        match self.fields.get(place) {
            Some(field) if field.as_slice() == TEXT => self.case_text,
            Some(field) => field.as_slice(),
            None => {
                self.bad_line();
                b""
            }
        }
    }

    /// The text of an argument.
    pub fn text(&mut self, place: usize) -> &'a str {
        match str::from_utf8(self.bytes(place)) {
            Ok(text) => text,
            Err(_) => {
                self.bad_line();
                ""
            }
        }
    }

    /// A copy of the text of an argument.
    pub fn owned(&mut self, place: usize) -> Text {
        let text = self.text(place);
        self.copy(text)
    }

    /// A copy of a text.
    pub fn copy(&mut self, text: &str) -> Text {
        match Text::copy_of(self.alloc(), text) {
            Ok(text) => text,
            Err(NoMemory) => {
                self.no_memory();
                Text::new(self.alloc())
            }
        }
    }

    /// The number that an argument spells.
    pub fn number(&mut self, place: usize) -> u64 {
        match self.text(place).parse::<u64>() {
            Ok(number) => number,
            Err(_) => {
                self.bad_line();
                0
            }
        }
    }

    /// The number below 4294967296 that an argument spells.
    pub fn small(&mut self, place: usize) -> u32 {
        match u32::try_from(self.number(place)) {
            Ok(number) => number,
            Err(_) => {
                self.bad_line();
                0
            }
        }
    }

    /// The length that an argument spells.
    pub fn size(&mut self, place: usize) -> usize {
        match self.text(place).parse::<usize>() {
            Ok(number) => number,
            Err(_) => {
                self.bad_line();
                0
            }
        }
    }

    // Keeps want of memory.
    fn note(&mut self, said: Result<(), AllocError>) {
        if said.is_err() {
            self.no_memory();
        }
    }

    /// Adds bytes as they stand.
    pub fn push(&mut self, bytes: &[u8]) {
        let said = self.answer.extend_from_slice(bytes);
        self.note(said);
    }

    /// Adds a text that was written, as it stands.
    pub fn push_string(&mut self, made: &Result<String, AllocError>) {
        match made {
            Ok(text) => self.push(text.as_bytes()),
            Err(AllocError) => self.no_memory(),
        }
    }

    /// Adds a field.
    pub fn field(&mut self, field: &[u8]) {
        let said = push_field(&mut self.answer, field);
        self.note(said);
    }

    /// Adds a tab and a field.
    pub fn next(&mut self, field: &[u8]) {
        self.push(b"\t");
        self.field(field);
    }

    /// Adds a tab and a number.
    pub fn next_number(&mut self, number: u64) {
        let digits = number.to_string(self.alloc());
        self.push(b"\t");
        self.push_string(&digits);
    }

    /// Adds a line of one field.
    pub fn say(&mut self, field: &[u8]) {
        let said = push_say(&mut self.answer, field);
        self.note(said);
    }

    /// Adds a line of a word.
    pub fn say_word(&mut self, word: &str) {
        self.say(word.as_bytes());
    }

    /// Adds a line of two fields.
    pub fn say_two(&mut self, first: &[u8], second: &[u8]) {
        self.field(first);
        self.push(b"\t");
        self.say(second);
    }

    /// Adds a line of a word and a number.
    pub fn say_number(&mut self, word: &str, number: u64) {
        let said = push_number(&mut self.answer, word, number);
        self.note(said);
    }

    /// Adds a line `yes` or `no`.
    pub fn say_whether(&mut self, holds: bool) {
        self.say_word(if holds { "yes" } else { "no" });
    }

    /// Adds a line of a text that was made.
    pub fn say_text(&mut self, made: &Result<Text, NoMemory>) {
        match made {
            Ok(text) => self.say(text.as_bytes()),
            Err(NoMemory) => self.no_memory(),
        }
    }

    /// Adds a line of a text that was written.
    pub fn say_string(&mut self, made: &Result<String, AllocError>) {
        match made {
            Ok(text) => self.say(text.as_bytes()),
            Err(AllocError) => self.no_memory(),
        }
    }
}
