//! The words of the command line, read without memory.
#![tactic(auto)]

mod command;
mod digits;
mod pairs;
mod places;
mod read;
mod rest;
mod word;

pub use command::{Command, PackageWords, Sets, TestWords};
pub use read::read_words;
pub use rest::Assignments;
