//! Conditions: their syntax, read exactly, and their value over any surroundings (Windows Installer
//! reference, Conditional Statement Syntax).
#![tactic(auto)]

mod bracket;
mod compare;
mod cond;
mod error;
mod evaluate;
mod front;
mod nothing;
mod operand;
mod read;
mod reader;
mod token;

pub use cond::Cond;
pub use error::{CondError, CondFault};
