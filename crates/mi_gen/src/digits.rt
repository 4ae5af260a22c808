//! Numbers in four digits.

ghost use Rattle.std.specs.Prelude.{◌≡◌, ◌<◌, ◌++◌, ◌∷◌, [], IfOk, OnOk};
ghost use Rattle.mi_base.specs.Names.{digit, four_digits};

use mi_text::{NoMemory, Text};
use std::alloc::Global;

const fn digit_text(number: u32) -> &'static str
    requires { number < 10 }
    ensures { result.now ≡ digit number ∷ [] }
{
    match number {
        0 => "0",
        1 => "1",
        2 => "2",
        3 => "3",
        4 => "4",
        5 => "5",
        6 => "6",
        7 => "7",
        8 => "8",
        _ => "9",
    }
}

/// Adds the last four digits of a number.
pub fn push_four_digits(text: &mut Text, number: u32) -> Result<(), NoMemory>
    ensures { OnOk result (text.new ≡ text.old ++ four_digits number) }
{
    text.push_str(digit_text(number / 1000 % 10))?;
    text.push_str(digit_text(number / 100 % 10))?;
    text.push_str(digit_text(number / 10 % 10))?;
    text.push_str(digit_text(number % 10))
}

/// A text with the last four digits of a number behind it.
pub fn numbered(alloc: Global, start: &str, number: u32) -> Result<Text, NoMemory>
    ensures { IfOk result (λ text. text ≡ start.now ++ four_digits number) }
{
    let mut text = Text::copy_of(alloc, start)?;
    push_four_digits(&mut text, number)?;
    Ok(text)
}
