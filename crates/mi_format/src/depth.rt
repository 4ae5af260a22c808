//! How deep the marks of a text are nested.

ghost use Rattle.std.specs.Prelude.{◌≡◌, ◌&&◌, nat_le, IfOk, length, is_some};
ghost use Rattle.mi_format.specs.Tokens.{opened};
ghost use Rattle.mi_format.specs.Scan.{step};
ghost use Rattle.mi_format.specs.Bare.{bare, bare_state};
ghost use Rattle.mi_format.specs.Expansion.{is_too_deep};

use crate::token::{Kind, Token};
use crate::tokens::next_token;
use mi_text::NoMemory;
use std::alloc::Global;

// How many marks may be open at once.
const MOST_OPEN: usize = 64;

// Whether a token opens a mark where as many are open as may be.
fn passes(marks: &[Kind], token: Token) -> bool
    ensures { result ≡ (is_some (opened token) && nat_le 64 (length marks.now)) }
{
    match token {
        Token::Open(_) => marks.len() >= MOST_OPEN,
        Token::Char(_) | Token::Escape(_) | Token::Close(_) => false,
    }
}

// The open marks behind one more token, the innermost last.
fn step(mut marks: Vec<Kind>, token: Token) -> Result<Vec<Kind>, NoMemory>
    ensures { IfOk result (λ v. bare_state v.items ≡ step bare (bare_state marks.items) token) }
{
    match token {
        Token::Open(kind) => marks.push(kind)?,
        Token::Close(kind) => {
            if marks.last() == Some(&kind) {
                let _ = marks.pop();
            }
        }
        Token::Char(_) | Token::Escape(_) => {}
    }
    Ok(marks)
}

/// Whether some prefix of the tokens of a text has more than 64 open marks whose groups don't end in it.
pub(crate) fn is_too_deep(alloc: Global, text: &str) -> Result<bool, NoMemory>
    ensures { IfOk result (λ deep. deep ≡ is_too_deep text.now) }
{
    let mut marks = Vec::new(alloc);
    let mut rest = text;
    while let Some((token, behind)) = next_token(rest) {
        rest = behind;
        if passes(&marks, token) {
            return Ok(true);
        }
        marks = step(marks, token)?;
    }
    Ok(false)
}
