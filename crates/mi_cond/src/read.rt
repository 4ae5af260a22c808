//! Reading the text of a condition to its value.

ghost use Rattle.std.specs.Prelude.{◌≡◌, ◌+◌, ◌^◌, ◌<◌, ◌≤◌, [], length, nat_lt, if◌then◌else◌};
ghost use Rattle.mi_cond.specs.Steps.{Wants, State, fresh, depth_at};
ghost use Rattle.mi_cond.specs.States.{state_of};
ghost use Rattle.mi_cond.specs.Truths.{truths, state_value, AnswersValue};
ghost use Rattle.mi_cond.specs.Fronts.{ReadsOn, TokenRead, BracketRead};

use crate::error::CondFault;
use crate::front::{Front, front_of};
use crate::reader::Reader;
use crate::token::Token;
use mi_text::Env;

// How deep brackets and NOT may nest.
const DEEPEST: u64 = 64;

// Reads on behind a token of `n` bytes.
fn read_token<'t, E: Env>(
    reader: &mut Reader<'t>,
    env: &E,
    token: Token<'t>,
    at: usize,
    n: usize,
) -> Result<usize, CondFault>
    requires { at + n < 2 ^ 64 }
    ensures { TokenRead (truths (E.lookups env.now)) at n (state_of reader.old) token.entry (state_of reader.new) result }
{
    if reader.depth() > DEEPEST {
        drop(token);
        return Err(CondFault::TooDeep(at as u64));
    }
    match reader.step(env, token) {
        Some(()) => Ok(at + n),
        None => Err(CondFault::Syntax((at + n) as u64)),
    }
}

// Reads on behind a bracket.
fn read_bracket<'t, E: Env>(
    reader: &mut Reader<'t>,
    env: &E,
    bracket: Token<'t>,
    at: usize,
) -> Result<usize, CondFault>
    requires fits { at + 1 < 2 ^ 64 }
    requires deep { depth_at (state_of reader.old) ≤ 65 }
    ensures { BracketRead (truths (E.lookups env.now)) at (state_of reader.old) bracket.entry (state_of reader.new) result }
{
    match reader.step(env, bracket) {
        Some(()) => {
            if reader.depth() > DEEPEST {
                return Err(CondFault::TooDeep(at as u64));
            }
            Ok(at + 1)
        }
        None => Err(CondFault::Syntax(at as u64)),
    }
}

// Reads on where the first `n` bytes may stand, and with the next byte none may.
fn read_dead(reader: &Reader, at: usize, n: usize) -> CondFault
    requires { at + n < 2 ^ 64 }
    ensures { result ≡ (if nat_lt 64 (depth_at (state_of reader.now)) then CondFault.TooDeep at else CondFault.Syntax (at + n)) }
{
    if reader.depth() > DEEPEST {
        CondFault::TooDeep(at as u64)
    } else {
        CondFault::Syntax((at + n) as u64)
    }
}

// Reads on behind a blank.
fn read_blank(reader: &Reader, at: usize) -> Result<usize, CondFault>
    requires { at + 1 < 2 ^ 64 }
    ensures { result ≡ (if nat_lt 64 (depth_at (state_of reader.now)) then Err (CondFault.TooDeep at) else Ok (at + 1)) }
{
    if reader.depth() > DEEPEST {
        return Err(CondFault::TooDeep(at as u64));
    }
    Ok(at + 1)
}

// Reads what stands at a place of a text, and gives the next place.
fn read_front<'t, E: Env>(
    reader: &mut Reader<'t>,
    env: &E,
    text: &'t [u8],
    at: usize,
) -> Result<usize, CondFault>
    requires within { at < length text.now }
    requires deep { depth_at (state_of reader.old) ≤ 65 }
    ensures { (s : State) → state_value (E.lookups env.now) s ≡ state_of reader.old → ReadsOn (E.lookups env.now) text.now at s (state_of reader.new) result }
{
    let wants = reader.wants_value();
    let has = reader.has_value();
    match front_of(wants, has, &text[at..]) {
        Front::Blank => read_blank(reader, at),
        Front::Bracket(bracket) => read_bracket(reader, env, bracket, at),
        Front::Token(token, n) => read_token(reader, env, token, at, n),
        Front::Dead(n) => Err(read_dead(reader, at, n)),
        Front::Refused => Err(CondFault::Syntax(at as u64)),
    }
}

/// Whether the condition that a text is holds.
pub fn read_value<E: Env>(env: &E, text: &[u8]) -> Result<bool, CondFault>
    ensures { AnswersValue (E.lookups env.now) result text.now }
{
    let mut reader = Reader::new();
    let mut at = 0;
    while at < text.len() {
        match read_front(&mut reader, env, text, at) {
            Ok(next) => at = next,
            Err(fault) => return Err(fault),
        }
    }
    match reader.end(env) {
        Some(holds) => Ok(holds),
        None => Err(CondFault::Syntax(at as u64)),
    }
}
