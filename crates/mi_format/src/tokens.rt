//! Taking tokens from a text.

ghost use Rattle.std.specs.Prelude.{◌≡◌, ◌<◌, [], ◌∷◌, length, MatchOption};
ghost use Rattle.mi_format.specs.Tokens.{token_of, tokens};

use crate::escape::{escape, first_char};
use crate::token::{Kind, Token};

const fn token_of(first: char) -> Token
    ensures { result ≡ token_of first }
{
    match first {
        '{' => Token::Open(Kind::Brace),
        ']' => Token::Close(Kind::Bracket),
        '}' => Token::Close(Kind::Brace),
        _ => Token::Char(first),
    }
}

/// The first token of a text, and what follows it.
pub(crate) fn next_token(text: &str) -> Option<(Token, &str)>
    ensures { MatchOption result (tokens text.now ≡ []) (λ x. (tokens text.now ≡ x.0 ∷ tokens x.1.now) × (length x.1.now < length text.now)) }
{
    let Some((first, behind)) = first_char(text) else {
        return None;
    };
    if first != '[' {
        return Some((token_of(first), behind));
    }
    match escape(behind) {
        Some((given, after)) => Some((Token::Escape(given), after)),
        None => Some((Token::Open(Kind::Bracket), behind)),
    }
}
