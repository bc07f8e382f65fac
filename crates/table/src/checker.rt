//! A list of tokens, held against the cut of a text.

ghost use Rattle.lexer.specs.Cut.{cut};
ghost use Rattle.std.specs.Prelude.{◌≡◌, IfOk, Ok};
ghost use Rattle.table.specs.Filled.{if_fit};
ghost use Rattle.table.specs.Parting.{Tells, parting};
ghost use Rattle.text.specs.Fit.{checked};

use crate::same::same_token;
use lexer::token::Token;
use lexer::token_at;
use text::{Text, TextFault, check};

/// The first index where a list of tokens and the cut of a text part. Every token has a byte, so that an index met in
/// the text is no more than a place.
fn parting<T: Text>(text: &T, tokens: &[Token]) -> Option<u32>
    ensures { result ≡ parting (cut (T.bytes text.now)) tokens.now }
{
    let mut place: u32 = 0;
    let mut index: u32 = 0;
    // The index goes over the list, and the place over the text.
    while (index as usize) < tokens.len() {
        let Some(token) = token_at(text, place) else {
            return Some(index);
        };
        if !same_token(token, tokens[index as usize]) {
            return Some(index);
        }
        place += token.len;
        index += 1;
    }
    token_at(text, place)?;
    Some(index)
}

/// None where a list of tokens is the cut of a text, and else the first index where they part, a missing entry on
/// either side included.
pub fn check_tokens<T: Text>(text: &T, tokens: &[Token]) -> Result<Option<u32>, TextFault>
    ensures value { result ≡ if_fit (λ fault. fault) (checked (T.bytes text.now))
        (Ok (parting (cut (T.bytes text.now)) tokens.now)) }
    ensures tells { IfOk result (Tells (cut (T.bytes text.now)) tokens.now) }
{
    check(text)?;
    Ok(parting(text, tokens))
}
