//! The cut of a text, written into a table.

ghost use Rattle.std.specs.Prelude.{◌≡◌, ◌≤◌, ◌++◌, length, drop};
ghost use Rattle.lexer.specs.Cut.{cut};
ghost use Rattle.table.specs.Filled.{fill_answer, filled};

use crate::fault::TableFault;
use lexer::token::Token;
use lexer::token_at;
use text::{Text, check};

/// How many tokens a text has.
fn count_tokens<T: Text>(text: &T) -> u32
    ensures { result ≡ length (cut (T.bytes text.now)) }
{
    let mut place: u32 = 0;
    let mut count: u32 = 0;
    // Tokens are read by the call for the token at a place: no iterator over them is kept.
    while let Some(token) = token_at(text, place) {
        place += token.len;
        count += 1;
    }
    count
}

/// Writes the tokens of a text into the first entries of a table that has room for them.
fn write_tokens<T: Text>(text: &T, table: &mut [Token])
    requires { length (cut (T.bytes text.now)) ≤ length table.old }
    ensures { table.new
        ≡ cut (T.bytes text.now) ++ drop (length (cut (T.bytes text.now))) table.old }
{
    let mut place: u32 = 0;
    for entry in table.iter_mut() {
        let Some(token) = token_at(text, place) else {
            return;
        };
        *entry = token;
        place += token.len;
    }
}

/// Writes the cut of a text into the first entries of a table, leaves the later ones untouched and answers the token
/// count. The tokens are counted before any is written, so that on a fault the table is as it was.
pub fn fill_table<T: Text>(text: &T, table: &mut [Token]) -> Result<u32, TableFault>
    ensures answer { result ≡ fill_answer (T.bytes text.now) table.old }
    ensures after { table.new ≡ filled result (cut (T.bytes text.now)) table.old }
{
    check(text)?;
    let tokens = count_tokens(text);
    if table.len() < tokens as usize {
        return Err(TableFault::TooFewEntries { tokens });
    }
    write_tokens(text, table);
    Ok(tokens)
}
