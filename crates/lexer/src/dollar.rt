//! What starts with a dollar sign: dollar-quoted strings and parameters.

ghost use Rattle.std.specs.Prelude.{◌≡◌, ◌+◌, ◌≤◌, true, length, drop};
ghost use Rattle.lexer.specs.Byte.{byte};
ghost use Rattle.lexer.specs.Class.{decimal};
ghost use Rattle.lexer.specs.Cursor.{Begun, Eats, rest, run};
ghost use Rattle.lexer.specs.Dollar.{begins, delimited, delimited_closed, dollar_closed, dollar_kind, dollar_len, dollar_quoted, opens_dollar, parameter};

use crate::class::{DecimalDigit, IdentStart, TagCont};
use crate::cursor::{Cursor, Reach};
use crate::piece::Piece;
use crate::token::{LiteralKind, TokenKind};
use text::Text;

impl<'a, T: Text> Cursor<'a, T> {
    /// Goes on after a `$`, the token's first character.
    pub(crate) fn dollar(&mut self) -> TokenKind
        requires sign { Begun (byte "$") self.old }
        ensures kind { result ≡ dollar_kind (rest self.old) }
        ensures moved { Eats dollar_len self.old self.new }
    {
        if self.is_dollar_quote_start() {
            let terminated = self.dollar_quoted_string();
            TokenKind::Literal {
                kind: LiteralKind::DollarQuotedString { terminated },
            }
        } else {
            self.positional_param()
        }
    }

    /// Whether a tag and a `$` follow: the tag is empty or an identifier without `$`.
    fn is_dollar_quote_start(&self) -> bool
        ensures { result ≡ opens_dollar (rest self.now) }
    {
        if self.first() == '$' {
            return true;
        }
        self.next_in(&IdentStart) && self.char_after_run(&TagCont) == '$'
    }

    /// Eats the rest of the opening delimiter and all up to and with the first whole delimiter
    /// after it. Says whether there is one.
    fn dollar_quoted_string(&mut self) -> bool
        requires sign { Begun (byte "$") self.old }
        requires opens { opens_dollar (rest self.old) ≡ true }
        ensures closed { result ≡ dollar_closed (rest self.old) }
        ensures moved { Eats dollar_quoted self.old self.new }
    {
        let opener = self.place() - 1;
        self.eat_while(&TagCont);
        self.bump();
        let delimiter = Piece {
            text: self.text(),
            place: opener,
            len: self.place() - opener,
        };
        self.pass(dollar_end(self.text(), self.place(), &delimiter))
    }

    /// The digits of a parameter, and its junk.
    fn positional_param(&mut self) -> TokenKind
        ensures kind { result ≡ TokenKind.PositionalParam
            (self.old.eaten + run decimal (rest self.old)) }
        ensures moved { Eats parameter self.old self.new }
    {
        self.eat_while(&DecimalDigit);
        let trailing_junk_start = self.pos_within_token();
        self.eat_identifier();
        TokenKind::PositionalParam {
            trailing_junk_start,
        }
    }
}

/// Where the string ends that begins at a place, after its opening delimiter: after the next
/// delimiter, or with the text. And whether it is closed. A tag holds no `$`, so a comparison at a
/// place that turns out wrong stops before the next `$`: all of them together go over the text
/// twice at most.
fn dollar_end<T: Text, D: Text>(text: &T, place: u32, delimiter: &D) -> Reach
    requires { place ≤ length (T.bytes text.now) }
    ensures end { result.end ≡ place + delimited (D.bytes delimiter.now)
        (drop place (T.bytes text.now)) }
    ensures closed { result.closed ≡ delimited_closed (D.bytes delimiter.now)
        (drop place (T.bytes text.now)) }
{
    for end in place..text.len() {
        if stands_at(text, end, delimiter) {
            return Reach {
                end: end + delimiter.len(),
                closed: true,
            };
        }
    }
    Reach {
        end: text.len(),
        closed: false,
    }
}

/// Whether the delimiter stands at a place of the text.
fn stands_at<T: Text, D: Text>(text: &T, place: u32, delimiter: &D) -> bool
    requires { place ≤ length (T.bytes text.now) }
    ensures { result ≡ begins (D.bytes delimiter.now) (drop place (T.bytes text.now)) }
{
    delimiter.len() <= text.len() - place
        && (0..delimiter.len())
            .zip(place..text.len())
            .all(|(index, at)| delimiter.byte(index) == text.byte(at))
}
