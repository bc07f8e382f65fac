//! One token after another.

ghost use Rattle.std.specs.Prelude.{◌≡◌, ◌+◌, ◌<◌, ◌≤◌, false, length, IfSome, MatchOption, slice_index};
ghost use Rattle.lexer.specs.Cursor.{Begun, Eats, rest};
ghost use Rattle.lexer.specs.AllLaws.{AllLaws};
ghost use Rattle.lexer.specs.Lex.{kind_of, marked, rest_len, start_with, token_at, token_from};
ghost use Rattle.lexer.specs.Token.{is_eof};

use crate::cursor::Cursor;
use crate::quoted::Prefix;
use crate::start::{Start, start_of};
use crate::token::{Token, TokenKind};
use text::Text;

impl<'a, T: Text> Cursor<'a, T> {
    /// The token that begins where the cursor stands; at the end, `Eof` of no bytes.
    fn advance_token(&mut self) -> Token
        requires { self.old.eaten ≡ 0 }
        ensures { result ≡ token_from (rest self.old) }
    {
        let Some(first_char) = self.bump() else {
            return Token {
                kind: TokenKind::Eof,
                len: 0,
            };
        };
        let start = start_of(first_char, self.first(), self.second());
        let kind = self.finish(start, first_char);
        Token {
            kind,
            len: self.pos_within_token(),
        }
    }

    /// Goes on after the first character of a token that starts so.
    fn finish(&mut self, start: Start, first_char: char) -> TokenKind
        requires begun { start ≡ start_with first_char (rest self.old) }
        requires first { Begun first_char self.old }
        ensures kind { result ≡ kind_of start first_char (rest self.old) }
        ensures moved { Eats (rest_len start first_char) self.old self.new }
    {
        match start {
            Start::Blanks => self.whitespace(),
            Start::Line => {
                self.bump();
                self.line_comment()
            }
            Start::Block => {
                self.bump();
                self.block_comment()
            }
            Start::Prefixed(prefix) => self.prefixed_string(prefix),
            Start::UnicodeStr => {
                self.bump();
                self.prefixed_string(Prefix::UnicodeEsc)
            }
            Start::UnicodeIdent => {
                self.bump();
                self.bump();
                self.quoted_ident(true)
            }
            Start::Word => self.ident(),
            Start::Digit => TokenKind::Literal {
                kind: self.number(first_char),
            },
            Start::Point => TokenKind::Literal {
                kind: self.eat_fractional(),
            },
            Start::TwoDots => {
                self.bump();
                TokenKind::DotDot
            }
            Start::Dollar => self.dollar(),
            Start::Command => self.psql_command(),
            Start::Quote => self.plain_string(),
            Start::DoubleQuote => self.quoted_ident(false),
            Start::Symbol(kind) => kind,
        }
    }
}

/// The token that begins at a place of the text, or none where the place is not below the length. A
/// byte-order mark at the very start is whitespace of its own.
pub fn token_at<T: Text>(text: &T, place: u32) -> Option<Token>
    ensures value { result ≡ token_at (T.bytes text.now) place }
    ensures inside { MatchOption result (length (T.bytes text.now) ≤ place)
        (λ t. (0 < t.len) × (place + t.len ≤ length (T.bytes text.now))) }
    ensures laws { AllLaws }
    ensures real { IfSome result (λ t. is_eof t.kind ≡ false) }
{
    if place == 0 && starts_with_mark(text) {
        return Some(Token {
            kind: TokenKind::Whitespace,
            len: 3,
        });
    }
    if place >= text.len() {
        return None;
    }
    Some(Cursor::new(text, place).advance_token())
}

/// Whether the text starts with a byte-order mark.
fn starts_with_mark<T: Text>(text: &T) -> bool
    ensures { result ≡ marked (T.bytes text.now) }
{
    matches!(
        (text.byte(0), text.byte(1), text.byte(2)),
        (Some(0xef), Some(0xbb), Some(0xbf))
    )
}
