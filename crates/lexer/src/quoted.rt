//! Quoted strings and names, with and without a prefix.

ghost use Rattle.std.specs.Prelude.{◌≡◌, ◌+◌, false, drop};
ghost use Rattle.lexer.specs.Byte.{byte};
ghost use Rattle.lexer.specs.Cursor.{Eats, Moved, peek, rest};
ghost use Rattle.lexer.specs.Quoted.{has_escapes, prefix_literal, quoted, quoted_closed};

use crate::cursor::{Cursor, Reach};
use crate::token::{LiteralKind, TokenKind};
use text::Text;

/// What a letter, or `U&`, directly before a quote makes of a string.
#[derive(Clone, Copy)]
pub(crate) enum Prefix {
    /// `E`: an escape string.
    Esc,
    /// `B`: a bit string.
    Bit,
    /// `X`: a bit string in hexadecimal.
    Byte,
    /// `N`: a national character string.
    National,
    /// `U&`: a string with Unicode escapes.
    UnicodeEsc,
}

impl Prefix {
    fn literal(self, terminated: bool) -> LiteralKind
        ensures { result ≡ prefix_literal self terminated }
    {
        match self {
            Prefix::Esc => LiteralKind::EscStr { terminated },
            Prefix::Bit => LiteralKind::BitStr { terminated },
            Prefix::Byte => LiteralKind::ByteStr { terminated },
            Prefix::National => LiteralKind::NationalStr { terminated },
            Prefix::UnicodeEsc => LiteralKind::UnicodeEscStr { terminated },
        }
    }

    /// Only in an escape string does a backslash take the next character.
    fn backslash_escapes(self) -> bool
        ensures { result ≡ has_escapes self }
    {
        matches!(self, Prefix::Esc)
    }
}

impl<'a, T: Text> Cursor<'a, T> {
    /// Goes on after the prefix: the quote, and the string that it opens.
    pub(crate) fn prefixed_string(&mut self, prefix: Prefix) -> TokenKind
        requires { peek 0 (rest self.old) ≡ byte "'" }
        ensures kind { result ≡ TokenKind.Literal (prefix_literal prefix
            (quoted_closed (byte "'") (has_escapes prefix) (drop 1 (rest self.old)))) }
        ensures moved { Moved self.old self.new
            (1 + quoted (byte "'") (has_escapes prefix) (drop 1 (rest self.old))) }
    {
        self.bump();
        let terminated = self.single_quoted_string(prefix.backslash_escapes());
        TokenKind::Literal {
            kind: prefix.literal(terminated),
        }
    }

    /// Goes on after the `'` of a string without a prefix.
    pub(crate) fn plain_string(&mut self) -> TokenKind
        ensures kind { result
            ≡ TokenKind.Literal (LiteralKind.Str (quoted_closed (byte "'") false (rest self.old))) }
        ensures moved { Eats (quoted (byte "'") false) self.old self.new }
    {
        let terminated = self.single_quoted_string(false);
        TokenKind::Literal {
            kind: LiteralKind::Str { terminated },
        }
    }

    /// Goes on after the `"` of a name.
    pub(crate) fn quoted_ident(&mut self, uescape: bool) -> TokenKind
        ensures kind { result
            ≡ TokenKind.QuotedIdent (quoted_closed (byte "\"") false (rest self.old)) uescape }
        ensures moved { Eats (quoted (byte "\"") false) self.old self.new }
    {
        let terminated = self.double_quoted_string();
        TokenKind::QuotedIdent {
            terminated,
            uescape,
        }
    }

    /// Goes on after a `'`. Says whether the string is terminated.
    fn single_quoted_string(&mut self, backslash_escapes: bool) -> bool
        ensures closed { result ≡ quoted_closed (byte "'") backslash_escapes (rest self.old) }
        ensures moved { Eats (quoted (byte "'") backslash_escapes) self.old self.new }
    {
        self.pass(quoted_end(self.text(), self.place(), b'\'', backslash_escapes))
    }

    /// Goes on after a `"`. Says whether the name is terminated.
    fn double_quoted_string(&mut self) -> bool
        ensures closed { result ≡ quoted_closed (byte "\"") false (rest self.old) }
        ensures moved { Eats (quoted (byte "\"") false) self.old self.new }
    {
        self.pass(quoted_end(self.text(), self.place(), b'"', false))
    }
}

/// Where the body ends whose opening quote ends at the place: after its closing quote, or with the text. And whether it
/// is closed. A doubled quote is part of the body, and where there are escapes a backslash takes the next character.
#[tactic(auto, using(crate::proofs::Quotes::quote_turns))]
fn quoted_end<T: Text>(text: &T, place: u32, quote: u8, escapes: bool) -> Reach
    ensures end { result.end ≡ place + quoted quote escapes (drop place (T.bytes text.now)) }
    ensures closed { result.closed ≡ quoted_closed quote escapes (drop place (T.bytes text.now)) }
{
    let mut end = place;
    // A turn takes one byte or two, and the place is the answer.
    while let Some(byte) = text.byte(end) {
        end += 1;
        if byte == quote {
            if text.byte(end) != Some(quote) {
                return Reach { end, closed: true };
            }
            end += 1;
        } else if escapes && byte == b'\\' && end < text.len() {
            end += 1;
        }
    }
    Reach { end, closed: false }
}
