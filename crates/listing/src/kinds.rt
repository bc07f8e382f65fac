//! The kinds of tokens as a line shows them.

ghost use Rattle.listing.specs.Kinds.{flag, kind_bytes, literal_bytes};
ghost use Rattle.std.specs.Fmt.{WritesOnOk};
ghost use Rattle.std.specs.Prelude.{◌≡◌, ◌++◌, Some};

use lexer::token::{LiteralKind, TokenKind};
use std::fmt;

/// A token's kind: its name, and its fields in the order of their declaration, yes as 1, no as 0 and a number that is
/// not there as `-`. A literal goes by its own kind. It is lent: a copy for each line costs time.
#[derive(Clone, Copy)]
pub(crate) struct Shown<'a> {
    pub(crate) kind: &'a TokenKind,
}

/// A literal's kind, as `Shown`.
#[derive(Clone, Copy)]
struct ShownLiteral<'a> {
    kind: &'a LiteralKind,
}

/// A flag after a blank, yes as 1 and no as 0.
fn one_if(set: bool) -> &'static str
    ensures { result.now ≡ flag set }
{
    if set { " 1" } else { " 0" }
}

/// Writes a name and a flag piece by piece: a `write!` within the line's own takes longer.
fn write_flagged<W: fmt::Write>(f: &mut fmt::Formatter<W>, name: &str, set: bool) -> fmt::Result
    ensures { WritesOnOk W.write_str_gives f.old result (name.now ++ flag set) f.new }
{
    f.write_str(name)?;
    f.write_str(one_if(set))
}

impl<'a> fmt::Display for ShownLiteral<'a> {
    ghost output = { λ x. Some (literal_bytes x.kind.now) };

    fn fmt<W: fmt::Write>(&self, f: &mut fmt::Formatter<W>) -> fmt::Result {
        match *self.kind {
            LiteralKind::Int {
                base,
                empty_int,
                trailing_junk_start,
            } => write!(
                f,
                "Int {}{} {trailing_junk_start}",
                base.number(),
                one_if(empty_int)
            ),
            LiteralKind::Numeric {
                empty_exponent_start: Some(start),
                trailing_junk_start,
            } => write!(f, "Numeric {start} {trailing_junk_start}"),
            LiteralKind::Numeric {
                empty_exponent_start: None,
                trailing_junk_start,
            } => write!(f, "Numeric - {trailing_junk_start}"),
            LiteralKind::Str { terminated } => write_flagged(f, "Str", terminated),
            LiteralKind::NationalStr { terminated } => write_flagged(f, "NationalStr", terminated),
            LiteralKind::ByteStr { terminated } => write_flagged(f, "ByteStr", terminated),
            LiteralKind::BitStr { terminated } => write_flagged(f, "BitStr", terminated),
            LiteralKind::DollarQuotedString { terminated } => write_flagged(
                f,
                "DollarQuotedString",
                terminated,
            ),
            LiteralKind::UnicodeEscStr { terminated } => write_flagged(
                f,
                "UnicodeEscStr",
                terminated,
            ),
            LiteralKind::EscStr { terminated } => write_flagged(f, "EscStr", terminated),
        }
    }
}

impl<'a> fmt::Display for Shown<'a> {
    ghost output = { λ x. Some (kind_bytes x.kind.now) };

    fn fmt<W: fmt::Write>(&self, f: &mut fmt::Formatter<W>) -> fmt::Result {
        match *self.kind {
            TokenKind::Unknown => f.write_str("Unknown"),
            TokenKind::Literal { ref kind } => ShownLiteral { kind }.fmt(f),
            TokenKind::Whitespace => f.write_str("Whitespace"),
            TokenKind::Ident => f.write_str("Ident"),
            TokenKind::PsqlCommand { ends_query } => write_flagged(f, "PsqlCommand", ends_query),
            TokenKind::Semi => f.write_str("Semi"),
            TokenKind::Eof => f.write_str("Eof"),
            TokenKind::Slash => f.write_str("Slash"),
            TokenKind::LineComment => f.write_str("LineComment"),
            TokenKind::BlockComment { terminated } => write_flagged(f, "BlockComment", terminated),
            TokenKind::Minus => f.write_str("Minus"),
            TokenKind::Colon => f.write_str("Colon"),
            TokenKind::Dot => f.write_str("Dot"),
            TokenKind::DotDot => f.write_str("DotDot"),
            TokenKind::Eq => f.write_str("Eq"),
            TokenKind::Gt => f.write_str("Gt"),
            TokenKind::And => f.write_str("And"),
            TokenKind::Lt => f.write_str("Lt"),
            TokenKind::Bang => f.write_str("Bang"),
            TokenKind::Plus => f.write_str("Plus"),
            TokenKind::Tilde => f.write_str("Tilde"),
            TokenKind::Pound => f.write_str("Pound"),
            TokenKind::Question => f.write_str("Question"),
            TokenKind::Or => f.write_str("Or"),
            TokenKind::Percent => f.write_str("Percent"),
            TokenKind::Caret => f.write_str("Caret"),
            TokenKind::Star => f.write_str("Star"),
            TokenKind::Backtick => f.write_str("Backtick"),
            TokenKind::At => f.write_str("At"),
            TokenKind::CloseBracket => f.write_str("CloseBracket"),
            TokenKind::OpenBracket => f.write_str("OpenBracket"),
            TokenKind::CloseCurly => f.write_str("CloseCurly"),
            TokenKind::OpenCurly => f.write_str("OpenCurly"),
            TokenKind::CloseParen => f.write_str("CloseParen"),
            TokenKind::OpenParen => f.write_str("OpenParen"),
            TokenKind::Comma => f.write_str("Comma"),
            TokenKind::PositionalParam {
                trailing_junk_start,
            } => write!(f, "PositionalParam {trailing_junk_start}"),
            TokenKind::QuotedIdent {
                terminated,
                uescape,
            } => {
                write_flagged(f, "QuotedIdent", terminated)?;
                f.write_str(one_if(uescape))
            }
        }
    }
}
