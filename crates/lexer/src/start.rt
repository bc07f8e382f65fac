//! How a token starts.

ghost use Rattle.lexer.specs.Start.{plain_start, quoted_start, start_of, symbol, unicode_start};
ghost use Rattle.std.specs.Prelude.{◌≡◌};

use crate::quoted::Prefix;
use crate::token::TokenKind;

/// What starts with a token's first character, as far as it and the next two tell. Nothing is read by it:
/// the proofs of what is read go by its cases.
#[derive(Clone, Copy)]
pub(crate) enum Start {
    /// Whitespace.
    Blanks,
    /// `--`
    Line,
    /// `/*`
    Block,
    /// A letter directly before a `'`.
    Prefixed(Prefix),
    /// `U&'`
    UnicodeStr,
    /// `U&"`
    UnicodeIdent,
    /// A key word or a name.
    Word,
    /// A digit.
    Digit,
    /// A point before a digit.
    Point,
    /// `..`
    TwoDots,
    /// `$`
    Dollar,
    /// `\`
    Command,
    /// `'`
    Quote,
    /// `"`
    DoubleQuote,
    /// A character that is a token of its own.
    Symbol(TokenKind),
}

/// The first character decides, at times with the next ones. Past the end stands `'\0'`.
pub(crate) fn start_of(first: char, next: char, after: char) -> Start
    ensures { result ≡ start_of first next after }
{
    match first {
        '/' if next == '*' => Start::Block,
        '-' if next == '-' => Start::Line,
        '.' if next == '.' => Start::TwoDots,
        '.' if next.is_ascii_digit() => Start::Point,
        'u' | 'U' if next == '&' => unicode_start(after),
        _ if next == '\'' => quoted_start(first),
        _ => plain_start(first),
    }
}

/// What starts with `U&`.
fn unicode_start(after: char) -> Start
    ensures { result ≡ unicode_start after }
{
    match after {
        '\'' => Start::UnicodeStr,
        '"' => Start::UnicodeIdent,
        _ => Start::Word,
    }
}

/// What starts with a character directly before a `'`.
fn quoted_start(c: char) -> Start
    ensures { result ≡ quoted_start c }
{
    match c {
        'e' | 'E' => Start::Prefixed(Prefix::Esc),
        'b' | 'B' => Start::Prefixed(Prefix::Bit),
        'x' | 'X' => Start::Prefixed(Prefix::Byte),
        'n' | 'N' => Start::Prefixed(Prefix::National),
        _ => plain_start(c),
    }
}

/// What starts with a character whatever follows it.
#[tactic(auto, unfolding(crate::specs::Start::plain_start))]
fn plain_start(c: char) -> Start
    ensures { result ≡ plain_start c }
{
    match c {
        ' ' | '\t' | '\n' | '\u{b}' | '\u{c}' | '\r' => Start::Blanks,
        'a'..='z' | 'A'..='Z' | '_' | '\u{80}'..='\u{10ffff}' => Start::Word,
        '0'..='9' => Start::Digit,
        '$' => Start::Dollar,
        '\\' => Start::Command,
        '\'' => Start::Quote,
        '"' => Start::DoubleQuote,
        _ => Start::Symbol(symbol(c)),
    }
}

/// The kinds of one character.
fn symbol(c: char) -> TokenKind
    ensures { result ≡ symbol c }
{
    match c {
        ';' => TokenKind::Semi,
        ',' => TokenKind::Comma,
        '(' => TokenKind::OpenParen,
        ')' => TokenKind::CloseParen,
        '[' => TokenKind::OpenBracket,
        ']' => TokenKind::CloseBracket,
        '{' => TokenKind::OpenCurly,
        '}' => TokenKind::CloseCurly,
        '@' => TokenKind::At,
        '#' => TokenKind::Pound,
        '~' => TokenKind::Tilde,
        '?' => TokenKind::Question,
        ':' => TokenKind::Colon,
        '.' => TokenKind::Dot,
        '/' => TokenKind::Slash,
        '-' => TokenKind::Minus,
        '`' => TokenKind::Backtick,
        '=' => TokenKind::Eq,
        '!' => TokenKind::Bang,
        '<' => TokenKind::Lt,
        '>' => TokenKind::Gt,
        '&' => TokenKind::And,
        '|' => TokenKind::Or,
        '+' => TokenKind::Plus,
        '*' => TokenKind::Star,
        '^' => TokenKind::Caret,
        '%' => TokenKind::Percent,
        _ => TokenKind::Unknown,
    }
}
