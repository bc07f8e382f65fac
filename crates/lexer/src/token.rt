//! The tokens of SQL: what they are and how long. Kinds and fields are those of squawk-lexer's `token`.

ghost use Rattle.lexer.specs.Token.{base_number};
ghost use Rattle.std.specs.Prelude.{◌≡◌};

/// What a token is.
#[derive(Clone, Copy, PartialEq, Eq, Debug)]
pub enum TokenKind {
    /// A character that starts no other token.
    Unknown,
    /// A constant: a number or a string.
    Literal { kind: LiteralKind },
    /// Blanks, tabs, line ends, vertical tabs and form feeds, or a byte-order mark at the very start.
    Whitespace,
    /// A key word or a name without quotes.
    Ident,
    /// A psql command, from its backslash to the end of its arguments, or `\\`.
    PsqlCommand { ends_query: bool },
    /// `;`, or `\;`, which ends no statement.
    Semi,
    /// The end of the text. It is never handed out.
    Eof,
    /// `/`
    Slash,
    /// `--` and what follows on its line.
    LineComment,
    /// `/* .. */`, with comments of its kind inside.
    BlockComment { terminated: bool },
    /// `-`
    Minus,
    /// `:`, or `\:`
    Colon,
    /// `.`
    Dot,
    /// `..`
    DotDot,
    /// `=`
    Eq,
    /// `>`
    Gt,
    /// `&`
    And,
    /// `<`
    Lt,
    /// `!`
    Bang,
    /// `+`
    Plus,
    /// `~`
    Tilde,
    /// `#`
    Pound,
    /// `?`
    Question,
    /// `|`
    Or,
    /// `%`
    Percent,
    /// `^`
    Caret,
    /// `*`
    Star,
    /// A backtick.
    Backtick,
    /// `@`
    At,
    /// `]`
    CloseBracket,
    /// `[`
    OpenBracket,
    /// `}`
    CloseCurly,
    /// `{`
    OpenCurly,
    /// `)`
    CloseParen,
    /// `(`
    OpenParen,
    /// `,`
    Comma,
    /// A parameter, as `$1`; what stands after its digits without a break is junk.
    PositionalParam { trailing_junk_start: u32 },
    /// A name in double quotes; `uescape` is set after `U&`.
    QuotedIdent { terminated: bool, uescape: bool },
}

/// What a constant is. Offsets count in bytes from the token's start.
#[derive(Clone, Copy, PartialEq, Eq, Debug)]
pub enum LiteralKind {
    /// A whole number. `empty_int` is set where neither digit nor junk follows the prefix.
    Int {
        base: Base,
        empty_int: bool,
        trailing_junk_start: u32,
    },
    /// A number with a point or an exponent; `empty_exponent_start` is where an exponent without digits begins.
    Numeric {
        empty_exponent_start: Option<u32>,
        trailing_junk_start: u32,
    },
    /// `'..'`
    Str {
        terminated: bool,
    },
    /// `N'..'`
    NationalStr {
        terminated: bool,
    },
    /// `X'..'`
    ByteStr {
        terminated: bool,
    },
    /// `B'..'`
    BitStr {
        terminated: bool,
    },
    /// `$tag$..$tag$`
    DollarQuotedString {
        terminated: bool,
    },
    /// `U&'..'`
    UnicodeEscStr {
        terminated: bool,
    },
    /// `E'..'`
    EscStr {
        terminated: bool,
    },
}

/// The base of a whole number, by its prefix.
#[derive(Clone, Copy, PartialEq, Eq, Debug)]
pub enum Base {
    /// `0b`
    Binary = 2,
    /// `0o`
    Octal = 8,
    /// no prefix
    Decimal = 10,
    /// `0x`
    Hexadecimal = 16,
}

/// A token is its kind and its length in bytes, and nothing else.
#[derive(Clone, Copy, PartialEq, Eq, Debug)]
pub struct Token {
    pub kind: TokenKind,
    pub len: u32,
}

impl Base {
    /// The base as a number.
    pub fn number(self) -> u8
        ensures { result ≡ base_number self }
    {
        self as u8
    }
}
