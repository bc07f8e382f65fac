//! Classes of characters: what a run of characters is made of.
//!
//! A class is asked about bytes. A byte from 128 on stands for the character that it is a part of: each
//! class below holds all of these bytes or none, so that a run never stops inside a character.

ghost use Rattle.std.specs.Prelude.{◌≡◌, ℕ, Bool, false, refl};
ghost use Rattle.lexer.specs.Byte.{byte};
ghost use Rattle.lexer.specs.Class.{all_but, command_letter, decimal, hexadecimal, ident_cont, ident_start, line_blank, tag_cont, whitespace};

/// A class says of each character whether it belongs.
pub(crate) trait Class {
    ghost holds: { Self → ℕ → Bool };

    fn has(&self, byte: u8) -> bool
        ensures { result ≡ holds self.now byte };
}

/// Space, tab, line feed, vertical tab, form feed, carriage return.
#[derive(Clone, Copy)]
pub(crate) struct Whitespace;

impl Class for Whitespace {
    ghost holds = { λ _. whitespace };

    fn has(&self, byte: u8) -> bool {
        is_whitespace(byte)
    }
}

/// Whitespace that does not end a line.
#[derive(Clone, Copy)]
pub(crate) struct LineBlank;

impl Class for LineBlank {
    ghost holds = { λ _. line_blank };

    fn has(&self, byte: u8) -> bool {
        is_whitespace(byte) && !matches!(byte, b'\n' | b'\r')
    }
}

/// What the word of a psql command is made of: any character but whitespace and the backslash.
#[derive(Clone, Copy)]
pub(crate) struct CommandLetter;

impl Class for CommandLetter {
    ghost holds = { λ _. command_letter };

    fn has(&self, byte: u8) -> bool {
        !is_whitespace(byte) && byte != b'\\'
    }
}

/// What may follow the first character of an identifier.
#[derive(Clone, Copy)]
pub(crate) struct IdentCont;

impl Class for IdentCont {
    ghost holds = { λ _. ident_cont };

    fn has(&self, byte: u8) -> bool {
        is_ident_cont(byte)
    }
}

/// What an identifier may start with.
#[derive(Clone, Copy)]
pub(crate) struct IdentStart;

impl Class for IdentStart {
    ghost holds = { λ _. ident_start };

    fn has(&self, byte: u8) -> bool {
        is_ident_start(byte)
    }
}

/// What the tag of a dollar quote is made of: an identifier without dollar signs.
#[derive(Clone, Copy)]
pub(crate) struct TagCont;

impl Class for TagCont {
    ghost holds = { λ _. tag_cont };

    fn has(&self, byte: u8) -> bool {
        is_ident_cont(byte) && byte != b'$'
    }
}

/// Any character but the two named ones, which are ASCII: the complement of what a search looks for.
#[derive(Clone, Copy)]
pub(crate) struct AllBut(pub u8, pub u8);

impl Class for AllBut {
    ghost holds = { λ c. all_but c.0 c.1 };

    fn has(&self, byte: u8) -> bool {
        byte != self.0 && byte != self.1
    }
}

/// A class of digits. It does not hold the underscore, which may stand between two digits.
pub(crate) trait DigitClass: Class {
    ghost bare: { (c : Self) → Self.holds c (byte "_") ≡ false };
}

/// 0 to 9.
#[derive(Clone, Copy)]
pub(crate) struct DecimalDigit;

impl Class for DecimalDigit {
    ghost holds = { λ _. decimal };

    fn has(&self, byte: u8) -> bool {
        byte.is_ascii_digit()
    }
}

impl DigitClass for DecimalDigit {
    ghost bare = { λ _. refl };
}

/// 0 to 9, a to f, A to F.
#[derive(Clone, Copy)]
pub(crate) struct HexDigit;

impl Class for HexDigit {
    ghost holds = { λ _. hexadecimal };

    fn has(&self, byte: u8) -> bool {
        byte.is_ascii_hexdigit()
    }
}

impl DigitClass for HexDigit {
    ghost bare = { λ _. refl };
}

pub(crate) fn is_whitespace(byte: u8) -> bool
    ensures { result ≡ whitespace byte }
{
    matches!(byte, b' ' | b'\t' | b'\n' | 0x0b | 0x0c | b'\r')
}

/// A letter, an underscore or a character beyond ASCII starts an identifier.
pub(crate) fn is_ident_start(byte: u8) -> bool
    ensures { result ≡ ident_start byte }
{
    is_ident_cont(byte) && !byte.is_ascii_digit() && byte != b'$'
}

/// A letter, a digit, an underscore, a dollar sign or a character beyond ASCII goes on with one.
pub(crate) fn is_ident_cont(byte: u8) -> bool
    ensures { result ≡ ident_cont byte }
{
    IDENT_CONT[byte as usize]
}

const T: bool = true;

const F: bool = false;

/// Whether each byte goes on with an identifier: sixteen rows of sixteen.
#[rattlefmt::skip]
const IDENT_CONT: [bool; 256] = [
    F, F, F, F, F, F, F, F, F, F, F, F, F, F, F, F,
    F, F, F, F, F, F, F, F, F, F, F, F, F, F, F, F,
    F, F, F, F, T, F, F, F, F, F, F, F, F, F, F, F,
    T, T, T, T, T, T, T, T, T, T, F, F, F, F, F, F,
    F, T, T, T, T, T, T, T, T, T, T, T, T, T, T, T,
    T, T, T, T, T, T, T, T, T, T, T, F, F, F, F, T,
    F, T, T, T, T, T, T, T, T, T, T, T, T, T, T, T,
    T, T, T, T, T, T, T, T, T, T, T, F, F, F, F, F,
    T, T, T, T, T, T, T, T, T, T, T, T, T, T, T, T,
    T, T, T, T, T, T, T, T, T, T, T, T, T, T, T, T,
    T, T, T, T, T, T, T, T, T, T, T, T, T, T, T, T,
    T, T, T, T, T, T, T, T, T, T, T, T, T, T, T, T,
    T, T, T, T, T, T, T, T, T, T, T, T, T, T, T, T,
    T, T, T, T, T, T, T, T, T, T, T, T, T, T, T, T,
    T, T, T, T, T, T, T, T, T, T, T, T, T, T, T, T,
    T, T, T, T, T, T, T, T, T, T, T, T, T, T, T, T,
];
