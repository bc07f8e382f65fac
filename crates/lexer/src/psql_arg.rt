//! The arguments of psql commands: quotes, escapes, and where the arguments end.

ghost use Rattle.std.specs.Prelude.{◌≡◌, ◌+◌, true, if◌then◌else◌, drop, None};
ghost use Rattle.lexer.specs.Class.{hexadecimal};
ghost use Rattle.lexer.specs.PsqlArg.{after, after_escape, after_outside, after_quoted, arguments, hex_value, is_parenthesis, last_after, last_quoted, octal, options, outside, separates, stops, with_digit};

use crate::class::{Class, HexDigit, LineBlank};
use crate::cursor::run_end;
use text::Text;

/// Where a reader of arguments stands.
#[derive(Clone, Copy)]
pub(crate) enum ArgState {
    /// Outside quotes.
    Outside,
    /// After a single quote that closes, unless another follows: two stand for one.
    Closing,
    /// Within single quotes.
    Quoted,
    /// After a backslash there.
    Escape,
    /// After a backslash and one octal digit.
    OneOctalDigit,
    /// After a backslash and two.
    TwoOctalDigits,
    /// After `\x`.
    HexMark,
    /// After `\x` and one hexadecimal digit.
    OneHexDigit,
    /// Within double quotes.
    DoubleQuoted,
    /// Within backticks.
    Backquoted,
}

impl ArgState {
    /// Whether a backslash or a blank here ends something.
    fn is_outside(self) -> bool
        ensures { result ≡ outside self }
    {
        matches!(self, ArgState::Outside | ArgState::Closing)
    }

    /// Whether the arguments end before the byte.
    fn stops(self, byte: u8) -> bool
        ensures { result ≡ stops self byte }
    {
        match byte {
            b'\n' | b'\r' => true,
            b'\\' => self.is_outside(),
            _ => false,
        }
    }

    /// Whether the byte is a blank between arguments.
    fn ends_argument(self, byte: u8) -> bool
        ensures { result ≡ separates self byte }
    {
        self.is_outside() && LineBlank.has(byte)
    }

    /// The state after one more byte.
    fn after(self, byte: u8) -> ArgState
        ensures { result ≡ after self byte }
    {
        match self {
            ArgState::Outside | ArgState::Closing => after_outside(byte),
            ArgState::DoubleQuoted if byte == b'"' => ArgState::Outside,
            ArgState::Backquoted if byte == b'`' => ArgState::Outside,
            ArgState::DoubleQuoted | ArgState::Backquoted => self,
            ArgState::Escape => after_escape(byte),
            ArgState::OneOctalDigit if is_octal_digit(byte) => ArgState::TwoOctalDigits,
            ArgState::TwoOctalDigits if is_octal_digit(byte) => ArgState::Quoted,
            ArgState::HexMark if HexDigit.has(byte) => ArgState::OneHexDigit,
            ArgState::OneHexDigit if HexDigit.has(byte) => ArgState::Quoted,
            // Within single quotes, where an escape, if any, has ended before the byte.
            _ => after_quoted(byte),
        }
    }

    /// The last character of the argument's value after one more byte, where it was `last`. While
    /// digits of an escape are read it is the character that they stand for so far. `\n` and its
    /// kind stand for control characters; the letter serves as well, since all that is asked of the
    /// last character is whether it is a parenthesis.
    fn last_after(self, last: Option<u8>, byte: u8) -> Option<u8>
        ensures { result ≡ last_after self last byte }
    {
        match self {
            ArgState::Outside if byte == b'\'' => last,
            ArgState::Outside | ArgState::Closing | ArgState::DoubleQuoted => Some(byte),
            ArgState::Backquoted => None,
            ArgState::Escape if is_octal_digit(byte) => Some(byte - b'0'),
            ArgState::Escape => Some(byte),
            ArgState::OneOctalDigit | ArgState::TwoOctalDigits if is_octal_digit(byte) => {
                with_digit(last, 8, byte - b'0')
            }
            ArgState::HexMark if HexDigit.has(byte) => Some(hex_value(byte)),
            ArgState::OneHexDigit if HexDigit.has(byte) => with_digit(last, 16, hex_value(byte)),
            _ => last_quoted(last, byte),
        }
    }
}

/// Outside quotes each of the three quotes opens its own.
fn after_outside(byte: u8) -> ArgState
    ensures { result ≡ after_outside byte }
{
    match byte {
        b'\'' => ArgState::Quoted,
        b'"' => ArgState::DoubleQuoted,
        b'`' => ArgState::Backquoted,
        _ => ArgState::Outside,
    }
}

/// Within single quotes a quote closes, and a backslash takes the next character.
fn after_quoted(byte: u8) -> ArgState
    ensures { result ≡ after_quoted byte }
{
    match byte {
        b'\'' => ArgState::Closing,
        b'\\' => ArgState::Escape,
        _ => ArgState::Quoted,
    }
}

/// After that backslash octal digits, or an `x` and hexadecimal digits, stand for a character; any
/// other for itself.
fn after_escape(byte: u8) -> ArgState
    ensures { result ≡ after_escape byte }
{
    match byte {
        b'0'..=b'7' => ArgState::OneOctalDigit,
        b'x' => ArgState::HexMark,
        _ => ArgState::Quoted,
    }
}

/// Within single quotes a quote and a backslash stand for nothing yet.
fn last_quoted(last: Option<u8>, byte: u8) -> Option<u8>
    ensures { result ≡ last_quoted last byte }
{
    match byte {
        b'\'' | b'\\' => last,
        _ => Some(byte),
    }
}

/// The character that an escape stands for so far, with one more digit in a base. Where there is
/// none, the digit is the first.
fn with_digit(last: Option<u8>, base: u8, digit: u8) -> Option<u8>
    ensures { result ≡ with_digit last base digit }
{
    match last {
        Some(so_far) => Some(so_far.wrapping_mul(base).wrapping_add(digit)),
        None => Some(digit),
    }
}

/// Whether the last character is a closing parenthesis.
fn is_parenthesis(last: Option<u8>) -> bool
    ensures { result ≡ is_parenthesis last }
{
    matches!(last, Some(b')'))
}

fn is_octal_digit(byte: u8) -> bool
    ensures { result ≡ octal byte }
{
    matches!(byte, b'0'..=b'7')
}

/// What a hexadecimal digit counts.
fn hex_value(digit: u8) -> u8
    requires { hexadecimal digit ≡ true }
    ensures { result ≡ hex_value digit }
{
    match digit {
        b'0'..=b'9' => digit - b'0',
        b'A'..=b'F' => digit - b'A' + 10,
        _ => digit - b'a' + 10,
    }
}

/// Where the arguments end that begin at the place.
#[tactic(auto, using(crate::proofs::Turns::turns))]
pub(crate) fn arguments_end<T: Text>(text: &T, place: u32) -> u32
    ensures { result ≡ place + arguments ArgState.Outside (drop place (T.bytes text.now)) }
{
    let mut state = ArgState::Outside;
    let mut end = place;
    // The place is the answer, and the state goes on beside it.
    while let Some(byte) = text.byte(end) {
        if state.stops(byte) {
            break;
        }
        state = state.after(byte);
        end += 1;
    }
    end
}

/// Where the options of `\g (` end that begin at the place: with the blanks after the first
/// argument whose value ends with a parenthesis, or with the arguments.
#[tactic(auto, using(crate::proofs::Turns::turns))]
pub(crate) fn options_end<T: Text>(text: &T, place: u32) -> u32
    ensures { result ≡ place + options ArgState.Outside None (drop place (T.bytes text.now)) }
{
    let mut end = place;
    // Arguments outside, the bytes of one inside; the place is the answer of both.
    'options: loop {
        let mut state = ArgState::Outside;
        let mut last = None;
        loop {
            let Some(byte) = text.byte(end) else {
                break 'options;
            };
            if state.stops(byte) {
                break 'options;
            }
            if state.ends_argument(byte) {
                break;
            }
            last = state.last_after(last, byte);
            state = state.after(byte);
            end += 1;
        }
        end = run_end(text, end, &LineBlank);
        if is_parenthesis(last) {
            break 'options;
        }
    }
    end
}
