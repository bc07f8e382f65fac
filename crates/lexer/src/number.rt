//! Numbers. Offsets count from the token's start.

ghost use Rattle.std.specs.Prelude.{◌≡◌, ◌+◌, ◌-◌, ◌≤◌, not, ◌&&◌, ◌==◌};
ghost use Rattle.lexer.specs.Byte.{byte};
ghost use Rattle.lexer.specs.Cursor.{Eats, rest};
ghost use Rattle.lexer.specs.Number.{after_digits, after_digits_len, base_of, based, based_len, decimal_len, decimal_number, empty_exponent, exponent, exponent_digits, exponent_mark, exponent_tail, fractional, fractional_len, number, number_len, numeric, numeric_len, sign};

use crate::class::{DecimalDigit, DigitClass, HexDigit};
use crate::cursor::Cursor;
use crate::token::{Base, LiteralKind};
use text::Text;

impl<'a, T: Text> Cursor<'a, T> {
    /// Goes on after the first digit of a number.
    pub(crate) fn number(&mut self, first_digit: char) -> LiteralKind
        ensures kind { result ≡ number first_digit self.old.eaten (rest self.old) }
        ensures moved { Eats (number_len first_digit) self.old self.new }
    {
        let base = base_of(first_digit, self.first());
        match base {
            Base::Binary | Base::Octal => {
                self.bump();
                self.based_int(base, &DecimalDigit)
            }
            Base::Hexadecimal => {
                self.bump();
                self.based_int(base, &HexDigit)
            }
            Base::Decimal => self.decimal_number(),
        }
    }

    /// Goes on after the prefix of a base: the digits and the junk.
    fn based_int<C: DigitClass>(&mut self, base: Base, class: &C) -> LiteralKind
        ensures kind { result ≡ based base (C.holds class.now) self.old.eaten (rest self.old) }
        ensures moved { Eats (based_len (C.holds class.now)) self.old self.new }
    {
        let has_digits = self.eat_digits(class);
        let trailing_junk_start = self.pos_within_token();
        self.eat_identifier();
        let empty_int = !has_digits && self.pos_within_token() == trailing_junk_start;
        LiteralKind::Int {
            base,
            empty_int,
            trailing_junk_start,
        }
    }

    /// The digits after the first, and what follows them.
    fn decimal_number(&mut self) -> LiteralKind
        ensures kind { result ≡ decimal_number self.old.eaten (rest self.old) }
        ensures moved { Eats decimal_len self.old self.new }
    {
        self.eat_digits(&DecimalDigit);
        self.after_digits()
    }

    /// What follows the digits before a point: the point and the rest, an exponent, or junk.
    fn after_digits(&mut self) -> LiteralKind
        ensures kind { result ≡ after_digits self.old.eaten (rest self.old) }
        ensures moved { Eats after_digits_len self.old self.new }
    {
        if is_point(self.first(), self.second()) {
            self.bump();
            return self.eat_fractional();
        }
        if is_exponent_mark(self.first()) {
            return self.eat_numeric();
        }
        let trailing_junk_start = self.pos_within_token();
        self.eat_identifier();
        LiteralKind::Int {
            base: Base::Decimal,
            empty_int: false,
            trailing_junk_start,
        }
    }

    /// Goes on after the point of a number.
    pub(crate) fn eat_fractional(&mut self) -> LiteralKind
        ensures kind { result ≡ fractional self.old.eaten (rest self.old) }
        ensures moved { Eats fractional_len self.old self.new }
    {
        if self.first().is_ascii_digit() {
            self.eat_digits(&DecimalDigit);
        }
        self.eat_numeric()
    }

    /// The exponent, if there is one, and the junk of a number that has a point or an exponent.
    fn eat_numeric(&mut self) -> LiteralKind
        ensures kind { result ≡ numeric self.old.eaten (rest self.old) }
        ensures moved { Eats numeric_len self.old self.new }
    {
        let empty_exponent_start = self.eat_exponent();
        let trailing_junk_start = self.pos_within_token();
        self.eat_identifier();
        LiteralKind::Numeric {
            empty_exponent_start,
            trailing_junk_start,
        }
    }

    /// Eats an exponent, if there is one, and says where it begins if it has no digits.
    fn eat_exponent(&mut self) -> Option<u32>
        ensures value { result ≡ empty_exponent self.old.eaten (rest self.old) }
        ensures moved { Eats exponent self.old self.new }
    {
        if !is_exponent_mark(self.first()) {
            return None;
        }
        let exponent_start = self.pos_within_token();
        self.bump();
        if self.eat_numeric_exponent() {
            None
        } else {
            Some(exponent_start)
        }
    }

    /// Goes on after the `e` of an exponent, and says whether there are digits. A sign is eaten only before one.
    fn eat_numeric_exponent(&mut self) -> bool
        ensures digits { result ≡ exponent_digits (rest self.old) }
        ensures moved { Eats exponent_tail self.old self.new }
    {
        if !self.exponent_has_digits() {
            return false;
        }
        if is_sign(self.first()) {
            self.bump();
        }
        self.eat_digits(&DecimalDigit);
        true
    }

    fn exponent_has_digits(&self) -> bool
        ensures { result ≡ exponent_digits (rest self.now) }
    {
        if is_sign(self.first()) {
            self.second().is_ascii_digit()
        } else {
            self.first().is_ascii_digit()
        }
    }
}

/// Whether the first is a point of a number: `1..10` is 1, .. and 10.
fn is_point(first: char, second: char) -> bool
    ensures { result ≡ (first == byte "." && not (second == byte ".")) }
{
    first == '.' && second != '.'
}

fn is_exponent_mark(c: char) -> bool
    ensures { result ≡ exponent_mark c }
{
    matches!(c, 'e' | 'E')
}

fn is_sign(c: char) -> bool
    ensures { result ≡ sign c }
{
    matches!(c, '-' | '+')
}

/// The base that a number's first two characters name.
fn base_of(first_digit: char, next: char) -> Base
    ensures { result ≡ base_of first_digit next }
{
    match (first_digit, next) {
        ('0', 'b' | 'B') => Base::Binary,
        ('0', 'o' | 'O') => Base::Octal,
        ('0', 'x' | 'X') => Base::Hexadecimal,
        _ => Base::Decimal,
    }
}
