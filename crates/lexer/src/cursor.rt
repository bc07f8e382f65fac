//! The cursor: a place in a text, which eats the characters of one token after another.

ghost use Rattle.std.specs.Prelude.{◌≡◌, ℕ, ◌+◌, ◌-◌, ◌<◌, ◌≤◌, ◌&&◌, length, drop, ◌==◌};
ghost use Rattle.lexer.specs.Byte.{byte};
ghost use Rattle.lexer.specs.Class.{all_but, ident_cont, whitespace};
ghost use Rattle.lexer.specs.Cursor.{Eats, Moved, at_end, digit_met, digits, identifier, leads, next_len, opened, peek, rest, run};
ghost use Rattle.std.specs.List.{slice_get};

use crate::class::{AllBut, Class, DigitClass, IdentCont, IdentStart, Whitespace};
use crate::token::TokenKind;
use std::marker::Model;
use text::Text;

/// A place in a text, and where the token that is being read began.
#[derive(Drop)]
pub(crate) struct Cursor<'a, T: Text> {
    text: &'a T,
    start: u32,
    place: u32,
}

/// Where something ends that is closed by a mark of its own, or by the end of the text; and which of the two it is.
#[derive(Clone, Copy)]
pub(crate) struct Reach {
    pub(crate) end: u32,
    pub(crate) closed: bool,
}

/// What stands for a character past the end, as in the Rust's cursor. A text may hold it too: `is_eof`
/// tells the two apart.
pub(crate) const EOF_CHAR: char = '\0';

impl<'a, T: Text> Model for Cursor<'a, T> {
    ghost use Rattle.std.specs.Prelude.{◌-◌, ◌≤◌};
    ghost use Rattle.lexer.specs.Cursor.{Spot};

    ghost Value = { Spot };

    ghost view = { λ c.
        record { text = T.bytes c.text.now; place = c.place; eaten = c.place - c.start } };

    ghost invariant = { λ c. c.start ≤ c.place };
}

impl<'a, T: Text> Cursor<'a, T> {
    /// A cursor at a place, where a token begins.
    pub(crate) fn new(text: &'a T, place: u32) -> Cursor<'a, T>
        ensures { result ≡ opened (T.bytes text.now) place }
    {
        Cursor {
            text,
            start: place,
            place,
        }
    }

    /// The next character, which stays where it is.
    pub(crate) fn first(&self) -> char
        ensures { result ≡ peek 0 (rest self.now) }
    {
        self.peek_char(0)
    }

    /// The character after the next.
    pub(crate) fn second(&self) -> char
        ensures { result ≡ peek 1 (rest self.now) }
    {
        self.peek_char(1)
    }

    #[tactic(auto, using(crate::proofs::Turns::peek_at))]
    fn peek_char(&self, ahead: u32) -> char
        ensures { result ≡ peek ahead (rest self.now) }
    {
        self.byte_ahead(ahead).map_or(EOF_CHAR, char::from)
    }

    fn byte_ahead(&self, ahead: u32) -> Option<u8>
        ensures { result ≡ slice_get (rest self.now) ahead }
    {
        let place = self.place.checked_add(ahead)?;
        self.text.byte(place)
    }

    /// Whether the next character belongs to the class.
    pub(crate) fn next_in<C: Class>(&self, class: &C) -> bool
        ensures { result ≡ leads (C.holds class.now) (rest self.now) }
    {
        self.byte_ahead(0).is_some_and(|byte| class.has(byte))
    }

    /// The character after the longest run of characters of the class.
    pub(crate) fn char_after_run<C: Class>(&self, class: &C) -> char
        ensures { result ≡ peek (run (C.holds class.now) (rest self.now)) (rest self.now) }
    {
        let end = run_end(self.text(), self.place(), class);
        self.peek_char(end - self.place())
    }

    /// Whether nothing follows.
    pub(crate) fn is_eof(&self) -> bool
        ensures { result ≡ at_end (rest self.now) }
    {
        self.byte_ahead(0).is_none()
    }

    /// The text that it reads.
    pub(crate) fn text(&self) -> &'a T
        ensures { T.bytes result.now ≡ self.now.text }
    {
        self.text
    }

    /// Goes on to a place.
    pub(crate) fn move_to(&mut self, place: u32)
        requires { self.old.place ≤ place }
        ensures { Moved self.old self.new (place - self.old.place) }
    {
        self.place = place;
    }

    /// Goes on to where something ends, and says whether it is closed.
    pub(crate) fn pass(&mut self, reach: Reach) -> bool
        requires { self.old.place ≤ reach.end }
        ensures closed { result ≡ reach.closed }
        ensures moved { Moved self.old self.new (reach.end - self.old.place) }
    {
        self.move_to(reach.end);
        reach.closed
    }

    /// Where the cursor stands in the text.
    pub(crate) fn place(&self) -> u32
        ensures { result ≡ self.now.place }
    {
        self.place
    }

    /// How many bytes of the token have been eaten.
    pub(crate) fn pos_within_token(&self) -> u32
        ensures { result ≡ self.now.eaten }
    {
        self.place - self.start
    }

    /// Eats the next character. One beyond ASCII is eaten byte by byte.
    pub(crate) fn bump(&mut self) -> Option<char>
        ensures value { result ≡ slice_get (rest self.old) 0 }
        ensures moved { Eats next_len self.old self.new }
    {
        let byte = self.text.byte(self.place)?;
        self.place += 1;
        Some(char::from(byte))
    }

    /// Eats characters as long as they belong to the class.
    pub(crate) fn eat_while<C: Class>(&mut self, class: &C)
        ensures { Eats (run (C.holds class.now)) self.old self.new }
    {
        let end = run_end(self.text(), self.place(), class);
        self.move_to(end);
    }

    /// Eats up to the first of the byte, or to the end.
    pub(crate) fn eat_until(&mut self, byte: u8)
        ensures { Eats (run (all_but byte byte)) self.old self.new }
    {
        self.eat_until2(byte, byte);
    }

    /// Eats up to the first of either byte, or to the end.
    pub(crate) fn eat_until2(&mut self, first: u8, second: u8)
        ensures { Eats (run (all_but first second)) self.old self.new }
    {
        self.eat_while(&AllBut(first, second));
    }

    /// Goes on after the first character of an identifier.
    pub(crate) fn ident(&mut self) -> TokenKind
        ensures kind { result ≡ TokenKind.Ident }
        ensures moved { Eats (run ident_cont) self.old self.new }
    {
        self.eat_while(&IdentCont);
        TokenKind::Ident
    }

    /// Goes on after the first character of whitespace.
    pub(crate) fn whitespace(&mut self) -> TokenKind
        ensures kind { result ≡ TokenKind.Whitespace }
        ensures moved { Eats (run whitespace) self.old self.new }
    {
        self.eat_while(&Whitespace);
        TokenKind::Whitespace
    }

    /// Eats what follows of a junk identifier: a starting character and those that go on with it, or nothing.
    pub(crate) fn eat_identifier(&mut self)
        ensures { Eats identifier self.old self.new }
    {
        if self.next_in(&IdentStart) {
            self.eat_while(&IdentCont);
        }
    }

    /// Eats the digits that follow, and says whether there are any.
    pub(crate) fn eat_digits<C: DigitClass>(&mut self, class: &C) -> bool
        ensures met { result ≡ digit_met (C.holds class.now) (rest self.old) }
        ensures moved { Eats (digits (C.holds class.now)) self.old self.new }
    {
        let (end, has_digits) = digit_run(self.text(), self.place(), class);
        self.move_to(end);
        has_digits
    }
}

/// Where the longest run of characters of the class ends that begins at the place.
#[tactic(auto, using(crate::proofs::Turns::turns))]
pub(crate) fn run_end<C: Class, T: Text>(text: &T, place: u32, class: &C) -> u32
    ensures { result ≡ place + run (C.holds class.now) (drop place (T.bytes text.now)) }
{
    let mut end = place;
    // A text is asked for one byte after another: it need not lie in a slice.
    while text.byte(end).is_some_and(|byte| class.has(byte)) {
        end += 1;
    }
    end
}

/// Where the run of digits ends that begins at the place, and whether a digit was met: a pair, which the
/// rules of numbers take apart. An underscore belongs to the run only if a digit follows it.
#[tactic(auto, using(crate::proofs::Turns::turns))]
fn digit_run<C: DigitClass, T: Text>(text: &T, place: u32, class: &C) -> (u32, bool)
    ensures end { result.0 ≡ place + digits (C.holds class.now) (drop place (T.bytes text.now)) }
    ensures met { result.1 ≡ digit_met (C.holds class.now) (drop place (T.bytes text.now)) }
{
    let mut end = place;
    let mut met = false;
    // The place is an answer, and a turn may look one byte ahead.
    while let Some(byte) = text.byte(end) {
        if class.has(byte) {
            met = true;
        } else if !is_joint(text, end, byte, class) {
            break;
        }
        end += 1;
    }
    (end, met)
}

/// Whether the byte at the place is an underscore that a digit of the class follows.
#[tactic(auto, using(crate::proofs::Turns::leads_at))]
fn is_joint<C: DigitClass, T: Text>(text: &T, place: u32, here: u8, class: &C) -> bool
    requires { place < length (T.bytes text.now) }
    ensures { result ≡ (here == byte "_"
        && leads (C.holds class.now) (drop (place + 1) (T.bytes text.now))) }
{
    here == b'_' && text.byte(place + 1).is_some_and(|next| class.has(next))
}
