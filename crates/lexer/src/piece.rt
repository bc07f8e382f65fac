//! Pieces of a text.

ghost use Rattle.std.specs.Prelude.{◌-◌, ◌≤◌, length};
ghost use Rattle.lexer.specs.Piece.{part, part_short};

use text::Text;

/// So many bytes of a text from a place on, all of which the text has. A piece is a text of its own.
#[derive(Drop)]
pub(crate) struct Piece<'a, T: Text> {
    pub(crate) text: &'a T,
    pub(crate) place: u32,
    pub(crate) len: u32,
    ghost inside: { len ≤ length (T.bytes text.now) - place },
}

impl<'a, T: Text> Text for Piece<'a, T> {
    ghost bytes = { λ p. part p.place p.len (T.bytes p.text.now) };

    ghost short = { λ p. part_short p.place p.len (T.bytes p.text.now) (T.short p.text.now) };

    fn len(&self) -> u32 {
        self.len
    }

    fn byte(&self, place: u32) -> Option<u8> {
        if place < self.len {
            self.text.byte(self.place + place)
        } else {
            None
        }
    }
}
