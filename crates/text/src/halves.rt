//! A text that lies in two lent runs of bytes, one after the other.

ghost use Rattle.std.specs.Prelude.{◌≡◌, ◌++◌};
ghost use Rattle.text.specs.Clip.{clip, clips_short};
ghost use Rattle.text.specs.Meanings.{halves_back, halves_front};

use crate::Text;
use crate::run::{clipped_byte, clipped_len};

/// Halves mean the front run followed by the back run, each clipped by itself.
#[derive(Clone, Copy)]
pub struct Halves<'a> {
    front: &'a [u8],
    back: &'a [u8],
}

impl<'a> Halves<'a> {
    /// The text of `front` followed by `back`.
    pub fn new(front: &'a [u8], back: &'a [u8]) -> Halves<'a>
        ensures front { halves_front result ≡ front.now }
        ensures back { halves_back result ≡ back.now }
        ensures bytes { ⟦<Halves<'a> as Text>⟧.bytes result ≡ clip front.now ++ clip back.now }
    {
        Halves { front, back }
    }
}

impl<'a> Text for Halves<'a> {
    ghost bytes = { λ t. clip (halves_front t) ++ clip (halves_back t) };

    ghost short = { λ t. clips_short t.front.now t.back.now };

    fn len(&self) -> u32 {
        clipped_len(self.front) + clipped_len(self.back)
    }

    fn byte(&self, place: u32) -> Option<u8> {
        let seam = clipped_len(self.front);
        if place < seam {
            clipped_byte(self.front, place)
        } else {
            clipped_byte(self.back, place - seam)
        }
    }
}
