//! A text that lies in one lent run of bytes.

ghost use Rattle.std.specs.Prelude.{◌≡◌};
ghost use Rattle.text.specs.Clip.{clip, clip_short};
ghost use Rattle.text.specs.Meanings.{flat_run};

use crate::Text;
use crate::run::{clipped_byte, clipped_len};

/// A flat text means the run that it was given, clipped.
#[derive(Clone, Copy)]
pub struct Flat<'a> {
    run: &'a [u8],
}

impl<'a> Flat<'a> {
    /// The text of `run`.
    pub fn new(run: &'a [u8]) -> Flat<'a>
        ensures run { flat_run result ≡ run.now }
        ensures bytes { ⟦<Flat<'a> as Text>⟧.bytes result ≡ clip run.now }
    {
        Flat { run }
    }
}

impl<'a> Text for Flat<'a> {
    ghost bytes = { λ t. clip (flat_run t) };

    ghost short = { λ t. clip_short t.run.now };

    fn len(&self) -> u32 {
        clipped_len(self.run)
    }

    fn byte(&self, place: u32) -> Option<u8> {
        clipped_byte(self.run, place)
    }
}
