//! Whether a text can be read: it is not too long, and it is well-formed UTF-8.

ghost use Rattle.std.specs.Prelude.{◌≡◌};
ghost use Rattle.text.specs.Fit.{checked, TableIsUtf8, Tells};
ghost use Rattle.text.specs.Utf8.{sound};

use crate::{LONGEST, Text, TextFault, Utf8Checker};

/// The first fault of a text, in one pass. The length is looked at first: a text that is too long is not looked
/// into.
#[tactic(auto, using(crate::proofs::Sound::told))]
pub fn check<T: Text>(text: &T) -> Result<(), TextFault>
    ensures value { result ≡ checked (T.bytes text.now) }
    ensures characters { Tells (T.bytes text.now) result }
    ensures table { TableIsUtf8 }
{
    if text.len() > LONGEST {
        return Err(TextFault::TooLong);
    }
    let place = sound_len(text);
    if place == text.len() {
        Ok(())
    } else {
        Err(TextFault::IllFormed { place })
    }
}

/// How many bytes stand before the first sequence that is not well formed, or before the end.
fn sound_len<T: Text>(text: &T) -> u32
    ensures { result ≡ sound (T.bytes text.now) }
{
    let mut checker = Utf8Checker::new();
    let mut place: u32 = 0;
    // The place is the answer, less what was taken of a sequence.
    while let Some(byte) = text.byte(place) {
        checker.feed(byte);
        if checker.is_ill() {
            break;
        }
        place += 1;
    }
    place - checker.taken() as u32
}
