//! Texts: finite sequences of bytes that can be asked for their length and for the byte at a place.
#![tactic(auto)]

mod fault;
mod fit;
mod flat;
mod halves;
mod run;
#[cfg(test)]
mod tests;
mod utf8;

ghost use Rattle.std.specs.Prelude.{◌≡◌, ℕ, ◌^◌, ◌<◌, List, length};
ghost use Rattle.std.specs.List.{slice_get};

pub use fault::{Fault, Layer, TextFault};
pub use fit::check;
pub use flat::Flat;
pub use halves::Halves;
pub use run::LONGEST;
pub use utf8::Utf8Checker;

/// A text means a finite sequence of bytes, `bytes`. Places count from 0 and have 32 bits.
/// No question changes the meaning. A new kind of text shows these facts of its own meaning, and every
/// theorem about reading then holds of it.
pub trait Text {
    ghost bytes: { Self → List ℕ };

    /// How many bytes the text has.
    fn len(&self) -> u32
        ensures { result ≡ length (bytes self.now) };

    /// The byte at a place, or `None` exactly when the place is not below the length.
    fn byte(&self, place: u32) -> Option<u8>
        ensures { result ≡ slice_get (bytes self.now) place };

    ghost short: { (t : Self) → length (bytes t) < 2 ^ 32 };
}
