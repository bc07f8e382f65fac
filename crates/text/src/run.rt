//! A lent run of bytes, as much of it as counts.

ghost use Rattle.std.specs.Prelude.{◌≡◌, length};
ghost use Rattle.std.specs.List.{slice_get};
ghost use Rattle.text.specs.Clip.{clip};

/// The longest text that is read has this many bytes.
pub const LONGEST: u32 = 16_777_216;

/// A run counts as its first `CLIP` bytes: one more than the longest text has, so that a longer run is still
/// met as too long.
const CLIP: usize = LONGEST as usize + 1;

/// How many bytes of `run` count.
#[tactic(auto, using(crate::proofs::Clipped::clipped))]
pub(crate) fn clipped_len(run: &[u8]) -> u32
    ensures { result ≡ length (clip run.now) }
{
    run.len().min(CLIP) as u32
}

/// The byte of `run` at a place, among those that count.
#[tactic(auto, using(crate::proofs::Clipped::clipped))]
pub(crate) fn clipped_byte(run: &[u8], place: u32) -> Option<u8>
    ensures { result ≡ slice_get (clip run.now) place }
{
    if place < clipped_len(run) {
        Some(run[place as usize])
    } else {
        None
    }
}
