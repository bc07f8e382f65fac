//! The listing for programs in other languages.
#![tactic(auto)]

ghost use Rattle.bridge.specs.Fill.{filled};
ghost use Rattle.bridge.specs.Handed.{Fills, no_memory};
ghost use Rattle.std.specs.Prelude.{◌≡◌, ◌⊎◌};

use listing::list_input;
use std::alloc::Global;

/// Writes the listing of an input to the front of `out`, as much of it as there is room for, and answers its length.
/// Without memory for the listing it leaves `out` as it is and answers the largest number.
#[unsafe(no_mangle)]
pub extern "C" fn cushallen_listing(heap: Global, input: &[u8], out: &mut [u8]) -> usize
    ensures { ((result ≡ no_memory) × (out.new ≡ out.old))
        ⊎ Fills input.now out.old out.new result }
{
    match list_input(heap, input) {
        Ok(listing) => {
            let text = listing.text();
            fill_front(text.as_bytes(), out);
            text.len()
        }
        // Callers in C are told by a number.
        Err(_) => usize::MAX,
    }
}

/// Writes to the front of `out` as many bytes as there are and as there is room for.
fn fill_front(bytes: &[u8], out: &mut [u8])
    ensures { out.new ≡ filled bytes.now out.old }
{
    let count = bytes.len().min(out.len());
    out[0..count].copy_from_slice(&bytes[0..count]);
}
