//! The records of a list, one after the other.

ghost use Rattle.std.specs.Prelude.{◌≡◌, ◌+◌, ◌<◌, true, length, take, drop, IfSome};
ghost use Rattle.records.specs.Record.{first_record, line_length, lines_length, parts, place_in};
ghost use Rattle.std.specs.Option.{option_map};

/// A text and the listing that is expected of it, and the list after them.
#[derive(Clone, Copy)]
pub struct Record<'a> {
    /// The text's bytes in hexadecimal digits.
    pub digits: &'a [u8],
    /// The lines of the listing.
    pub listing: &'a [u8],
    pub rest: &'a [u8],
}

/// The first record of a list; none if the list has no whole record.
pub fn next_record(list: &[u8]) -> Option<Record<'_>>
    ensures value { option_map parts result ≡ first_record list.now }
    ensures shorter { IfSome result (λ x. length x.rest.now < length list.now) }
{
    let (digits, after) = split(list, line_end(list)?);
    let (listing, rest) = split(after, lines_end(after)?);
    Some(Record {
        digits,
        listing,
        rest,
    })
}

/// What stands before a byte at a place, and what after it.
fn split(bytes: &[u8], place: usize) -> (&[u8], &[u8])
    requires { place < length bytes.now }
    ensures before { result.0.now ≡ take place bytes.now }
    ensures after { result.1.now ≡ drop (place + 1) bytes.now }
{
    (&bytes[0..place], &bytes[place + 1..])
}

/// Where the first line ends.
fn line_end(bytes: &[u8]) -> Option<usize>
    ensures { result ≡ place_in bytes.now (line_length bytes.now) }
{
    bytes.iter().position(|byte| *byte == b'\n')
}

/// Where the first empty line is.
fn lines_end(bytes: &[u8]) -> Option<usize>
    ensures { result ≡ place_in bytes.now (lines_length true bytes.now) }
{
    // Whether a line starts goes on beside the place.
    let mut starts = true;
    for (place, byte) in bytes.iter().enumerate() {
        if starts && *byte == b'\n' {
            return Some(place);
        }
        starts = *byte == b'\n';
    }
    None
}
