//! Bytes in hexadecimal digits.

ghost use Rattle.records.specs.Hex.{decoded, digit_value, pair_value};
ghost use Rattle.std.specs.Prelude.{◌≡◌, IfOk, vec_items};
ghost use Rattle.std.specs.Option.{option_map};

use std::alloc::{AllocError, Global};

/// What a digit stands for; none if the byte is no digit.
fn digit(byte: u8) -> Option<u8>
    ensures { result ≡ digit_value byte }
{
    match byte {
        b'0'..=b'9' => Some(byte - b'0'),
        b'a'..=b'f' => Some(byte - b'a' + 10),
        _ => None,
    }
}

/// What two digits stand for, the higher one first.
fn byte_of(high: u8, low: u8) -> Option<u8>
    ensures { result ≡ pair_value (digit_value high) (digit_value low) }
{
    Some(16 * digit(high)? + digit(low)?)
}

/// The bytes that the digits stand for, two to a byte; none if they are not such pairs.
pub fn decode(heap: Global, digits: &[u8]) -> Result<Option<Vec<u8>>, AllocError>
    ensures { IfOk result (λ bytes. option_map vec_items bytes ≡ decoded digits.now) }
{
    let mut bytes = Vec::new(heap);
    let mut rest = digits;
    while let [high, low, after @ ..] = rest {
        let Some(byte) = byte_of(*high, *low) else {
            return Ok(None);
        };
        bytes.push(byte)?;
        rest = after;
    }
    if rest.is_empty() {
        Ok(Some(bytes))
    } else {
        Ok(None)
    }
}
