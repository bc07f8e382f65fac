//! The recorded list: texts, and the listing that is expected of each.
//!
//! A record is a line with the text's bytes in lower-case hexadecimal digits, the lines of its listing,
//! and an empty line.
#![tactic(auto)]

mod hex;
mod record;

pub use hex::decode;
pub use record::{Record, next_record};

#[cfg(test)]
mod tests {
    use super::*;
    use std::test::Fail;

    #[test]
    fn digits_come_in_pairs(rt: HostRuntime) -> Result<(), Fail> {
        let bytes = decode(rt.alloc(), b"00ff7a")?.ok_or("pairs of digits")?;
        assert!(rt; bytes.as_slice() == [0, 255, 122].as_slice());
        assert!(rt;
            decode(rt.alloc(), b"00f")?.is_none(),
            "a digit is left over"
        );
        assert!(rt;
            decode(rt.alloc(), b"0F")?.is_none(),
            "a capital is no digit"
        );
        Ok(())
    }

    #[test]
    fn a_record_ends_at_an_empty_line(rt: HostRuntime) -> Result<(), Fail> {
        let record = next_record(b"61\none\ntwo\n\n\nthree\n\n").ok_or("a record")?;
        assert!(rt; record.digits == b"61".as_slice());
        assert!(rt; record.listing == b"one\ntwo\n".as_slice());
        let record = next_record(record.rest).ok_or("a record of the empty text")?;
        assert!(rt; record.digits.is_empty());
        assert!(rt; record.listing == b"three\n".as_slice());
        assert!(rt; record.rest.is_empty());
        Ok(())
    }

    #[test]
    fn half_a_record_is_none(rt: HostRuntime) {
        assert!(rt; next_record(b"").is_none());
        assert!(rt; next_record(b"61\none\n").is_none());
    }
}
