//! Bytes on both sides of the rule for each answer of `check`.

use crate::{Fault, Flat, Halves, LONGEST, Layer, Text, TextFault, Utf8Checker, check};
use std::test::Fail;

fn flat(run: &[u8]) -> Result<(), TextFault> {
    check(&Flat::new(run))
}

fn halves<'a>(front: &'a [u8], back: &'a [u8]) -> Result<(), TextFault> {
    check(&Halves::new(front, back))
}

fn ill(place: u32) -> Result<(), TextFault> {
    Err(TextFault::IllFormed { place })
}

#[test]
fn fit(rt: HostRuntime) {
    assert_eq!(rt; flat(b""), Ok(()));
    assert_eq!(rt; flat(b"select 1;"), Ok(()));
    assert_eq!(rt; flat(b"\x00"), Ok(()));
    assert_eq!(rt; flat(b"\x7F\xC2\x80\xDF\xBF"), Ok(()));
    assert_eq!(rt;
        flat(b"\xE0\xA0\x80\xED\x9F\xBF\xEE\x80\x80\xEF\xBF\xBF"),
        Ok(())
    );
    assert_eq!(rt; flat(b"\xF0\x90\x80\x80\xF4\x8F\xBF\xBF"), Ok(()));
}

#[test]
fn byte_order_marks(rt: HostRuntime) {
    assert_eq!(rt; flat(b"\xEF\xBB\xBF"), Ok(()));
    assert_eq!(rt; flat(b"\xEF\xBB\xBF\xEF\xBB\xBF"), Ok(()));
    assert_eq!(rt; flat(b"a\xEF\xBB\xBFb"), Ok(()));
}

#[test]
fn ill_formed(rt: HostRuntime) {
    assert_eq!(rt; flat(b"\xFFab"), ill(0));
    assert_eq!(rt; flat(b"a\xFFb"), ill(1));
    assert_eq!(rt; flat(b"ab\xFF"), ill(2));
    assert_eq!(rt; flat(b"a\x80"), ill(1), "a continuation alone");
    assert_eq!(rt;
        flat(b"\xC3\xA9\xC3("),
        ill(2),
        "a lead before another character"
    );
    assert_eq!(rt; flat(b"\xF5\x80\x80\x80"), ill(0));
    assert_eq!(rt;
        flat(b"\xF4\x90\x80\x80"),
        ill(0),
        "past the last scalar value"
    );
}

#[test]
fn truncated(rt: HostRuntime) {
    assert_eq!(rt; flat(b"a\xC2"), ill(1));
    assert_eq!(rt; flat(b"a\xE2"), ill(1));
    assert_eq!(rt; flat(b"a\xE2\x82"), ill(1));
    assert_eq!(rt; flat(b"a\xF0"), ill(1));
    assert_eq!(rt; flat(b"a\xF0\x9F"), ill(1));
    assert_eq!(rt; flat(b"a\xF0\x9F\x98"), ill(1));
}

#[test]
fn surrogates(rt: HostRuntime) {
    assert_eq!(rt; flat(b"\xED\xA0\x80"), ill(0));
    assert_eq!(rt; flat(b"ab\xED\xBF\xBF"), ill(2));
}

#[test]
fn over_long(rt: HostRuntime) {
    assert_eq!(rt; flat(b"\xC0\x80"), ill(0));
    assert_eq!(rt; flat(b"\xC1\xBF"), ill(0));
    assert_eq!(rt; flat(b"\xE0\x80\x80"), ill(0));
    assert_eq!(rt; flat(b"\xE0\x9F\xBF"), ill(0));
    assert_eq!(rt; flat(b"\xF0\x80\x80\x80"), ill(0));
    assert_eq!(rt; flat(b"\xF0\x8F\xBF\xBF"), ill(0));
}

#[test]
fn in_halves(rt: HostRuntime) {
    assert_eq!(rt; halves(b"", b""), Ok(()));
    assert_eq!(rt; halves(b"", b"a"), Ok(()));
    assert_eq!(rt; halves(b"a", b""), Ok(()));
    assert_eq!(rt;
        halves(b"a\xE2", b"\x82\xAC"),
        Ok(()),
        "cut inside a character"
    );
    assert_eq!(rt; halves(b"a\xE2\x82", b"\xAC"), Ok(()));
    assert_eq!(rt;
        halves(b"a\xE2", b"\xFF\xAC"),
        ill(1),
        "a bad byte at the seam"
    );
    assert_eq!(rt; halves(b"ab", b"\x82"), ill(2));
    assert_eq!(rt; halves(b"ab\xE2", b""), ill(2));
}

#[test]
fn bytes_of_halves(rt: HostRuntime) {
    let text = Halves::new(b"ab", b"c");
    assert_eq!(rt; text.len(), 3);
    assert_eq!(rt; text.byte(1), Some(b'b'));
    assert_eq!(rt; text.byte(2), Some(b'c'));
    assert_eq!(rt; text.byte(3), None);
}

#[test]
fn longest_flat(rt: HostRuntime) -> Result<(), Fail> {
    let blanks = vec![in rt.alloc(); b' '; 16_777_217]?;
    assert_eq!(rt; flat(&blanks[0..16_777_216]), Ok(()));
    assert_eq!(rt; flat(&blanks), Err(TextFault::TooLong));
    Ok(())
}

#[test]
fn longest_halves(rt: HostRuntime) -> Result<(), Fail> {
    let blanks = vec![in rt.alloc(); b' '; 16_777_215]?;
    assert_eq!(rt; halves(&blanks, b"a"), Ok(()));
    assert_eq!(rt; halves(&blanks, b"\xFF"), ill(16_777_215));
    assert_eq!(rt; halves(&blanks, b"a\xFF"), Err(TextFault::TooLong));
    assert_eq!(rt; halves(&blanks, &blanks), Err(TextFault::TooLong));
    Ok(())
}

#[test]
fn bad_run(rt: HostRuntime) {
    let mut checker = Utf8Checker::new();
    checker.feed(0xE2);
    checker.feed(0x82);
    assert_eq!(rt; (checker.is_ill(), checker.taken()), (false, 2));
    checker.feed(b'(');
    assert_eq!(rt; (checker.is_ill(), checker.taken()), (true, 2));
}

#[test]
fn told(rt: HostRuntime) {
    let too_long = Fault {
        number: 1,
        place: 16_777_216,
        layer: Layer::Text,
    };
    assert_eq!(rt; TextFault::TooLong.fault(), too_long);
    assert_eq!(rt; LONGEST, 16_777_216);
    let ill_formed = Fault {
        number: 2,
        place: 7,
        layer: Layer::Text,
    };
    assert_eq!(rt; TextFault::IllFormed { place: 7 }.fault(), ill_formed);
}
