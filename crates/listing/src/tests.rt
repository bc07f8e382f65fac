//! Whole listings. The expected lines are those of the Rust lexer for the same bytes, and by psql's reference page where the two part.

use crate::{Listing, list_input, list_text};
use std::alloc::Global;
use std::process::Abort;
use std::test::Fail;
use text::{Halves, Text};

fn is(rt: &impl Abort, listing: Listing, refused: bool, lines: &str) {
    assert_eq!(rt; listing.text(), lines);
    assert_eq!(rt; matches!(listing, Listing::Refused(_)), refused);
}

fn lists(rt: &impl Abort, heap: Global, input: &[u8], lines: &str) -> Result<(), Fail> {
    is(rt, list_input(heap, input)?, false, lines);
    Ok(())
}

fn refuses(rt: &impl Abort, heap: Global, input: &[u8], line: &str) -> Result<(), Fail> {
    is(rt, list_input(heap, input)?, true, line);
    Ok(())
}

fn lists_halves(
    rt: &impl Abort,
    heap: Global,
    halves: &Halves<'_>,
    lines: &str,
) -> Result<(), Fail> {
    is(rt, list_text(heap, halves)?, false, lines);
    Ok(())
}

fn refuses_halves(
    rt: &impl Abort,
    heap: Global,
    halves: &Halves<'_>,
    line: &str,
) -> Result<(), Fail> {
    is(rt, list_text(heap, halves)?, true, line);
    Ok(())
}

#[test]
fn statements_and_numbers(rt: HostRuntime) -> Result<(), Fail> {
    lists(
        &rt,
        rt.alloc(),
        b"a;1e+",
        "token 0 1 Ident\n\
         token 1 1 Semi\n\
         end 0 2 1 2 2\n\
         token 2 2 Numeric 1 2\n\
         token 4 1 Plus\n\
         end 2 3 3 2 2\n\
         total 5 4 2\n",
    )
}

#[test]
fn kinds_with_fields(rt: HostRuntime) -> Result<(), Fail> {
    lists(
        &rt,
        rt.alloc(),
        b"0b29 1.5 $1a U&\"n\" \\d",
        "token 0 4 Int 2 0 4\n\
         token 4 1 Whitespace\n\
         token 5 3 Numeric - 3\n\
         token 8 1 Whitespace\n\
         token 9 3 PositionalParam 2\n\
         token 12 1 Whitespace\n\
         token 13 5 QuotedIdent 1 1\n\
         token 18 1 Whitespace\n\
         token 19 2 PsqlCommand 0\n\
         end 0 21 3 9 5\n\
         total 21 9 1\n",
    )
}

#[test]
fn command_and_comment_left_open(rt: HostRuntime) -> Result<(), Fail> {
    lists(
        &rt,
        rt.alloc(),
        b"(;\\g\n/* ",
        "token 0 1 OpenParen\n\
         token 1 1 Semi\n\
         token 2 2 PsqlCommand 1\n\
         end 0 4 2 3 3\n\
         token 4 1 Whitespace\n\
         token 5 3 BlockComment 0\n\
         end 4 4 4 2 0\n\
         total 8 5 2\n",
    )
}

#[test]
fn empty_input(rt: HostRuntime) -> Result<(), Fail> {
    lists(&rt, rt.alloc(), b"", "total 0 0 0\n")
}

#[test]
fn byte_order_mark_alone(rt: HostRuntime) -> Result<(), Fail> {
    lists(
        &rt,
        rt.alloc(),
        b"\xEF\xBB\xBF",
        "token 0 3 Whitespace\n\
         end 0 3 3 1 0\n\
         total 3 1 1\n",
    )
}

#[test]
fn byte_order_mark_before_a_blank(rt: HostRuntime) -> Result<(), Fail> {
    lists(
        &rt,
        rt.alloc(),
        b"\xEF\xBB\xBF ",
        "token 0 3 Whitespace\n\
         token 3 1 Whitespace\n\
         end 0 4 3 2 0\n\
         total 4 2 1\n",
    )
}

#[test]
fn byte_order_mark_twice(rt: HostRuntime) -> Result<(), Fail> {
    lists(
        &rt,
        rt.alloc(),
        b"\xEF\xBB\xBF\xEF\xBB\xBF",
        "token 0 3 Whitespace\n\
         token 3 3 Ident\n\
         end 0 6 3 2 1\n\
         total 6 2 1\n",
    )
}

#[test]
fn byte_order_mark_later(rt: HostRuntime) -> Result<(), Fail> {
    lists(
        &rt,
        rt.alloc(),
        b" \xEF\xBB\xBF",
        "token 0 1 Whitespace\n\
         token 1 3 Ident\n\
         end 0 4 3 2 1\n\
         total 4 2 1\n",
    )
}

#[test]
fn byte_zero(rt: HostRuntime) -> Result<(), Fail> {
    lists(
        &rt,
        rt.alloc(),
        b"a\0;",
        "token 0 1 Ident\n\
         token 1 1 Unknown\n\
         token 2 1 Semi\n\
         end 0 3 1 3 3\n\
         total 3 3 1\n",
    )
}

#[test]
fn ill_formed_at_the_start(rt: HostRuntime) -> Result<(), Fail> {
    refuses(&rt, rt.alloc(), b"\x80ab", "refused 2 0\n")
}

#[test]
fn ill_formed_in_the_middle(rt: HostRuntime) -> Result<(), Fail> {
    refuses(&rt, rt.alloc(), b"a\xED\xA0\x80b", "refused 2 1\n")
}

#[test]
fn ill_formed_at_the_end(rt: HostRuntime) -> Result<(), Fail> {
    refuses(&rt, rt.alloc(), b"ab\xC3", "refused 2 2\n")
}

#[test]
fn longest_input(rt: HostRuntime) -> Result<(), Fail> {
    let input = vec![in rt.alloc(); b' '; 65536]?;
    lists(
        &rt,
        rt.alloc(),
        &input,
        "token 0 65536 Whitespace\n\
         end 0 65536 3 1 0\n\
         total 65536 1 1\n",
    )
}

#[test]
fn input_too_long(rt: HostRuntime) -> Result<(), Fail> {
    let input = vec![in rt.alloc(); b' '; 65537]?;
    refuses(&rt, rt.alloc(), &input, "refused 13 65536\n")
}

#[test]
fn length_is_looked_at_first(rt: HostRuntime) -> Result<(), Fail> {
    let input = vec![in rt.alloc(); b'\x80'; 65537]?;
    refuses(&rt, rt.alloc(), &input, "refused 13 65536\n")
}

/// Wherever the bytes are cut in two, inside a character or a token too, the listing is that of the whole.
#[test]
fn halves_cut_anywhere(rt: HostRuntime) -> Result<(), Fail> {
    let bytes = b"x'\xC3\xA9;'(1e+;)\\g\n$a$;$a$";
    let lines = "token 0 6 ByteStr 1\n\
         token 6 1 OpenParen\n\
         token 7 2 Numeric 1 2\n\
         token 9 1 Plus\n\
         token 10 1 Semi\n\
         token 11 1 CloseParen\n\
         token 12 2 PsqlCommand 1\n\
         end 0 14 2 7 7\n\
         token 14 1 Whitespace\n\
         token 15 7 DollarQuotedString 1\n\
         end 14 8 3 2 1\n\
         total 22 9 2\n";
    lists(&rt, rt.alloc(), bytes, lines)?;
    for i in 0..bytes.len() {
        lists_halves(
            &rt,
            rt.alloc(),
            &Halves::new(&bytes[0..i], &bytes[i..]),
            lines,
        )?;
    }
    Ok(())
}

#[test]
fn halves_ill_formed_over_the_seam(rt: HostRuntime) -> Result<(), Fail> {
    refuses_halves(
        &rt,
        rt.alloc(),
        &Halves::new(b"a\xE0", b"\x80b"),
        "refused 2 1\n",
    )
}

/// In the options of `\g (` an escape stands for its character, here `)`, so that the pipe takes the rest of the line.
#[test]
fn escapes_close_options(rt: HostRuntime) -> Result<(), Fail> {
    let lines = "token 0 1 Ident\n\
         token 1 1 Whitespace\n\
         token 2 28 PsqlCommand 1\n\
         end 0 30 2 3 2\n\
         token 30 1 Whitespace\n\
         token 31 1 Ident\n\
         token 32 1 Semi\n\
         end 30 3 1 3 2\n\
         total 33 6 2\n";
    lists(
        &rt,
        rt.alloc(),
        b"a \\g (format=csv'\\051' |c \\\\;b\nd;",
        lines,
    )?;
    lists(
        &rt,
        rt.alloc(),
        b"a \\g (format=csv'\\x29' |c \\\\;b\nd;",
        lines,
    )
}

/// There two single quotes stand for one, so that the options go on after `')'''`.
#[test]
fn two_quotes_leave_options_open(rt: HostRuntime) -> Result<(), Fail> {
    lists(
        &rt,
        rt.alloc(),
        b"a \\g (fieldsep=')''' format=csv) |c \\\\;b\nd;",
        "token 0 1 Ident\n\
         token 1 1 Whitespace\n\
         token 2 38 PsqlCommand 1\n\
         end 0 40 2 3 2\n\
         token 40 1 Whitespace\n\
         token 41 1 Ident\n\
         token 42 1 Semi\n\
         end 40 3 1 3 2\n\
         total 43 6 2\n",
    )
}
