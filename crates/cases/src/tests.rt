//! Cases that are run. The expected lines are those of the Rust lexer for the same bytes, and by psql's reference page where
//! the two part.

use listing::list_input;
use std::alloc::Global;
use std::process::Abort;
use std::test::Fail;

/// Each input is listed by its lines.
fn list(rt: &impl Abort, heap: Global, cases: &[(&[u8], &str)]) -> Result<(), Fail> {
    for (input, lines) in cases {
        let listing = list_input(heap, input)?;
        assert_eq!(rt; listing.text(), *lines);
    }
    Ok(())
}

#[test]
fn run_cases(rt: HostRuntime) -> Result<(), Fail> {
    let cases: [(&[u8], &str); 7] = [
        (
            b"\\g a\\d",
            "token 0 4 PsqlCommand 1\n\
         end 0 4 2 1 1\n\
         token 4 2 PsqlCommand 0\n\
         end 4 2 3 1 1\n\
         total 6 2 2\n",
        ),
        (
            b"(a;\\g\nb;c",
            "token 0 1 OpenParen\n\
         token 1 1 Ident\n\
         token 2 1 Semi\n\
         token 3 2 PsqlCommand 1\n\
         end 0 5 2 4 4\n\
         token 5 1 Whitespace\n\
         token 6 1 Ident\n\
         token 7 1 Semi\n\
         end 5 3 1 3 2\n\
         token 8 1 Ident\n\
         end 8 1 3 1 1\n\
         total 9 8 3\n",
        ),
        (
            b"(a\\r;b",
            "token 0 1 OpenParen\n\
         token 1 1 Ident\n\
         token 2 4 PsqlCommand 0\n\
         end 0 6 3 3 3\n\
         total 6 3 1\n",
        ),
        (
            b"a;'b;c",
            "token 0 1 Ident\n\
         token 1 1 Semi\n\
         end 0 2 1 2 2\n\
         token 2 4 Str 0\n\
         end 2 4 4 1 1\n\
         total 6 3 2\n",
        ),
        (
            b"a[;]{;}",
            "token 0 1 Ident\n\
         token 1 1 OpenBracket\n\
         token 2 1 Semi\n\
         end 0 3 1 3 3\n\
         token 3 1 CloseBracket\n\
         token 4 1 OpenCurly\n\
         token 5 1 Semi\n\
         end 3 3 1 3 3\n\
         token 6 1 CloseCurly\n\
         end 6 1 3 1 1\n\
         total 7 7 3\n",
        ),
        (
            b"$$a;b$$;",
            "token 0 7 DollarQuotedString 1\n\
         token 7 1 Semi\n\
         end 0 8 1 2 2\n\
         total 8 2 1\n",
        ),
        (
            b"a;/*b",
            "token 0 1 Ident\n\
         token 1 1 Semi\n\
         end 0 2 1 2 2\n\
         token 2 3 BlockComment 0\n\
         end 2 3 4 1 0\n\
         total 5 3 2\n",
        ),
    ];
    list(&rt, rt.alloc(), &cases)
}

/// Escapes and two single quotes in the options of `\g (`.
#[test]
fn options_by_the_page(rt: HostRuntime) -> Result<(), Fail> {
    let one = "token 0 16 PsqlCommand 1\n\
         end 0 16 2 1 1\n\
         total 16 1 1\n";
    let two = "token 0 13 PsqlCommand 1\n\
         end 0 13 2 1 1\n\
         token 13 2 PsqlCommand 0\n\
         end 13 2 3 1 1\n\
         total 15 2 2\n";
    let cases: [(&[u8], &str); 6] = [
        (b"\\g (a'\\051' |x\\d", one),
        (
            b"\\g (a'\\51' |x\\d",
            "token 0 15 PsqlCommand 1\n\
         end 0 15 2 1 1\n\
         total 15 1 1\n",
        ),
        (b"\\g (a'\\451' |x\\d", one),
        (b"\\g (a'\\x29' |x\\d", one),
        (b"\\g (a')''' |x\\d", two),
        (b"\\g (a)'''' |x\\d", two),
    ];
    list(&rt, rt.alloc(), &cases)
}
