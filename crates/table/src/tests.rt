//! Tables and lists on both sides of each answer. The tokens are those of the Rust lexer for the same bytes.

use crate::{TableFault, check_tokens, fill_table, same_token};
use lexer::token::{Base, LiteralKind, Token, TokenKind};
use text::{Fault, Flat, Layer, TextFault};

fn int(trailing_junk_start: u32) -> Token {
    Token {
        kind: TokenKind::Literal {
            kind: LiteralKind::Int {
                base: Base::Decimal,
                empty_int: false,
                trailing_junk_start,
            },
        },
        len: trailing_junk_start,
    }
}

fn dot_dot() -> Token {
    Token {
        kind: TokenKind::DotDot,
        len: 2,
    }
}

fn semi() -> Token {
    Token {
        kind: TokenKind::Semi,
        len: 1,
    }
}

#[test]
fn later_entries_stay(rt: HostRuntime) {
    let mut table = [semi(); 4];
    let filled = fill_table(&Flat::new(b"1..10"), &mut table);
    assert_eq!(rt; filled, Ok(3));
    assert!(rt; same_token(table[0], int(1)));
    assert!(rt; same_token(table[1], dot_dot()));
    assert!(rt; same_token(table[2], int(2)));
    assert!(rt; same_token(table[3], semi()));
}

/// What the table call answers for a run of bytes, its fault as the number, place and layer that it tells.
fn answer(run: &[u8], table: &mut [Token]) -> Result<u32, Fault> {
    fill_table(&Flat::new(run), table).map_err(TableFault::fault)
}

#[test]
fn too_few_entries(rt: HostRuntime) {
    let mut table = [semi(); 2];
    let fault = Fault {
        number: 11,
        place: 3,
        layer: Layer::Table,
    };
    assert_eq!(rt; answer(b"1..10", &mut table), Err(fault));
    assert!(rt; same_token(table[0], semi()) && same_token(table[1], semi()));
}

#[test]
fn text_is_looked_at_first(rt: HostRuntime) {
    let mut table = [semi(); 0];
    let fault = Fault {
        number: 2,
        place: 3,
        layer: Layer::Text,
    };
    assert_eq!(rt; answer(b"1..\xFF", &mut table), Err(fault));
    assert_eq!(rt;
        check_tokens(&Flat::new(b"1..\xFF"), &table),
        Err(TextFault::IllFormed { place: 3 })
    );
}

fn parting(tokens: &[Token]) -> Result<Option<u32>, TextFault> {
    check_tokens(&Flat::new(b"1..10"), tokens)
}

#[test]
fn lists_against_the_cut(rt: HostRuntime) {
    assert_eq!(rt; parting(&[int(1), dot_dot(), int(2)]), Ok(None));
    assert_eq!(rt; parting(&[int(1), semi(), int(2)]), Ok(Some(1)));
    assert_eq!(rt; parting(&[int(1), dot_dot(), int(3)]), Ok(Some(2)));
    assert_eq!(rt; parting(&[int(1), dot_dot()]), Ok(Some(2)));
    assert_eq!(rt; parting(&[int(1), dot_dot(), int(2), semi()]), Ok(Some(3)));
}
