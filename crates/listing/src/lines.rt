//! The lines that the program writes.

ghost use Rattle.listing.specs.Lines.{token_bytes, end_bytes, total_bytes};
ghost use Rattle.std.specs.Prelude.{Some};

use crate::kinds::Shown;
use lexer::token::Token;
use statement::Cause;
use std::fmt;

/// A token: its place, length, kind and fields.
#[derive(Clone, Copy)]
pub struct TokenLine {
    pub place: u32,
    pub token: Token,
}

impl fmt::Display for TokenLine {
    ghost output = { λ x. Some (token_bytes x) };

    fn fmt<W: fmt::Write>(&self, f: &mut fmt::Formatter<W>) -> fmt::Result {
        let place = self.place;
        let len = self.token.len;
        let kind = Shown {
            kind: &self.token.kind,
        };
        writeln!(f, "token {place} {len} {kind}")
    }
}

/// The end of a statement: where the statement starts, its length, why it ends, its tokens and the solid ones.
#[derive(Clone, Copy)]
pub struct EndLine {
    pub start: u32,
    pub len: u32,
    pub cause: Cause,
    pub tokens: u32,
    pub solid: u32,
}

impl fmt::Display for EndLine {
    ghost output = { λ x. Some (end_bytes x) };

    fn fmt<W: fmt::Write>(&self, f: &mut fmt::Formatter<W>) -> fmt::Result {
        let EndLine {
            start,
            len,
            cause,
            tokens,
            solid,
        } = *self;
        let number = cause.number();
        writeln!(f, "end {start} {len} {number} {tokens} {solid}")
    }
}

/// The whole text: its bytes, tokens and ends.
#[derive(Clone, Copy)]
pub struct TotalLine {
    pub bytes: u32,
    pub tokens: u32,
    pub ends: u32,
}

impl fmt::Display for TotalLine {
    ghost output = { λ x. Some (total_bytes x) };

    fn fmt<W: fmt::Write>(&self, f: &mut fmt::Formatter<W>) -> fmt::Result {
        let TotalLine {
            bytes,
            tokens,
            ends,
        } = *self;
        writeln!(f, "total {bytes} {tokens} {ends}")
    }
}
