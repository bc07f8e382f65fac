//! A walk over the tokens of a text, which counts what the lines tell.

ghost use Rattle.std.specs.Prelude.{◌≡◌, ℕ, ◌+◌, ◌^◌, ◌<◌};
ghost use Rattle.listing.specs.Walk.{at_front, end_line, past, total_line};
ghost use Rattle.statement.specs.Ends.{end_after};
ghost use Rattle.std.specs.Option.{option_map};

use crate::lines::{EndLine, TotalLine};
use lexer::token::Token;
use statement::{Ends, is_solid};
use std::marker::Model;

/// Where a walk stands: its place, the tokens and ends passed, the rule of ends, and of the statement that is
/// open its start, its tokens and its solid ones.
#[derive(Drop)]
pub(crate) struct Walk {
    place: u32,
    tokens: u32,
    ends: u32,
    rule: Ends,
    start: u32,
    passed: u32,
    solid: u32,
}

impl Model for Walk {
    ghost use Rattle.listing.specs.Walk.{Walked};

    ghost Value = { Walked };

    ghost use Rattle.listing.specs.Walking.{Keeps, walked_of};

    ghost view = { walked_of };

    ghost invariant = { Keeps };
}

impl Walk {
    pub(crate) fn new() -> Walk
        ensures { result ≡ at_front }
    {
        Walk {
            place: 0,
            tokens: 0,
            ends: 0,
            rule: Ends::new(),
            start: 0,
            passed: 0,
            solid: 0,
        }
    }

    /// The place behind the tokens passed.
    pub(crate) fn place(&self) -> u32
        ensures { result ≡ self.now.place }
    {
        self.place
    }

    /// Moves past a token, and answers the line of the statement that ends after it, if one does.
    pub(crate) fn pass(&mut self, token: Token, last: bool) -> Option<EndLine>
        requires some { 0 < token.len }
        requires fits { self.old.place + token.len < 2 ^ 32 }
        ensures line { result
            ≡ option_map (end_line self.old token) (end_after self.old.rule token last) }
        ensures after { self.new ≡ past self.old token (end_after self.old.rule token last) }
    {
        self.place += token.len;
        self.tokens += 1;
        self.passed += 1;
        if is_solid(token) {
            self.solid += 1;
        }
        let cause = self.rule.end_after(token, last)?;
        let line = EndLine {
            start: self.start,
            len: self.place - self.start,
            cause,
            tokens: self.passed,
            solid: self.solid,
        };
        self.ends += 1;
        self.start = self.place;
        self.passed = 0;
        self.solid = 0;
        Some(line)
    }

    /// The whole text, once all its tokens are passed.
    pub(crate) fn total_line(&self) -> TotalLine
        ensures { result ≡ total_line self.now }
    {
        TotalLine {
            bytes: self.place,
            tokens: self.tokens,
            ends: self.ends,
        }
    }
}
