//! The lexer: from a text to its tokens.
#![tactic(auto)]

mod advance;
mod class;
mod comment;
mod cursor;
mod dollar;
mod number;
mod piece;
mod psql;
mod psql_arg;
mod quoted;
mod start;
pub mod token;

pub use advance::token_at;
