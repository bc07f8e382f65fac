//! Tokens in tables: the cut of a text written into one, and a list of tokens held against the cut.
#![tactic(auto)]

mod checker;
mod fault;
mod fill;
mod same;
#[cfg(test)]
mod tests;

pub use checker::check_tokens;
pub use fault::TableFault;
pub use fill::fill_table;
pub use same::same_token;
