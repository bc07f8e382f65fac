//! The program's lines, from a text.
#![tactic(auto)]

mod fault;
mod kinds;
mod lines;
mod walk;

ghost use Rattle.std.specs.Prelude.{◌≡◌, ℕ, ◌+◌, ◌<◌, ◌≤◌, ◌++◌, length, IfOk, string_bytes, OnOk};
ghost use Rattle.listing.specs.Listed.{Answers, admitted, in_text, listed};
ghost use Rattle.lexer.specs.Cut.{cut};
ghost use Rattle.listing.specs.Faults.{program_fault};
ghost use Rattle.listing.specs.Lines.{refused_bytes};
ghost use Rattle.listing.specs.Walk.{end_there, past, lines_of_token};
ghost use Rattle.text.specs.Fit.{checked};

pub use fault::{LONGEST_INPUT, ProgramFault};
use lexer::token::Token;
use lexer::token_at;
use lines::TokenLine;
use std::alloc::{AllocError, Global};
use std::fmt::Write;
use text::{Flat, Text, check};
use walk::Walk;

/// What the program writes.
#[derive(Drop)]
pub enum Listing {
    /// The lines of a fit text.
    Listed(String),
    /// The line of a refusal.
    Refused(String),
}

impl Listing {
    ghost use Rattle.listing.specs.Listed.{text_of};

    /// The lines, whichever they are.
    pub fn text(&self) -> &str
        ensures { result.now ≡ text_of self.now }
    {
        match self {
            Listing::Listed(lines) | Listing::Refused(lines) => lines.as_str(),
        }
    }
}

/// The line of an input that is refused.
fn refusal(heap: Global, fault: ProgramFault) -> Result<String, AllocError>
    ensures { IfOk result (λ line. string_bytes line ≡ refused_bytes (program_fault fault)) }
{
    let mut line = String::new(heap);
    writeln!(line, "{fault}")?;
    Ok(line)
}

/// Writes the line of a token, and the end's if a statement ends after it. `size` is the text's length.
fn list_token(
    lines: &mut String,
    walk: &mut Walk,
    token: Token,
    size: u32,
) -> Result<(), AllocError>
    requires some { 0 < token.len }
    requires inside { walk.old.place + token.len ≤ size }
    ensures lines { OnOk result
        (string_bytes lines.new ≡ string_bytes lines.old ++ lines_of_token size walk.old token) }
    ensures walk { OnOk result (walk.new ≡ past walk.old token (end_there size walk.old token)) }
{
    let place = walk.place();
    let line = TokenLine { place, token };
    write!(lines, "{line}")?;
    if let Some(end) = walk.pass(token, place + token.len == size) {
        write!(lines, "{end}")?;
    }
    Ok(())
}

/// The lines of a fit text.
fn list_tokens<T: Text>(heap: Global, text: &T) -> Result<String, AllocError>
    ensures { IfOk result (λ lines. string_bytes lines ≡ listed (cut (T.bytes text.now))) }
{
    let size = text.len();
    let mut lines = String::new(heap);
    let mut walk = Walk::new();
    // The walk keeps the place, with all that it counts.
    while let Some(token) = token_at(text, walk.place()) {
        list_token(&mut lines, &mut walk, token, size)?;
    }
    let total = walk.total_line();
    write!(lines, "{total}")?;
    Ok(lines)
}

/// Whether a text is fit to be read, or why it is refused.
fn admit_text<T: Text>(text: &T) -> Result<(), ProgramFault>
    ensures { result ≡ in_text (checked (T.bytes text.now)) }
{
    Ok(check(text)?)
}

/// Whether an input is listed, or why it is refused. Its length is looked at before anything else.
fn admit(input: &[u8]) -> Result<(), ProgramFault>
    ensures { result ≡ admitted input.now }
{
    if input.len() > LONGEST_INPUT as usize {
        return Err(ProgramFault::InputTooLong);
    }
    admit_text(&Flat::new(input))
}

/// The listing of a text that is listed, or refused, as was found.
fn list_admitted<T: Text>(
    heap: Global,
    text: &T,
    admitted: Result<(), ProgramFault>,
) -> Result<Listing, AllocError>
    ensures { IfOk result (Answers (T.bytes text.now) admitted) }
{
    match admitted {
        Ok(()) => Ok(Listing::Listed(list_tokens(heap, text)?)),
        Err(fault) => Ok(Listing::Refused(refusal(heap, fault)?)),
    }
}

/// The listing of any text: its lines, or its refusal if it is not fit to be read.
pub fn list_text<T: Text>(heap: Global, text: &T) -> Result<Listing, AllocError>
    ensures { IfOk result (Answers (T.bytes text.now) (in_text (checked (T.bytes text.now)))) }
{
    list_admitted(heap, text, admit_text(text))
}

/// The listing of an input of the program.
pub fn list_input(heap: Global, input: &[u8]) -> Result<Listing, AllocError>
    ensures { IfOk result (Answers input.now (admitted input.now)) }
{
    list_admitted(heap, &Flat::new(input), admit(input))
}

#[cfg(test)]
mod tests;
