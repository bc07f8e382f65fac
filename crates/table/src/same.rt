//! Whether two tokens are equal.

ghost use Rattle.std.specs.Prelude.{◌≡◌, ◌↔◌, IsTrue};
ghost use Rattle.table.specs.Same.{same};

use lexer::token::Token;

/// Whether two tokens are equal, in kind, fields and length.
pub fn same_token(a: Token, b: Token) -> bool
    ensures value { result ≡ same a b }
    ensures decides { IsTrue result ↔ (a ≡ b) }
{
    a == b
}
