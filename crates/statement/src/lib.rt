//! What ends a statement.
#![tactic(auto)]

ghost use Rattle.std.specs.Prelude.{◌≡◌, take};
ghost use Rattle.statement.specs.Causes.{cause_number};
ghost use Rattle.statement.specs.EndLaws.{EndsStand};
ghost use Rattle.statement.specs.Depth.{depth};
ghost use Rattle.statement.specs.Ends.{solid, unterminated, first_state, next_state, own_end, last_cause, end_after};
ghost use Rattle.statement.specs.Laws.{DepthCounts, SemicolonEnds, Shared};
ghost use Rattle.statement.specs.Statements.{state_after, statements, tokens_of};
ghost use Rattle.std.specs.List.{slice_get};

use lexer::token::{LiteralKind, Token, TokenKind};

/// Why a statement ends where it does.
#[derive(Clone, Copy, PartialEq, Eq, Debug)]
pub enum Cause {
    /// A semicolon outside parentheses.
    Semicolon = 1,
    /// A psql command that ends a query.
    Command = 2,
    /// The text ends.
    Last = 3,
    /// The text ends inside a comment or quotes.
    Unterminated = 4,
}

impl Cause {
    /// The number by which the cause is known.
    pub fn number(self) -> u8
        ensures { result ≡ cause_number self }
    {
        self as u8
    }
}

/// A statement's tokens, how many of them are solid, and why it ends.
#[derive(Clone, Copy, PartialEq, Eq, Debug)]
pub struct Statement {
    pub tokens: usize,
    pub solid: usize,
    pub cause: Cause,
}

/// Whether a token is neither whitespace nor a comment.
pub fn is_solid(token: Token) -> bool
    ensures { result ≡ solid token }
{
    !matches!(
        token.kind,
        TokenKind::Whitespace | TokenKind::LineComment | TokenKind::BlockComment { .. }
    )
}

/// Whether a token lacks the mark that would close it. A number needs none, a string does.
pub fn is_unterminated(token: Token) -> bool
    ensures { result ≡ unterminated token }
{
    matches!(
        token.kind,
        TokenKind::BlockComment { terminated: false }
            | TokenKind::QuotedIdent {
                terminated: false,
                ..
            }
            | TokenKind::Literal {
                kind: LiteralKind::Str { terminated: false }
                    | LiteralKind::NationalStr { terminated: false }
                    | LiteralKind::ByteStr { terminated: false }
                    | LiteralKind::BitStr { terminated: false }
                    | LiteralKind::DollarQuotedString { terminated: false }
                    | LiteralKind::UnicodeEscStr { terminated: false }
                    | LiteralKind::EscStr { terminated: false },
            }
    )
}

/// The cause of the end after a text's last token, where `pass` answers none for it.
pub fn last_cause(token: Token) -> Cause
    ensures { result ≡ last_cause token }
{
    if is_unterminated(token) {
        Cause::Unterminated
    } else {
        Cause::Last
    }
}

/// The rule of ends. It passes the tokens of a text one by one and says after each whether a statement
/// ends there. Its state is one number: how many parentheses are open.
#[derive(Clone, Copy)]
pub struct Ends {
    depth: u32,
}

impl Ends {
    /// The rule before the first token. From here its state counts the parentheses left open, and a `;` ends a
    /// statement exactly where there are none. In a text, no end stands inside a token.
    pub fn new() -> Ends
        ensures state { depth result ≡ first_state }
        ensures counts { DepthCounts }
        ensures semicolon { SemicolonEnds }
        ensures places { EndsStand }
    {
        Ends { depth: 0 }
    }

    /// Passes a token, and answers the end that stands after it whatever follows.
    pub fn pass(&mut self, token: Token) -> Option<Cause>
        ensures end { result ≡ own_end (depth self.old) token }
        ensures state { depth self.new ≡ next_state (depth self.old) token }
    {
        match token.kind {
            TokenKind::OpenParen => {
                self.depth = self.depth.saturating_add(1);
                None
            }
            TokenKind::CloseParen => {
                self.depth = self.depth.saturating_sub(1);
                None
            }
            TokenKind::Semi if token.len == 1 && self.depth == 0 => Some(Cause::Semicolon),
            TokenKind::PsqlCommand { ends_query: true } => {
                self.depth = 0;
                Some(Cause::Command)
            }
            _ => None,
        }
    }

    /// Passes a token, and answers the end that stands after it. `last` says whether it is the text's last.
    pub fn end_after(&mut self, token: Token, last: bool) -> Option<Cause>
        ensures end { result ≡ end_after (depth self.old) token last }
        ensures state { depth self.new ≡ next_state (depth self.old) token }
    {
        match self.pass(token) {
            None if last => Some(last_cause(token)),
            end => end,
        }
    }

    /// Passes tokens up to the next end, and answers the statement that they make, or `None` if there are
    /// no tokens. The last of the tokens counts as the text's last.
    pub fn next_statement(&mut self, tokens: &[Token]) -> Option<Statement>
        ensures first { result ≡ slice_get (statements (depth self.old) tokens.now) 0 }
        ensures state { depth self.new ≡ state_after (depth self.old) (take (tokens_of result) tokens.now) }
        ensures shared { Shared }
    {
        let mut solid = 0;
        for (index, token) in tokens.iter().enumerate() {
            if is_solid(*token) {
                solid += 1;
            }
            let passed = index + 1;
            if let Some(cause) = self.end_after(*token, passed == tokens.len()) {
                return Some(Statement {
                    tokens: passed,
                    solid,
                    cause,
                });
            }
        }
        None
    }
}

#[cfg(test)]
mod tests {
    use super::*;

    fn one(kind: TokenKind) -> Token {
        Token { kind, len: 1 }
    }

    fn ended(tokens: usize, solid: usize, cause: Cause) -> Option<Statement> {
        Some(Statement {
            tokens,
            solid,
            cause,
        })
    }

    #[test]
    fn semicolon_in_parentheses_ends_nothing(rt: HostRuntime) {
        // a(;)b;c
        let tokens = [
            one(TokenKind::Ident),
            one(TokenKind::OpenParen),
            one(TokenKind::Semi),
            one(TokenKind::CloseParen),
            one(TokenKind::Ident),
            one(TokenKind::Semi),
            one(TokenKind::Ident),
        ];
        let mut ends = Ends::new();
        assert_eq!(rt; ends.next_statement(&tokens), ended(6, 6, Cause::Semicolon));
        assert_eq!(rt; ends.next_statement(&tokens[6..]), ended(1, 1, Cause::Last));
    }

    #[test]
    fn escaped_semicolon_ends_nothing(rt: HostRuntime) {
        // a\;b;
        let escaped = Token {
            kind: TokenKind::Semi,
            len: 2,
        };
        let tokens = [
            one(TokenKind::Ident),
            escaped,
            one(TokenKind::Ident),
            one(TokenKind::Semi),
        ];
        assert_eq!(rt;
            Ends::new().next_statement(&tokens),
            ended(4, 4, Cause::Semicolon)
        );
    }

    #[test]
    fn stray_closing_parenthesis_counts_for_nothing(rt: HostRuntime) {
        // )(;);
        let tokens = [
            one(TokenKind::CloseParen),
            one(TokenKind::OpenParen),
            one(TokenKind::Semi),
            one(TokenKind::CloseParen),
            one(TokenKind::Semi),
        ];
        assert_eq!(rt;
            Ends::new().next_statement(&tokens),
            ended(5, 5, Cause::Semicolon)
        );
    }

    #[test]
    fn command_ends_in_parentheses_and_closes_them(rt: HostRuntime) {
        // (\g and a line end, then ;
        let tokens = [
            one(TokenKind::OpenParen),
            Token {
                kind: TokenKind::PsqlCommand { ends_query: true },
                len: 2,
            },
            one(TokenKind::Whitespace),
            one(TokenKind::Semi),
        ];
        let mut ends = Ends::new();
        assert_eq!(rt; ends.next_statement(&tokens), ended(2, 2, Cause::Command));
        assert_eq!(rt;
            ends.next_statement(&tokens[2..]),
            ended(2, 1, Cause::Semicolon)
        );
    }

    #[test]
    fn other_command_ends_nothing(rt: HostRuntime) {
        let command = Token {
            kind: TokenKind::PsqlCommand { ends_query: false },
            len: 2,
        };
        assert_eq!(rt;
            Ends::new().next_statement(&[command, one(TokenKind::LineComment)]),
            ended(2, 1, Cause::Last)
        );
    }

    #[test]
    fn text_ends_inside_a_string(rt: HostRuntime) {
        let open = TokenKind::Literal {
            kind: LiteralKind::Str { terminated: false },
        };
        let closed = TokenKind::Literal {
            kind: LiteralKind::Str { terminated: true },
        };
        assert_eq!(rt;
            Ends::new().next_statement(&[one(TokenKind::Ident), one(open)]),
            ended(2, 2, Cause::Unterminated)
        );
        assert_eq!(rt;
            Ends::new().next_statement(&[one(TokenKind::Ident), one(closed)]),
            ended(2, 2, Cause::Last)
        );
    }

    #[test]
    fn text_ends_inside_a_comment(rt: HostRuntime) {
        let open = TokenKind::BlockComment { terminated: false };
        assert_eq!(rt;
            Ends::new().next_statement(&[one(open)]),
            ended(1, 0, Cause::Unterminated)
        );
    }

    #[test]
    fn no_tokens_make_no_statement(rt: HostRuntime) {
        let none: [Token; 0] = [];
        assert_eq!(rt; Ends::new().next_statement(&none), None);
    }
}
