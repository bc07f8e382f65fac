//! Comments.

ghost use Rattle.std.specs.Prelude.{◌≡◌, ◌+◌, drop};
ghost use Rattle.lexer.specs.Class.{all_but};
ghost use Rattle.lexer.specs.Comment.{comment, comment_closed};
ghost use Rattle.lexer.specs.Cursor.{Eats, rest, run};

use crate::cursor::{Cursor, Reach};
use crate::token::TokenKind;
use text::Text;

impl<'a, T: Text> Cursor<'a, T> {
    /// Goes on after `--`: the comment runs to the end of its line.
    pub(crate) fn line_comment(&mut self) -> TokenKind
        ensures kind { result ≡ TokenKind.LineComment }
        ensures moved { Eats (run (all_but 10 13)) self.old self.new }
    {
        self.eat_until2(b'\n', b'\r');
        TokenKind::LineComment
    }

    /// Goes on after `/*`.
    pub(crate) fn block_comment(&mut self) -> TokenKind
        ensures kind { result ≡ TokenKind.BlockComment (comment_closed 1 (rest self.old)) }
        ensures moved { Eats (comment 1) self.old self.new }
    {
        let terminated = self.pass(comment_end(self.text(), self.place()));
        TokenKind::BlockComment { terminated }
    }
}

/// Where the comment ends whose opening mark ends at the place: after as many `*/` as `/*`, or with the
/// text. And whether it is closed.
#[tactic(auto, using(crate::proofs::Comments::comment_turns))]
fn comment_end<T: Text>(text: &T, place: u32) -> Reach
    ensures end { result.end ≡ place + comment 1 (drop place (T.bytes text.now)) }
    ensures closed { result.closed ≡ comment_closed 1 (drop place (T.bytes text.now)) }
{
    let mut depth: usize = 1;
    let mut end = place;
    // A turn takes one byte or two, and the place is the answer.
    while let Some(byte) = text.byte(end) {
        // No mark has a 0, which stands for no byte here: two bytes are compared at once, without a choice on the first.
        let next = text.byte(end + 1).unwrap_or(0);
        if byte == b'/' && next == b'*' {
            depth += 1;
            end += 2;
        } else if byte == b'*' && next == b'/' {
            depth -= 1;
            end += 2;
            if depth == 0 {
                break;
            }
        } else {
            end += 1;
        }
    }
    Reach {
        end,
        closed: depth == 0,
    }
}
