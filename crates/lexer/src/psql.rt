//! psql commands: the word after the backslash, and how far the command reaches.

ghost use Rattle.std.specs.Prelude.{◌≡◌, map};
ghost use Rattle.lexer.specs.Cursor.{Eats, rest};
ghost use Rattle.lexer.specs.Psql.{before_pipe, command, command_len, ends_query, fold, found, meaning, opened_options, psql_kind, psql_len, row, spelt, what_follows};
ghost use Rattle.lexer.specs.PsqlArg.{arguments};
ghost use Rattle.lexer.specs.declared.psql_arg.ArgState.TheVariants.{Outside};

use crate::class::{CommandLetter, LineBlank};
use crate::cursor::Cursor;
use crate::piece::Piece;
use crate::psql_arg::{arguments_end, options_end};
use crate::token::TokenKind;
use text::Text;

/// What the word of a command does.
#[derive(Clone, Copy)]
pub(crate) enum Command {
    /// Nothing, as any word that is not listed.
    Nothing,
    /// It ends the query before it.
    EndsQuery,
    /// It ends the query, and sends its result to where options in parentheses, or a pipe, say.
    SendsQuery,
    /// It may be followed by a pipe to a program.
    TakesPipe,
    /// It takes the rest of its line as it is.
    ReadsLine,
}

impl Command {
    /// Whether the query before the command ends with it.
    fn ends_query(self) -> bool
        ensures { result ≡ ends_query self }
    {
        matches!(self, Command::EndsQuery | Command::SendsQuery)
    }
}

impl<'a, T: Text> Cursor<'a, T> {
    /// Goes on after a backslash.
    pub(crate) fn psql_command(&mut self) -> TokenKind
        ensures kind { result ≡ psql_kind (rest self.old) }
        ensures moved { Eats psql_len self.old self.new }
    {
        match self.first() {
            '\\' => {
                self.bump();
                TokenKind::PsqlCommand { ends_query: false }
            }
            ';' => {
                self.bump();
                TokenKind::Semi
            }
            ':' => {
                self.bump();
                TokenKind::Colon
            }
            _ => self.psql_word(),
        }
    }

    /// Eats a command word and what belongs to it.
    fn psql_word(&mut self) -> TokenKind
        ensures kind { result ≡ TokenKind.PsqlCommand (ends_query (command (rest self.old))) }
        ensures moved { Eats command_len self.old self.new }
    {
        let place = self.place();
        self.eat_while(&CommandLetter);
        let word = Piece {
            text: self.text(),
            place,
            len: self.place() - place,
        };
        let command = command_of(&word);
        self.eat_before_pipe(command);
        self.eat_what_follows(command);
        TokenKind::PsqlCommand {
            ends_query: command.ends_query(),
        }
    }

    /// Eats what stands before a pipe, where the word takes one: blanks, then options.
    fn eat_before_pipe(&mut self, command: Command)
        ensures { Eats (before_pipe command) self.old self.new }
    {
        match command {
            Command::SendsQuery => {
                self.eat_while(&LineBlank);
                self.eat_options();
            }
            Command::TakesPipe => self.eat_while(&LineBlank),
            Command::Nothing | Command::EndsQuery | Command::ReadsLine => (),
        }
    }

    /// Eats the rest of the line, or the arguments, which end at a backslash outside quotes too.
    fn eat_what_follows(&mut self, command: Command)
        ensures { Eats (what_follows command) self.old self.new }
    {
        match command {
            Command::ReadsLine => self.eat_until2(b'\n', b'\r'),
            Command::SendsQuery | Command::TakesPipe if self.first() == '|' => {
                self.eat_until2(b'\n', b'\r');
            }
            _ => self.eat_arguments(),
        }
    }

    /// Eats options in parentheses, if one opens them.
    fn eat_options(&mut self)
        ensures { Eats opened_options self.old self.new }
    {
        if self.first() == '(' {
            let end = options_end(self.text(), self.place());
            self.move_to(end);
        }
    }

    /// Eats the arguments, with the blanks between them.
    fn eat_arguments(&mut self)
        ensures { Eats (arguments Outside) self.old self.new }
    {
        let end = arguments_end(self.text(), self.place());
        self.move_to(end);
    }
}

/// How the letters of a word are compared.
#[derive(Clone, Copy)]
enum LetterCase {
    /// As they are.
    Exact,
    /// Capital and small letters alike.
    Any,
}

/// The words that do something. `copy` is known whatever the case of its letters.
#[rattlefmt::skip]
const WORDS: [(&[u8], LetterCase, Command); 32] = [
    (b"g", LetterCase::Exact, Command::SendsQuery),
    (b"gx", LetterCase::Exact, Command::SendsQuery),
    (b"gdesc", LetterCase::Exact, Command::EndsQuery),
    (b"gexec", LetterCase::Exact, Command::EndsQuery),
    (b"gset", LetterCase::Exact, Command::EndsQuery),
    (b"getresults", LetterCase::Exact, Command::EndsQuery),
    (b"crosstabview", LetterCase::Exact, Command::EndsQuery),
    (b"watch", LetterCase::Exact, Command::EndsQuery),
    (b"parse", LetterCase::Exact, Command::EndsQuery),
    (b"close_prepared", LetterCase::Exact, Command::EndsQuery),
    (b"sendpipeline", LetterCase::Exact, Command::EndsQuery),
    (b"startpipeline", LetterCase::Exact, Command::EndsQuery),
    (b"syncpipeline", LetterCase::Exact, Command::EndsQuery),
    (b"endpipeline", LetterCase::Exact, Command::EndsQuery),
    (b"flush", LetterCase::Exact, Command::EndsQuery),
    (b"flushrequest", LetterCase::Exact, Command::EndsQuery),
    (b"r", LetterCase::Exact, Command::EndsQuery),
    (b"reset", LetterCase::Exact, Command::EndsQuery),
    (b"o", LetterCase::Exact, Command::TakesPipe),
    (b"out", LetterCase::Exact, Command::TakesPipe),
    (b"w", LetterCase::Exact, Command::TakesPipe),
    (b"write", LetterCase::Exact, Command::TakesPipe),
    (b"!", LetterCase::Exact, Command::ReadsLine),
    (b"ef", LetterCase::Exact, Command::ReadsLine),
    (b"ev", LetterCase::Exact, Command::ReadsLine),
    (b"sf", LetterCase::Exact, Command::ReadsLine),
    (b"sf+", LetterCase::Exact, Command::ReadsLine),
    (b"sv", LetterCase::Exact, Command::ReadsLine),
    (b"sv+", LetterCase::Exact, Command::ReadsLine),
    (b"h", LetterCase::Exact, Command::ReadsLine),
    (b"help", LetterCase::Exact, Command::ReadsLine),
    (b"copy", LetterCase::Any, Command::ReadsLine),
];

/// What a word does.
#[tactic(auto, unfolding(crate::specs::Psql::meaning))]
fn command_of<T: Text>(word: &T) -> Command
    ensures { result ≡ meaning (T.bytes word.now) }
{
    by_table(word, &WORDS)
}

/// What it does by a table of words.
fn by_table<T: Text>(word: &T, words: &[(&[u8], LetterCase, Command)]) -> Command
    ensures { result ≡ found (map row words.now) (T.bytes word.now) }
{
    for (letters, case, command) in words {
        if is_word(word, letters, *case) {
            return *command;
        }
    }
    Command::Nothing
}

/// Whether a text is a word of these letters.
fn is_word<T: Text>(text: &T, letters: &[u8], case: LetterCase) -> bool
    ensures { result ≡ spelt (fold case) letters.now (T.bytes text.now) }
{
    letters.len() == text.len() as usize
        && (0..text.len()).zip(letters).all(|(place, letter)| {
            matches!(text.byte(place), Some(byte) if *letter == folded(byte, case))
        })
}

/// The byte, as a small letter where capital and small letters are alike.
fn folded(byte: u8, case: LetterCase) -> u8
    ensures { result ≡ fold case byte }
{
    match case {
        LetterCase::Exact => byte,
        LetterCase::Any => byte.to_ascii_lowercase(),
    }
}
