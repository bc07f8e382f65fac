//! A checker of UTF-8, which is fed a text's bytes one by one.

ghost use Rattle.std.specs.Prelude.{◌≡◌};
ghost use Rattle.text.specs.Checker.{between, none_left, progress, step, RunsByTable};

/// How far the checker has come in a sequence. Where the second byte has the usual range, the states go by how
/// many bytes were taken and of how many; four first bytes narrow the range of the second.
#[derive(Clone, Copy)]
enum State {
    Between,
    OneOfTwo,
    AfterE0,
    OneOfThree,
    AfterED,
    AfterF0,
    OneOfFour,
    AfterF4,
    TwoOfThree,
    TwoOfFour,
    ThreeOfFour,
    /// A byte was met that cannot follow the `taken` bytes of its sequence.
    Ill { taken: u8 },
}

/// Says after each byte whether the bytes so far are well-formed UTF-8, or can still become so.
#[derive(Clone, Copy)]
pub struct Utf8Checker {
    state: State,
}

impl Utf8Checker {
    /// A checker that has met no byte. Fed the bytes of any list, it comes to where the table says.
    pub fn new() -> Utf8Checker
        ensures start { progress result ≡ between }
        ensures runs { RunsByTable }
    {
        Utf8Checker {
            state: State::Between,
        }
    }

    /// Moves by the state and the byte together, as the rows of the table of well-formed sequences go.
    pub fn feed(&mut self, byte: u8)
        ensures { progress self.new ≡ step (progress self.old) byte }
    {
        self.state = match (self.state, byte) {
            (State::Between, 0x00..=0x7F) => State::Between,
            (State::Between, 0xC2..=0xDF) => State::OneOfTwo,
            (State::Between, 0xE0) => State::AfterE0,
            (State::Between, 0xE1..=0xEC | 0xEE..=0xEF) => State::OneOfThree,
            (State::Between, 0xED) => State::AfterED,
            (State::Between, 0xF0) => State::AfterF0,
            (State::Between, 0xF1..=0xF3) => State::OneOfFour,
            (State::Between, 0xF4) => State::AfterF4,
            (State::AfterE0, 0xA0..=0xBF) => State::TwoOfThree,
            (State::AfterED, 0x80..=0x9F) => State::TwoOfThree,
            (State::OneOfThree, 0x80..=0xBF) => State::TwoOfThree,
            (State::AfterF0, 0x90..=0xBF) => State::TwoOfFour,
            (State::AfterF4, 0x80..=0x8F) => State::TwoOfFour,
            (State::OneOfFour, 0x80..=0xBF) => State::TwoOfFour,
            (State::TwoOfFour, 0x80..=0xBF) => State::ThreeOfFour,
            (State::OneOfTwo, 0x80..=0xBF) => State::Between,
            (State::TwoOfThree, 0x80..=0xBF) => State::Between,
            (State::ThreeOfFour, 0x80..=0xBF) => State::Between,
            _ => State::Ill {
                taken: self.taken(),
            },
        };
    }

    /// How many bytes were taken of the sequence that is unfinished or ill-formed: 0 to 3.
    pub fn taken(&self) -> u8
        ensures { result ≡ (progress self.now).taken }
    {
        match self.state {
            State::Between => 0,
            State::OneOfTwo | State::OneOfThree | State::OneOfFour => 1,
            State::AfterE0 | State::AfterED | State::AfterF0 | State::AfterF4 => 1,
            State::TwoOfThree | State::TwoOfFour => 2,
            State::ThreeOfFour => 3,
            State::Ill { taken } => taken,
        }
    }

    /// Whether a byte was met that no row of the table allows.
    pub fn is_ill(&self) -> bool
        ensures { result ≡ none_left (progress self.now).rows }
    {
        matches!(self.state, State::Ill { .. })
    }
}
