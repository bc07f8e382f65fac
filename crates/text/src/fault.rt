//! Why a text is not read, and what every fault tells.

ghost use Rattle.std.specs.Prelude.{◌≡◌};
ghost use Rattle.text.specs.Faults.{text_fault};

use crate::LONGEST;

/// Why a text is unfit to be read.
#[derive(Clone, Copy, PartialEq, Eq, Debug)]
pub enum TextFault {
    /// It has more than `LONGEST` bytes.
    TooLong,
    /// It is not well-formed UTF-8: the first sequence that is not begins at `place`.
    IllFormed { place: u32 },
}

/// The part of the reader that checks for a fault.
#[derive(Clone, Copy, PartialEq, Eq, Debug)]
pub enum Layer {
    Text,
    Table,
    Program,
}

/// What a fault tells, whichever part met it. Users know faults by number.
#[derive(Clone, Copy, PartialEq, Eq, Debug)]
pub struct Fault {
    pub number: u8,
    pub place: u32,
    pub layer: Layer,
}

impl TextFault {
    /// The number, place and layer of the fault. Each layer has its own definition of them.
    pub fn fault(self) -> Fault
        ensures { result ≡ text_fault self }
    {
        match self {
            TextFault::TooLong => Fault {
                number: 1,
                place: LONGEST,
                layer: Layer::Text,
            },
            TextFault::IllFormed { place } => Fault {
                number: 2,
                place,
                layer: Layer::Text,
            },
        }
    }
}
