//! Why the program refuses its input.

ghost use Rattle.listing.specs.Faults.{program_fault};
ghost use Rattle.listing.specs.declared.fault.ProgramFault.TheVariants.{InText};
ghost use Rattle.listing.specs.Lines.{refused_words};
ghost use Rattle.std.specs.Prelude.{◌≡◌, Some};

use std::fmt;
use text::{Fault, Layer, TextFault};

/// The longest input that the program lists, in bytes.
pub const LONGEST_INPUT: u32 = 65536;

/// Why the program refuses its input.
#[derive(Clone, Copy, PartialEq, Eq, Debug)]
pub enum ProgramFault {
    /// The input is no fit text.
    InText(TextFault),
    /// The input has more than `LONGEST_INPUT` bytes.
    InputTooLong,
}

impl From<TextFault> for ProgramFault {
    ghost from_gives = { λ e r. r ≡ InText e };

    fn from(in_text: TextFault) -> ProgramFault {
        ProgramFault::InText(in_text)
    }
}

impl ProgramFault {
    /// The number, place and layer of the fault.
    pub fn fault(self) -> Fault
        ensures { result ≡ program_fault self }
    {
        match self {
            ProgramFault::InText(fault) => fault.fault(),
            ProgramFault::InputTooLong => Fault {
                number: 13,
                place: LONGEST_INPUT,
                layer: Layer::Program,
            },
        }
    }
}

impl fmt::Display for ProgramFault {
    ghost output = { λ x. Some (refused_words (program_fault x)) };

    fn fmt<W: fmt::Write>(&self, f: &mut fmt::Formatter<W>) -> fmt::Result {
        let Fault { number, place, .. } = self.fault();
        write!(f, "refused {number} {place}")
    }
}
