//! Why a table is not filled.

ghost use Rattle.table.specs.Faults.{table_fault};
ghost use Rattle.table.specs.declared.fault.TableFault.TheVariants.{InText};
ghost use Rattle.std.specs.Prelude.{◌≡◌};

use text::{Fault, Layer, TextFault};

/// Why a table is not filled.
#[derive(Clone, Copy, PartialEq, Eq, Debug)]
pub enum TableFault {
    /// The text is unfit to be read.
    InText(TextFault),
    /// The table has fewer entries than the text has tokens.
    TooFewEntries { tokens: u32 },
}

impl From<TextFault> for TableFault {
    ghost from_gives = { λ e r. r ≡ InText e };

    fn from(in_text: TextFault) -> TableFault {
        TableFault::InText(in_text)
    }
}

impl TableFault {
    /// The number, place and layer of the fault.
    pub fn fault(self) -> Fault
        ensures { result ≡ table_fault self }
    {
        match self {
            TableFault::InText(fault) => fault.fault(),
            TableFault::TooFewEntries { tokens } => Fault {
                number: 11,
                place: tokens,
                layer: Layer::Table,
            },
        }
    }
}
