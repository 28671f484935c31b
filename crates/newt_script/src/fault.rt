//! Why a line is no command.
ghost use Rattle.std.specs.Prelude.{◌≡◌};
ghost use Rattle.newt_script.specs.Faults.{of_words};

use newt_base::Refusal;
use newt_script_words::WordFault;

/// Why a line is not taken for a command.
#[derive(Clone, Copy, PartialEq, Eq, Debug)]
pub enum LineFault {
    /// The first refusal of its reading that holds: `Longline`, `Command`, `Line`, `Malformed`,
    /// `Compressed` or `Literal`.
    Refused(Refusal),
    /// Memory was refused.
    Memory,
}

impl LineFault {
    /// The words do not have the form of the command.
    pub const FORM: LineFault = LineFault::Refused(Refusal::Line);
}

impl From<WordFault> for LineFault {
    ghost from_gives = { λ word fault. fault ≡ of_words word };

    fn from(fault: WordFault) -> LineFault {
        match fault {
            WordFault::Form => LineFault::FORM,
            WordFault::Memory => LineFault::Memory,
        }
    }
}
