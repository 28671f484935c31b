//! Whether a script goes on after some lines, and why a run ends early.

/// Whether the script goes on after some lines.
#[derive(Clone, Copy, Debug, PartialEq, Eq)]
pub(crate) enum Flow {
    Go,
    Quit,
}

/// Why a run ends before its script.
#[derive(Clone, Copy, Debug, PartialEq, Eq)]
pub enum Halt {
    /// Memory was refused.
    Memory,
    /// The input failed.
    Source,
    /// The output failed.
    Sink,
    /// The input has more bytes than are read.
    TooLong,
}
