//! Why bytes are not a flat text.

/// Why bytes were not read as the flat text of a graph.
#[derive(Clone, Copy, Debug, PartialEq, Eq)]
pub enum FlatFault {
    /// The bytes are the flat text of no graph.
    Bad,
    /// Memory was refused.
    Memory,
}
