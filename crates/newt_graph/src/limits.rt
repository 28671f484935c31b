//! The limits of a builder, of a node and of a graph. They are this project's own.

/// How many nodes a builder has at most.
pub(crate) const MOST_HELD: usize = 131_072;

/// How many bytes the strings and binaries of a builder have together at most.
pub(crate) const MOST_HELD_BYTES: usize = 33_554_432;

/// How many slots an array or a frame has at most.
pub const MOST_SLOTS: usize = 65_535;

/// How many bytes a string, with its last unit, a binary or a large binary has at most.
pub const MOST_DATA: usize = 1_000_000;

/// How many nodes a graph has at most.
pub const MOST_NODES: usize = 65_535;

/// How many bytes the strings and binaries of a graph have together at most.
pub const MOST_BYTES: usize = 16_777_216;

/// How many arrays and frames of a graph are open within one another at most.
pub const MOST_OPEN: u8 = 200;
