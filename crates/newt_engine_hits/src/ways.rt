//! The two ways along the hits of a query.

/// On to the last hit, or back to the first.
#[derive(Clone, Copy, PartialEq, Eq, Debug)]
pub enum Way {
    On,
    Back,
}
