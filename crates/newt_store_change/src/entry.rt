//! One entry of a store.
use newt_base::Uid;
use newt_graph::Graph;

/// An entry: its id, the minute of its last change since midnight of 1 January 1904, and its graph.
#[derive(Drop)]
pub struct Entry {
    pub uid: Uid,
    pub time: u32,
    pub graph: Graph,
}
