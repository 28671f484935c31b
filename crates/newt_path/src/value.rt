//! The value that a path reaches.
ghost use Rattle.std.specs.Prelude.{◌≡◌, None, Some, slice_get};
ghost use Rattle.newt_spec_graph.specs.Graph.{object};
ghost use Rattle.newt_spec_graph.specs.Slots.{is_named, slot_number, slot_value, value_at};
ghost use Rattle.newt_spec_graph.specs.Slots.{value_below};

use crate::path::Path;
use newt_graph::{Bytes, Graph, Node, Ref};

/// The value that the path reaches from the root, slot by slot. None exactly where a slot on the
/// way, the last one included, is missing, or a step is not taken from a frame. It takes no memory.
pub fn value_at(graph: &Graph, path: &Path) -> Option<Ref>
    ensures { result ≡ value_at graph.now path.now }
{
    value_below(graph.nodes(), graph.root(), path.list())
}

/// The same from any value.
pub(crate) fn value_below(nodes: &[Node], value: Ref, names: &[Bytes]) -> Option<Ref>
    ensures { result ≡ value_below nodes.now value names.now }
{
    let mut value = value;
    for name in names {
        value = slot_value(nodes, value, name.list())?;
    }
    Some(value)
}

/// The value of a frame's slot of this name but for ASCII case. None exactly where the value is no
/// frame, or has no such slot. It takes no memory.
pub fn slot_value(nodes: &[Node], value: Ref, name: &[u8]) -> Option<Ref>
    ensures { result ≡ slot_value nodes.now name.now (object nodes.now value) }
{
    let Ref::Node(n) = value else {
        return None;
    };
    let Some(Node::Frame(tags, values)) = nodes.get(n as usize) else {
        return None;
    };
    let i = slot_number(nodes, tags.list(), name)?;
    values.list().get(i).copied()
}

/// The number of the slot that has this name, by the frame's tags.
fn slot_number(nodes: &[Node], tags: &[u32], name: &[u8]) -> Option<usize>
    ensures { result ≡ slot_number nodes.now name.now tags.now }
{
    tags.iter().position(|tag| is_named(nodes, *tag, name))
}

/// Whether there is a node n and it has this name.
fn is_named(nodes: &[Node], n: u32, name: &[u8]) -> bool
    ensures { result ≡ is_named name.now (slice_get nodes.now n) }
{
    match nodes.get(n as usize) {
        Some(node) => has_name(node, name),
        None => false,
    }
}

/// Whether a node is a symbol of this name but for ASCII case.
pub fn has_name(node: &Node, name: &[u8]) -> bool
    ensures { result ≡ is_named name.now (Some node.now) }
{
    match node {
        Node::Symbol(other) => name.eq_ignore_ascii_case(other.list()),
        _ => false,
    }
}
