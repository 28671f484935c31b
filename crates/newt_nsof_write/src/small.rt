//! Frames that are written as small rectangles.
ghost use Rattle.std.specs.Prelude.{◌≡◌, false, Some, length, nat_lt, slice_get};
ghost use Rattle.newt_graph.specs.Draft.{is_alike};
ghost use Rattle.newt_spec_nsof.specs.Written.{side_byte, is_spelled, are_sides, side_bytes};
ghost use Rattle.newt_spec_nsof.specs.Written.{small_frame};
ghost use Rattle.newt_spec_nsof.specs.Text.{sides};

use newt_graph::{Node, Ref};

/// The byte of an integer from 0 to 255.
fn side_byte(value: Ref) -> Option<u8>
    ensures { result ≡ side_byte value }
{
    match value {
        Ref::Imm(word) if 0 <= word && word < 1024 && word % 4 == 0 => Some((word / 4) as u8),
        _ => None,
    }
}

/// Whether a node is the symbol of this side, however it is spelled.
fn is_alike(node: &Node, side: &[u8]) -> bool
    ensures { result ≡ is_alike side.now node.now }
{
    match node {
        Node::Symbol(name) => name.list().eq_ignore_ascii_case(side),
        Node::Str(_) => false,
        Node::Binary(_, _) => false,
        Node::Large(_, _) => false,
        Node::Array(_, _) => false,
        Node::Frame(_, _) => false,
    }
}

/// Whether a node is the symbol of this side in lower case.
fn is_lower(node: &Node, side: &[u8]) -> bool
    ensures { result ≡ is_spelled false side.now (Some node.now) }
{
    match node {
        Node::Symbol(name) => name.list() == side,
        Node::Str(_) => false,
        Node::Binary(_, _) => false,
        Node::Large(_, _) => false,
        Node::Array(_, _) => false,
        Node::Frame(_, _) => false,
    }
}

/// Whether a tag of frame node `n` is this side, as a reader would spell it.
fn is_side(nodes: &[Node], n: u32, tag: u32, side: &[u8]) -> bool
    ensures { result ≡ is_spelled (nat_lt tag n) side.now (slice_get nodes.now tag) }
{
    match nodes.get(tag as usize) {
        Some(node) => {
            if tag < n {
                is_alike(node, side)
            } else {
                is_lower(node, side)
            }
        }
        None => false,
    }
}

/// Whether the four tags of frame node `n` are the sides, in order.
#[tactic(auto, using(crate::proofs::Four::four_sides))]
fn are_sides(nodes: &[Node], n: u32, tags: &[u32]) -> bool
    requires { length tags.now ≡ 4 }
    ensures { result ≡ are_sides nodes.now n tags.now sides }
{
    let top = is_side(nodes, n, tags[0], b"top");
    let left = is_side(nodes, n, tags[1], b"left");
    let bottom = is_side(nodes, n, tags[2], b"bottom");
    let right = is_side(nodes, n, tags[3], b"right");
    top && left && bottom && right
}

/// The bytes of four values.
#[tactic(auto, using(crate::proofs::Four::four_bytes))]
fn side_bytes(values: &[Ref]) -> Option<[u8; 4]>
    requires { length values.now ≡ 4 }
    ensures { result ≡ side_bytes values.now }
{
    let top = side_byte(values[0])?;
    let left = side_byte(values[1])?;
    let bottom = side_byte(values[2])?;
    let right = side_byte(values[3])?;
    Some([top, left, bottom, right])
}

/// The four bytes of frame node `n`, where it is small.
#[tactic(auto, using(crate::proofs::Four::not_four), unfolding(newt_spec_nsof::specs::Written::small_frame))]
pub(crate) fn small(nodes: &[Node], n: u32, tags: &[u32], values: &[Ref]) -> Option<[u8; 4]>
    requires { length values.now ≡ length tags.now }
    ensures { result ≡ small_frame nodes.now n tags.now values.now }
{
    if tags.len() != 4 || !are_sides(nodes, n, tags) {
        return None;
    }
    side_bytes(values)
}
