//! Bytes as the plain array of their pieces.
ghost use Rattle.std.specs.Prelude.{◌≡◌, ◌≤◌, ◌+◌, ◌/◌, ◌++◌, length, map, OnOk, IfOk};
ghost use Rattle.newt_graph.specs.declared.node.Node.TheVariants.{Binary};
ghost use Rattle.newt_backup.specs.Backup.{in_a_row, piece_count, pieces, cut};

use newt_graph::{Bytes, Node, Ref, Refs};
use std::alloc::{AllocError, Global};

/// The most bytes of a piece.
pub(crate) const PIECE: usize = 500_000;

/// The node that is the class of all pieces.
pub(crate) const CLASS: u32 = 5;

/// How many pieces so many bytes are cut into.
pub(crate) fn pieces_for(length: u64) -> u64
    requires { length ≤ 100000000 }
    ensures { result ≡ (length + 499_999) / 500_000 }
{
    (length + 499_999) / 500_000
}

/// So many nodes in a row, from this number on.
pub(crate) fn put_row(values: &mut Vec<Ref>, at: u32, count: u32) -> Result<(), AllocError>
    requires { at + count ≤ 65536 }
    ensures { OnOk result (values.new.items ≡ values.old.items ++ in_a_row at count) }
{
    for k in 0..count {
        values.push(Ref::Node(at + k))?;
    }
    Ok(())
}

/// Puts the pieces of bytes after other nodes.
pub(crate) fn put_pieces(
    alloc: Global,
    nodes: &mut Vec<Node>,
    bytes: &[u8],
) -> Result<(), AllocError>
    ensures { OnOk result (nodes.new.items ≡ nodes.old.items ++ map (Binary 5) (pieces bytes.now)) }
{
    let mut left = bytes;
    while !left.is_empty() {
        let size = left.len().min(PIECE);
        let piece = Bytes::of(Vec::from_slice(alloc, &left[..size])?);
        nodes.push(Node::Binary(CLASS, piece))?;
        left = &left[size..];
    }
    Ok(())
}

/// Puts bytes after other nodes: the array of their pieces, and the pieces.
pub(crate) fn put_cut(alloc: Global, nodes: &mut Vec<Node>, bytes: &[u8]) -> Result<(), AllocError>
    requires few { length nodes.old.items + (1 + piece_count bytes.now) ≤ 65535 }
    requires short { length bytes.now ≤ 100000000 }
    ensures { OnOk result (nodes.new.items
        ≡ nodes.old.items ++ cut (length nodes.old.items) bytes.now) }
{
    let at = nodes.len() as u32;
    let mut values = Vec::new(alloc);
    put_row(&mut values, at + 1, pieces_for(bytes.len() as u64) as u32)?;
    nodes.push(Node::Array(None, Refs::of(values)))?;
    put_pieces(alloc, nodes, bytes)
}
