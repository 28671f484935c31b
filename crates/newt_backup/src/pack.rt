//! A store packed as its backup.
ghost use Rattle.std.specs.Prelude.{◌≡◌, ◌≤◌, ◌++◌, ◌∷◌, [], codes, length, map, All, OnOk, IfOk};
ghost use Rattle.newt_graph.specs.declared.node.Node.TheVariants.{Symbol, Frame};
ghost use Rattle.newt_graph.specs.declared.node.Ref.TheVariants.{Node as At};
ghost use Rattle.newt_backup.specs.Backup.{first_cut, packed, backup, CanPack};
ghost use Rattle.newt_backup.specs.Contents.{text_of, store_in, IsSmall, AreKept};

use crate::cutting::{CLASS, PIECE, pieces_for, put_pieces, put_row};
use crate::nodes::{numbers, put_cuts};
use newt_entries::FullEntry;
use newt_graph::{Bytes, Graph, Node, Ref, Refs, Tags};
use newt_soupdir::{Directory, write_directory};
use std::alloc::{AllocError, Global};

/// The symbol of this name.
fn symbol(alloc: Global, name: &[u8]) -> Result<Node, AllocError>
    ensures { IfOk result (λ n. n ≡ Symbol name.now) }
{
    Ok(Node::Symbol(Bytes::of(Vec::from_slice(alloc, name)?)))
}

/// The frame of the directory's cut and of the array of the entries, which is this node.
fn frame(alloc: Global, entries_at: u32) -> Result<Node, AllocError>
    ensures { IfOk result (λ n. n ≡ Frame (1 ∷ 2 ∷ []) (At 3 ∷ At entries_at ∷ [])) }
{
    let tags = vec![in alloc; 1, 2]?;
    let values = vec![in alloc; Ref::Node(3), Ref::Node(entries_at)]?;
    Ok(Node::Frame(Tags::of(tags), Refs::of(values)))
}

/// The frame, and its tags.
fn put_frame(alloc: Global, nodes: &mut Vec<Node>, entries_at: u32) -> Result<(), AllocError>
    ensures { OnOk result (nodes.new.items ≡ nodes.old.items
        ++ (Frame (1 ∷ 2 ∷ []) (At 3 ∷ At entries_at ∷ []) ∷ Symbol (codes "directory")
        ∷ Symbol (codes "entries") ∷ [])) }
{
    nodes.push(frame(alloc, entries_at)?)?;
    nodes.push(symbol(alloc, b"directory")?)?;
    nodes.push(symbol(alloc, b"entries")?)?;
    Ok(())
}

/// Puts the bytes that stand first, as node 3, and the class of all pieces.
fn put_first(alloc: Global, nodes: &mut Vec<Node>, bytes: &[u8]) -> Result<(), AllocError>
    requires { length bytes.now ≤ 7_989_000 }
    ensures { OnOk result (nodes.new.items ≡ nodes.old.items ++ first_cut bytes.now) }
{
    let size = bytes.len().min(PIECE);
    let others = &bytes[size..];
    let mut values = Vec::new(alloc);
    values.push(Ref::Node(4))?;
    put_row(&mut values, 6, pieces_for(others.len() as u64) as u32)?;
    nodes.push(Node::Array(None, Refs::of(values)))?;
    let first = Bytes::of(Vec::from_slice(alloc, &bytes[..size])?);
    nodes.push(Node::Binary(CLASS, first))?;
    nodes.push(symbol(alloc, b"bytes")?)?;
    put_pieces(alloc, nodes, others)?;
    Ok(())
}

/// The nodes of a backup, from the bytes of a directory and from entries.
fn pack_nodes(
    alloc: Global,
    directory: &[u8],
    entries: &[FullEntry],
) -> Result<Vec<Node>, AllocError>
    requires can { CanPack directory.now (map text_of entries.now) }
    requires fit { All IsSmall entries.now }
    ensures { IfOk result (λ v. v.items ≡ (packed directory.now (map text_of entries.now)).nodes) }
{
    let others = directory.len() - directory.len().min(PIECE);
    let at = 6 + pieces_for(others as u64) as u32;
    let mut nodes = Vec::new(alloc);
    put_frame(alloc, &mut nodes, at)?;
    put_first(alloc, &mut nodes, directory)?;
    let values = numbers(alloc, at + 1, entries)?;
    nodes.push(Node::Array(None, Refs::of(values)))?;
    put_cuts(alloc, &mut nodes, entries)?;
    Ok(nodes)
}

/// The backup of a store, from its directory and all its entries, in its order.
pub fn pack_backup(
    alloc: Global,
    directory: &Directory,
    entries: &[FullEntry],
) -> Result<Graph, AllocError>
    requires { AreKept directory.now entries.now }
    ensures { IfOk result (λ g. g ≡ backup (store_in directory.now entries.now)) }
{
    let bytes = write_directory(alloc, directory)?;
    let nodes = pack_nodes(alloc, &bytes, entries)?;
    Ok(Graph::of(nodes, Ref::Node(0)))
}
