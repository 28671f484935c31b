//! Graphs with and without the bytes of their large binaries.
ghost use Rattle.std.specs.Prelude.{◌≡◌, ◌≤◌, ◌<◌, ◌++◌, true, All, length, map, flat_map, zip};
ghost use Rattle.std.specs.Prelude.{IfOk, OnOk};
ghost use Rattle.std.specs.List.{enumerate_from};
ghost use Rattle.std.specs.Vec.Iter.{into_iter_items, into_iter_len};
ghost use Rattle.newt_graph.specs.declared.node.Node.TheVariants.{Large};
ghost use Rattle.newt_graph.specs.Graph.{payload};
ghost use Rattle.newt_spec_nsof.specs.Lengths.{bare, skeleton};
ghost use Rattle.newt_spec_store.specs.Image.{large_in, larges};
ghost use Rattle.newt_spec_store.specs.Laid.{row_of_large};
ghost use Rattle.newt_spec_store.specs.Valid.{valid_entry};
ghost use Rattle.newt_entries.specs.Entry.{row_at, fits, filled, AreRowsOf};
ghost use Rattle.newt_entries.specs.Filling.{bytes_in, length_in, next_of, put_node, put_in};
ghost use Rattle.newt_entries.specs.Filling.{HasBytes};

use crate::row::{EntryRow, LargeAt, Larges};
use newt_base::{Sig, Uid};
use newt_graph::{Bytes, Graph, Node};
use std::alloc::{AllocError, Global};
use std::vec::IntoIter;

/// A node without the bytes of a large binary.
fn bare(alloc: Global, node: &Node) -> Result<Node, AllocError>
    ensures { IfOk result (λ n. n ≡ bare node.now) }
{
    match node {
        Node::Large(class, _) => Ok(Node::Large(*class, Bytes::of(Vec::new(alloc)))),
        Node::Symbol(_)
        | Node::Str(_)
        | Node::Binary(_, _)
        | Node::Array(_, _)
        | Node::Frame(_, _) => node.copy(),
    }
}

/// The nodes without the bytes of large binaries.
fn all_bare(alloc: Global, nodes: &[Node]) -> Result<Vec<Node>, AllocError>
    ensures { IfOk result (λ v. v.items ≡ map bare nodes.now) }
{
    let mut out = Vec::new(alloc);
    for node in nodes {
        out.push(bare(alloc, node)?)?;
    }
    Ok(out)
}

/// A graph without the bytes of its large binaries.
pub fn skeleton(alloc: Global, graph: &Graph) -> Result<Graph, AllocError>
    ensures { IfOk result (λ g. g ≡ skeleton graph.now) }
{
    let nodes = all_bare(alloc, graph.nodes())?;
    Ok(Graph::of(nodes, graph.root()))
}

/// A large binary of this class.
fn large(class: u32, bytes: Vec<u8>) -> Node
    ensures value { result ≡ Large class bytes.items }
    ensures bytes { HasBytes result }
{
    Node::Large(class, Bytes::of(bytes))
}

/// The next of these bytes, or none where there are no more.
fn next_bytes(alloc: Global, left: &mut IntoIter<Vec<u8>, Global>) -> Vec<u8>
    requires { into_iter_len left.old ≡ length (into_iter_items left.old) }
    ensures value { next_of (map (λ bytes. bytes.items) (into_iter_items left.old))
        ≡ (result.items, map (λ bytes. bytes.items) (into_iter_items left.new)) }
    ensures counted { into_iter_len left.new ≡ length (into_iter_items left.new) }
{
    match left.next() {
        Some(bytes) => bytes,
        None => Vec::new(alloc),
    }
}

/// A node with the next of these bytes, if it is a large binary.
fn put_node(
    alloc: Global,
    node: &Node,
    left: &mut IntoIter<Vec<u8>, Global>,
) -> Result<Node, AllocError>
    requires { into_iter_len left.old ≡ length (into_iter_items left.old) }
    ensures value { IfOk result (λ n. put_node node.now (map (λ bytes. bytes.items)
        (into_iter_items left.old)) ≡ (n, map (λ bytes. bytes.items) (into_iter_items left.new))) }
    ensures counted { OnOk result (into_iter_len left.new ≡ length (into_iter_items left.new)) }
    ensures bytes { IfOk result HasBytes }
{
    match node {
        Node::Large(class, _) => Ok(large(*class, next_bytes(alloc, left))),
        Node::Symbol(_)
        | Node::Str(_)
        | Node::Binary(_, _)
        | Node::Array(_, _)
        | Node::Frame(_, _) => node.copy(),
    }
}

/// The nodes of a skeleton with these bytes in its large binaries.
fn put_in(alloc: Global, nodes: &[Node], larges: Vec<Vec<u8>>) -> Result<Vec<Node>, AllocError>
    ensures value { IfOk result (λ v. v.items ≡ put_in nodes.now
        (map (λ bytes. bytes.items) larges.items)) }
    ensures bytes { IfOk result (λ v. All HasBytes v.items) }
{
    let mut out = Vec::new(alloc);
    let mut left = larges.into_iter();
    for node in nodes {
        out.push(put_node(alloc, node, &mut left)?)?;
    }
    Ok(out)
}

/// The graph of a row, with these bytes in its large binaries: the bytes of its objects, in order.
pub fn filled(alloc: Global, row: &EntryRow, larges: Vec<Vec<u8>>) -> Result<Graph, AllocError>
    requires fit { fits (map row_at row.now.larges) row.now.skeleton ≡ true }
    requires lengths { map (λ bytes. length bytes.items) larges.items
        ≡ map (λ l. l.length) row.now.larges }
    ensures value { IfOk result (λ g. g ≡ filled (map row_at row.now.larges) row.now.skeleton
        (map (λ bytes. bytes.items) larges.items)) }
    ensures valid { IfOk result (λ g. valid_entry (record {
      uid = row.now.uid;
      time = row.now.time;
      graph = g;
    }) ≡ true) }
{
    let nodes = put_in(alloc, row.skeleton.nodes(), larges)?;
    Ok(Graph::of(nodes, row.skeleton.root()))
}

/// The same graph, of a row by value: where it has no large binaries, nothing is copied.
pub fn whole(alloc: Global, row: EntryRow, larges: Vec<Vec<u8>>) -> Result<Graph, AllocError>
    requires fit { fits (map row_at row.larges) row.skeleton ≡ true }
    requires lengths { map (λ bytes. length bytes.items) larges.items
        ≡ map (λ l. l.length) row.larges }
    ensures value { IfOk result (λ g. g ≡ filled (map row_at row.larges) row.skeleton
        (map (λ bytes. bytes.items) larges.items)) }
    ensures valid { IfOk result (λ g. valid_entry (record {
      uid = row.uid;
      time = row.time;
      graph = g;
    }) ≡ true) }
{
    if !larges.is_empty() {
        return filled(alloc, &row, larges);
    }
    // Its contract tells that the skeleton is a graph.
    let _root = row.skeleton.root();
    Ok(row.skeleton)
}

/// Puts a copy of the bytes of a large binary after others.
fn add_bytes(larges: &mut Vec<Vec<u8>>, alloc: Global, node: &Node) -> Result<(), AllocError>
    ensures { OnOk result (map (λ bytes. bytes.items) larges.new.items ≡ map (λ bytes. bytes.items)
        larges.old.items ++ bytes_in node.now) }
{
    match node {
        Node::Large(_, bytes) => larges.push(Vec::from_slice(alloc, bytes.list())?)?,
        Node::Symbol(_)
        | Node::Str(_)
        | Node::Binary(_, _)
        | Node::Array(_, _)
        | Node::Frame(_, _) => {}
    }
    Ok(())
}

/// The bytes of each large binary of nodes, in order.
fn larges_in(alloc: Global, nodes: &[Node]) -> Result<Vec<Vec<u8>>, AllocError>
    ensures { IfOk result (λ v. map (λ bytes. bytes.items) v.items ≡ flat_map bytes_in nodes.now) }
{
    let mut out = Vec::new(alloc);
    for node in nodes {
        add_bytes(&mut out, alloc, node)?;
    }
    Ok(out)
}

/// The bytes of each large binary of a graph, in the order of their nodes.
pub fn larges_of(alloc: Global, graph: &Graph) -> Result<Vec<Vec<u8>>, AllocError>
    ensures { IfOk result (λ v. map (λ bytes. bytes.items) v.items ≡ map (λ l. l.1)
        (larges graph.now)) }
{
    let larges = larges_in(alloc, graph.nodes())?;
    Ok(larges)
}

/// How many bytes a large binary has.
fn length_in(node: &Node) -> Option<u32>
    requires { payload node.now ≤ 1000000 }
    ensures { result ≡ length_in node.now }
{
    match node {
        Node::Large(_, bytes) => Some(bytes.list().len() as u32),
        Node::Symbol(_)
        | Node::Str(_)
        | Node::Binary(_, _)
        | Node::Array(_, _)
        | Node::Frame(_, _) => None,
    }
}

/// The rows of the large binaries of nodes, which have these objects.
fn rows_of(alloc: Global, nodes: &[Node], ids: &[u32]) -> Result<Vec<LargeAt>, AllocError>
    requires few { length nodes.now ≤ 65535 }
    requires short { All (λ node. payload node ≤ 1000000) nodes.now }
    ensures { IfOk result (λ rows. map row_at rows.items ≡ map row_of_large
        (zip (flat_map large_in (enumerate_from 0 nodes.now)) ids.now)) }
{
    let mut rows = Vec::new(alloc);
    let mut left = nodes;
    let mut unused = ids;
    let mut number = 0;
    while let [node, rest @ ..] = left {
        match length_in(node) {
            Some(length) => {
                let [object, others @ ..] = unused else {
                    return Ok(rows);
                };
                rows.push(LargeAt {
                    node: number,
                    object: *object,
                    length,
                })?;
                unused = others;
            }
            None => {}
        }
        left = rest;
        number += 1;
    }
    Ok(rows)
}

/// The row to be written for an entry with this graph, whose large binaries have these objects.
pub fn row_of(
    alloc: Global,
    soup: Sig,
    uid: Uid,
    time: u32,
    graph: &Graph,
    ids: &[u32],
) -> Result<EntryRow, AllocError>
    requires { length (larges graph.now) ≡ length ids.now }
    ensures head { IfOk result (λ row. (row.soup ≡ soup) × (row.uid ≡ uid) × (row.time ≡ time)) }
    ensures rows { IfOk result (λ row. AreRowsOf row.skeleton row.larges graph.now ids.now) }
    ensures few { IfOk result (λ row. length row.larges < 65536) }
{
    let larges = rows_of(alloc, graph.nodes(), ids)?;
    Ok(EntryRow {
        soup,
        uid,
        time,
        skeleton: skeleton(alloc, graph)?,
        larges: Larges::of(larges),
    })
}
