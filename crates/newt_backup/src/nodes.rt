//! The nodes of a backup, in the order in which a walk meets them.
ghost use Rattle.std.specs.Prelude.{◌≡◌, ◌≤◌, ◌<◌, ◌+◌, ◌++◌, length, map, All, OnOk, IfOk};
ghost use Rattle.std.specs.List.{sum_by};
ghost use Rattle.newt_spec_nsof.specs.Lengths.{large_len};
ghost use Rattle.newt_backup.specs.Backup.{cuts, cuts_at, packed, full, piece_count};
ghost use Rattle.newt_backup.specs.Contents.{text_of, IsSmall};

use crate::cutting::{pieces_for, put_cut};
use newt_base::{push16, push32};
use newt_entries::FullEntry;
use newt_graph::{Node, Ref};
use newt_nsof_write::{encode_flat, skeleton_len};
use std::alloc::{AllocError, Global};

/// The bytes before the text of an entry's graph: soup signature, id and time.
pub(crate) const HEAD: usize = 10;

/// The bytes of an entry whole: its head, and the flat text of its graph.
fn write_full(alloc: Global, entry: &FullEntry) -> Result<Vec<u8>, AllocError>
    requires { entry.now.soup < 65536 }
    ensures { IfOk result (λ v. v.items ≡ text_of entry.now) }
{
    let mut out = Vec::new(alloc);
    push16(&mut out, entry.soup.0 as u16)?;
    push32(&mut out, entry.uid.0)?;
    push32(&mut out, entry.time)?;
    out.extend_from_slice(&encode_flat(alloc, &entry.graph)?)?;
    Ok(out)
}

/// How many bytes a large binary has; 0 for another node.
fn large_len(node: &Node) -> u64
    ensures { result ≡ large_len node.now }
{
    match node {
        Node::Large(_, bytes) => bytes.list().len() as u64,
        Node::Symbol(_)
        | Node::Str(_)
        | Node::Binary(_, _)
        | Node::Array(_, _)
        | Node::Frame(_, _) => 0,
    }
}

/// How many bytes the large binaries among nodes have.
fn larges_len(nodes: &[Node]) -> u64
    requires { sum_by large_len nodes.now ≤ 7_989_000 }
    ensures { result ≡ sum_by large_len nodes.now }
{
    let mut total = 0;
    for node in nodes {
        total += large_len(node);
    }
    total
}

/// How many bytes an entry has.
fn full_len(entry: &FullEntry) -> u64
    requires { length (text_of entry.now) ≤ 7_989_000 }
    ensures { result ≡ length (text_of entry.now) }
{
    let nodes = entry.graph.nodes();
    HEAD as u64 + skeleton_len(&entry.graph) + larges_len(nodes)
}

/// How many pieces an entry has.
fn full_pieces(entry: &FullEntry) -> u32
    requires { length (text_of entry.now) ≤ 7_989_000 }
    ensures { result ≡ piece_count (text_of entry.now) }
{
    pieces_for(full_len(entry)) as u32
}

/// Puts the entries after other nodes: the cut of each.
pub(crate) fn put_cuts(
    alloc: Global,
    nodes: &mut Vec<Node>,
    entries: &[FullEntry],
) -> Result<(), AllocError>
    requires fit { All IsSmall entries.now }
    requires few { length nodes.old.items
        + length (cuts (length nodes.old.items) (map text_of entries.now)) ≤ 65535 }
    ensures { OnOk result (nodes.new.items
        ≡ nodes.old.items ++ cuts (length nodes.old.items) (map text_of entries.now)) }
{
    let mut left = entries;
    while let [entry, rest @ ..] = left {
        let text = write_full(alloc, entry)?;
        put_cut(alloc, nodes, &text)?;
        left = rest;
    }
    Ok(())
}

/// The numbers of these cuts, of which the first is node `at`.
pub(crate) fn numbers(alloc: Global, at: u32, entries: &[FullEntry]) -> Result<Vec<Ref>, AllocError>
    requires fit { All IsSmall entries.now }
    requires few { at + length (cuts at (map text_of entries.now)) ≤ 65535 }
    ensures { IfOk result (λ v. v.items ≡ cuts_at at (map text_of entries.now)) }
{
    let mut values = Vec::new(alloc);
    let mut next = at;
    let mut left = entries;
    while let [entry, rest @ ..] = left {
        values.push(Ref::Node(next))?;
        next += 1 + full_pieces(entry);
        left = rest;
    }
    Ok(values)
}
