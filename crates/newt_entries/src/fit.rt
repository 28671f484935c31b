//! Whether a skeleton and its rows may be those of an entry.
ghost use Rattle.std.specs.Prelude.{◌≡◌, ◌≤◌, ◌*◌, ◌&&◌, true, nat_le, length, map};
ghost use Rattle.std.specs.List.{list_all, sum_by};
ghost use Rattle.newt_graph.specs.Graph.{payload};
ghost use Rattle.newt_spec_nsof.specs.Lengths.{skeleton as skeleton_of};
ghost use Rattle.newt_spec_nsof.specs.Flat.{flat};
ghost use Rattle.newt_spec_graph.specs.Graph as words;
ghost use Rattle.newt_spec_graph.specs.Limits.{within_limits};
ghost use Rattle.newt_spec_store.specs.Lies.{may_be_large, stretched};
ghost use Rattle.newt_entries.specs.Entry.{row_at, names_from, fits};

use crate::row::LargeAt;
use newt_graph::{Graph, MOST_BYTES, MOST_DATA, Node, payload};
use newt_nsof_flat::is_frame;
use newt_nsof_write::skeleton_len;

/// The most bytes of an entry's text.
pub const MOST_TEXT: u64 = 64_000;

/// Whether the rows name each large binary of the nodes, in order, and none of these has bytes.
fn are_named(nodes: &[Node], rows: &[LargeAt]) -> bool
    requires { length nodes.now ≤ 65535 }
    ensures { result ≡ names_from 0 nodes.now (map row_at rows.now) }
{
    let mut left = nodes;
    let mut named = rows;
    let mut number = 0;
    while let [node, rest @ ..] = left {
        if let Node::Large(_, bytes) = node {
            let [row, others @ ..] = named else {
                return false;
            };
            if row.node != number || !bytes.list().is_empty() {
                return false;
            }
            named = others;
        }
        left = rest;
        number += 1;
    }
    named.is_empty()
}

/// Whether an object may be that of a large binary: its number is even and not 0, which is the
/// directory's.
fn may_be_large(row: &LargeAt) -> bool
    ensures { result ≡ may_be_large (row_at row.now) }
{
    row.object % 2 == 0 && row.object > 0
}

/// Whether each object may be that of a large binary.
fn may_be_larges(rows: &[LargeAt]) -> bool
    ensures { result ≡ list_all (λ row. may_be_large (row_at row)) rows.now }
{
    rows.iter().all(|row| may_be_large(row))
}

/// The bytes of all strings, binaries and large binaries.
fn bytes_of(nodes: &[Node]) -> usize
    requires { sum_by payload nodes.now ≤ 16777216 }
    ensures { result ≡ sum_by payload nodes.now }
{
    let mut total = 0;
    for node in nodes {
        total += payload(node);
    }
    total
}

/// Whether no large binary is too long.
fn are_short(rows: &[LargeAt]) -> bool
    ensures { result ≡ list_all (λ row. nat_le row.length 1000000) rows.now }
{
    rows.iter().all(|row| row.length as usize <= MOST_DATA)
}

/// The bytes of all large binaries.
fn lengths_of(rows: &[LargeAt]) -> usize
    requires { length rows.now ≤ 65535 }
    ensures sum { result ≡ sum_by (λ row. row.length) rows.now }
    ensures below { result ≤ 65535 * 4294967295 }
{
    let mut total = 0;
    for row in rows {
        total += row.length as usize;
    }
    total
}

/// Whether a skeleton, with as many bytes in its large binaries as the rows say, is within the
/// limits of one graph.
fn is_within(skeleton: &Graph, rows: &[LargeAt]) -> bool
    requires { names_from 0 skeleton.now.nodes (map row_at rows.now) ≡ true }
    ensures { result ≡ within_limits (stretched (map row_at rows.now) skeleton.now) }
{
    let nodes = skeleton.nodes();
    are_short(rows) && bytes_of(nodes) + lengths_of(rows) <= MOST_BYTES
}

/// Whether a skeleton and rows that name its large binaries pass the other tests of an entry.
fn passes(skeleton: &Graph, rows: &[LargeAt]) -> bool
    requires { names_from 0 skeleton.now.nodes (map row_at rows.now) ≡ true }
    ensures { result ≡ (list_all (λ row. may_be_large (row_at row)) rows.now &&
        (words.is_frame (words.object skeleton.now.nodes skeleton.now.root)
        && within_limits (stretched (map row_at rows.now) skeleton.now)
        && nat_le (length (flat (skeleton_of skeleton.now))) 64000)) }
{
    may_be_larges(rows)
        && is_frame(skeleton)
        && is_within(skeleton, rows)
        && skeleton_len(skeleton) <= MOST_TEXT
}

/// Whether a skeleton and its rows may be those of an entry.
pub(crate) fn is_fit(skeleton: &Graph, rows: &[LargeAt]) -> bool
    ensures { result ≡ fits (map row_at rows.now) skeleton.now }
{
    are_named(skeleton.nodes(), rows) && passes(skeleton, rows)
}
