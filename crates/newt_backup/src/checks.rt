//! Whether a directory and entries are a store.
ghost use Rattle.std.specs.Prelude.{◌≡◌, ◌≤◌, ◌<◌, ◌+◌, ◌^◌, nat_le, length, map, flat_map, sum};
ghost use Rattle.std.specs.Prelude.{true, false, IsTrue, IfOk, IfSome, All, option_map};
ghost use Rattle.std.specs.List.{sum_by};
ghost use Rattle.newt_graph.specs.Graph.{IsGraph, payload};
ghost use Rattle.newt_spec_image.specs.Objects.{pages_for};
ghost use Rattle.newt_soupdir.specs.Bare.{bare_soup, bare_store};
ghost use Rattle.newt_spec_graph.specs.Lists.{Each};
ghost use Rattle.newt_spec_store.specs.Cost.{cost, large_length, entry_pages, skeleton_length};
ghost use Rattle.newt_spec_store.specs.Valid.{valid_entry, well_formed};
ghost use Rattle.newt_backup.specs.Checks.{after, are_of};
ghost use Rattle.newt_backup.specs.Contents.{store_in, AreKept, IsNoStore, IsSound};
ghost use Rattle.newt_entries.specs.Full.{told, as_entry};

use newt_entries::{FullEntry, MOST_TEXT};
use newt_graph::{Graph, Node};
use newt_nsof_flat::is_frame;
use newt_nsof_write::skeleton_len;
use newt_soupdir::{Directory, SoupRow, write_directory};
use std::alloc::{AllocError, Global};

/// The most pages of a store: those that the largest unit takes.
const MOST_PAGES: u64 = 15_978;

/// Whether a graph may be an entry's.
fn is_entry(entry: &FullEntry) -> bool
    ensures { result ≡ valid_entry (as_entry entry.now) }
{
    is_frame(&entry.graph) && skeleton_len(&entry.graph) <= MOST_TEXT
}

/// The entries that are left after those of a soup at the front, where these may be its entries.
fn after<'a>(row: &SoupRow, entries: &'a [FullEntry]) -> Option<&'a [FullEntry]>
    ensures { option_map (λ rest. map told rest.now) result
        ≡ after row.now.sig row.now.next_uid 0 (map told entries.now) }
{
    let mut low = 0;
    let mut left = entries;
    while let [entry, rest @ ..] = left {
        if entry.soup != row.sig {
            return Some(left);
        }
        let uid = entry.uid.0;
        if uid < low || row.next_uid <= uid || !is_entry(entry) {
            return None;
        }
        low = uid + 1;
        left = rest;
    }
    Some(left)
}

/// Whether the entries are those of the soups, in their order.
fn are_of(rows: &[SoupRow], entries: &[FullEntry]) -> bool
    ensures { result ≡ are_of (map bare_soup rows.now) (map told entries.now) }
{
    let mut left = entries;
    let mut soups = rows;
    while let [row, others @ ..] = soups {
        match after(row, left) {
            Some(rest) => left = rest,
            None => return false,
        }
        soups = others;
    }
    left.is_empty()
}

/// How many pages of 500 bytes so many bytes take, at least one.
fn pages_for(length: u64) -> u64
    requires { length < 2 ^ 63 }
    ensures { result ≡ pages_for length }
{
    ((length + 499) / 500).max(1)
}

/// How many large binaries there are among nodes.
fn count(nodes: &[Node]) -> u64
    requires { length nodes.now ≤ 65535 }
    ensures count { result ≡ length (flat_map large_length nodes.now) }
    ensures few { result ≤ 65535 }
{
    let mut count = 0;
    let mut left = nodes;
    while let [node, rest @ ..] = left {
        if let Node::Large(_, _) = node {
            count += 1;
        }
        left = rest;
    }
    count
}

/// How many pages a node takes beside the record: those of a large binary.
fn node_pages(node: &Node) -> u64
    requires { payload node.now ≤ 1000000 }
    ensures pages { result ≡ sum (map pages_for (large_length node.now)) }
    ensures few { result ≤ 2001 }
{
    match node {
        Node::Large(_, bytes) => pages_for(bytes.list().len() as u64),
        Node::Symbol(_)
        | Node::Str(_)
        | Node::Binary(_, _)
        | Node::Array(_, _)
        | Node::Frame(_, _) => 0,
    }
}

/// How many pages the large binaries among nodes take.
fn large_pages(nodes: &[Node]) -> u64
    requires few { length nodes.now ≤ 65535 }
    requires short { All (λ node. payload node ≤ 1000000) nodes.now }
    ensures pages { result ≡ sum (map pages_for (flat_map large_length nodes.now)) }
    ensures few { result ≤ 131135535 }
{
    let mut pages = 0;
    let mut left = nodes;
    while let [node, rest @ ..] = left {
        pages += node_pages(node);
        left = rest;
    }
    pages
}

/// How many bytes the flat text of a graph has without those of its large binaries.
#[tactic(auto, using(crate::proofs::Pages::skeleton_few))]
fn skeleton_size(graph: &Graph) -> u64
    ensures size { result ≡ skeleton_length graph.now }
    ensures few { result ≤ 140000000000 }
{
    let _nodes = graph.nodes();
    skeleton_len(graph)
}

/// How many pages an entry takes.
fn entry_pages(entry: &FullEntry) -> u64
    ensures pages { result ≡ entry_pages (as_entry entry.now) }
    ensures few { result ≤ 1000000000000 }
{
    let nodes = entry.graph.nodes();
    let record = 12 + skeleton_size(&entry.graph) + 12 * count(nodes);
    pages_for(record) + large_pages(nodes)
}

/// Whether a directory of so many bytes and entries take no more than so many pages.
fn fit(size: usize, entries: &[FullEntry], most: u64) -> bool
    requires size { size < 2 ^ 63 }
    requires few { most ≤ 15978 }
    ensures { result ≡ nat_le (pages_for size + sum_by (λ e. entry_pages (as_entry e)) entries.now)
        most }
{
    let mut pages = pages_for(size as u64);
    let mut left = entries;
    while let [entry, rest @ ..] = left {
        if pages > most {
            return false;
        }
        pages += entry_pages(entry);
        left = rest;
    }
    pages <= most
}

// The functions below do nothing when they run. What a type says of a value is known only after a
// call that lends it, here of each entry.

/// A graph is in normal form, as its type says.
fn know_graph(graph: &Graph)
    ensures { IsGraph graph.now }
{
    let _nodes = graph.nodes();
}

/// An info frame is in normal form, too.
fn know_info(info: &Option<Graph>)
    ensures { IfSome info.now IsGraph }
{
    match info {
        Some(graph) => know_graph(graph),
        None => {}
    }
}

/// The info frames of all soups are in normal form, too.
fn know_infos(rows: &[SoupRow])
    ensures { Each (λ p. IfSome p.info IsGraph) (map bare_soup rows.now) }
{
    let mut left = rows;
    while let [row, rest @ ..] = left {
        know_info(&row.info);
        left = rest;
    }
}

/// An entry's graph is in normal form and its minute fits in four bytes, as their types say.
fn know_entry(entry: &FullEntry)
    ensures { IsSound entry.now }
{
    know_graph(&entry.graph);
    let _time = entry.time;
}

/// All entries' graphs are in normal form, and their minutes fit in four bytes.
fn know_entries(entries: &[FullEntry])
    ensures { All IsSound entries.now }
{
    let mut left = entries;
    while let [entry, rest @ ..] = left {
        know_entry(entry);
        left = rest;
    }
}

/// Whether a directory that is well formed and these entries are a store of some unit, in its
/// order.
pub fn is_store(
    alloc: Global,
    directory: &Directory,
    entries: &[FullEntry],
) -> Result<bool, AllocError>
    requires { IsTrue (well_formed (bare_store directory.now)) }
    ensures yes { IfOk result (λ yes. yes ≡ true → AreKept directory.now entries.now) }
    ensures no { IfOk result (λ yes. yes ≡ false → IsNoStore directory.now entries.now) }
{
    know_infos(directory.soups.list());
    know_entries(entries);
    if !are_of(directory.soups.list(), entries) {
        return Ok(false);
    }
    let bytes = write_directory(alloc, directory)?;
    Ok(fit(bytes.len(), entries, MOST_PAGES))
}

/// Whether the store of a directory and entries costs no more than so many pages.
pub fn costs_at_most(
    alloc: Global,
    directory: &Directory,
    entries: &[FullEntry],
    most: u32,
) -> Result<bool, AllocError>
    requires kept { AreKept directory.now entries.now }
    requires few { most ≤ 15978 }
    ensures { IfOk result (λ yes. yes ≡ nat_le (cost (store_in directory.now entries.now)) most) }
{
    let bytes = write_directory(alloc, directory)?;
    Ok(fit(bytes.len(), entries, u64::from(most)))
}
