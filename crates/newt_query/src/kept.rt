//! What a query keeps of an entry.
ghost use Rattle.std.specs.Prelude.{◌≡◌, ◌&&◌, false, option_map, IfOk, IfSome, MatchOption, Some};
ghost use Rattle.newt_graph.specs.Graph.{RawGraph};
ghost use Rattle.newt_keys.specs.KeyForm.{IsKeyOf};
ghost use Rattle.newt_spec_store.specs.Keys as keys;
ghost use Rattle.newt_spec_query.specs.Hits.{passes};
ghost use Rattle.newt_tags.specs.Masks.{mask_by, mask_of};
ghost use Rattle.newt_query.specs.Filter.{asks_texts, in_range};
ghost use Rattle.newt_query.specs.Kept.{kept_key};

use crate::Spec;
use newt_graph::Graph;
use newt_keys::{Key, key_in};
use newt_tags::TagTable;
use std::alloc::{AllocError, Global};

/// The key with which a query keeps an entry, by the tags declaration of its soup and its graph.
/// None exactly where the entry is no hit.
pub fn kept_key(
    alloc: Global,
    spec: &Spec,
    table: Option<&TagTable>,
    graph: &Graph,
) -> Result<Option<Key>, AllocError>
    ensures value { IfOk result (λ found. found ≡ kept_key spec.now
        (option_map (λ t. t.now) table.entry) graph.now) }
    ensures of_index { IfOk result (λ found. IfSome found (IsKeyOf spec.now.index)) }
{
    let Some(key) = key_in(alloc, spec.index(), graph)? else {
        return Ok(None);
    };
    if is_kept(alloc, spec, &key, table, graph)? {
        Ok(Some(key))
    } else {
        Ok(None)
    }
}

/// Whether a query keeps an entry that has this key: by the key, the tags declaration of its soup
/// and its graph.
pub fn is_kept(
    alloc: Global,
    spec: &Spec,
    key: &Key,
    table: Option<&TagTable>,
    graph: &Graph,
) -> Result<bool, AllocError>
    ensures { IfOk result (λ kept. kept ≡ (in_range spec.now key.now && passes spec.now
        (option_map (λ t. t.now) table.entry) graph.now)) }
{
    let mask = mask_by(table, graph);
    spec.passes(alloc, key, table, mask, Some(graph))
}

/// Whether a query keeps an entry that has this key and this mask, whatever its graph. The query
/// asks for no words or texts. It takes no memory.
pub fn is_kept_unread(spec: &Spec, key: &Key, table: Option<&TagTable>, mask: u64) -> bool
    requires { asks_texts spec.now ≡ false }
    ensures { (graph : RawGraph) → mask ≡ mask_by (option_map (λ t. t.now) table.entry) graph →
        result ≡ (in_range spec.now key.now && passes spec.now
        (option_map (λ t. t.now) table.entry) graph) }
{
    spec.takes(key, table, mask)
}

/// The mask of a graph by a tags declaration, if there is one.
fn mask_by(table: Option<&TagTable>, graph: &Graph) -> u64
    ensures { MatchOption (option_map (λ t. t.now) table.entry) (Unit {0})
        (λ t. result ≡ mask_of t graph.now) }
{
    match table {
        Some(table) => table.mask_of(graph),
        None => 0,
    }
}
