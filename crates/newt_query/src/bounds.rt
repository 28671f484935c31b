//! The range of keys that a query asks for.
ghost use Rattle.std.specs.Prelude.{◌≡◌, [], true, false, unwrap_or, IfOk, IsErrOf};
ghost use Rattle.newt_spec_store.specs.Keys.{key_cmp};
ghost use Rattle.newt_spec_query.specs.Hits.{above, below};
ghost use Rattle.newt_spec_query.specs.Spec.{bound, key_fits, key_given, key_value, keys_fit};
ghost use Rattle.newt_spec_query.specs.Spec.{spec_of};
ghost use Rattle.newt_query.specs.Ends.{end_of};
ghost use Rattle.newt_query.specs.declared.fault.BindFault.{BindFault};

use crate::fault::BindFault;
use newt_graph::{Graph, Ref};
use newt_keys::{IndexSpec, Key, compare, key_from};
use newt_tags::given_slot;
use std::alloc::{AllocError, Global};
use std::cmp::Ordering;
use std::ops::Bound;

/// Whether a key is not below the lower end of a range.
pub(crate) fn is_above(spec: &Option<IndexSpec>, end: &Bound<Key>, key: &Key) -> bool
    ensures { result ≡ above (unwrap_or spec.now []) (end_of end.now) key.now }
{
    match end {
        Bound::Unbounded => true,
        Bound::Included(other) => order(spec, key, other).is_ge(),
        Bound::Excluded(other) => order(spec, key, other).is_gt(),
    }
}

/// Whether a key is not above the upper end of a range.
pub(crate) fn is_below(spec: &Option<IndexSpec>, end: &Bound<Key>, key: &Key) -> bool
    ensures { result ≡ below (unwrap_or spec.now []) (end_of end.now) key.now }
{
    match end {
        Bound::Unbounded => true,
        Bound::Included(other) => order(spec, key, other).is_le(),
        Bound::Excluded(other) => order(spec, key, other).is_lt(),
    }
}

/// The order of two keys. Without an index all are equal.
fn order(spec: &Option<IndexSpec>, a: &Key, b: &Key) -> Ordering
    ensures { result ≡ key_cmp (unwrap_or spec.now []) a.now b.now }
{
    match spec {
        Some(spec) => compare(a, b, spec),
        None => Ordering::Equal,
    }
}

/// The ends of the range that the four slots of keys give.
pub(crate) fn range_given(
    alloc: Global,
    graph: &Graph,
    spec: &Option<IndexSpec>,
) -> Result<(Bound<Key>, Bound<Key>), BindFault>
    ensures lower { IfOk result (λ ends. end_of ends.0 ≡ (spec_of graph.now
        (unwrap_or spec.now [])).lower) }
    ensures upper { IfOk result (λ ends. end_of ends.1 ≡ (spec_of graph.now
        (unwrap_or spec.now [])).upper) }
    ensures fit { IfOk result (λ _. keys_fit graph.now (unwrap_or spec.now []) ≡ true) }
    ensures key_type { IsErrOf result BindFault.KeyType
        → keys_fit graph.now (unwrap_or spec.now []) ≡ false }
{
    let begin = key_given(alloc, graph, spec, b"beginKey")?;
    let after = key_given(alloc, graph, spec, b"beginExclKey")?;
    let end = key_given(alloc, graph, spec, b"endKey")?;
    let before = key_given(alloc, graph, spec, b"endExclKey")?;
    Ok((end_of(begin, after), end_of(end, before)))
}

/// An end of a range: with its key, or without it.
fn end_of(with: Option<Key>, without: Option<Key>) -> Bound<Key>
    ensures { end_of result ≡ bound with without }
{
    match (with, without) {
        (Some(key), _) => Bound::Included(key),
        (None, Some(key)) => Bound::Excluded(key),
        (None, None) => Bound::Unbounded,
    }
}

/// The key of a slot.
fn key_given(
    alloc: Global,
    graph: &Graph,
    spec: &Option<IndexSpec>,
    slot: &[u8],
) -> Result<Option<Key>, BindFault>
    ensures ok { IfOk result (λ key. key ≡ key_given graph.now (unwrap_or spec.now []) slot.now) }
    ensures fit { IfOk result (λ _. key_fits graph.now (unwrap_or spec.now []) slot.now ≡ true) }
    ensures key_type { IsErrOf result BindFault.KeyType
        → key_fits graph.now (unwrap_or spec.now []) slot.now ≡ false }
{
    let Some(value) = given_slot(graph.nodes(), graph.root(), slot) else {
        return Ok(None);
    };
    match key_value(alloc, graph, spec, value)? {
        Some(key) => Ok(Some(key)),
        None => Err(BindFault::KeyType),
    }
}

/// The key that a value writes down. Without an index there is none.
fn key_value(
    alloc: Global,
    graph: &Graph,
    spec: &Option<IndexSpec>,
    value: Ref,
) -> Result<Option<Key>, AllocError>
    ensures { IfOk result (λ key. key ≡ key_value graph.now.nodes (unwrap_or spec.now []) value) }
{
    match spec {
        Some(spec) => key_from(alloc, graph, value, spec),
        None => Ok(None),
    }
}
