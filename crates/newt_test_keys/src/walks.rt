//! Walks of indexes over entries that are read from literals.
use crate::calls::Call;
use crate::keys::{literal, part};
use newt_base::Uid;
use newt_graph::Graph;
use newt_index::{Index, Probe};
use newt_keys::{IndexSpec, Key, Kind, Order, compare, key_in, key_of};
use newt_test_tables::expect_rows;
use std::alloc::Global;
use std::cmp::Ordering;
use std::test::*;

/// Four parts of one type and order, at `k`, `l`, `m` and `n`.
pub(crate) fn declaration(alloc: Global, kind: Kind, order: Order) -> Result<IndexSpec, Fail> {
    let first = part(alloc, "k", kind, order)?;
    let second = part(alloc, "l", kind, order)?;
    let third = part(alloc, "m", kind, order)?;
    let fourth = part(alloc, "n", kind, order)?;
    Ok(IndexSpec::new(vec![in alloc; first, second, third, fourth]?))
}

/// The entries that a row has.
fn entries_of(alloc: Global, text: &str) -> Result<Vec<Graph>, Fail> {
    let mut entries = Vec::new(alloc);
    for entry in text.split(" | ") {
        entries.push(literal(alloc, entry)?)?;
    }
    Ok(entries)
}

/// Adds an entry where it has a key.
fn add(index: &mut Index, uid: u32, entry: &Graph) -> Result<(), Fail> {
    if let Some(key) = key_in(index.allocator(), index.spec(), entry)? {
        index.add(key, Uid(uid))?;
    }
    Ok(())
}

/// The index of entries, whose ids rise from 0.
fn filled(alloc: Global, spec: IndexSpec, entries: &[Graph]) -> Result<Index, Fail> {
    let mut index = Index::new(alloc, Some(spec));
    let mut uid: u32 = 0;
    for entry in entries {
        add(&mut index, uid, entry)?;
        uid = uid.wrapping_add(1);
    }
    Ok(index)
}

/// The key of an entry.
fn key(alloc: Global, spec: &IndexSpec, entry: &Graph) -> Result<Key, Fail> {
    Ok(key_of(alloc, entry, spec)?.ok_or("a key")?)
}

/// The probe of an entry's key.
fn probe(alloc: Global, spec: &IndexSpec, entry: &Graph) -> Result<Probe, Fail> {
    let key = key_of(alloc, entry, spec)?.ok_or("a key")?;
    Ok(Probe::new(alloc, &key, spec)?)
}

/// The id of a pair.
pub(crate) fn id(found: &Option<(&Key, Uid)>) -> Option<u32> {
    match found {
        Some((_, uid)) => Some(uid.0),
        None => None,
    }
}

fn entry(entries: &[Graph], uid: u32) -> Result<&Graph, Fail> {
    Ok(entries.get(uid as usize).ok_or("an entry")?)
}

/// The id of the pair after that of an entry, or before it.
fn next(
    alloc: Global,
    index: &Index,
    spec: &IndexSpec,
    entries: &[Graph],
    uid: u32,
    forward: bool,
) -> Result<Option<u32>, Fail> {
    let mut at = probe(alloc, spec, entry(entries, uid)?)?;
    Ok(if forward {
        id(&index.after(&mut at, Uid(uid)))
    } else {
        id(&index.before(&mut at, Uid(uid)))
    })
}

/// The ids of an index, from the first to the last, or back.
fn ids(
    alloc: Global,
    index: &Index,
    spec: &IndexSpec,
    entries: &[Graph],
    forward: bool,
) -> Result<Vec<u32>, Fail> {
    let mut ids = Vec::new(alloc);
    let mut at = if forward {
        id(&index.first())
    } else {
        id(&index.last())
    };
    for _ in 0..100 {
        let Some(uid) = at else {
            return Ok(ids);
        };
        ids.push(uid)?;
        at = next(alloc, index, spec, entries, uid, forward)?;
    }
    Err("an end".into())
}

/// Whether an entry stands before another by the order of keys, and then by their ids.
fn is_before(
    alloc: Global,
    spec: &IndexSpec,
    entries: &[Graph],
    one: u32,
    other: u32,
) -> Result<bool, Fail> {
    let key_of_one = key(alloc, spec, entry(entries, one)?)?;
    let key_of_other = key(alloc, spec, entry(entries, other)?)?;
    Ok(match compare(&key_of_one, &key_of_other, spec) {
        Ordering::Less => true,
        Ordering::Equal => one < other,
        Ordering::Greater => false,
    })
}

/// Fails where ids do not rise by the order of keys.
fn expect_rising(
    alloc: Global,
    spec: &IndexSpec,
    entries: &[Graph],
    ids: &[u32],
) -> Result<(), Fail> {
    for pair in ids.windows(2) {
        if let [one, other] = pair {
            if !is_before(alloc, spec, entries, *one, *other)? {
                return Err("the order of keys".into());
            }
        }
    }
    Ok(())
}

fn walked_in(alloc: Global, index: &Index, entries: &[Graph]) -> Result<String, Fail> {
    let spec = index.spec().ok_or("a declaration")?;
    let on = ids(alloc, index, spec, entries, true)?;
    expect_rising(alloc, spec, entries, &on)?;
    let back = ids(alloc, index, spec, entries, false)?;
    Ok(format!(in alloc; "{on:?} {back:?} of {}", index.len())?)
}

fn kind_of(word: &str) -> Kind {
    match word {
        "string" => Kind::Text,
        "symbol" => Kind::Symbol,
        "int" => Kind::Int,
        _ => Kind::Char,
    }
}

fn order_of(word: &str) -> Order {
    match word {
        "ascend" => Order::Ascend,
        _ => Order::Descend,
    }
}

/// The declaration of a row: `string`, `symbol`, `int` or `char`, a colon, and `ascend` or
/// `descend`.
fn declared(alloc: Global, words: &str) -> Result<IndexSpec, Fail> {
    let (kind, order) = words.split_once(':').ok_or("an order")?;
    declaration(alloc, kind_of(kind), order_of(order))
}

/// The index of the entries that follow the declaration in a row, and these entries.
fn indexed(alloc: Global, row: &str) -> Result<(Index, Vec<Graph>), Fail> {
    let (words, text) = row.split_once(' ').ok_or("entries")?;
    let entries = entries_of(alloc, text)?;
    Ok((filled(alloc, declared(alloc, words)?, &entries)?, entries))
}

/// The ids of entries, from the first of the index of their keys to its last, and back. They rise
/// by the order of keys. The declaration stands before the entries.
pub(crate) fn walked(alloc: Global, row: &str) -> Result<String, Fail> {
    let (index, entries) = indexed(alloc, row)?;
    walked_in(alloc, &index, &entries)
}

/// The probe of the string `d`.
fn probe_of_d(alloc: Global, index: &Index) -> Result<Probe, Fail> {
    let spec = index.spec().ok_or("a declaration")?;
    probe(alloc, spec, &literal(alloc, "{k: \"d\"}")?)
}

/// The ids after and before a pair of the string `d` and the id 1. The declaration stands before
/// the entries.
pub(crate) fn near(alloc: Global, row: &str) -> Result<String, Fail> {
    let (index, _entries) = indexed(alloc, row)?;
    let mut d = probe_of_d(alloc, &index)?;
    let after = id(&index.after(&mut d, Uid(1)));
    let before = id(&index.before(&mut d, Uid(1)));
    Ok(format!(in alloc; "{after:?} {before:?} of {}", index.len())?)
}

/// The ids of a walk forward and of one back, and how many there are. Ties rise by id in both
/// orders, and an entry without a key is not there.
const TIES: &str = "
string:ascend {k: \"x\"} | {k: \"y\"} | {k: \"X\"} => [0, 2, 1] [1, 2, 0] of 3
string:ascend {k: \"a\"} | {k: 5} | {k: \"c\"} | {k: \"e\"} => [0, 2, 3] [3, 2, 0] of 3
string:ascend {k: 5} => [] [] of 0
string:descend {k: \"x\"} | {k: \"y\"} | {k: \"x\"} => [1, 0, 2] [2, 0, 1] of 3
";

/// Keys that begin one another, each before those on its left. So none is told from another by its
/// id.
const BEGINNINGS: &str = "
string:ascend {k: \"ab\"} | {k: \"a \"} | {k: \"a\\u0000b\"} | {k: \"a\\u0000\"} | {k: \"a\", l: \"b\"} | {k: \"a\", l: \"\"} | {k: \"a\", m: \"\"} | {k: \"a\"} | {k: \"\\u0000\"} | {k: \"\"} => [9, 8, 7, 6, 5, 4, 3, 2, 1, 0] [0, 1, 2, 3, 4, 5, 6, 7, 8, 9] of 10
string:descend {k: \"\"} | {k: \"\\u0000\"} | {k: \"a\", l: \"\"} | {k: \"a\", l: \"b\"} | {k: \"a\", m: \"\"} | {k: \"a\"} | {k: \"a\\u0000\"} | {k: \"a\\u0000b\"} | {k: \"a \"} | {k: \"ab\"} => [9, 8, 7, 6, 5, 4, 3, 2, 1, 0] [0, 1, 2, 3, 4, 5, 6, 7, 8, 9] of 10
symbol:ascend {k: 'ab} | {k: '|a b|} | {k: 'a, l: 'b} | {k: 'a, l: 'a} | {k: 'a, m: 'a} | {k: 'A} => [5, 4, 3, 2, 1, 0] [0, 1, 2, 3, 4, 5] of 6
symbol:descend {k: 'a, l: 'a} | {k: 'a, l: 'b} | {k: 'a, m: 'a} | {k: 'A} | {k: '|a b|} | {k: 'ab} => [5, 4, 3, 2, 1, 0] [0, 1, 2, 3, 4, 5] of 6
int:ascend {k: 256} | {k: 1, l: 0} | {k: 1, l: -536870912} | {k: 1, m: 1} | {k: 1} | {k: 0} | {k: -1} | {k: -536870912} => [7, 6, 5, 4, 3, 2, 1, 0] [0, 1, 2, 3, 4, 5, 6, 7] of 8
int:descend {k: -536870912} | {k: -1} | {k: 0} | {k: 1, l: -536870912} | {k: 1, l: 0} | {k: 1, m: 1} | {k: 1} | {k: 256} => [7, 6, 5, 4, 3, 2, 1, 0] [0, 1, 2, 3, 4, 5, 6, 7] of 8
char:ascend {k: $\\0100} | {k: $b} | {k: $a, l: $b} | {k: $a, l: $a} | {k: $a, m: $a} | {k: $a} => [5, 4, 3, 2, 1, 0] [0, 1, 2, 3, 4, 5] of 6
char:descend {k: $a, l: $a} | {k: $a, l: $b} | {k: $a, m: $a} | {k: $a} | {k: $b} | {k: $\\0100} => [5, 4, 3, 2, 1, 0] [0, 1, 2, 3, 4, 5] of 6
";

/// The ids after and before a pair that is there, and one that is not.
const NEAR: &str = "
string:ascend {k: \"a\"} | {k: \"d\"} | {k: \"c\"} | {k: \"e\"} => Some(3) Some(2) of 4
string:ascend {k: \"a\"} | {k: 5} | {k: \"c\"} | {k: \"e\"} => Some(3) Some(2) of 3
string:ascend {k: \"a\"} => None Some(0) of 1
string:ascend {k: \"e\"} => Some(0) None of 1
";

#[test]
fn ties_rise_by_id_in_both_orders(rt: HostRuntime) -> Result<(), Fail> {
    expect_rows(rt.alloc(), &Call::Walked, TIES)
}

#[test]
fn keys_that_begin_others_stand_as_they_compare(rt: HostRuntime) -> Result<(), Fail> {
    expect_rows(rt.alloc(), &Call::Walked, BEGINNINGS)
}

#[test]
fn a_search_begins_from_a_pair_that_need_not_be_there(rt: HostRuntime) -> Result<(), Fail> {
    expect_rows(rt.alloc(), &Call::Near, NEAR)
}
