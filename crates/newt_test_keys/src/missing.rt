//! The order of keys of four parts with missing ones, in both directions, with ample memory.
use crate::calls::Call;
use crate::keys::literal;
use crate::walks::declaration;
use newt_keys::{IndexSpec, Key, Kind, Order, compare, key_from};
use newt_test_tables::expect_rows;
use std::alloc::Global;
use std::test::*;

/// The keys that literals write down.
fn keys(alloc: Global, spec: &IndexSpec, text: &str) -> Result<Vec<Key>, Fail> {
    let mut keys = Vec::new(alloc);
    for part in text.split(" < ") {
        let graph = literal(alloc, part)?;
        match key_from(alloc, &graph, graph.root(), spec)? {
            Some(key) => keys.push(key)?,
            None => return Err("a key".into()),
        }
    }
    Ok(keys)
}

/// Whether a key stands at this place: after those before it, before those after it, and tied with
/// itself.
fn stands_at(place: usize, key: &Key, keys: &[Key], spec: &IndexSpec) -> bool {
    let mut other: usize = 0;
    for at_other in keys {
        if compare(key, at_other, spec) != place.cmp(&other) {
            return false;
        }
        other = other.wrapping_add(1);
    }
    true
}

/// Whether each key stands before those after it, and ties with itself.
fn rise(keys: &[Key], spec: &IndexSpec) -> bool {
    let mut place: usize = 0;
    for key in keys {
        if !stands_at(place, key, keys, spec) {
            return false;
        }
        place = place.wrapping_add(1);
    }
    true
}

/// Whether keys of four integers rise.
pub(crate) fn rising(alloc: Global, order: Order, text: &str) -> Result<String, Fail> {
    let spec = declaration(alloc, Kind::Int, order)?;
    let keys = keys(alloc, &spec, text)?;
    Ok(format!(in alloc; "{}", rise(&keys, &spec))?)
}

const ASCENDING: &str = "
[-5] < [1] < [1, nil, nil, 7] < [1, nil, 2] < [1, 2] < [1, 2, 3] < [1, 2, 3, 4] < [1, 2, 3, 5] < [1, 3] < [2] => true
[1] < [1] => false
";

const DESCENDING: &str = "
[2] < [1] < [1, nil, nil, 7] < [1, nil, 2] < [1, 3] < [1, 2] < [1, 2, 3] < [1, 2, 3, 5] < [1, 2, 3, 4] < [-5] => true
[1] < [2] => false
";

#[test]
fn missing_parts_stand_first_in_both_orders(rt: HostRuntime) -> Result<(), Fail> {
    expect_rows(rt.alloc(), &Call::Rising(Order::Ascend), ASCENDING)?;
    expect_rows(rt.alloc(), &Call::Rising(Order::Descend), DESCENDING)
}
