//! The order of keys.
ghost use Rattle.std.specs.Prelude.{◌≡◌};
ghost use Rattle.newt_spec_store.specs.Keys.{key_cmp, part_cmp, value_cmp, in_direction};
ghost use Rattle.newt_spec_store.specs.Keys as spec;
ghost use Rattle.newt_keys.specs.Seen.{said, said_all, declared_all};

use crate::types::{IndexPart, IndexSpec, Key, Part};
use newt_spec_store::Order;
use std::cmp::Ordering;

/// Compares two keys of a declaration part by part. A missing part stands before all values in both
/// orders; values follow the part's order.
pub fn compare(a: &Key, b: &Key, spec: &IndexSpec) -> Ordering
    ensures { result ≡ key_cmp spec.now a.now b.now }
{
    compare_parts(spec.list(), a.list(), b.list())
}

fn compare_parts(spec: &[IndexPart], a: &[Part], b: &[Part]) -> Ordering
    ensures { result ≡ key_cmp (declared_all spec.now) (said_all a.now) (said_all b.now) }
{
    let [part, spec @ ..] = spec else {
        return Ordering::Equal;
    };
    let [x, a @ ..] = a else {
        return if b.is_empty() {
            Ordering::Equal
        } else {
            Ordering::Less
        };
    };
    let [y, b @ ..] = b else {
        return Ordering::Greater;
    };
    match compare_part(part.order, x, y) {
        Ordering::Equal => compare_parts(spec, a, b),
        decided => decided,
    }
}

fn compare_part(order: Order, a: &Part, b: &Part) -> Ordering
    ensures { result ≡ part_cmp order (said a.now) (said b.now) }
{
    match (a, b) {
        (Part::Missing, Part::Missing) => Ordering::Equal,
        (Part::Missing, _) => Ordering::Less,
        (_, Part::Missing) => Ordering::Greater,
        (a, b) => directed(order, compare_value(a, b)),
    }
}

fn compare_value(a: &Part, b: &Part) -> Ordering
    ensures { result ≡ value_cmp (said a.now) (said b.now) }
{
    match (a, b) {
        (Part::Text(a), Part::Text(b)) | (Part::Symbol(a), Part::Symbol(b)) => a
            .list()
            .cmp(b.list()),
        (Part::Int(a), Part::Int(b)) => a.cmp(b),
        (Part::Char(a), Part::Char(b)) => a.cmp(b),
        (a, b) => form(a).cmp(&form(b)),
    }
}

/// The place of the form of a part among the forms.
fn form(part: &Part) -> u8
    ensures { result ≡ spec.form (said part.now) }
{
    match part {
        Part::Missing => 0,
        Part::Text(_) => 1,
        Part::Int(_) => 2,
        Part::Char(_) => 3,
        Part::Symbol(_) => 4,
    }
}

fn directed(order: Order, ascending: Ordering) -> Ordering
    ensures { result ≡ in_direction order ascending }
{
    match order {
        Order::Ascend => ascending,
        Order::Descend => ascending.reverse(),
    }
}
