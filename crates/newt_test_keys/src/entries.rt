//! The entries of the tests: each has one of eleven graphs, whose keys are known.
ghost use Rattle.std.specs.Prelude.{◌≡◌};

use crate::keys::{literal, part};
use newt_base::Uid;
use newt_graph::Graph;
use newt_keys::{IndexSpec, Kind, Order};
use newt_path::Path;
use std::alloc::{AllocError, Global};
use std::test::*;

/// The integers at `a`.
pub(crate) fn by_number(alloc: Global) -> Result<IndexSpec, Fail> {
    let number = part(alloc, "a", Kind::Int, Order::Ascend)?;
    Ok(IndexSpec::new(vec![in alloc; number]?))
}

/// The symbols at `b`, the last first, and then the integers at `a`.
pub(crate) fn by_name(alloc: Global) -> Result<IndexSpec, Fail> {
    let name = part(alloc, "b", Kind::Symbol, Order::Descend)?;
    let number = part(alloc, "A", Kind::Int, Order::Ascend)?;
    Ok(IndexSpec::new(vec![in alloc; name, number]?))
}

/// The paths of the first declaration, in other letters.
pub(crate) fn number_paths(alloc: Global) -> Result<Vec<Path>, Fail> {
    let path = Path::read(alloc, b"A").ok().ok_or("a path")?;
    Ok(vec![in alloc; path]?)
}

/// A graph, its place by number and its place by name; none where the graph has no key.
#[derive(Clone, Copy)]
pub(crate) struct KnownGraph {
    pub(crate) text: &'static str,
    pub(crate) number: Option<i32>,
    pub(crate) name: Option<i32>,
}

/// The graph of an entry, before and after it is changed.
pub(crate) fn known(uid: u32, changed: bool) -> KnownGraph {
    let step = if changed { 4 } else { 0 };
    match (uid % 1_000 * 7 + step) % 11 {
        0 => of("{a: 5, b: 'x}", Some(5), Some(-2_395)),
        1 => of("{a: -3}", Some(-3), None),
        2 => of("{b: 'y}", None, Some(-2_599)),
        3 => of("{b: 'X, A: 5}", Some(5), Some(-2_395)),
        4 => of("{a: $5, b: 'z}", None, Some(-2_699)),
        5 => of("{a: 0, b: 'a}", Some(0), Some(-100)),
        6 => of("{a: 12, b: nil}", Some(12), None),
        7 => of("{A: 7, b: 'y}", Some(7), Some(-2_493)),
        8 => of("{a: 1, b: \"x\"}", Some(1), None),
        9 => of("{b: 'm}", None, Some(-1_399)),
        _ => of("{a: 5}", Some(5), None),
    }
}

fn of(text: &'static str, number: Option<i32>, name: Option<i32>) -> KnownGraph {
    KnownGraph { text, number, name }
}

/// The graph of an entry.
pub(crate) fn graph(alloc: Global, uid: u32, changed: bool) -> Result<Graph, Fail> {
    literal(alloc, known(uid, changed).text)
}

/// Which range of a soup.
#[derive(Clone, Copy)]
pub(crate) enum By {
    Id,
    Number,
    Name,
}

/// The place of an entry's key in a range.
fn place(by: By, known: &KnownGraph) -> Option<i32> {
    match by {
        By::Id => Some(0),
        By::Number => known.number,
        By::Name => known.name,
    }
}

/// What is left of 200 entries after some were changed and some removed.
#[derive(Clone, Copy, Debug)]
pub(crate) struct Left {
    pub(crate) changed: bool,
    pub(crate) removed: bool,
}

impl Left {
    /// Whether an entry is changed: each third is.
    pub(crate) fn is_changed(self, uid: u32) -> bool {
        self.changed && uid % 3 == 0
    }

    /// Whether an entry is removed: each fifth is.
    pub(crate) fn is_removed(self, uid: u32) -> bool {
        self.removed && uid % 5 == 0
    }
}

/// The ids of the entries that have a key, sorted afresh.
pub(crate) fn sorted(alloc: Global, by: By, left: Left) -> Result<Vec<(i32, u32)>, AllocError> {
    let mut pairs = Vec::new(alloc);
    for uid in 0..200 {
        if !left.is_removed(uid) {
            if let Some(place) = place(by, &known(uid, left.is_changed(uid))) {
                pairs.push((place, uid))?;
            }
        }
    }
    pairs.sort()?;
    Ok(pairs)
}

/// An id.
pub(crate) fn id(uid: u32) -> Uid
    ensures { result ≡ uid }
{
    Uid(uid)
}
