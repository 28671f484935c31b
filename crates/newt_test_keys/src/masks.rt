//! The masks of entries, after each change of their soup.
ghost use Rattle.std.specs.Prelude.{◌≡◌, IfOk, [], ◌∷◌};

use crate::check::check;
use crate::entries::{graph, id};
use newt_base::Sig;
use newt_graph::Bytes;
use newt_index_ranges::{Masks, Ranges};
use newt_path::Path;
use newt_tags::TagTable;
use std::alloc::{AllocError, Global};
use std::process::Abort;
use std::test::*;

/// The path `b`.
fn path(alloc: Global) -> Result<Path, AllocError>
    ensures { IfOk result (λ path. path ≡ (98 ∷ []) ∷ []) }
{
    Ok(Path::of(vec![in alloc; Bytes::of(vec![in alloc; b'b']?)]?))
}

/// The tags `x` and `y` at the path `b`.
fn two_tags(alloc: Global) -> Result<TagTable, AllocError> {
    let path = path(alloc)?;
    let first = Bytes::of(vec![in alloc; b'x']?);
    let second = Bytes::of(vec![in alloc; b'y']?);
    Ok(TagTable::new(path, vec![in alloc; first, second]?))
}

/// The masks of the first eight entries of the soup 3, before they are changed.
const BEFORE: &str = "[Some(1), Some(2), Some(1), Some(0), Some(0), Some(2), Some(0), Some(0)]";

/// The same once the entries 0 and 1 were changed, and 2 removed.
const AFTER: &str = "[Some(0), Some(1), None, Some(0), Some(0), Some(2), Some(0), Some(0)]";

/// The same masks without a declaration.
const UNDECLARED: &str = "[Some(0), Some(0), Some(0), Some(0), Some(0), Some(0), Some(0), Some(0)]";

/// Fails where the masks of the first eight entries are others.
fn expect_masks(alloc: Global, ranges: &Ranges, wanted: &str) -> Result<(), Fail> {
    let mut masks = Vec::new(alloc);
    for uid in 0..8 {
        masks.push(ranges.mask(Sig(3), id(uid)))?;
    }
    let found = format!(in alloc; "{masks:?}")?;
    if found.as_str() != wanted {
        return Err(Fail::new(format_args!("other masks: {found}")));
    }
    Ok(())
}

/// Adds the first eight entries.
fn add_eight(alloc: Global, ranges: &mut Ranges) -> Result<(), Fail> {
    for uid in 0..8 {
        let graph = graph(alloc, uid, false)?;
        ranges.add(Sig(3), id(uid), &graph)?;
    }
    Ok(())
}

/// The masks of the first eight entries.
fn masks_of_eight(alloc: Global) -> Result<Masks, Fail> {
    let mut masks = Masks::new(alloc, two_tags(alloc)?);
    for uid in 0..8 {
        let graph = graph(alloc, uid, false)?;
        masks.add(id(uid), &graph)?;
    }
    Ok(masks)
}

/// Changes the entries 0 and 1, and removes the entry 2.
fn change_three(alloc: Global, ranges: &mut Ranges) -> Result<(), Fail> {
    ranges.replace(Sig(3), id(0), &graph(alloc, 0, true)?)?;
    ranges.replace(Sig(3), id(1), &graph(alloc, 1, true)?)?;
    ranges.remove(Sig(3), id(2));
    Ok(())
}

fn declare_before(alloc: Global, ranges: &mut Ranges) -> Result<(), Fail> {
    ranges.make_soup(Sig(3), &[], Some(&two_tags(alloc)?))?;
    add_eight(alloc, ranges)?;
    expect_masks(alloc, ranges, BEFORE)?;
    change_three(alloc, ranges)?;
    expect_masks(alloc, ranges, AFTER)
}

#[test]
fn masks_follow_entries(rt: HostRuntime) -> Result<(), Fail> {
    let mut ranges = Ranges::new(rt.alloc());
    declare_before(rt.alloc(), &mut ranges)
}

fn declare_after(rt: &impl Abort, alloc: Global, ranges: &mut Ranges) -> Result<(), Fail> {
    ranges.make_soup(Sig(3), &[], None)?;
    add_eight(alloc, ranges)?;
    expect_masks(alloc, ranges, UNDECLARED)?;
    ranges.set_masks(Sig(3), masks_of_eight(alloc)?);
    expect_masks(alloc, ranges, BEFORE)?;
    change_three(alloc, ranges)?;
    expect_masks(alloc, ranges, AFTER)?;
    ranges.drop_soup(Sig(3));
    check(rt, ranges.mask(Sig(3), id(0)).is_none(), "no mask");
    Ok(())
}

#[test]
fn masks_are_made_when_tags_are_declared(rt: HostRuntime) -> Result<(), Fail> {
    let mut ranges = Ranges::new(rt.alloc());
    declare_after(&rt, rt.alloc(), &mut ranges)
}
