//! The rows of the table: an object by its id, or a place kept for one.
ghost use Rattle.std.specs.Prelude.{◌≡◌, ◌≢◌, ℕ, ◌+◌, ◌++◌, ◌∷◌, [], if◌then◌else◌};
ghost use Rattle.std.specs.Prelude.{is_some, IsSome, Some, OnOk, IfOk};
ghost use Rattle.std.specs.BTreeMap as tree;
ghost use Rattle.std.specs.Ordering.{nat_cmp};
ghost use Rattle.std.specs.Option.{option_copied};
ghost use Rattle.newt_objects.specs.Headers.{held_in};
ghost use Rattle.newt_objects.specs.Extents.{IsNextIn};
ghost use Rattle.newt_objects.specs.Listed.{AreNexts};

use crate::extent::Extent;
use std::alloc::{AllocError, Global};
use std::collections::BTreeMap;
use std::ops::Bound;

/// Where an object lies.
pub(crate) fn row_of(rows: &BTreeMap<u32, Option<Extent>>, id: u32) -> Option<&Extent>
    ensures { option_copied result ≡ held_in rows.now id }
{
    match rows.get(&id) {
        Some(row) => row.as_ref(),
        None => None,
    }
}

/// Makes a row for an object, if there is none.
pub(crate) fn keep_row(rows: &mut BTreeMap<u32, Option<Extent>>, id: u32) -> Result<(), AllocError>
    ensures held { (other : ℕ) → held_in rows.new other ≡ held_in rows.old other }
    ensures rows { (other : ℕ) → IsSome (tree.get nat_cmp rows.old other)
        → IsSome (tree.get nat_cmp rows.new other) }
    ensures row { OnOk result (IsSome (tree.get nat_cmp rows.new id)) }
{
    if !rows.contains_key(&id) {
        let _old = rows.insert(id, None)?;
    }
    Ok(())
}

/// Writes an object into its row.
fn write_row(rows: &mut BTreeMap<u32, Option<Extent>>, id: u32, extent: Extent)
    requires { IsSome (tree.get nat_cmp rows.old id) }
    ensures object { tree.get nat_cmp rows.new id ≡ Some (Some extent) }
    ensures others { (q : ℕ) → q ≢ id → tree.get nat_cmp rows.new q ≡ tree.get nat_cmp rows.old q }
{
    if let Some(row) = rows.get_mut(&id) {
        *row = Some(extent);
    }
}

/// Makes of an object what was planned, in its row.
pub(crate) fn settle(rows: &mut BTreeMap<u32, Option<Extent>>, id: u32, next: Option<Extent>)
    requires { IsSome (tree.get nat_cmp rows.old id) }
    ensures object { held_in rows.new id ≡ next }
    ensures others { (q : ℕ) → q ≢ id → tree.get nat_cmp rows.new q ≡ tree.get nat_cmp rows.old q }
{
    match next {
        Some(extent) => write_row(rows, id, extent),
        None => {
            rows.remove(&id);
        }
    }
}

/// Takes a row away that has no object.
pub(crate) fn drop_vacant(rows: &mut BTreeMap<u32, Option<Extent>>, id: u32)
    ensures held { (other : ℕ) → held_in rows.new other ≡ held_in rows.old other }
    ensures others { (q : ℕ) → q ≢ id → tree.get nat_cmp rows.new q ≡ tree.get nat_cmp rows.old q }
{
    if let Some(None) = rows.get(&id) {
        rows.remove(&id);
    }
}

/// The least id from `from` on that has an object.
pub(crate) fn next_row(rows: &BTreeMap<u32, Option<Extent>>, from: u32) -> Option<u32>
    ensures { IsNextIn (held_in rows.now) from result }
{
    for (id, row) in rows.range(from..) {
        if row.is_some() {
            return Some(*id);
        }
    }
    None
}

/// Appends the id of a row, if it has an object.
fn list_row(ids: &mut Vec<u32>, id: u32, row: &Option<Extent>) -> Result<(), AllocError>
    ensures { OnOk result (ids.new.items ≡ ids.old.items
        ++ (if is_some row.now then id ∷ [] else [])) }
{
    if row.is_some() {
        ids.push(id)?;
    }
    Ok(())
}

/// The ids above `above` that have an object, in rising order.
pub(crate) fn rows_after(
    alloc: Global,
    rows: &BTreeMap<u32, Option<Extent>>,
    above: u32,
) -> Result<Vec<u32>, AllocError>
    ensures { IfOk result (λ ids. AreNexts (held_in rows.now) (above + 1) ids.items) }
{
    let mut ids = Vec::new(alloc);
    for (id, row) in rows.range((Bound::Excluded(above), Bound::Unbounded)) {
        list_row(&mut ids, *id, row)?;
    }
    Ok(ids)
}
