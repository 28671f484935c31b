//! The objects of a change, planned into one batch.
ghost use Rattle.std.specs.Prelude.{◌≡◌, ◌≢◌, ◌+◌, ℕ, length, map as map_list, sum_by, Some};
ghost use Rattle.std.specs.Prelude.{IsSome, OnOk};
ghost use Rattle.newt_spec_image.specs.Objects.{pages_for};
ghost use Rattle.newt_objects.specs.Held.{held, IsUnplanned};
ghost use Rattle.newt_spec_graph.specs.Lists.{Among};
ghost use Rattle.newt_objects_commit.specs.declared.batch.NewEntry.{NewEntry as NewOne};
ghost use Rattle.newt_objects_commit.specs.Batch.{AreOnce, CanBePlanned, IsFree, IsOnTheWay};
ghost use Rattle.newt_objects_commit.specs.Batch.{large_ids, pages_held, all_pages_held, new_pages};
ghost use Rattle.newt_objects_commit.specs.Batch.{over_pages};
ghost use Rattle.newt_objects_commit.specs.Batch.{bytes_if, directory_over, directory_puts};
ghost use Rattle.newt_objects_commit.specs.Batch.{AddsPages, AreWritten, HasDirectory, HasEntry};
ghost use Rattle.newt_objects_commit.specs.Batch.{HasLarges, HasNone, HasPut, LeadsTo};
ghost use Rattle.newt_objects_commit.specs.Batch.{LeavesUnplanned};

use newt_base::{Sig, Uid};
use newt_objects::Objects;
use newt_pagebook::Batch;
use std::alloc::AllocError;

/// The bytes of a large binary, and the object that gets them.
#[derive(Drop)]
pub struct NewLarge {
    pub id: u32,
    pub bytes: Vec<u8>,
}

/// A new entry: its soup, its id, the object that gets its record, the record, and the large
/// binaries that the record names, in order. The object of the record may be one that is there:
/// then the record is put over it.
#[derive(Drop)]
pub struct NewEntry {
    pub sig: Sig,
    pub uid: Uid,
    pub id: u32,
    pub bytes: Vec<u8>,
    pub larges: Vec<NewLarge>,
}

/// Plans the bytes of an object. Bytes that an object cannot have are no bytes that memory has.
pub fn plan_object(
    objects: &mut Objects,
    id: u32,
    bytes: &[u8],
    batch: &mut Batch,
) -> Result<(), AllocError>
    requires no_plan { IsUnplanned objects.old id }
    requires way { IsOnTheWay objects.old batch.old }
    ensures way { OnOk result (LeadsTo (HasPut id bytes.now) objects.old batch.old
        objects.new batch.new) }
    ensures held { (other : ℕ) → held objects.new other ≡ held objects.old other }
    ensures others { OnOk result (LeavesUnplanned (λ other. other ≢ id) objects.old objects.new) }
    ensures pages { OnOk result (AddsPages (pages_for (length bytes.now))
        (pages_held objects.old id) batch.old batch.new) }
{
    if u32::try_from(bytes.len()).is_err() {
        return Err(AllocError);
    }
    objects.plan_put(id, bytes, batch)?;
    Ok(())
}

/// Plans large binaries, each as an object.
fn plan_larges(
    objects: &mut Objects,
    larges: &[NewLarge],
    batch: &mut Batch,
) -> Result<(), AllocError>
    requires no_plan { (id : ℕ) → Among (map_list (λ l. l.id) larges.now) id →
        IsUnplanned objects.old id }
    requires once { AreOnce (map_list (λ l. l.id) larges.now) }
    requires way { IsOnTheWay objects.old batch.old }
    ensures way { OnOk result (LeadsTo (HasLarges larges.now) objects.old batch.old
        objects.new batch.new) }
    ensures held { (other : ℕ) → held objects.new other ≡ held objects.old other }
    ensures others { OnOk result (LeavesUnplanned
        (λ other. Among (map_list (λ l. l.id) larges.now) other → ⊥) objects.old objects.new) }
    ensures pages { OnOk result (AddsPages
        (sum_by (λ l. pages_for (length l.bytes.items)) larges.now)
        (all_pages_held objects.old (map_list (λ l. l.id) larges.now)) batch.old batch.new) }
{
    for large in larges {
        plan_object(objects, large.id, &large.bytes, batch)?;
    }
    Ok(())
}

/// Plans the record of the new entry and its large binaries, if there is one.
pub fn plan_entry(
    objects: &mut Objects,
    entry: &Option<NewEntry>,
    batch: &mut Batch,
) -> Result<(), AllocError>
    requires free { (e : NewOne) → entry.now ≡ Some e → IsFree objects.old e }
    requires way { IsOnTheWay objects.old batch.old }
    ensures way { OnOk result (LeadsTo (HasEntry entry.now) objects.old batch.old
        objects.new batch.new) }
    ensures held { (other : ℕ) → held objects.new other ≡ held objects.old other }
    ensures others { OnOk result (LeavesUnplanned (λ other. (e : NewOne) → entry.now ≡ Some e →
        (other ≢ e.id) × (Among (large_ids e) other → ⊥)) objects.old objects.new) }
    ensures pages { OnOk result (AddsPages (new_pages entry.now)
        (over_pages objects.old entry.now) batch.old batch.new) }
{
    let Some(e) = entry else {
        return Ok(());
    };
    plan_object(objects, e.id, &e.bytes, batch)?;
    plan_larges(objects, &e.larges, batch)?;
    Ok(())
}

/// Plans that objects go.
fn plan_gone(objects: &mut Objects, gone: &[u32], batch: &mut Batch) -> Result<(), AllocError>
    requires there { (id : ℕ) → Among gone.now id → IsSome (held objects.old id) }
    requires no_plan { (id : ℕ) → Among gone.now id → IsUnplanned objects.old id }
    requires once { AreOnce gone.now }
    requires way { IsOnTheWay objects.old batch.old }
    ensures way { OnOk result (LeadsTo (HasNone gone.now) objects.old batch.old
        objects.new batch.new) }
    ensures held { (other : ℕ) → held objects.new other ≡ held objects.old other }
    ensures pages { OnOk result (AddsPages 0 (all_pages_held objects.old gone.now)
        batch.old batch.new) }
{
    for id in gone {
        objects.plan_delete(*id, batch)?;
    }
    Ok(())
}

/// Plans the bytes of the directory, if it is put.
fn plan_directory(
    objects: &mut Objects,
    directory: &Option<Vec<u8>>,
    batch: &mut Batch,
) -> Result<(), AllocError>
    requires no_plan { IsUnplanned objects.old 0 }
    requires way { IsOnTheWay objects.old batch.old }
    ensures way { OnOk result (LeadsTo (HasDirectory (bytes_if directory.now))
        objects.old batch.old objects.new batch.new) }
    ensures held { (other : ℕ) → held objects.new other ≡ held objects.old other }
    ensures others { OnOk result (LeavesUnplanned (λ other. other ≢ 0) objects.old objects.new) }
    ensures pages { OnOk result (AddsPages
        (directory_puts (bytes_if directory.now))
        (directory_over objects.old (bytes_if directory.now))
        batch.old batch.new) }
{
    let Some(bytes) = directory else {
        return Ok(());
    };
    plan_object(objects, 0, bytes, batch)?;
    Ok(())
}

/// Plans all objects of a change: the directory, if it is put, the record of the new entry and its
/// large binaries, and the objects that go. A directory that is not put stays as it is.
pub fn plan_objects(
    objects: &mut Objects,
    directory: &Option<Vec<u8>>,
    entry: &Option<NewEntry>,
    gone: &[u32],
    batch: &mut Batch,
) -> Result<(), AllocError>
    requires way { IsOnTheWay objects.old batch.old }
    requires can { CanBePlanned objects.old entry.now gone.now }
    ensures way { OnOk result (LeadsTo
        (AreWritten (bytes_if directory.now) entry.now gone.now)
        objects.old batch.old objects.new batch.new) }
    ensures held { (other : ℕ) → held objects.new other ≡ held objects.old other }
    ensures pages { OnOk result (AddsPages
        (directory_puts (bytes_if directory.now) + new_pages entry.now)
        (directory_over objects.old (bytes_if directory.now)
        + over_pages objects.old entry.now + all_pages_held objects.old gone.now)
        batch.old batch.new) }
{
    plan_directory(objects, directory, batch)?;
    plan_entry(objects, entry, batch)?;
    plan_gone(objects, gone, batch)?;
    Ok(())
}
