//! A store is written to a unit whole.
ghost use Rattle.std.specs.Prelude.{◌≡◌, ◌*◌, ◌+◌, ◌%◌, ◌<◌, ◌≤◌, ℕ, All, IfOk, OnOk, None};
ghost use Rattle.std.specs.Prelude.{map as map_list};
ghost use Rattle.newt_objects.specs.Held.{held};
ghost use Rattle.newt_spec_store.specs.Store.{Store as PlainStore};
ghost use Rattle.newt_objects_commit.specs.Batch.{IsOnTheWay};
ghost use Rattle.newt_store.specs.Calls.{FormatsUnit};
ghost use Rattle.newt_store.specs.Fill.{AreFreeFrom, AreNextIds, AreStore, HasRoomFrom, IsNumbered};
ghost use Rattle.newt_store.specs.Fill.{PlansEntries, PlansOneEntry, WritesStore};

use crate::plan::{ids_of, record_of};
use newt_entries::{FullEntry, larges_of};
use newt_host::{Host, Unit};
use newt_objects::Objects;
use newt_objects_commit::{NewEntry, NewLarge, plan_entry, plan_object};
use newt_pagebook::{Batch, PageBook, Stop};
use newt_soupdir::{Directory, write_directory};
use std::alloc::{AllocError, Global};

/// The next id that is odd or even as this one is. A unit's pages are fewer than there are ids.
fn next_id(id: u32) -> Result<u32, AllocError>
    ensures next { IfOk result (λ next. next ≡ id + 2) }
    ensures fits { IfOk result (λ next. next < 4294967296) }
{
    match id.checked_add(2) {
        Some(next) => Ok(next),
        None => Err(AllocError),
    }
}

/// Large binaries, each with the next even id after the last one, and the last one then.
fn with_next_ids(
    alloc: Global,
    from: u32,
    larges: Vec<Vec<u8>>,
) -> Result<(Vec<NewLarge>, u32), AllocError>
    requires even { from % 2 ≡ 0 }
    ensures bytes { IfOk result (λ new. map_list (λ l. l.bytes.items) new.0.items ≡ map_list
        (λ b. b.items) larges.items) }
    ensures ids { IfOk result (λ new. AreNextIds from new.1
        (map_list (λ l. l.id) new.0.items)) }
{
    let mut new = Vec::new(alloc);
    let mut last = from;
    for bytes in larges {
        let id = next_id(last)?;
        new.push(NewLarge { id, bytes })?;
        last = id;
    }
    Ok((new, last))
}

/// What is written for an entry: its record gets this id, each of its large binaries the next even
/// one; and the last of these then.
fn numbered(
    alloc: Global,
    entry: &FullEntry,
    id: u32,
    last: u32,
) -> Result<(NewEntry, u32), AllocError>
    requires small { entry.now.soup < 65536 }
    requires odd { id % 2 ≡ 1 }
    requires even { last % 2 ≡ 0 }
    ensures { IfOk result (λ new. IsNumbered entry.now id last new.1 new.0) }
{
    let (larges, next) = with_next_ids(alloc, last, larges_of(alloc, &entry.graph)?)?;
    let ids = ids_of(alloc, &larges)?;
    let bytes = record_of(alloc, entry.soup, entry.uid, entry.time, &entry.graph, &ids)?;
    let new = NewEntry {
        sig: entry.soup,
        uid: entry.uid,
        id,
        bytes,
        larges,
    };
    Ok((new, next))
}

/// Plans one more entry, and answers the last id of a large binary then.
fn plan_next(
    alloc: Global,
    objects: &mut Objects,
    entry: &FullEntry,
    id: u32,
    last: u32,
    batch: &mut Batch,
) -> Result<u32, AllocError>
    requires small { entry.now.soup < 65536 }
    requires room { HasRoomFrom id last objects.old batch.old }
    ensures plans { IfOk result (λ next. PlansOneEntry entry.now id last next
        objects.old batch.old objects.new batch.new) }
    ensures held { (o : ℕ) → held objects.new o ≡ held objects.old o }
{
    let (new, next) = numbered(alloc, entry, id, last)?;
    let one = Some(new);
    plan_entry(objects, &one, batch)?;
    Ok(next)
}

/// Plans entries, with ids from the least ones on. What was written of an entry is let go before
/// the next one.
fn plan_entries(
    alloc: Global,
    objects: &mut Objects,
    entries: &[FullEntry],
    batch: &mut Batch,
) -> Result<(), AllocError>
    requires small { All (λ e. e.soup < 65536) entries.now }
    requires none { (o : ℕ) → held objects.old o ≡ None }
    requires free { AreFreeFrom 1 0 objects.old }
    requires way { IsOnTheWay objects.old batch.old }
    ensures { OnOk result ((id : ℕ) × (last : ℕ) × PlansEntries entries.now id last
        objects.old batch.old objects.new batch.new) }
{
    let mut id = 1;
    let mut last = 0;
    let mut left = entries;
    while let [entry, rest @ ..] = left {
        last = plan_next(alloc, objects, entry, id, last, batch)?;
        id = next_id(id)?;
        left = rest;
    }
    Ok(())
}

/// The batch that writes the store of a directory and entries on a blank unit.
fn plan_store(
    alloc: Global,
    directory: &Directory,
    entries: &[FullEntry],
) -> Result<Batch, AllocError>
    requires { (blocks : ℕ) × (s : PlainStore) × AreStore blocks s directory.now entries.now }
    ensures { IfOk result (WritesStore directory.now entries.now) }
{
    let bytes = write_directory(alloc, directory)?;
    let mut objects = Objects::empty(alloc);
    let mut batch = Batch::new(alloc);
    plan_object(&mut objects, 0, &bytes, &mut batch)?;
    plan_entries(alloc, &mut objects, entries, &mut batch)?;
    Ok(batch)
}

/// Makes a unit's image that of the store of a directory and entries: each page is written once.
pub(crate) fn fill_unit<P: PageBook, H: Host>(
    alloc: Global,
    host: &mut H,
    unit: Unit,
    directory: &Directory,
    entries: &[FullEntry],
) -> Result<(), Stop>
    requires enough { 13 ≤ (H.outside host.old).blocks unit }
    requires not_too_many { (H.outside host.old).blocks unit ≤ 4099 }
    requires whole { (s : PlainStore) × AreStore ((H.outside host.old).blocks unit) s
        directory.now entries.now }
    ensures { (s : PlainStore) → AreStore ((H.outside host.old).blocks unit) s
        directory.now entries.now → FormatsUnit H.told unit s
        (H.outside host.old) (H.outside host.new) result }
{
    let batch = plan_store(alloc, directory, entries)?;
    match P::format(alloc, host, unit, &batch) {
        Ok(()) => Ok(()),
        Err(stop) => Err(stop),
    }
}
