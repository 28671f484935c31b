//! Objects that are put, deleted and read.
ghost use Rattle.std.specs.Prelude.{◌≡◌, ◌<◌, ◌^◌, ℕ, [], true, length, IsSome, Some, OnOk, IfOk};
ghost use Rattle.newt_test_pages.specs.Changes.{AreAtRest, IsPlanned};
ghost use Rattle.newt_host.specs.Moments.{IsDurable};
ghost use Rattle.newt_memhost.specs.Outside.{outside_of};
ghost use Rattle.newt_objects.specs.Held.{AreOf, held};

use crate::card::{CARD, assert_at, has_card, host_of, opened};
use crate::objects::text_from;
use newt_memhost::MemHost;
use newt_objects::Objects;
use newt_pagebook::{Batch, PageBook};
use std::alloc::{AllocError, Global};
use std::process::Abort;
use std::test::Fail;

/// The objects of a book.
pub(crate) fn scanned<P: PageBook>(
    alloc: Global,
    host: &mut MemHost,
    book: &mut P,
) -> Result<Objects, Fail>
    requires { P.stands true book.old (outside_of host.old) × (P.place book.old ≡ 0) }
    ensures book { P.stands true book.new (outside_of host.new) × (P.place book.new ≡ 0) }
    ensures objects { IfOk result (λ objects. AreAtRest objects (P.numbers book.new) 0
        (outside_of host.new)) }
{
    Ok(Objects::scan(alloc, host, book)?)
}

/// Plans what the bytes of an object will be, in a batch of its own.
pub(crate) fn put_plan(
    alloc: Global,
    objects: &mut Objects,
    id: u32,
    bytes: &[u8],
) -> Result<Batch, AllocError>
    requires none { objects.old.plans ≡ [] }
    requires short { length bytes.now < 2 ^ 32 }
    ensures plan { IfOk result (IsPlanned objects.new) }
    ensures kept { (other : ℕ) → held objects.new other ≡ held objects.old other }
    ensures few { IfOk result (λ batch. length batch.puts < 2 ^ 32) }
{
    let mut batch = Batch::new(alloc);
    objects.plan_put(id, bytes, &mut batch)?;
    Ok(batch)
}

/// Plans that an object goes, in a batch of its own.
pub(crate) fn delete_plan(
    alloc: Global,
    objects: &mut Objects,
    id: u32,
) -> Result<Batch, AllocError>
    requires there { IsSome (held objects.old id) }
    requires none { objects.old.plans ≡ [] }
    ensures plan { IfOk result (IsPlanned objects.new) }
    ensures kept { (other : ℕ) → held objects.new other ≡ held objects.old other }
    ensures few { IfOk result (λ batch. length batch.puts < 2 ^ 32) }
{
    let mut batch = Batch::new(alloc);
    objects.plan_delete(id, &mut batch)?;
    Ok(batch)
}

/// Commits a batch and takes over what was planned.
pub(crate) fn carry_out<P: PageBook>(
    host: &mut MemHost,
    book: &mut P,
    objects: &mut Objects,
    batch: &Batch,
) -> Result<(), Fail>
    requires book { P.stands true book.old (outside_of host.old) × (P.place book.old ≡ 0) }
    requires table { AreOf true (held objects.old) (P.numbers book.old) 0 (outside_of host.old) }
    requires plan { IsPlanned objects.old batch.now }
    requires few { length batch.now.puts < 2 ^ 32 }
    ensures book { OnOk result (P.stands true book.new (outside_of host.new) ×
        (P.place book.new ≡ 0)) }
    ensures objects { OnOk result (AreAtRest objects.new (P.numbers book.new) 0
        (outside_of host.new)) }
{
    book.reserve(batch.puts().len() as u32)?;
    book.commit(host, batch)?;
    objects.adopt();
    Ok(())
}

/// Puts an object whose bytes begin with its id.
pub(crate) fn put<P: PageBook>(
    alloc: Global,
    host: &mut MemHost,
    book: &mut P,
    objects: &mut Objects,
    id: u8,
    size: u32,
) -> Result<(), Fail>
    requires book { P.stands true book.old (outside_of host.old) × (P.place book.old ≡ 0) }
    requires objects { AreAtRest objects.old (P.numbers book.old) 0 (outside_of host.old) }
    ensures book { OnOk result (P.stands true book.new (outside_of host.new) ×
        (P.place book.new ≡ 0)) }
    ensures objects { OnOk result (AreAtRest objects.new (P.numbers book.new) 0
        (outside_of host.new)) }
{
    let bytes = text_from(alloc, id, size)?;
    let batch = put_plan(alloc, objects, u32::from(id), &bytes)?;
    carry_out(host, book, objects, &batch)
}

/// Deletes an object that is there.
pub(crate) fn delete<P: PageBook>(
    rt: &impl Abort,
    alloc: Global,
    host: &mut MemHost,
    book: &mut P,
    objects: &mut Objects,
    id: u32,
) -> Result<(), Fail>
    requires book { P.stands true book.old (outside_of host.old) × (P.place book.old ≡ 0) }
    requires objects { AreAtRest objects.old (P.numbers book.old) 0 (outside_of host.old) }
    ensures book { OnOk result (P.stands true book.new (outside_of host.new) ×
        (P.place book.new ≡ 0)) }
    ensures objects { OnOk result (AreAtRest objects.new (P.numbers book.new) 0
        (outside_of host.new)) }
{
    assert!(rt; objects.length(id).is_some());
    let batch = delete_plan(alloc, objects, id)?;
    carry_out(host, book, objects, &batch)
}

/// The bytes of an object.
pub(crate) fn bytes_of<P: PageBook>(
    rt: &impl Abort,
    host: &mut MemHost,
    book: &mut P,
    objects: &Objects,
    id: u32,
) -> Result<Vec<u8>, Fail>
    requires book { P.stands true book.old (outside_of host.old) × (P.place book.old ≡ 0) }
    requires objects { AreAtRest objects.now (P.numbers book.old) 0 (outside_of host.old) }
    ensures book { P.stands true book.new (outside_of host.new) × (P.place book.new ≡ 0) }
    ensures objects { AreAtRest objects.now (P.numbers book.new) 0 (outside_of host.new) }
{
    assert!(rt; objects.length(id).is_some());
    Ok(objects.read(host, book, id)?)
}

/// These are the bytes that `put` gives an object.
fn assert_text(
    rt: &impl Abort,
    alloc: Global,
    bytes: &[u8],
    id: u8,
    size: u32,
) -> Result<(), AllocError> {
    let want = text_from(alloc, id, size)?;
    assert_at(rt, want.as_slice() == bytes, &[u64::from(id)]);
    Ok(())
}

/// These objects are there, with the bytes that `put` gives them, and no others.
pub(crate) fn assert_held<P: PageBook>(
    rt: &impl Abort,
    alloc: Global,
    host: &mut MemHost,
    book: &mut P,
    objects: &Objects,
    want: &[(u8, u32)],
) -> Result<(), Fail>
    requires book { P.stands true book.old (outside_of host.old) × (P.place book.old ≡ 0) }
    requires objects { AreAtRest objects.now (P.numbers book.old) 0 (outside_of host.old) }
    ensures book { OnOk result (P.stands true book.new (outside_of host.new) ×
        (P.place book.new ≡ 0)) }
    ensures objects { OnOk result (AreAtRest objects.now (P.numbers book.new) 0
        (outside_of host.new)) }
{
    let mut from = 0;
    for (id, size) in want {
        let id = *id;
        assert!(rt; objects.next(from) == Some(u32::from(id)));
        assert!(rt; objects.length(u32::from(id)) == Some(*size));
        let bytes = bytes_of(rt, host, book, objects, u32::from(id))?;
        assert_text(rt, alloc, &bytes, id, *size)?;
        from = u32::from(id) + 1;
    }
    assert!(rt; objects.next(from) == None);
    Ok(())
}

/// The same for the objects that are found on the card.
fn assert_on_card<P: PageBook>(
    rt: &impl Abort,
    alloc: Global,
    host: &mut MemHost,
    want: &[(u8, u32)],
) -> Result<(), Fail>
    requires { IsDurable 0 (outside_of host.old).now }
{
    let mut book: P = opened(rt, alloc, host)?;
    let objects = scanned(alloc, host, &mut book)?;
    assert_held(rt, alloc, host, &mut book, &objects, want)
}

/// The same for the objects that are found on these bytes.
fn assert_found<P: PageBook>(
    rt: &impl Abort,
    alloc: Global,
    bytes: &[u8],
    want: &[(u8, u32)],
) -> Result<(), Fail> {
    let mut host = host_of(rt, alloc, bytes)?;
    assert_on_card::<P>(rt, alloc, &mut host, want)
}

/// These objects are there, and are found again when the card is opened again.
pub(crate) fn assert_kept<P: PageBook>(
    rt: &impl Abort,
    alloc: Global,
    host: &mut MemHost,
    book: &mut P,
    objects: &Objects,
    want: &[(u8, u32)],
) -> Result<(), Fail>
    requires book { P.stands true book.old (outside_of host.old) × (P.place book.old ≡ 0) }
    requires objects { AreAtRest objects.now (P.numbers book.old) 0 (outside_of host.old) }
    ensures book { OnOk result (P.stands true book.new (outside_of host.new) ×
        (P.place book.new ≡ 0)) }
    ensures objects { OnOk result (AreAtRest objects.now (P.numbers book.new) 0
        (outside_of host.new)) }
{
    assert_held(rt, alloc, host, book, objects, want)?;
    assert!(rt; has_card(host));
    assert_found::<P>(rt, alloc, host.bytes(CARD), want)
}
