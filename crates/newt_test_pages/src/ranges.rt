//! Ranges of a large object: they are patched and read, also when the card is opened again.
ghost use Rattle.std.specs.Prelude.{◌≡◌, ◌<◌, ◌^◌, true, length, IsSome, OnOk};
ghost use Rattle.newt_test_pages.specs.Changes.{AreAtRest};
ghost use Rattle.newt_host.specs.Moments.{IsDurable};
ghost use Rattle.newt_memhost.specs.Outside.{outside_of};
ghost use Rattle.newt_objects.specs.Held.{held};

use crate::card::{CARD, assert_at, fresh, has_card, host_of, opened};
use crate::changes::{put, scanned};
use crate::objects::{object_on, text_from};
use newt_memhost::MemHost;
use newt_objects::Objects;
use newt_pagebook::{Batch, PageBook};
use newt_pageplain::PlainBook;
use newt_pages::DiskBook;
use newt_vbo::{RangeFault, plan_patch, read_range};
use std::alloc::Global;
use std::process::Abort;
use std::test::Fail;

/// Patches of 1,000,000 bytes: from where on, how many bytes, and how many pages are put.
const PATCHES: [(u32, u32, usize); 9] = [
    (0, 1, 1),
    (499, 2, 2),
    (500, 500, 1),
    (750, 1_000, 3),
    (1_234, 0, 0),
    (123_456, 5_000, 11),
    (999_000, 1_000, 2),
    (999_999, 1, 1),
    (1_000_000, 0, 0),
];

/// Ranges that are there.
const RANGES: [(u32, u32); 8] = [
    (0, 0),
    (0, 1_000_000),
    (498, 4),
    (500, 500),
    (750, 1_000),
    (999_999, 1),
    (999_001, 999),
    (1_000_000, 0),
];

/// Ranges that end past the end.
const PAST: [(u32, u32); 4] = [
    (1_000_000, 1),
    (999_999, 2),
    (1_000_001, 0),
    (u32::MAX, u32::MAX),
];

/// Puts bytes in place of others of an object, in a batch of its own. Answers how many pages were
/// put.
fn patch<P: PageBook>(
    alloc: Global,
    host: &mut MemHost,
    book: &mut P,
    objects: &Objects,
    at: u32,
    bytes: &[u8],
) -> Result<usize, Fail>
    requires there { IsSome (held objects.now 7) }
    requires short { length bytes.now < 2 ^ 31 }
    requires book { P.stands true book.old (outside_of host.old) × (P.place book.old ≡ 0) }
    requires objects { AreAtRest objects.now (P.numbers book.old) 0 (outside_of host.old) }
    ensures book { OnOk result (P.stands true book.new (outside_of host.new) ×
        (P.place book.new ≡ 0)) }
    ensures objects { OnOk result (AreAtRest objects.now (P.numbers book.new) 0
        (outside_of host.new)) }
{
    let mut batch = Batch::new(alloc);
    plan_patch(host, book, objects, 7, at, bytes, &mut batch)?;
    let puts = batch.puts().len();
    book.reserve(puts as u32)?;
    book.commit(host, &batch)?;
    Ok(puts)
}

/// Carries the patches out, each with bytes of its own, on the card and on the bytes that are
/// wanted.
fn patch_all<P: PageBook>(
    rt: &impl Abort,
    alloc: Global,
    host: &mut MemHost,
    book: &mut P,
    objects: &Objects,
    want: &mut [u8],
) -> Result<(), Fail>
    requires there { IsSome (held objects.now 7) }
    requires book { P.stands true book.old (outside_of host.old) × (P.place book.old ≡ 0) }
    requires objects { AreAtRest objects.now (P.numbers book.old) 0 (outside_of host.old) }
    ensures book { OnOk result (P.stands true book.new (outside_of host.new) ×
        (P.place book.new ≡ 0)) }
{
    for (at, count, pages) in PATCHES {
        assert!(rt; at as usize + count as usize <= want.len() && count < 10_000);
        let bytes = text_from(alloc, (at % 241) as u8, count)?;
        let puts = patch(alloc, host, book, objects, at, &bytes)?;
        assert_at(rt, puts == pages, &[u64::from(at)]);
        want[at as usize..at as usize + count as usize].copy_from_slice(&bytes);
    }
    Ok(())
}

/// So many bytes of an object, from a place on.
fn range<P: PageBook>(
    alloc: Global,
    host: &mut MemHost,
    book: &mut P,
    objects: &Objects,
    at: u32,
    len: u32,
) -> Result<Vec<u8>, RangeFault>
    requires there { IsSome (held objects.now 7) }
    requires book { P.stands true book.old (outside_of host.old) × (P.place book.old ≡ 0) }
    requires objects { AreAtRest objects.now (P.numbers book.old) 0 (outside_of host.old) }
    ensures book { P.stands true book.new (outside_of host.new) × (P.place book.new ≡ 0) }
    ensures objects { AreAtRest objects.now (P.numbers book.new) 0 (outside_of host.new) }
{
    read_range(alloc, host, book, objects, 7, at, len)
}

/// The ranges that are there have the bytes that are wanted.
fn assert_read<P: PageBook>(
    rt: &impl Abort,
    alloc: Global,
    host: &mut MemHost,
    book: &mut P,
    objects: &Objects,
    want: &[u8],
) -> Result<(), Fail>
    requires there { IsSome (held objects.now 7) }
    requires book { P.stands true book.old (outside_of host.old) × (P.place book.old ≡ 0) }
    requires objects { AreAtRest objects.now (P.numbers book.old) 0 (outside_of host.old) }
    ensures book { OnOk result (P.stands true book.new (outside_of host.new) ×
        (P.place book.new ≡ 0)) }
    ensures objects { OnOk result (AreAtRest objects.now (P.numbers book.new) 0
        (outside_of host.new)) }
{
    for (at, len) in RANGES {
        let bytes = range(alloc, host, book, objects, at, len)?;
        let end = at as usize + len as usize;
        assert!(rt; end <= want.len());
        assert_at(
            rt,
            bytes.as_slice() == &want[at as usize..end],
            &[u64::from(at)],
        );
    }
    Ok(())
}

/// The ranges that end past the end are refused.
fn assert_refused<P: PageBook>(
    rt: &impl Abort,
    alloc: Global,
    host: &mut MemHost,
    book: &mut P,
    objects: &Objects,
) -> Result<(), Fail>
    requires there { IsSome (held objects.now 7) }
    requires book { P.stands true book.old (outside_of host.old) × (P.place book.old ≡ 0) }
    requires objects { AreAtRest objects.now (P.numbers book.old) 0 (outside_of host.old) }
{
    for (at, len) in PAST {
        match range(alloc, host, book, objects, at, len) {
            Err(fault) => assert_at(rt, fault == RangeFault::Range, &[u64::from(at)]),
            Ok(_) => panic!(rt; "the range is read"),
        }
    }
    Ok(())
}

/// The same for an object that is there.
fn assert_both<P: PageBook>(
    rt: &impl Abort,
    alloc: Global,
    host: &mut MemHost,
    book: &mut P,
    objects: &Objects,
    want: &[u8],
) -> Result<(), Fail>
    requires book { P.stands true book.old (outside_of host.old) × (P.place book.old ≡ 0) }
    requires objects { AreAtRest objects.now (P.numbers book.old) 0 (outside_of host.old) }
{
    assert!(rt; objects.length(7).is_some());
    assert_read(rt, alloc, host, book, objects, want)?;
    assert_refused(rt, alloc, host, book, objects)
}

/// The same on a card.
fn assert_on_card<P: PageBook>(
    rt: &impl Abort,
    alloc: Global,
    host: &mut MemHost,
    want: &[u8],
) -> Result<(), Fail>
    requires { IsDurable 0 (outside_of host.old).now }
{
    let mut book: P = opened(rt, alloc, host)?;
    let objects = scanned(alloc, host, &mut book)?;
    assert_both(rt, alloc, host, &mut book, &objects, want)
}

/// The same on the bytes of a card.
fn assert_ranges<P: PageBook>(
    rt: &impl Abort,
    alloc: Global,
    bytes: &[u8],
    want: &[u8],
) -> Result<(), Fail> {
    let mut host = host_of(rt, alloc, bytes)?;
    assert_on_card::<P>(rt, alloc, &mut host, want)
}

/// An object on these bytes has this text.
fn assert_object<P: PageBook>(
    rt: &impl Abort,
    alloc: Global,
    bytes: &[u8],
    id: u32,
    want: &[u8],
) -> Result<(), Fail> {
    let object = object_on::<P>(rt, alloc, bytes, id)?;
    assert!(rt; object.as_slice() == want);
    Ok(())
}

/// Puts two objects.
fn put_both<P: PageBook>(
    alloc: Global,
    host: &mut MemHost,
    book: &mut P,
    objects: &mut Objects,
) -> Result<(), Fail>
    requires book { P.stands true book.old (outside_of host.old) × (P.place book.old ≡ 0) }
    requires objects { AreAtRest objects.old (P.numbers book.old) 0 (outside_of host.old) }
    ensures book { OnOk result (P.stands true book.new (outside_of host.new) ×
        (P.place book.new ≡ 0)) }
    ensures objects { OnOk result (AreAtRest objects.new (P.numbers book.new) 0
        (outside_of host.new)) }
{
    put(alloc, host, book, objects, 7, 1_000_000)?;
    put(alloc, host, book, objects, 8, 1_200)
}

/// What is patched is found on the bytes of the card.
fn patch_and_read<P: PageBook>(
    rt: &impl Abort,
    alloc: Global,
    host: &mut MemHost,
    book: &mut P,
    objects: &Objects,
    want: &mut [u8],
) -> Result<(), Fail>
    requires book { P.stands true book.old (outside_of host.old) × (P.place book.old ≡ 0) }
    requires objects { AreAtRest objects.now (P.numbers book.old) 0 (outside_of host.old) }
{
    assert!(rt; objects.length(7).is_some());
    patch_all(rt, alloc, host, book, objects, want)?;
    assert!(rt; has_card(host));
    assert_object::<P>(rt, alloc, host.bytes(CARD), 7, want)?;
    assert_object::<P>(rt, alloc, host.bytes(CARD), 8, &text_from(alloc, 8, 1_200)?)?;
    assert_ranges::<P>(rt, alloc, host.bytes(CARD), want)
}

fn put_and_patch<P: PageBook>(
    rt: &impl Abort,
    alloc: Global,
    host: &mut MemHost,
    book: &mut P,
    objects: &mut Objects,
) -> Result<(), Fail>
    requires book { P.stands true book.old (outside_of host.old) × (P.place book.old ≡ 0) }
    requires objects { AreAtRest objects.old (P.numbers book.old) 0 (outside_of host.old) }
{
    put_both(alloc, host, book, objects)?;
    let mut want = text_from(alloc, 7, 1_000_000)?;
    patch_and_read(rt, alloc, host, book, objects, &mut want)
}

/// A large object is patched across its pages, and read by ranges when the card is opened again.
/// Another object stays as it is.
fn patches<P: PageBook>(rt: &impl Abort, alloc: Global) -> Result<(), Fail> {
    let mut host = fresh::<P>(rt, alloc, 520)?;
    let mut book: P = opened(rt, alloc, &mut host)?;
    let mut objects = scanned(alloc, &mut host, &mut book)?;
    put_and_patch(rt, alloc, &mut host, &mut book, &mut objects)
}

#[test]
fn a_large_object_is_patched_and_read_by_ranges(rt: HostRuntime) -> Result<(), Fail> {
    patches::<PlainBook>(&rt, rt.alloc())?;
    patches::<DiskBook>(&rt, rt.alloc())
}
