//! Room for a commit that is refused.
ghost use Rattle.std.specs.Prelude.{◌≡◌, ◌≤◌, ◌<◌, ◌^◌, true, length, OnOk};
ghost use Rattle.newt_memhost.specs.Outside.{outside_of};
ghost use Rattle.newt_pagebook.specs.Book.{IsAtHand};

use crate::batches::{batch_of, changed};
use crate::card::{CARD, Pages, assert_pages, fresh, has_card, held_on, opened, pages_in};
use newt_host::Host;
use newt_memhost::MemHost;
use newt_pagebook::{Batch, Page, PageBook, Use};
use newt_pageplain::PlainBook;
use newt_pages::DiskBook;
use std::alloc::Global;
use std::process::Abort;
use std::test::Fail;

/// Brings the first page of a book to hand.
fn first_page<P: PageBook>(rt: &impl Abort, host: &mut MemHost, book: &mut P) -> Result<Page, Fail>
    requires book { P.stands true book.old (outside_of host.old) × (P.place book.old ≡ 0) }
    ensures book { P.stands true book.new (outside_of host.new) × (P.place book.new ≡ 0) }
    ensures room { P.spare book.new ≡ P.spare book.old }
    ensures at_hand { OnOk result (IsAtHand (P.shown book.new)) }
{
    let Some(number) = book.next_page(0) else {
        panic!(rt; "the book has no page");
    };
    book.load(host, number, Use::Again)?;
    Ok(*book.page())
}

/// Asks for room for as many puts as there are numbers of 32 bits, which is more than memory is
/// ever asked for. It is refused, and the book is as it was, with the room that it had.
fn refuse_room<P: PageBook>(
    rt: &impl Abort,
    alloc: Global,
    host: &mut MemHost,
    book: &mut P,
) -> Result<(), Fail>
    requires book { P.stands true book.old (outside_of host.old) × (P.place book.old ≡ 0) }
    ensures book { P.stands true book.new (outside_of host.new) × (P.place book.new ≡ 0) }
    ensures room { P.spare book.old ≤ P.spare book.new }
{
    let before = pages_in(alloc, host, book)?;
    refuse_room_of(rt, alloc, host, book, &before)
}

/// The same for a book that has these pages.
fn refuse_room_of<P: PageBook>(
    rt: &impl Abort,
    alloc: Global,
    host: &mut MemHost,
    book: &mut P,
    before: &Pages,
) -> Result<(), Fail>
    requires book { P.stands true book.old (outside_of host.old) × (P.place book.old ≡ 0) }
    ensures book { P.stands true book.new (outside_of host.new) × (P.place book.new ≡ 0) }
    ensures room { P.spare book.old ≤ P.spare book.new }
{
    let at_hand = first_page(rt, host, book)?;
    let from = host.calls();
    assert!(rt; book.reserve(u32::MAX).is_err());
    assert!(rt; host.calls() == from);
    assert!(rt; *book.page() == at_hand);
    assert_pages(rt, alloc, host, book, before)
}

/// Makes room for so many puts. Where that is refused, the book is as it was, and room is asked for
/// once more. Answers whether it was refused.
fn make_room<P: PageBook>(
    rt: &impl Abort,
    alloc: Global,
    host: &mut MemHost,
    book: &mut P,
    puts: u32,
) -> Result<bool, Fail>
    requires book { P.stands true book.old (outside_of host.old) × (P.place book.old ≡ 0) }
    ensures book { P.stands true book.new (outside_of host.new) × (P.place book.new ≡ 0) }
    ensures room { OnOk result (puts ≤ P.spare book.new) }
{
    let before = pages_in(alloc, host, book)?;
    make_room_in(rt, alloc, host, book, puts, &before)
}

/// The same for a book that has these pages.
fn make_room_in<P: PageBook>(
    rt: &impl Abort,
    alloc: Global,
    host: &mut MemHost,
    book: &mut P,
    puts: u32,
    before: &Pages,
) -> Result<bool, Fail>
    requires book { P.stands true book.old (outside_of host.old) × (P.place book.old ≡ 0) }
    ensures book { P.stands true book.new (outside_of host.new) × (P.place book.new ≡ 0) }
    ensures room { OnOk result (puts ≤ P.spare book.new) }
{
    match book.reserve(puts) {
        Ok(()) => Ok(false),
        Err(_) => {
            assert_pages(rt, alloc, host, book, before)?;
            book.reserve(puts)?;
            Ok(true)
        }
    }
}

/// The pages that a batch makes of those of a book.
fn pages_after<P: PageBook>(
    alloc: Global,
    host: &mut MemHost,
    book: &mut P,
    batch: &Batch,
) -> Result<Pages, Fail>
    requires book { P.stands true book.old (outside_of host.old) × (P.place book.old ≡ 0) }
    ensures book { P.stands true book.new (outside_of host.new) × (P.place book.new ≡ 0) }
    ensures room { P.spare book.new ≡ P.spare book.old }
{
    let before = pages_in(alloc, host, book)?;
    changed(alloc, &before, batch)
}

/// Commits a batch for whose puts there is room.
fn commit<P: PageBook>(
    rt: &impl Abort,
    alloc: Global,
    host: &mut MemHost,
    book: &mut P,
    batch: &Batch,
) -> Result<(), Fail>
    requires book { P.stands true book.old (outside_of host.old) × (P.place book.old ≡ 0) }
    requires room { length batch.now.puts ≤ P.spare book.old }
    ensures { OnOk result (P.stands true book.new (outside_of host.new) × (P.place book.new ≡ 0)) }
{
    let after = pages_after(alloc, host, book, batch)?;
    commit_to(rt, alloc, host, book, batch, &after)
}

/// The same, which makes these pages.
fn commit_to<P: PageBook>(
    rt: &impl Abort,
    alloc: Global,
    host: &mut MemHost,
    book: &mut P,
    batch: &Batch,
    after: &Pages,
) -> Result<(), Fail>
    requires book { P.stands true book.old (outside_of host.old) × (P.place book.old ≡ 0) }
    requires room { length batch.now.puts ≤ P.spare book.old }
    ensures { OnOk result (P.stands true book.new (outside_of host.new) × (P.place book.new ≡ 0)) }
{
    book.commit(host, batch)?;
    assert_pages(rt, alloc, host, book, after)
}

/// Commits a batch. More room is refused before and after it. Answers whether room was refused that
/// could be had.
fn goes_on_with<P: PageBook>(
    rt: &impl Abort,
    alloc: Global,
    host: &mut MemHost,
    book: &mut P,
    batch: &Batch,
) -> Result<bool, Fail>
    requires book { P.stands true book.old (outside_of host.old) × (P.place book.old ≡ 0) }
    requires few { length batch.now.puts < 2 ^ 32 }
    ensures { OnOk result (P.stands true book.new (outside_of host.new) × (P.place book.new ≡ 0)) }
{
    let refused = make_room(rt, alloc, host, book, batch.puts().len() as u32)?;
    if book.live() > 0 {
        refuse_room(rt, alloc, host, book)?;
    }
    commit(rt, alloc, host, book, batch)?;
    refuse_room(rt, alloc, host, book)?;
    Ok(refused)
}

/// The batch of a turn: ten puts after two deletes.
fn turn<P: PageBook>(
    rt: &impl Abort,
    alloc: Global,
    host: &mut MemHost,
    book: &mut P,
    number: u8,
) -> Result<bool, Fail>
    requires book { P.stands true book.old (outside_of host.old) × (P.place book.old ≡ 0) }
    requires few { number < 3 }
    ensures { OnOk result (P.stands true book.new (outside_of host.new) × (P.place book.new ≡ 0)) }
{
    let batch = batch_of(alloc, number as u32 * 2, 2, 10, number)?;
    goes_on_with(rt, alloc, host, book, &batch)
}

/// The last pages are found when the card is opened again.
fn assert_found<P: PageBook>(
    rt: &impl Abort,
    alloc: Global,
    host: &MemHost,
    held: &Pages,
) -> Result<(), Fail> {
    assert!(rt; has_card(host));
    let (_, found) = held_on::<P>(rt, alloc, host.bytes(CARD))?;
    assert!(rt; found == *held);
    Ok(())
}

/// Commits three batches. Answers how often room was refused that could be had.
fn goes_on_in<P: PageBook>(
    rt: &impl Abort,
    alloc: Global,
    host: &mut MemHost,
    book: &mut P,
) -> Result<u32, Fail>
    requires book { P.stands true book.old (outside_of host.old) × (P.place book.old ≡ 0) }
{
    let mut refused = 0;
    for number in 0..3u8 {
        if turn(rt, alloc, host, book, number)? {
            refused += 1;
        }
    }
    let held = pages_in(alloc, host, book)?;
    assert_found::<P>(rt, alloc, host, &held)?;
    Ok(refused)
}

/// Commits three batches. More room is refused before and after each, and the last pages are found
/// when the card is opened again. Answers how often room was refused that could be had.
fn goes_on<P: PageBook>(rt: &impl Abort, alloc: Global) -> Result<u32, Fail> {
    let mut host = fresh::<P>(rt, alloc, 13)?;
    let mut book: P = opened(rt, alloc, &mut host)?;
    goes_on_in(rt, alloc, &mut host, &mut book)
}

#[test]
fn refused_room_changes_nothing(rt: HostRuntime) -> Result<(), Fail> {
    let plain = goes_on::<PlainBook>(&rt, rt.alloc())?;
    let disk = goes_on::<DiskBook>(&rt, rt.alloc())?;
    println!(rt;
        "room that could be had was refused {plain} times, and {disk} times on the device"
    )?;
    Ok(())
}
