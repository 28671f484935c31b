//! Books on a card whose bank has version 1.
ghost use Rattle.std.specs.Prelude.{◌≡◌, true, OnOk};
ghost use Rattle.newt_memhost.specs.Outside.{outside_of};

use crate::batches::{batch_of, changed};
use crate::books::vote_of;
use crate::card::{CARD, assert_pages, committed, fresh, has_card, host_of, opened, pages_in};
use crate::crashes::assert_either;
use newt_host::Host;
use newt_memhost::MemHost;
use newt_pagebook::PageBook;
use newt_pageplain::PlainBook;
use newt_pages::DiskBook;
use std::alloc::Global;
use std::process::Abort;
use std::test::Fail;

/// The lower byte of the version of the first bank, which begins at block 3.
const VERSION: usize = 12_295;

/// The bytes of the card.
fn bytes_of(rt: &impl Abort, alloc: Global, host: &MemHost) -> Result<Vec<u8>, Fail> {
    assert!(rt; has_card(host));
    Ok(host.bytes(CARD).to_vec(alloc)?)
}

/// Puts three pages.
fn put_three<P: PageBook>(alloc: Global, host: &mut MemHost, book: &mut P) -> Result<(), Fail>
    requires book { P.stands true book.old (outside_of host.old) × (P.place book.old ≡ 0) }
{
    let batch = batch_of(alloc, 0, 0, 3, 7)?;
    committed(host, book, &batch)
}

/// The bytes of a card of 13 blocks with three pages, in a bank of version 1.
fn old_card<P: PageBook>(rt: &impl Abort, alloc: Global) -> Result<Vec<u8>, Fail> {
    let mut host = fresh::<P>(rt, alloc, 13)?;
    let mut book: P = opened(rt, alloc, &mut host)?;
    put_three(alloc, &mut host, &mut book)?;
    let mut bytes = bytes_of(rt, alloc, &host)?;
    assert!(rt; bytes.len() == 13 * 4096);
    assert!(rt; bytes[VERSION] == 2);
    bytes[VERSION] = 1;
    Ok(bytes)
}

/// The first commit on it goes to the other bank, in version 2. What a crash leaves within each
/// call holds the pages before, in version 1, or those after, in version 2.
fn commit_first<P: PageBook>(
    rt: &impl Abort,
    alloc: Global,
    host: &mut MemHost,
    book: &mut P,
) -> Result<(), Fail>
    requires book { P.stands true book.old (outside_of host.old) × (P.place book.old ≡ 0) }
{
    let before = pages_in(alloc, host, book)?;
    assert!(rt; before.len() == 3);
    let batch = batch_of(alloc, 2, 1, 1, 9)?;
    let after = changed(alloc, &before, &batch)?;
    let from = host.calls();
    committed(host, book, &batch)?;
    assert!(rt; book.version() == 2);
    assert!(rt; vote_of(rt, host) == 1);
    assert_either::<P>(rt, alloc, host, from, 1, &before, &after)?;
    assert_pages(rt, alloc, host, book, &after)
}

/// Opens it, which leaves each byte, and commits twice: the second record stands after the first.
fn turns_new<P: PageBook>(rt: &impl Abort, alloc: Global) -> Result<(), Fail> {
    let bytes = old_card::<P>(rt, alloc)?;
    let mut host = host_of(rt, alloc, &bytes)?;
    let mut book: P = opened(rt, alloc, &mut host)?;
    assert!(rt; book.version() == 1);
    assert!(rt; bytes_of(rt, alloc, &host)? == bytes);
    commit_first(rt, alloc, &mut host, &mut book)
}

#[test]
fn the_first_commit_on_an_old_card_is_a_switch(rt: HostRuntime) -> Result<(), Fail> {
    turns_new::<PlainBook>(&rt, rt.alloc())?;
    turns_new::<DiskBook>(&rt, rt.alloc())
}
